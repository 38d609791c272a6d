//! From a recording that was read to its JSON: a line of its files, and then one for each sample or for each stack.
ghost use Rattle.std.specs.Prelude.{◌≡◌, ◌⊎◌, ◌||◌, IfOk, IfErr, OnOk, MatchResult};
ghost use Rattle.std.specs.Io.KnownBytes.{Appends};
ghost use Rattle.serde_json.specs.View.{view};
ghost use Rattle.framehop_folded.specs.Folded.{entries_of};
ghost use Rattle.framehop_perf_stacks.specs.Ended.{is_unwritten};
ghost use Rattle.framehop_perf_stacks.specs.Json.{machine_name, head_data, head_line, counted_line, counted_lines};
ghost use Rattle.framehop_perf_stacks.specs.Printed.{IsWhole, MayEndAt, head_of, IsJsonWith, IsJsonUntilWith};
ghost use Rattle.framehop_perf_stacks.specs.Written.{has_one_failed, AreNoted};
ghost use Rattle.framehop_perf_stacks.specs.declared.error.StacksError.TheVariants.{OutOfMemory, CannotWrite};

use crate::error::StacksError;
use crate::program::{unwind_recording, write_problems};
use crate::recording::{Recording, is_aarch64};
use crate::run::Options;
use crate::sample_json::counted_line;
use crate::sample_source::SampleSource;
use framehop_folded::folded::Folded;
use framehop_frames::json_files::{FilePaths, files_value};
use framehop_output::Output;
use framehop_processes::files::{Files, NamedFile};
use framehop_recording::error::RecordingError;
use serde_json::{Value, json};
use std::alloc::{AllocError, Global};
use std::io::Write;

/// Writes the JSON of a recording that was read, by its files and where they were read: a line of these, and then one for
/// each sample, or for each stack with its count. Writes to `err` what [`crate::program::write_recording_stacks`] does.
/// Returns the refusal of the record with which the recording ends, if one is refused. The samples before that have their
/// stacks.
///
/// # Errors
///
/// `Recording` with the first refusal of a record that is no sample, after the stacks of the samples before it;
/// `OutOfMemory`, `GenerationsExhausted`, `TooManySamples` and `CannotWrite`. A part of the lines may have been written.
pub fn write_json<B: SampleSource, W: Write, E: Write>(
    alloc: Global,
    recording: &Recording<'_>,
    files: &Files<'_>,
    paths: &[FilePaths],
    samples: &B,
    options: Options<'_>,
    out: &mut Output<W>,
    err: &mut Output<E>,
) -> Result<Option<RecordingError>, StacksError>
    ensures made { MatchResult result
        (λ refusal. IsWhole recording.now refusal × IsJsonWith (B.gives samples.now) recording.now files.now paths.now options.entry out.old.bytes out.new.bytes err.old.bytes err.new.bytes)
        (λ error. MayEndAt (has_one_failed out.new err.new) recording.now files.now error × IsJsonUntilWith (B.gives samples.now) error recording.now files.now paths.now options.entry out.old.bytes out.new.bytes err.old.bytes err.new.bytes) }
    ensures noted { AreNoted (is_unwritten result) out.old out.new err.old err.new }
{
    write_problems(alloc, err, files)?;
    write_head(alloc, recording, files, paths, out)?;
    let unwound = unwind_recording(alloc, recording, files, samples, options, out, err)?;
    match unwound.ended {
        Err(StacksError::CannotWrite) => Err(StacksError::CannotWrite),
        ended => {
            write_counted(alloc, &unwound.folded, out)?;
            ended
        }
    }
}

/// Writes the line of a recording's files.
fn write_head<W: Write>(
    alloc: Global,
    recording: &Recording<'_>,
    files: &Files<'_>,
    paths: &[FilePaths],
    out: &mut Output<W>,
) -> Result<(), StacksError>
    ensures written { OnOk result (Appends out.old.bytes out.new.bytes (head_of recording.now files.now paths.now)) }
    ensures refused { IfErr result (λ error. (error ≡ OutOfMemory) ⊎ (error ≡ CannotWrite)) }
    ensures noted { out.new.has_failed ≡ (out.old.has_failed || is_unwritten result) }
{
    let line = head_line(alloc, is_aarch64(&recording.events), paths, files.list())?;
    out.write_all(line.as_slice())?;
    Ok(())
}

/// Returns the line of files.
fn head_line(
    alloc: Global,
    is_aarch64: bool,
    paths: &[FilePaths],
    files: &[NamedFile<'_>],
) -> Result<Vec<u8>, AllocError>
    ensures { IfOk result (λ line. line.items ≡ head_line is_aarch64 paths.now files.now) }
{
    let value = head_value(alloc, is_aarch64, paths, files)?;
    let mut line = value.to_string(alloc)?.into_bytes();
    line.push(b'\n')?;
    Ok(line)
}

/// Returns what is said of a recording before its stacks.
fn head_value(
    alloc: Global,
    is_aarch64: bool,
    paths: &[FilePaths],
    files: &[NamedFile<'_>],
) -> Result<Value, AllocError>
    ensures { IfOk result (λ value. view value ≡ head_data is_aarch64 paths.now files.now) }
{
    let modules = files_value(alloc, paths, files)?;
    json!(in alloc; {
        "kind": "recording",
        "machine": machine_name(is_aarch64),
        "modules": modules
    })
}

/// Returns what the machine of a recording is called.
fn machine_name(is_aarch64: bool) -> &'static str
    ensures { result.now ≡ machine_name is_aarch64 }
{
    if is_aarch64 { "aarch64" } else { "x86_64" }
}

/// Writes the lines of stacks with their counts, in the order of their bytes.
fn write_counted<W: Write>(
    alloc: Global,
    folded: &Folded,
    out: &mut Output<W>,
) -> Result<(), StacksError>
    ensures written { OnOk result (Appends out.old.bytes out.new.bytes (counted_lines (entries_of folded.now))) }
    ensures refused { IfErr result (λ error. (error ≡ OutOfMemory) ⊎ (error ≡ CannotWrite)) }
    ensures noted { out.new.has_failed ≡ (out.old.has_failed || is_unwritten result) }
{
    for (text, count) in folded.iter() {
        write_line(alloc, text.as_slice(), *count, out)?;
    }
    Ok(())
}

/// Writes the line of a stack with its count.
fn write_line<W: Write>(
    alloc: Global,
    text: &[u8],
    count: u64,
    out: &mut Output<W>,
) -> Result<(), StacksError>
    ensures written { OnOk result (Appends out.old.bytes out.new.bytes (counted_line count text.now)) }
    ensures refused { IfErr result (λ error. (error ≡ OutOfMemory) ⊎ (error ≡ CannotWrite)) }
    ensures noted { out.new.has_failed ≡ (out.old.has_failed || is_unwritten result) }
{
    let line = counted_line(alloc, count, text)?;
    out.write_all(line.as_slice())?;
    Ok(())
}
