//! The stacks of recordings as JSON.
use crate::sources::Sources;
use framehop_folded::folded::Folded;
use framehop_output::Output;
use framehop_perf_stacks::choice::{Choice, choose};
use framehop_perf_stacks::error::StacksError;
use framehop_perf_stacks::json_report::write_json;
use framehop_perf_stacks::program::Unwound;
use framehop_perf_stacks::recording::{Recording, read_files, read_recording};
use framehop_perf_stacks::run::Options;
use framehop_perf_stacks::sample_source::{InMemory, SampleSource};
use std::alloc::Global;
use std::io::Write;

/// Writes the JSON of a recording that was read, and returns how it ended. No stacks are folded.
pub fn write_recording_json<B: SampleSource, W: Write, E: Write>(
    alloc: Global,
    recording: &Recording<'_>,
    sources: &Sources<'_, '_>,
    samples: &B,
    options: Options<'_>,
    out: &mut Output<W>,
    err: &mut Output<E>,
) -> Result<Unwound, StacksError> {
    let files = read_files(alloc, recording, sources)?;
    let paths = sources.disk.paths_of(&files)?;
    let ended = write_json(
        alloc,
        recording,
        &files,
        paths.as_slice(),
        samples,
        options,
        out,
        err,
    );
    Ok(Unwound {
        folded: Folded::new(alloc),
        ended,
    })
}

/// Writes the JSON of the samples of a recording that are chosen, by its bytes, and returns how it ended.
pub fn write_json_of<W: Write, E: Write>(
    alloc: Global,
    bytes: &[u8],
    sources: &Sources<'_, '_>,
    choice: &Choice<'_>,
    options: Options<'_>,
    out: &mut Output<W>,
    err: &mut Output<E>,
) -> Result<Unwound, StacksError> {
    let recording = choose(alloc, read_recording(alloc, bytes)?, choice)?;
    write_recording_json(alloc, &recording, sources, &InMemory, options, out, err)
}
