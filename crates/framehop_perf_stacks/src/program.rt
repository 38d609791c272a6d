//! From the bytes of a recording to folded stacks or blocks.
ghost use Rattle.std.specs.Prelude.{ℕ, ◌≡◌, ◌⊎◌, ◌||◌, Err, IfOk, IfErr, OnOk, OnErr, MatchResult, Option, List, map, true};
ghost use Rattle.std.specs.Io.KnownBytes.{Appends};
ghost use Rattle.std.specs.Result.{result_err};
ghost use Rattle.framehop_recording.specs.Attributes.{attribute_view};
ghost use Rattle.framehop_recording.specs.BuildIds.{file_build_id_view};
ghost use Rattle.framehop_recording.specs.Records.{RecordView};
ghost use Rattle.framehop_recording.specs.declared.error.RecordingError.{RecordingError};
ghost use Rattle.framehop_perf_stacks.specs.Bodies.{IsCompleted};
ghost use Rattle.framehop_perf_stacks.specs.Choice.{IsChosenOf};
ghost use Rattle.framehop_perf_stacks.specs.Counts.{advice_text, counted_text, counts_text, cut_text, vdso_text, guess_text, samples_line, samples_text, summary_text, unsure_line};
ghost use Rattle.framehop_folded.specs.Folded.{IsInOrderOfBytes};
ghost use Rattle.framehop_perf_stacks.specs.Ended.{before_refusal, is_unwritten, MayEnd};
ghost use Rattle.framehop_perf_stacks.specs.Files.{AreFilesOf};
ghost use Rattle.framehop_perf_stacks.specs.Printed.{AreTold, IsMadeOf, IsMadeWith, IsSaid, IsWhole, IsMadeUntil, IsMadeUntilWith, MayEndAt};
ghost use Rattle.framehop_perf_stacks.specs.Written.{ends_unwritten, has_one_failed, AreNoted};
ghost use Rattle.framehop_perf_stacks.specs.Recording.{records_in, events_in, IsReadOf};
ghost use Rattle.framehop_perf_stacks.specs.Samples.{beginning, samples_from, Each, IsToldOf, Told, IsMade};
ghost use Rattle.framehop_processes.specs.declared.files.Files.{Files};
ghost use Rattle.framehop_perf_stacks.specs.declared.error.StacksError.TheVariants.{OutOfMemory, CannotWrite, Recording as Refused};
ghost use Rattle.framehop_perf_stacks.specs.declared.recording.Recording.{Recording};

use crate::choice::{Choice, choose};
use crate::counts::Counts;
use crate::error::StacksError;
use crate::machine::Sampled;
use crate::perf_map::MapSource;
use crate::problems::problems_text;
use crate::recording::{Recording, is_aarch64, read_files, read_recording};
use crate::run::{Input, Options, Run};
use crate::sample_source::{InMemory, SampleSource};
use framehop::aarch64::UnwinderAarch64;
use framehop::cache::MustNotAllocateDuringUnwind;
use framehop::x86_64::UnwinderX86_64;
use framehop_folded::folded::Folded;
use framehop_output::Output;
use framehop_processes::ModuleMaker;
use framehop_processes::files::{FileModules, FileSource, Files};
use framehop_processes::mapped_bytes::MappedBytes;
use framehop_recording::error::RecordingError;
use std::alloc::Global;
use std::io::Write;

/// What a recording gives.
#[derive(Drop)]
pub struct Unwound {
    /// The folded stacks of its samples: none where blocks are written.
    pub folded: Folded,
    /// The refusal of the record with which the recording ends, if one is refused; or why no more could be taken of it.
    /// The samples before that have their stacks.
    pub ended: Result<Option<RecordingError>, StacksError>,
}

/// Folds the stacks of a recording's chosen samples, or writes them to `out` as blocks, and writes to `err` what was counted and which
/// files were not read.
///
/// # Errors
///
/// `Recording` with the first refusal of the header or of the events, `OutOfMemory`, and `CannotWrite` if a file that was
/// not read can't be told: nothing was folded or written to `out` then. What is refused later is in [`Unwound::ended`]:
/// `Recording` with the first refusal of a record that is no sample, `OutOfMemory`, `GenerationsExhausted`,
/// `TooManySamples` and `CannotWrite`.
pub fn write_stacks<S: FileSource + MapSource, W: Write, E: Write>(
    alloc: Global,
    file: &[u8],
    source: &S,
    choice: &Choice<'_>,
    options: Options<'_>,
    out: &mut Output<W>,
    err: &mut Output<E>,
) -> Result<Unwound, StacksError>
    ensures made { IfOk result (λ unwound. (whole : Recording) × IsReadOf file.now whole
        × ((recording : Recording) × IsChosenOf choice.now whole recording
        × ((files : Files) × AreFilesOf (S.source source.now) (S.gives_map source.now)
        (map attribute_view recording.events.attributes.items) (map file_build_id_view recording.build_ids.items) (records_in recording.records.items) files
        × ((unsaid : Option (List ℕ)) × AreTold files err.old.bytes unsaid × MatchResult unwound.ended
        (λ refusal. IsWhole recording refusal × IsMadeOf recording files options.entry unwound.folded out.old.bytes out.new.bytes unsaid err.new.bytes)
        (λ error. MayEndAt (has_one_failed out.new err.new) recording files error × IsMadeUntil error recording files options.entry unwound.folded out.old.bytes out.new.bytes unsaid err.new.bytes))))) }
    ensures refused { IfErr result (MayEnd err.new.has_failed (result_err (events_in file.now)) 0 0) }
    ensures unwritten { OnErr result (out.new ≡ out.old) }
    ensures noted { AreNoted (ends_unwritten result) out.old out.new err.old err.new }
{
    let recording = choose(alloc, read_recording(alloc, file)?, choice)?;
    write_recording_stacks(alloc, &recording, source, &InMemory, options, out, err)
}

/// Folds the stacks of all samples of a recording that was read, or writes them to `out` as blocks, and writes to `err` what was
/// counted and which files were not read. The bodies of its samples are those that a source gives for them, of each right
/// before it is unwound.
///
/// # Errors
///
/// `OutOfMemory`, and `CannotWrite` if a file that was not read can't be told: nothing was folded or written to `out` then.
/// What is refused later is in [`Unwound::ended`], as of [`write_stacks`].
pub fn write_recording_stacks<S: FileSource + MapSource, B: SampleSource, W: Write, E: Write>(
    alloc: Global,
    recording: &Recording<'_>,
    source: &S,
    samples: &B,
    options: Options<'_>,
    out: &mut Output<W>,
    err: &mut Output<E>,
) -> Result<Unwound, StacksError>
    ensures made { IfOk result (λ unwound. (files : Files) × AreFilesOf (S.source source.now) (S.gives_map source.now)
        (map attribute_view recording.now.events.attributes.items) (map file_build_id_view recording.now.build_ids.items) (records_in recording.now.records.items) files
        × ((unsaid : Option (List ℕ)) × AreTold files err.old.bytes unsaid × MatchResult unwound.ended
        (λ refusal. IsWhole recording.now refusal × IsMadeWith (B.gives samples.now) recording.now files options.entry unwound.folded out.old.bytes out.new.bytes unsaid err.new.bytes)
        (λ error. MayEndAt (has_one_failed out.new err.new) recording.now files error × IsMadeUntilWith (B.gives samples.now) error recording.now files options.entry unwound.folded out.old.bytes out.new.bytes unsaid err.new.bytes))) }
    ensures refused { IfErr result (λ error. (error ≡ OutOfMemory) ⊎ ((error ≡ CannotWrite) × (err.new.has_failed ≡ true))) }
    ensures unwritten { OnErr result (out.new ≡ out.old) }
    ensures noted { AreNoted (ends_unwritten result) out.old out.new err.old err.new }
{
    let files = read_files(alloc, recording, source)?;
    write_problems(alloc, err, &files)?;
    unwind_recording(alloc, recording, &files, samples, options, out, err)
}

/// Writes a line for each file of which nothing was read.
pub(crate) fn write_problems<E: Write>(
    alloc: Global,
    err: &mut Output<E>,
    files: &Files,
) -> Result<(), StacksError>
    ensures written { OnOk result (AreTold files.now err.old.bytes err.new.bytes) }
    ensures refused { IfErr result (λ error. (error ≡ OutOfMemory) ⊎ (error ≡ CannotWrite)) }
    ensures noted { err.new.has_failed ≡ (err.old.has_failed || is_unwritten result) }
{
    let problems = problems_text(alloc, files)?;
    err.write_all(problems.as_slice())?;
    Ok(())
}

/// Unwinds all samples of a recording by the unwinder of its architecture.
pub(crate) fn unwind_recording<'m, B: SampleSource, W: Write, E: Write>(
    alloc: Global,
    recording: &Recording<'_>,
    files: &Files<'m>,
    samples: &B,
    options: Options<'_>,
    out: &mut Output<W>,
    err: &mut Output<E>,
) -> Result<Unwound, StacksError>
    ensures made { IfOk result (λ unwound. MatchResult unwound.ended
        (λ refusal. IsWhole recording.now refusal × IsMadeWith (B.gives samples.now) recording.now files.now options.entry unwound.folded out.old.bytes out.new.bytes err.old.bytes err.new.bytes)
        (λ error. MayEndAt (has_one_failed out.new err.new) recording.now files.now error × IsMadeUntilWith (B.gives samples.now) error recording.now files.now options.entry unwound.folded out.old.bytes out.new.bytes err.old.bytes err.new.bytes)) }
    ensures refused { IfErr result (λ error. error ≡ OutOfMemory) }
    ensures unwritten { OnErr result (out.new ≡ out.old) }
    ensures noted { AreNoted (ends_unwritten result) out.old out.new err.old err.new }
{
    let maker = FileModules { files };
    if is_aarch64(&recording.events) {
        return unwind_all::<
            UnwinderAarch64<MappedBytes<'m>, MustNotAllocateDuringUnwind>,
            FileModules<'_, 'm>,
            B,
            W,
            E,
        >(alloc, recording, files, &maker, samples, options, out, err);
    }
    unwind_all::<
        UnwinderX86_64<MappedBytes<'m>, MustNotAllocateDuringUnwind>,
        FileModules<'_, 'm>,
        B,
        W,
        E,
    >(alloc, recording, files, &maker, samples, options, out, err)
}

/// Unwinds all samples of a recording.
fn unwind_all<U: Sampled, M: ModuleMaker<U>, B: SampleSource, W: Write, E: Write>(
    alloc: Global,
    recording: &Recording<'_>,
    files: &Files,
    maker: &M,
    samples: &B,
    options: Options<'_>,
    out: &mut Output<W>,
    err: &mut Output<E>,
) -> Result<Unwound, StacksError>
where
    U::Cache: Drop,
    U::Module: Drop,
    ensures made { IfOk result (λ unwound. IfOk unwound.ended (λ refusal. IsWhole recording.now refusal × ((whole : List RecordView)
        × Each (IsCompleted (B.gives samples.now)) (records_in recording.now.records.items) whole × ((told : List Told)
        × Each (IsToldOf (M.module_of maker.now) U.walker U.is_note U.starts options.entry files.now (map attribute_view recording.now.events.attributes.items))
        (samples_from files.now beginning whole) told
        × IsMade options.entry.frames told unwound.folded out.old.bytes out.new.bytes
        × IsSaid told whole err.old.bytes err.new.bytes)))) }
    ensures ended { IfOk result (λ unwound. IfErr unwound.ended (MayEndAt (has_one_failed out.new err.new) recording.now files.now)) }
    ensures before { IfOk result (λ unwound. (refusal : RecordingError) → unwound.ended ≡ Err (Refused refusal) → (whole : List RecordView)
        × Each (IsCompleted (B.gives samples.now)) (before_refusal (records_in recording.now.records.items)) whole × ((told : List Told)
        × Each (IsToldOf (M.module_of maker.now) U.walker U.is_note U.starts options.entry files.now (map attribute_view recording.now.events.attributes.items))
        (samples_from files.now beginning whole) told
        × IsMade options.entry.frames told unwound.folded out.old.bytes out.new.bytes
        × IsSaid told whole err.old.bytes err.new.bytes)) }
    ensures refused { IfErr result (λ error. error ≡ OutOfMemory) }
    ensures unwritten { OnErr result (out.new ≡ out.old) }
    ensures noted { AreNoted (ends_unwritten result) out.old out.new err.old err.new }
{
    let mut run: Run<U> = Run::new(alloc)?;
    let input = Input {
        recording,
        files,
        maker,
        samples,
        options,
    };
    let taken = run.take_records(alloc, &input, out);
    let counted = write_counts(err, &run.counts);
    let ended = match counted.and(taken) {
        Ok(()) => Ok(recording.refusal),
        Err(error) => Err(error),
    };
    let counts = run.counts;
    Ok(Unwound {
        folded: counts.stacks,
        ended,
    })
}

/// Writes what was counted.
fn write_counts<E: Write>(err: &mut Output<E>, counts: &Counts) -> Result<(), StacksError>
    ensures written { OnOk result (Appends err.old.bytes err.new.bytes (summary_text counts.now)) }
    ensures ordered { OnOk result (IsInOrderOfBytes counts.now.ends) }
    ensures refused { IfErr result (λ error. error ≡ CannotWrite) }
    ensures noted { err.new.has_failed ≡ (err.old.has_failed || is_unwritten result) }
{
    write_ends(err, counts)?;
    write_advice(err, counts)?;
    Ok(())
}

/// Writes what can be done for stacks that are cut, and for those with a frame in a vdso of which no file was read.
fn write_advice<E: Write>(err: &mut Output<E>, counts: &Counts) -> Result<(), StacksError>
    ensures written { OnOk result (Appends err.old.bytes err.new.bytes (advice_text counts.now)) }
    ensures refused { IfErr result (λ error. error ≡ CannotWrite) }
    ensures noted { err.new.has_failed ≡ (err.old.has_failed || is_unwritten result) }
{
    write_cut(err, counts.cut)?;
    write_in_vdso(err, counts.in_vdso)?;
    Ok(())
}

/// Writes how many samples there are, and how their stacks ended.
fn write_ends<E: Write>(err: &mut Output<E>, counts: &Counts) -> Result<(), StacksError>
    ensures written { OnOk result (Appends err.old.bytes err.new.bytes (counts_text counts.now)) }
    ensures ordered { OnOk result (IsInOrderOfBytes counts.now.ends) }
    ensures refused { IfErr result (λ error. error ≡ CannotWrite) }
    ensures noted { err.new.has_failed ≡ (err.old.has_failed || is_unwritten result) }
{
    write_samples(err, counts.samples, counts.lost)?;
    write_unsure(err, counts.unsure)?;
    write_guessed(err, counts.guessed)?;
    writeln!(err, "how the stacks ended:")?;
    counts.ends.write(err)?;
    Ok(())
}

/// Writes how many samples were counted, and how many records the kernel lost.
#[tactic(auto, unfolding(crate::specs::Counts::samples_line))]
fn write_samples<E: Write>(err: &mut Output<E>, samples: u64, lost: u64) -> Result<(), StacksError>
    ensures written { OnOk result (Appends err.old.bytes err.new.bytes (samples_line samples lost)) }
    ensures refused { IfErr result (λ error. error ≡ CannotWrite) }
    ensures noted { err.new.has_failed ≡ (err.old.has_failed || is_unwritten result) }
{
    write_counted(err, samples)?;
    writeln!(err, ", {lost} records lost by the kernel")?;
    Ok(())
}

/// Writes how many samples were counted.
#[tactic(auto, unfolding(crate::specs::Counts::counted_text))]
fn write_counted<E: Write>(err: &mut Output<E>, samples: u64) -> Result<(), StacksError>
    ensures written { OnOk result (Appends err.old.bytes err.new.bytes (counted_text samples)) }
    ensures refused { IfErr result (λ error. error ≡ CannotWrite) }
    ensures noted { err.new.has_failed ≡ (err.old.has_failed || is_unwritten result) }
{
    if samples == 0 {
        write!(err, "no sample is counted")?;
        return Ok(());
    }
    write_number(err, samples)
}

/// Writes how many samples have a frame that no unwind data tells.
#[tactic(auto, unfolding(crate::specs::Counts::unsure_line))]
fn write_unsure<E: Write>(err: &mut Output<E>, unsure: u64) -> Result<(), StacksError>
    ensures written { OnOk result (Appends err.old.bytes err.new.bytes (unsure_line unsure)) }
    ensures refused { IfErr result (λ error. error ≡ CannotWrite) }
    ensures noted { err.new.has_failed ≡ (err.old.has_failed || is_unwritten result) }
{
    write_number(err, unsure)?;
    writeln!(err, " with frames that no unwind data tells")?;
    Ok(())
}

/// Writes a number of samples.
fn write_number<E: Write>(err: &mut Output<E>, samples: u64) -> Result<(), StacksError>
    ensures written { OnOk result (Appends err.old.bytes err.new.bytes (samples_text samples)) }
    ensures refused { IfErr result (λ error. error ≡ CannotWrite) }
    ensures noted { err.new.has_failed ≡ (err.old.has_failed || is_unwritten result) }
{
    let noun = if samples == 1 { "sample" } else { "samples" };
    write!(err, "{samples} {noun}")?;
    Ok(())
}

/// Writes how many samples have a caller by a guess, if some have.
fn write_guessed<E: Write>(err: &mut Output<E>, guessed: u64) -> Result<(), StacksError>
    ensures written { OnOk result (Appends err.old.bytes err.new.bytes (guess_text guessed)) }
    ensures refused { IfErr result (λ error. error ≡ CannotWrite) }
    ensures noted { err.new.has_failed ≡ (err.old.has_failed || is_unwritten result) }
{
    if guessed > 0 {
        write_number(err, guessed)?;
        writeln!(err, " with a caller by [guess]")?;
    }
    Ok(())
}

/// Writes how many stacks are cut where their copies end, if some are.
fn write_cut<E: Write>(err: &mut Output<E>, cut: u64) -> Result<(), StacksError>
    ensures written { OnOk result (Appends err.old.bytes err.new.bytes (cut_text cut)) }
    ensures refused { IfErr result (λ error. error ≡ CannotWrite) }
    ensures noted { err.new.has_failed ≡ (err.old.has_failed || is_unwritten result) }
{
    if cut > 0 {
        write_number(err, cut)?;
        writeln!(
            err,
            " cut at the end of the copied stack: perf record --call-graph dwarf,65528 copies more"
        )?;
    }
    Ok(())
}

/// Writes how many samples have a frame in a vdso of which no file was read, if some have.
fn write_in_vdso<E: Write>(err: &mut Output<E>, in_vdso: u64) -> Result<(), StacksError>
    ensures written { OnOk result (Appends err.old.bytes err.new.bytes (vdso_text in_vdso)) }
    ensures refused { IfErr result (λ error. error ≡ CannotWrite) }
    ensures noted { err.new.has_failed ≡ (err.old.has_failed || is_unwritten result) }
{
    if in_vdso > 0 {
        write_number(err, in_vdso)?;
        writeln!(
            err,
            " with a frame in [vdso], of which no file was found: --vdso FILE names it"
        )?;
    }
    Ok(())
}
