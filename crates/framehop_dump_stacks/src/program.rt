//! From the bytes of a core file or a minidump to a report of the stacks of its threads.
ghost use Rattle.std.specs.Prelude.{◌≡◌, ◌⊎◌, ◌||◌, true, false, List, ℕ, map, Ok, Err, IfOk, IfErr, OnOk};
ghost use Rattle.std.specs.Io.KnownBytes.{Appends};
ghost use Rattle.framehop_dump_files.specs.declared.minidump.error.MinidumpError.{MinidumpError};
ghost use Rattle.framehop_processes.specs.declared.files.Files.{Files};
ghost use Rattle.framehop_dumps.specs.Dump.{DumpView, dump_view};
ghost use Rattle.framehop_dump_stacks.specs.Ended.{drawn_in, MayEnd, MayEndWithFiles, MayEndWithModules};
ghost use Rattle.framehop_dumps.specs.Minidump.{LoadedView, loaded_view, minidump_of, AreModuleFiles, dump_with};
ghost use Rattle.framehop_dump_stacks.specs.Modules.{AreLeftOutOf, AreFilesFor, mappings_in};
ghost use Rattle.framehop_dump_stacks.specs.Problems.{IsSaid};
ghost use Rattle.framehop_dump_stacks.specs.Refusal.{of_minidump};
ghost use Rattle.framehop_dump_stacks.specs.Report.{IsReportOf};
ghost use Rattle.framehop_dump_stacks.specs.Walk.{IsWalkOf, is_asked};
ghost use Rattle.framehop_dump_stacks.specs.declared.program.Walk.{Walk};
ghost use Rattle.framehop_dump_stacks.specs.Walked.{WalkedThread, AreWalkedBy};

use crate::bounded::Bounded;
use crate::error::DumpStacksError;
use crate::frame_headers::headers_of;
use crate::machine::Dumped;
use crate::modules::{DumpModules, bare_module, leave_out_files, map_files, read_files_asked_for};
use crate::problems::said_text;
use crate::report::{Report, write_part, write_report};
use framehop::aarch64::UnwinderAarch64;
use framehop::cache::MustNotAllocateDuringUnwind;
use framehop::x86_64::UnwinderX86_64;
use framehop_dump_files::coredump::core_file::Machine;
use framehop_dumps::dump::Dump;
use framehop_dumps::minidump::{LoadedModule, dump_in, read_module_files, read_parts, with_code};
use framehop_memory::left_out::LeftOut;
use framehop_output::Output;
use framehop_processes::files::{FileSource, Files};
use framehop_processes::mapped_bytes::MappedBytes;
use framehop_processes::{ModuleMaker, Process};
use std::alloc::Global;
use std::io;
use std::io::Write;

/// How often those of the mapped files are read that were asked for, before all are.
const ROUNDS_OF_FILES: u32 = 8;

/// What is written of a core file: a report of the stacks of its threads, and what was missing.
#[derive(Drop)]
pub(crate) struct Written {
    pub(crate) out: Vec<u8>,
    pub(crate) said: Vec<u8>,
}

/// What came of a walk over all threads.
#[derive(Drop)]
pub(crate) enum Walk {
    /// What is to be written.
    Kept(Written),
    /// It has more bytes than are kept, and is to be made again as it is written.
    Long,
    /// Memory that was left out was asked for.
    Asked,
}

/// Writes a report of the stacks of the threads of a core file that was read to `out`, and then to `err` what was missing, of
/// the mapped files that the stacks ask for, or of all where the report tells of all. The others are not read. Returns whether
/// it is written: nothing is where memory that was left out was asked for, with which all is to be made again.
///
/// # Errors
///
/// `OutOfMemory`, `GenerationsExhausted`, and `CannotWrite` where a write failed. A part of the report may have been written.
pub fn write_core_stacks<'m, S: FileSource, R: Report, W: Write, E: Write>(
    alloc: Global,
    dump: &Dump<'m>,
    left_out: &LeftOut,
    source: &S,
    limit: u32,
    report: &R,
    out: &mut Output<W>,
    err: &mut Output<E>,
) -> Result<bool, DumpStacksError>
    ensures printed { result ≡ Ok true → (files : Files) × AreFilesFor (R.is_of_all_files report.now) (S.source source.now) (dump_view dump.now) files
        × ((text : List ℕ) × IsReportOf (R.is_text report.now (dump_view dump.now) files (mappings_in (dump_view dump.now) files))
        (R.is_explained report.now) limit (dump_view dump.now) files text
        × Appends out.old.bytes out.new.bytes text)
        × ((said : List ℕ) × IsSaid (dump_view dump.now) files (mappings_in (dump_view dump.now) files) said
        × Appends err.old.bytes err.new.bytes said) }
    ensures unwritten { result ≡ Ok false → (out.new ≡ out.old) × (err.new ≡ err.old) }
    ensures refused { IfErr result (MayEndWithFiles (out.new.has_failed || err.new.has_failed) (R.is_of_all_files report.now)
        (S.source source.now) (dump_view dump.now)) }
    ensures noted { OnOk result ((out.new.has_failed ≡ out.old.has_failed) × (err.new.has_failed ≡ err.old.has_failed)) }
{
    let mut files = leave_out_files(alloc, dump)?;
    let walk = walk_threads(alloc, dump, left_out, source, limit, report, &mut files)?;
    write_walk(alloc, dump, &files, limit, report, &walk, out, err)
}

/// Walks all threads by a dump's files, which were left out: those are read that are asked for, or all where the report tells of
/// all.
fn walk_threads<'m, S: FileSource, R: Report>(
    alloc: Global,
    dump: &Dump<'m>,
    left_out: &LeftOut,
    source: &S,
    limit: u32,
    report: &R,
    files: &mut Files<'m>,
) -> Result<Walk, DumpStacksError>
    requires { AreLeftOutOf (dump_view dump.now) files.old }
    ensures read { OnOk result (AreFilesFor (R.is_of_all_files report.now) (S.source source.now) (dump_view dump.now) files.new) }
    ensures kept { IfOk result (IsWalkOf
        (IsReportOf (R.is_text report.now (dump_view dump.now) files.new (mappings_in (dump_view dump.now) files.new)) (R.is_explained report.now)
        limit (dump_view dump.now) files.new)
        (IsSaid (dump_view dump.now) files.new (mappings_in (dump_view dump.now) files.new))) }
    ensures refused { IfErr result (MayEndWithFiles false (R.is_of_all_files report.now) (S.source source.now) (dump_view dump.now)) }
{
    if !report.tells_all_files() {
        for _round in 0..ROUNDS_OF_FILES {
            let walk = walk_by(alloc, dump, left_out, files, limit, report)?;
            if is_asked(&walk) {
                return Ok(walk);
            }
            if !read_files_asked_for(alloc, dump, source, false, files)? {
                return Ok(walk);
            }
        }
    }
    read_files_asked_for(alloc, dump, source, true, files)?;
    walk_by(alloc, dump, left_out, files, limit, report)
}

/// Returns whether memory that was left out was asked for.
fn is_asked(walk: &Walk) -> bool
    ensures { result ≡ is_asked walk.now }
{
    matches!(walk, Walk::Asked)
}

/// Writes what came of a walk over all threads by a dump's files as they are. Returns whether it is written.
fn write_walk<'m, R: Report, W: Write, E: Write>(
    alloc: Global,
    dump: &Dump<'m>,
    files: &Files<'m>,
    limit: u32,
    report: &R,
    walk: &Walk,
    out: &mut Output<W>,
    err: &mut Output<E>,
) -> Result<bool, DumpStacksError>
    requires { IsWalkOf
        (IsReportOf (R.is_text report.now (dump_view dump.now) files.now (mappings_in (dump_view dump.now) files.now)) (R.is_explained report.now)
        limit (dump_view dump.now) files.now)
        (IsSaid (dump_view dump.now) files.now (mappings_in (dump_view dump.now) files.now)) walk.now }
    ensures printed { result ≡ Ok true → ((text : List ℕ)
        × IsReportOf (R.is_text report.now (dump_view dump.now) files.now (mappings_in (dump_view dump.now) files.now)) (R.is_explained report.now)
        limit (dump_view dump.now) files.now text
        × Appends out.old.bytes out.new.bytes text)
        × ((said : List ℕ) × IsSaid (dump_view dump.now) files.now (mappings_in (dump_view dump.now) files.now) said
        × Appends err.old.bytes err.new.bytes said) }
    ensures unwritten { result ≡ Ok false → (out.new ≡ out.old) × (err.new ≡ err.old) }
    ensures refused { IfErr result (MayEnd (out.new.has_failed || err.new.has_failed) (drawn_in (dump_view dump.now) files.now)) }
    ensures noted { OnOk result ((out.new.has_failed ≡ out.old.has_failed) × (err.new.has_failed ≡ err.old.has_failed)) }
{
    match walk {
        Walk::Kept(written) => write_both(written, out, err)?,
        Walk::Long => write_dump_stacks(alloc, dump, files, limit, report, out, err)?,
        Walk::Asked => return Ok(false),
    }
    Ok(true)
}

/// Writes what was kept.
fn write_both<W: Write, E: Write>(
    written: &Written,
    out: &mut Output<W>,
    err: &mut Output<E>,
) -> Result<(), DumpStacksError>
    ensures printed { OnOk result (Appends out.old.bytes out.new.bytes written.now.out.items) }
    ensures said { OnOk result (Appends err.old.bytes err.new.bytes written.now.said.items) }
    ensures refused { IfErr result (MayEnd (out.new.has_failed || err.new.has_failed) 0) }
    ensures noted { OnOk result ((out.new.has_failed ≡ out.old.has_failed) × (err.new.has_failed ≡ err.old.has_failed)) }
{
    write_part(out, written.out.as_slice())?;
    write_part(err, written.said.as_slice())?;
    Ok(())
}

/// Walks all threads by a dump's files as they are. What is to be written is kept, if it is not long.
fn walk_by<'m, R: Report>(
    alloc: Global,
    dump: &Dump<'m>,
    left_out: &LeftOut,
    files: &Files<'m>,
    limit: u32,
    report: &R,
) -> Result<Walk, DumpStacksError>
    ensures kept { IfOk result (IsWalkOf
        (IsReportOf (R.is_text report.now (dump_view dump.now) files.now (mappings_in (dump_view dump.now) files.now)) (R.is_explained report.now)
        limit (dump_view dump.now) files.now)
        (IsSaid (dump_view dump.now) files.now (mappings_in (dump_view dump.now) files.now))) }
    ensures refused { IfErr result (MayEnd false (drawn_in (dump_view dump.now) files.now)) }
{
    let walk = kept_by(alloc, dump, files, limit, report);
    if !left_out.asked(alloc)?.is_empty() {
        return Ok(Walk::Asked);
    }
    walk
}

/// Returns what is to be written of a dump by its files as they are, if it is not long.
fn kept_by<'m, R: Report>(
    alloc: Global,
    dump: &Dump<'m>,
    files: &Files<'m>,
    limit: u32,
    report: &R,
) -> Result<Walk, DumpStacksError>
    ensures kept { IfOk result (IsWalkOf
        (IsReportOf (R.is_text report.now (dump_view dump.now) files.now (mappings_in (dump_view dump.now) files.now)) (R.is_explained report.now)
        limit (dump_view dump.now) files.now)
        (IsSaid (dump_view dump.now) files.now (mappings_in (dump_view dump.now) files.now))) }
    ensures refused { IfErr result (MayEnd false (drawn_in (dump_view dump.now) files.now)) }
{
    let mut out = Output::new(Bounded::new(alloc));
    let mut said = Output::new(Bounded::new(alloc));
    match write_dump_stacks(alloc, dump, files, limit, report, &mut out, &mut said) {
        Ok(()) => Ok(Walk::Kept(Written {
            out: out.into_inner().into_bytes(),
            said: said.into_inner().into_bytes(),
        })),
        Err(DumpStacksError::CannotWrite) => walk_long(alloc, dump, files, limit, report),
        Err(error) => Err(error),
    }
}

/// Walks all threads of a dump of which more is to be written than is kept: what they ask for is asked for, and nothing is kept.
fn walk_long<'m, R: Report>(
    alloc: Global,
    dump: &Dump<'m>,
    files: &Files<'m>,
    limit: u32,
    report: &R,
) -> Result<Walk, DumpStacksError>
    ensures long { IfOk result (λ walk. walk ≡ Walk.Long) }
    ensures refused { IfErr result (MayEnd false (drawn_in (dump_view dump.now) files.now)) }
{
    let (mut out, mut said) = (Output::new(io::sink()), Output::new(io::sink()));
    match write_dump_stacks(alloc, dump, files, limit, report, &mut out, &mut said) {
        Ok(()) | Err(DumpStacksError::CannotWrite) => Ok(Walk::Long),
        Err(error) => Err(error),
    }
}

/// Writes a report of the stacks of the threads of a minidump to `out`, and then to `err` what was missing: files that were not
/// read, or lack unwind data or names.
///
/// # Errors
///
/// `Minidump` with the first refusal of the minidump; `OutOfMemory`, `GenerationsExhausted`, and `CannotWrite` where a write
/// failed. A part of the report may have been written.
pub fn write_minidump_stacks<S: FileSource, R: Report, W: Write, E: Write>(
    alloc: Global,
    file: &[u8],
    source: &S,
    limit: u32,
    report: &R,
    out: &mut Output<W>,
    err: &mut Output<E>,
) -> Result<(), DumpStacksError>
    ensures printed { OnOk result ((minidump : DumpView × List LoadedView) × (minidump_of file.now ≡ Ok minidump)
        × ((files : Files) × AreModuleFiles (S.source source.now) minidump.1 files
        × ((text : List ℕ) × IsReportOf (R.is_text report.now (dump_with minidump files) files (mappings_in (dump_with minidump files) files))
        (R.is_explained report.now) limit (dump_with minidump files) files text
        × Appends out.old.bytes out.new.bytes text)
        × ((said : List ℕ) × IsSaid (dump_with minidump files) files (mappings_in (dump_with minidump files) files) said
        × Appends err.old.bytes err.new.bytes said))) }
    ensures refused { (refusal : MinidumpError) → minidump_of file.now ≡ Err refusal → IfErr result (λ error.
        (error ≡ of_minidump refusal) ⊎ (error ≡ DumpStacksError.OutOfMemory)) }
    ensures read { (minidump : DumpView × List LoadedView) → minidump_of file.now ≡ Ok minidump
        → IfErr result (MayEndWithModules (out.new.has_failed || err.new.has_failed) (S.source source.now) minidump) }
    ensures noted { OnOk result ((out.new.has_failed ≡ out.old.has_failed) × (err.new.has_failed ≡ err.old.has_failed)) }
{
    let parts = read_parts(alloc, file)?;
    let dump = dump_in(alloc, file, &parts)?;
    let modules = parts.modules.as_slice();
    write_minidump(alloc, dump, modules, source, limit, report, out, err)?;
    Ok(())
}

/// Writes a report of the stacks of the threads of a minidump that was read, which has these modules.
fn write_minidump<'a, S: FileSource, R: Report, W: Write, E: Write>(
    alloc: Global,
    dump: Dump<'a>,
    modules: &'a [LoadedModule],
    source: &S,
    limit: u32,
    report: &R,
    out: &mut Output<W>,
    err: &mut Output<E>,
) -> Result<(), DumpStacksError>
    ensures printed { OnOk result (let minidump : DumpView × List LoadedView = (dump_view dump.entry, map loaded_view modules.entry.now) in
        (files : Files) × AreModuleFiles (S.source source.now) minidump.1 files
        × ((text : List ℕ) × IsReportOf (R.is_text report.now (dump_with minidump files) files (mappings_in (dump_with minidump files) files))
        (R.is_explained report.now) limit (dump_with minidump files) files text
        × Appends out.old.bytes out.new.bytes text)
        × ((said : List ℕ) × IsSaid (dump_with minidump files) files (mappings_in (dump_with minidump files) files) said
        × Appends err.old.bytes err.new.bytes said)) }
    ensures refused { IfErr result (MayEndWithModules (out.new.has_failed || err.new.has_failed) (S.source source.now)
        (dump_view dump.entry, map loaded_view modules.entry.now)) }
    ensures noted { OnOk result ((out.new.has_failed ≡ out.old.has_failed) × (err.new.has_failed ≡ err.old.has_failed)) }
{
    let files = read_module_files(alloc, modules, source)?;
    let whole = with_code(alloc, dump, &files, modules)?;
    write_dump_stacks(alloc, &whole, &files, limit, report, out, err)?;
    Ok(())
}

/// Writes a report of the stacks of the threads of a dump to `out`, and then to `err` what was missing: bytes of the file itself,
/// and files that were not read, or lack unwind data or names. A file that is left out is taken for one of which nothing was
/// read.
///
/// # Errors
///
/// `OutOfMemory`, `GenerationsExhausted`, and `CannotWrite` where a write failed.
pub(crate) fn write_dump_stacks<'m, R: Report, W: Write, E: Write>(
    alloc: Global,
    dump: &Dump<'m>,
    files: &Files<'m>,
    limit: u32,
    report: &R,
    out: &mut Output<W>,
    err: &mut Output<E>,
) -> Result<(), DumpStacksError>
    ensures printed { OnOk result ((text : List ℕ)
        × IsReportOf (R.is_text report.now (dump_view dump.now) files.now (mappings_in (dump_view dump.now) files.now)) (R.is_explained report.now)
        limit (dump_view dump.now) files.now text
        × Appends out.old.bytes out.new.bytes text) }
    ensures said { OnOk result ((said : List ℕ)
        × IsSaid (dump_view dump.now) files.now (mappings_in (dump_view dump.now) files.now) said
        × Appends err.old.bytes err.new.bytes said) }
    ensures refused { IfErr result (MayEnd (out.new.has_failed || err.new.has_failed) (drawn_in (dump_view dump.now) files.now)) }
    ensures noted { OnOk result ((out.new.has_failed ≡ out.old.has_failed) × (err.new.has_failed ≡ err.old.has_failed)) }
{
    let headers = headers_of(alloc, dump)?;
    let bare = bare_module(alloc)?;
    let modules = DumpModules {
        dump,
        files,
        headers,
        bare,
    };
    match dump.machine {
        Machine::X86_64 => write_stacks::<
            UnwinderX86_64<MappedBytes<'m>, MustNotAllocateDuringUnwind>,
            DumpModules<'_, 'm>,
            R,
            W,
            E,
        >(alloc, &modules, &modules, limit, report, out, err),
        Machine::Aarch64 => write_stacks::<
            UnwinderAarch64<MappedBytes<'m>, MustNotAllocateDuringUnwind>,
            DumpModules<'_, 'm>,
            R,
            W,
            E,
        >(alloc, &modules, &modules, limit, report, out, err),
    }
}

/// Writes a report of the stacks of all threads, by the unwinder of their machine, and what was missing.
fn write_stacks<'m, U: Dumped, M: ModuleMaker<U>, R: Report, W: Write, E: Write>(
    alloc: Global,
    maker: &M,
    modules: &DumpModules<'_, 'm>,
    limit: u32,
    report: &R,
    out: &mut Output<W>,
    err: &mut Output<E>,
) -> Result<(), DumpStacksError>
where
    U::Cache: Drop,
    U::Module: Drop,
    ensures printed { OnOk result ((threads : List WalkedThread)
        × AreWalkedBy U.walker U.begins limit U.is_note (R.is_explained report.now) (M.module_of maker.now)
        (dump_view modules.now.dump.now) modules.now.files.now threads
        × ((text : List ℕ) × R.is_text report.now (dump_view modules.now.dump.now) modules.now.files.now
        (mappings_in (dump_view modules.now.dump.now) modules.now.files.now) threads text
        × Appends out.old.bytes out.new.bytes text)) }
    ensures said { OnOk result ((said : List ℕ)
        × IsSaid (dump_view modules.now.dump.now) modules.now.files.now (mappings_in (dump_view modules.now.dump.now) modules.now.files.now) said
        × Appends err.old.bytes err.new.bytes said) }
    ensures refused { IfErr result (MayEnd (out.new.has_failed || err.new.has_failed)
        (drawn_in (dump_view modules.now.dump.now) modules.now.files.now)) }
    ensures noted { OnOk result ((out.new.has_failed ≡ out.old.has_failed) × (err.new.has_failed ≡ err.old.has_failed)) }
{
    let (dump, files) = (modules.dump, modules.files);
    let process: Process<U> = map_files(alloc, maker, dump, files)?;
    write_report(alloc, dump, files, &process, limit, report, out)?;
    let said = said_text(alloc, modules, process.mappings())?;
    write_part(err, said.as_slice())?;
    Ok(())
}
