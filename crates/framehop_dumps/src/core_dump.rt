//! What a core file says of a process.
ghost use Rattle.std.specs.Prelude.{◌≡◌, ◌⊎◌, ◌++◌, ◌∷◌, [], ◌||◌, ◌==◌, not, false, Ok, Err, MatchResult, IfOk, OnOk, ℕ, List, map, option_map};
ghost use Rattle.framehop_dump_files.specs.declared.coredump.error.CoreFileError.{CoreFileError};
ghost use Rattle.framehop_dump_files.specs.Coredump.MappedFile.{mapped_file_view};
ghost use Rattle.framehop_dump_files.specs.Coredump.Note.{placed_view};
ghost use Rattle.framehop_dump_files.specs.Coredump.Process.{process_view};
ghost use Rattle.framehop_dump_files.specs.Coredump.Thread.{thread_view as noted_view};
ghost use Rattle.framehop_dumps.specs.Dump.{thread_view, mapped_code_view, dump_view, crashed_first};
ghost use Rattle.framehop_memory.specs.Memory.{memory_view};
ghost use Rattle.framehop_dumps.specs.CoreDump.{sent_of, cause_unless, thread_of, threads_by, noted_threads_of, name_of, pid_of, base_in_memory, is_mapped_code, code_by, code_of, vdso_mapped, vdso_at, vdso_code, dump_by_notes, core_dump_of, core_dump_over};
ghost use Rattle.framehop_dumps.specs.Heads.{file_head_view, file_head_of};

use crate::dump::{Cause, Dump, Kind, MappedCode, Registers, Sent, Signal, Thread};
use crate::heads::{FileHead, HeadsByPath};
use crate::image::{head_at, segments_in};
use crate::order::crashed_first;
use crate::shared_headers::check_mapped_files;
use framehop_dump_files::coredump::auxiliary_vector::vdso_of;
use framehop_dump_files::coredump::core_file::{CoreFile, Machine, read_core_file};
use framehop_dump_files::coredump::error::CoreFileError;
use framehop_dump_files::coredump::mapped_file::{MappedFile, read_mapped_files};
use framehop_dump_files::coredump::memory::memory_of;
use framehop_dump_files::coredump::note::{PlacedNote, read_notes};
use framehop_dump_files::coredump::other_system::without_threads;
use framehop_dump_files::coredump::process::{Process, read_process};
use framehop_dump_files::coredump::signal_info::SignalInfo;
use framehop_dump_files::coredump::thread::{Thread as NotedThread, read_threads};
use framehop_memory::by_address::SegmentsByAddress;
use framehop_memory::code::CodeSegments;
use framehop_memory::memory::ProcessMemory;
use framehop_memory::segment::{Segment, base_avma};
use framehop_object::elf::segment::loaded_segments;
use std::alloc::{AllocError, Global};

/// Reads what a core file says of its process.
///
/// # Errors
///
/// The first refusal of the headers, of the notes, of the threads, of the mapped files and of the process; `SharedHeaders`;
/// `OutOfMemory`.
#[tactic(auto, unfolding(crate::specs::CoreDump::core_dump_of))]
pub fn read_core_dump<'a>(alloc: Global, file: &'a [u8]) -> Result<Dump<'a>, CoreFileError>
    ensures { MatchResult result
        (λ dump. core_dump_of file.entry.now ≡ Ok (dump_view dump))
        (λ error. (error ≡ CoreFileError.OutOfMemory) ⊎ (core_dump_of file.entry.now ≡ Err error)) }
{
    let core = read_core_file(alloc, file)?;
    let Ok(dumped) = loaded_segments(alloc, core.segments.as_slice()) else {
        return Err(CoreFileError::OutOfMemory);
    };
    let Ok(memory) = memory_of(alloc, file, dumped.as_slice()) else {
        return Err(CoreFileError::OutOfMemory);
    };
    dump_by_notes(alloc, file, &core, dumped, memory)
}

/// Reads what a core file says of its process over a memory, by the front of the file, which has its headers and its notes:
/// as [`read_core_dump`] does where the memory is that of the whole file.
///
/// # Errors
///
/// Those of [`read_core_dump`].
#[tactic(auto, unfolding(crate::specs::CoreDump::core_dump_over))]
pub fn read_core_dump_over<'a>(
    alloc: Global,
    head: &'a [u8],
    memory: ProcessMemory<'a>,
) -> Result<Dump<'a>, CoreFileError>
    ensures { MatchResult result
        (λ dump. core_dump_over head.entry.now (memory_view memory.entry) ≡ Ok (dump_view dump))
        (λ error. (error ≡ CoreFileError.OutOfMemory) ⊎ (core_dump_over head.entry.now (memory_view memory.entry) ≡ Err error)) }
{
    let core = read_core_file(alloc, head)?;
    let Ok(dumped) = loaded_segments(alloc, core.segments.as_slice()) else {
        return Err(CoreFileError::OutOfMemory);
    };
    dump_by_notes(alloc, head, &core, dumped, memory)
}

/// Reads what the notes of a core file with these headers say, over memory of these segments.
#[tactic(auto, unfolding(crate::specs::CoreDump::dump_by_notes))]
fn dump_by_notes<'a>(
    alloc: Global,
    file: &'a [u8],
    core: &CoreFile,
    dumped: Vec<Segment>,
    memory: ProcessMemory<'a>,
) -> Result<Dump<'a>, CoreFileError>
    ensures { MatchResult result
        (λ dump. dump_by_notes file.entry.now (core.now.machine, core.now.segments.items) dumped.items (memory_view memory.entry) ≡ Ok (dump_view dump))
        (λ error. (error ≡ CoreFileError.OutOfMemory)
        ⊎ (dump_by_notes file.entry.now (core.now.machine, core.now.segments.items) dumped.items (memory_view memory.entry) ≡ Err error)) }
{
    let notes = read_notes(alloc, file, core.segments.as_slice())?;
    let noted = noted_threads(alloc, core.machine, notes.as_slice())?;
    let files = read_mapped_files(alloc, notes.as_slice())?;
    let process = read_process(notes.as_slice())?;
    check_mapped_files(alloc, &memory, files.as_slice())?;
    let Ok(threads) = ordered_threads(alloc, noted.as_slice()) else {
        return Err(CoreFileError::OutOfMemory);
    };
    let Ok(code) = all_code(
        alloc,
        &memory,
        dumped.as_slice(),
        files.as_slice(),
        vdso_of(notes.as_slice()),
    ) else {
        return Err(CoreFileError::OutOfMemory);
    };
    let Ok(segments) = CodeSegments::new(alloc, dumped) else {
        return Err(CoreFileError::OutOfMemory);
    };
    Ok(Dump {
        kind: Kind::CoreFile,
        memory,
        segments,
        machine: core.machine,
        threads,
        code,
        name: name_of(process),
        pid: pid_of(process),
        wow64: false,
    })
}

/// Reads the threads of notes, of which there must be one.
#[tactic(auto, unfolding(crate::specs::CoreDump::noted_threads_of))]
fn noted_threads<'a>(
    alloc: Global,
    machine: Machine,
    notes: &[PlacedNote<'a>],
) -> Result<Vec<NotedThread<'a>>, CoreFileError>
    ensures { MatchResult result
        (λ noted. noted_threads_of machine (map placed_view notes.entry.now) ≡ Ok (map noted_view noted.items))
        (λ error. (error ≡ CoreFileError.OutOfMemory) ⊎ (noted_threads_of machine (map placed_view notes.entry.now) ≡ Err error)) }
{
    let noted = read_threads(alloc, machine, notes)?;
    if noted.is_empty() {
        return Err(without_threads(notes));
    }
    Ok(noted)
}

/// Returns the threads of a core file, the one first that got the signal.
fn ordered_threads<'a>(
    alloc: Global,
    noted: &[NotedThread<'a>],
) -> Result<Vec<Thread<'a>>, AllocError>
    ensures { IfOk result (λ threads. map thread_view threads.items ≡ crashed_first (threads_by false (map noted_view noted.now))) }
{
    let threads = threads_of(alloc, noted)?;
    crashed_first(alloc, threads.as_slice())
}

/// Returns the threads of a core file, of which the first with a signal got it.
fn threads_of<'a>(alloc: Global, noted: &[NotedThread<'a>]) -> Result<Vec<Thread<'a>>, AllocError>
    ensures { IfOk result (λ threads. map thread_view threads.items ≡ threads_by false (map noted_view noted.now)) }
{
    let mut threads = Vec::new(alloc);
    let mut told = false;
    for thread in noted {
        push_thread(&mut threads, told, *thread)?;
        told = is_told(told, thread.signal);
    }
    Ok(threads)
}

/// Returns whether a thread or an earlier one got the signal, by its own and whether an earlier one did.
fn is_told(told: bool, signal: u16) -> bool
    ensures { result ≡ (told || not (signal == 0)) }
{
    told || signal != 0
}

/// Appends a thread of a core file, by whether an earlier one got the signal.
fn push_thread<'a>(
    threads: &mut Vec<Thread<'a>>,
    told: bool,
    thread: NotedThread<'a>,
) -> Result<(), AllocError>
    ensures { OnOk result (map thread_view threads.new.items
        ≡ map thread_view threads.old.items ++ thread_of told (noted_view thread.entry) ∷ []) }
{
    threads.push(thread_of(told, thread))?;
    Ok(())
}

/// Returns a thread of a core file, by whether an earlier one got the signal.
fn thread_of<'a>(told: bool, thread: NotedThread<'a>) -> Thread<'a>
    ensures { thread_view result ≡ thread_of told (noted_view thread.entry) }
{
    Thread {
        tid: thread.tid,
        name: None,
        cause: cause_unless(told, thread),
        registers: Registers::Kernel {
            values: thread.registers,
            pac_mask: thread.pac_mask,
        },
    }
}

/// Returns what a thread got, if an earlier one has not got it: 0 is none.
fn cause_unless(told: bool, thread: NotedThread<'_>) -> Option<Cause>
    ensures { result ≡ cause_unless told (noted_view thread.entry) }
{
    if told || thread.signal == 0 {
        return None;
    }
    let number = u32::from(thread.signal);
    Some(Cause::Signal(Signal {
        number,
        sent: sent_of(number, thread.info),
    }))
}

/// Returns why a signal was sent, where its note is of the signal that the thread's is of.
fn sent_of(signal: u32, info: Option<SignalInfo>) -> Option<Sent>
    ensures { result ≡ sent_of signal info }
{
    match info {
        Some(info) if info.signal == signal => Some(Sent {
            code: info.code,
            fields: info.fields,
        }),
        _ => None,
    }
}

/// Returns the files that are mapped to be executed, and after them the vdso.
fn all_code<'a>(
    alloc: Global,
    memory: &ProcessMemory<'a>,
    dumped: &[Segment],
    files: &[MappedFile<'a>],
    vdso: Option<u64>,
) -> Result<Vec<MappedCode<'a>>, AllocError>
    ensures { IfOk result (λ code. map mapped_code_view code.items
        ≡ code_of (memory_view memory.now) dumped.now (map mapped_file_view files.now)
        ++ vdso_code (memory_view memory.now) dumped.now vdso) }
{
    let segments = SegmentsByAddress::new(alloc, dumped)?;
    let mut code = code_of(alloc, memory, &segments, files)?;
    push_vdso(alloc, memory, &segments, vdso, &mut code)?;
    Ok(code)
}

/// Returns the files that are mapped to be executed.
fn code_of<'a>(
    alloc: Global,
    memory: &ProcessMemory<'a>,
    dumped: &SegmentsByAddress<'_>,
    files: &[MappedFile<'a>],
) -> Result<Vec<MappedCode<'a>>, AllocError>
    ensures { IfOk result (λ code. map mapped_code_view code.items
        ≡ code_of (memory_view memory.now) dumped.now (map mapped_file_view files.now)) }
{
    let heads = HeadsByPath::of_files(alloc, memory, files)?;
    let mut code = Vec::new(alloc);
    for mapped in files {
        push_code(dumped, heads.file_at(mapped.path), &mut code, *mapped)?;
    }
    Ok(code)
}

/// Appends a mapped file, of which memory has this much, if it is one of code.
fn push_code<'a>(
    dumped: &SegmentsByAddress<'_>,
    file: &FileHead<'a>,
    code: &mut Vec<MappedCode<'a>>,
    mapped: MappedFile<'a>,
) -> Result<(), AllocError>
    ensures { OnOk result ((head : List ℕ) → file_head_view file.now ≡ file_head_of head
        → map mapped_code_view code.new.items ≡ map mapped_code_view code.old.items
        ++ code_by dumped.now head (mapped_file_view mapped.entry)) }
{
    let segments = file.segments.as_slice();
    if is_code(dumped, segments, mapped) {
        code.push(MappedCode {
            start: mapped.start,
            end: mapped.end,
            offset: mapped.offset,
            path: mapped.path,
            head: file.head,
            build_id: file.build_id,
            base: None,
            memory_base: base_in_memory(segments, mapped),
        })?;
    }
    Ok(())
}

/// Returns whether a file is mapped to be executed: as the dumped segment says that has the first address, or else as
/// the segments say that are told by the file's first bytes.
fn is_code(dumped: &SegmentsByAddress<'_>, segments: &[Segment], mapped: MappedFile<'_>) -> bool
    ensures { result ≡ is_mapped_code dumped.now segments.now (mapped_file_view mapped.entry) }
{
    match dumped.at(mapped.start) {
        Some(segment) => segment.is_code,
        None => base_in_memory(segments, mapped).is_some(),
    }
}

/// Returns where the stated address 0 of a mapped file is (AVMA), by the segments that its first bytes tell.
fn base_in_memory(segments: &[Segment], mapped: MappedFile<'_>) -> Option<u64>
    ensures { result ≡ base_in_memory segments.now (mapped_file_view mapped.entry) }
{
    let size = mapped.end.saturating_sub(mapped.start);
    base_avma(segments, mapped.offset, size, mapped.start)
}

/// Appends the vdso, which no file has: from its first address (AVMA) on, as far as the segment of memory has it.
fn push_vdso<'a>(
    alloc: Global,
    memory: &ProcessMemory<'a>,
    dumped: &SegmentsByAddress<'_>,
    vdso: Option<u64>,
    code: &mut Vec<MappedCode<'a>>,
) -> Result<(), AllocError>
    ensures { OnOk result (map mapped_code_view code.new.items ≡ map mapped_code_view code.old.items
        ++ vdso_code (memory_view memory.now) dumped.now vdso) }
{
    let Some(start) = vdso else {
        return Ok(());
    };
    let Some(segment) = dumped.at(start) else {
        return Ok(());
    };
    code.push(vdso_at(alloc, head_at(memory, start), vdso_mapped(start, segment))?)?;
    Ok(())
}

/// Returns where the vdso is mapped, whose first address is in a segment of memory.
fn vdso_mapped<'a>(start: u64, segment: Segment) -> MappedFile<'a>
    ensures { mapped_file_view result ≡ vdso_mapped start segment }
{
    MappedFile {
        start,
        end: segment.address.saturating_add(segment.size),
        offset: 0,
        path: b"[vdso]",
    }
}

/// Returns the vdso as mapped code, by its first bytes.
fn vdso_at<'a>(
    alloc: Global,
    head: &'a [u8],
    mapped: MappedFile<'a>,
) -> Result<MappedCode<'a>, AllocError>
    ensures { IfOk result (λ code. mapped_code_view code ≡ vdso_at head.entry.now (mapped_file_view mapped.entry)) }
{
    let headers = segments_in(alloc, head)?;
    let segments = loaded_segments(alloc, headers.as_slice())?;
    Ok(MappedCode {
        start: mapped.start,
        end: mapped.end,
        offset: mapped.offset,
        path: mapped.path,
        head,
        build_id: &[],
        base: None,
        memory_base: base_in_memory(segments.as_slice(), mapped),
    })
}

/// Returns the name of the program of a process.
fn name_of<'a>(process: Option<Process<'a>>) -> Option<&'a [u8]>
    ensures { option_map (λ name. name.now) result ≡ name_of (option_map process_view process.entry) }
{
    let process = process?;
    Some(process.name)
}

/// Returns the number of a process.
fn pid_of(process: Option<Process<'_>>) -> Option<u32>
    ensures { result ≡ pid_of (option_map process_view process.entry) }
{
    let process = process?;
    Some(process.pid)
}
