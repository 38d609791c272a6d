//! Reports of a dump and of the stacks of its threads, and the walk over these, one thread after another.
ghost use Rattle.std.specs.Prelude.{◌≡◌, false, List, ℕ, IfOk, IfErr, OnOk};
ghost use Rattle.std.specs.Io.KnownBytes.{Appends};
ghost use Rattle.framehop.specs.Modules.{UnwinderView};
ghost use Rattle.framehop.specs.Soundness.{AreApart};
ghost use Rattle.framehop_frames.specs.Notes.{option_noted, AreStackNotes};
ghost use Rattle.framehop_dumps.specs.Dump.{thread_view, dump_view, memory_in};
ghost use Rattle.framehop_dump_stacks.specs.Ended.{MayEnd};
ghost use Rattle.framehop_dump_stacks.specs.Report.{texts_of};
ghost use Rattle.framehop_dump_stacks.specs.Walked.{WalkedThread, AreNotesIf, IsWalked, AreWalked};

use crate::error::DumpStacksError;
use crate::machine::Dumped;
use crate::stack::{DumpMemory, walk_thread};
use framehop_backtrace::RowRoom;
use framehop_cfi::storage::StoreOnStack;
use framehop_dumps::dump::{Dump, Thread};
use framehop_explain::Note;
use framehop_frames::explain::note_stack;
use framehop_frames::stack::Stack;
use framehop_output::Output;
use framehop_processes::files::Files;
use framehop_processes::{Mapping, Process};
use std::alloc::{AllocError, Global};
use std::io::Write;

/// What makes a text of a dump and of its stacks, one thread after another, so that the stack of one thread at a time is in
/// memory.
pub trait Report {
    ghost use Rattle.std.specs.Prelude.{◌≡◌, ◌++◌, ℕ, List, Bool, false, IfOk};
    ghost use Rattle.framehop_frames.specs.Stack.{option_stack_view};
    ghost use Rattle.framehop_processes.specs.Mappings.{IsInOrder};
    ghost use Rattle.framehop_processes.specs.declared.mapping.Mapping.{Mapping};
    ghost use Rattle.framehop_processes.specs.declared.files.Files.{Files};
    ghost use Rattle.framehop_dumps.specs.Dump.{DumpView, thread_view, dump_view};
    ghost use Rattle.framehop_dump_stacks.specs.Report.{texts_of};
    ghost use Rattle.framehop_dump_stacks.specs.Walked.{WalkedThread};

    // it has notes of where frames come from
    ghost is_explained: { Self → Bool };

    // it tells of files of which no stack asks for anything
    ghost is_of_all_files: { Self → Bool };

    // a text is that of a dump, by its files, its mappings, and its threads with their stacks
    ghost is_text: { Self → DumpView → Files → List Mapping → List WalkedThread → List ℕ → Type 0 };

    // a text is the part of it before the threads
    ghost is_head: { Self → DumpView → Files → List Mapping → List ℕ → Type 0 };

    // the part for a thread, which is the first or a later one (`true`)
    ghost thread_text: { Self → DumpView → Files → List Mapping → Bool → WalkedThread → List ℕ };

    // the part after the threads
    ghost end_text: { Self → List ℕ };

    // the parts, one after another, are the text
    ghost is_by_parts: { (report : Self) (dump : DumpView) (files : Files) (mappings : List Mapping) (threads : List WalkedThread) (head : List ℕ)
        → is_head report dump files mappings head
        → is_text report dump files mappings threads
        (head ++ texts_of (thread_text report dump files mappings) false threads ++ end_text report) };

    /// Returns whether the report has notes of where frames come from.
    fn explains(&self) -> bool
        ensures { result ≡ is_explained self.now };

    /// Returns whether the report tells of files of which no stack asks for anything.
    fn tells_all_files(&self) -> bool
        ensures { result ≡ is_of_all_files self.now };

    /// Returns the part of the text before the threads, by a dump's files and its mappings.
    fn head(
        &self,
        alloc: Global,
        dump: &Dump<'_>,
        files: &Files<'_>,
        mappings: &[Mapping],
    ) -> Result<Vec<u8>, AllocError>
        ensures { IfOk result (λ text. is_head self.now (dump_view dump.now) files.now mappings.now text.items) };

    /// Returns the part of the text for a thread with its stack and notes, by a dump's files and its mappings in order. A
    /// stack is `None` where the thread has not the registers with which a walk begins.
    fn thread<R: Copy>(
        &self,
        alloc: Global,
        dump: &Dump<'_>,
        files: &Files<'_>,
        mappings: &[Mapping],
        is_later: bool,
        thread: Thread<'_>,
        stack: &Option<Stack<R>>,
        notes: &[Note],
    ) -> Result<Vec<u8>, AllocError>
        requires { IsInOrder 0 mappings.now }
        ensures { IfOk result (λ text. text.items ≡ thread_text self.now (dump_view dump.now) files.now mappings.now is_later
            (record { thread = thread_view thread.entry; stack = option_stack_view stack.now; notes = notes.now })) };

    /// Returns the part of the text after the threads.
    fn end(&self) -> &'static [u8]
        ensures { result.now ≡ end_text self.now };
}

/// Writes the text of a dump, one thread after another.
///
/// # Errors
///
/// `OutOfMemory` and `CannotWrite`. A part of the text may have been written.
pub(crate) fn write_report<U: Dumped, R: Report, W: Write>(
    alloc: Global,
    dump: &Dump<'_>,
    files: &Files<'_>,
    process: &Process<U>,
    limit: u32,
    report: &R,
    out: &mut Output<W>,
) -> Result<(), DumpStacksError>
where
    U::Cache: Drop,
    ensures printed { OnOk result ((threads : List WalkedThread)
        × AreWalked U.walker U.begins limit U.is_note (R.is_explained report.now) files.now process.now.mappings
        process.now.unwinder.modules (dump_view dump.now) (dump_view dump.now).threads threads
        × ((text : List ℕ) × R.is_text report.now (dump_view dump.now) files.now process.now.mappings threads text
        × Appends out.old.bytes out.new.bytes text)) }
    ensures refused { IfErr result (MayEnd out.new.has_failed 0) }
    ensures noted { OnOk result (out.new.has_failed ≡ out.old.has_failed) }
{
    let head = report.head(alloc, dump, files, process.mappings())?;
    write_part(out, head.as_slice())?;
    write_threads(alloc, dump, files, process, limit, report, out)?;
    write_part(out, report.end())
}

/// Writes a part of a text.
pub(crate) fn write_part<W: Write>(out: &mut Output<W>, part: &[u8]) -> Result<(), DumpStacksError>
    ensures written { OnOk result (Appends out.old.bytes out.new.bytes part.now) }
    ensures refused { IfErr result (MayEnd out.new.has_failed 0) }
    ensures noted { OnOk result (out.new.has_failed ≡ out.old.has_failed) }
{
    out.write_all(part)?;
    Ok(())
}

/// Writes the parts of all threads, in their order.
fn write_threads<U: Dumped, R: Report, W: Write>(
    alloc: Global,
    dump: &Dump<'_>,
    files: &Files<'_>,
    process: &Process<U>,
    limit: u32,
    report: &R,
    out: &mut Output<W>,
) -> Result<(), DumpStacksError>
where
    U::Cache: Drop,
    ensures printed { OnOk result ((threads : List WalkedThread)
        × AreWalked U.walker U.begins limit U.is_note (R.is_explained report.now) files.now process.now.mappings
        process.now.unwinder.modules (dump_view dump.now) (dump_view dump.now).threads threads
        × Appends out.old.bytes out.new.bytes
        (texts_of (R.thread_text report.now (dump_view dump.now) files.now process.now.mappings) false threads)) }
    ensures refused { IfErr result (MayEnd out.new.has_failed 0) }
    ensures noted { OnOk result (out.new.has_failed ≡ out.old.has_failed) }
{
    let mut room = RowRoom::new_in(alloc)?;
    let mut cache = U::new_cache(alloc)?;
    let threads = dump.threads.as_slice();
    for (number, thread) in threads.iter().enumerate() {
        let text = thread_text(
            alloc,
            dump,
            files,
            process,
            &mut room,
            &mut cache,
            limit,
            report,
            number > 0,
            *thread,
        )?;
        write_part(out, text.as_slice())?;
    }
    Ok(())
}

/// Returns the part of a thread, which is the first or a later one.
fn thread_text<U: Dumped, R: Report>(
    alloc: Global,
    dump: &Dump<'_>,
    files: &Files<'_>,
    process: &Process<U>,
    room: &mut RowRoom<StoreOnStack>,
    cache: &mut U::Cache,
    limit: u32,
    report: &R,
    is_later: bool,
    thread: Thread<'_>,
) -> Result<Vec<u8>, AllocError>
    ensures stays_sound { (other : UnwinderView) → AreApart process.now.unwinder other
        → U.is_sound other cache.old → U.is_sound other cache.new }
    ensures told { U.is_sound process.now.unwinder cache.old → IfOk result (λ text. (walked : WalkedThread)
        × IsWalked U.walker U.begins limit U.is_note (R.is_explained report.now) files.now process.now.mappings
        process.now.unwinder.modules (dump_view dump.now) (thread_view thread.entry) walked
        × (text.items ≡ R.thread_text report.now (dump_view dump.now) files.now process.now.mappings is_later walked)) }
{
    let walked = walk_thread(alloc, dump, files, process, room, cache, thread, limit)?;
    let notes = notes_of(alloc, dump, process, report.explains(), &walked)?;
    report.thread(
        alloc,
        dump,
        files,
        process.mappings(),
        is_later,
        thread,
        &walked,
        notes.as_slice(),
    )
}

/// Returns the notes for the lines of a stack's block, if they are asked for.
fn notes_of<U: Dumped>(
    alloc: Global,
    dump: &Dump<'_>,
    process: &Process<U>,
    explains: bool,
    walked: &Option<Stack<U::UnwindRegs>>,
) -> Result<Vec<Note>, AllocError>
    ensures { IfOk result (λ notes. AreNotesIf explains
        (AreStackNotes (U.is_note process.now.unwinder.modules (memory_in (dump_view dump.now))) (option_noted walked.now)) notes.items) }
{
    let mut notes = Vec::new(alloc);
    if explains {
        let memory = DumpMemory { dump };
        note_stack(alloc, process.unwinder(), &memory, walked, &mut notes)?;
    }
    Ok(notes)
}
