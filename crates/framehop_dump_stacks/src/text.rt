//! The threads of a process as text: a block for each.
ghost use Rattle.std.specs.Prelude.{◌≡◌, ◌++◌, option_map, string_bytes, IfOk, OnOk};
ghost use Rattle.framehop_processes.specs.Mappings.{IsInOrder};
ghost use Rattle.framehop_frames.specs.Numbered.{numbered_text};
ghost use Rattle.framehop_frames.specs.Stack.{option_stack_view};
ghost use Rattle.framehop_dumps.specs.Dump.{thread_view};
ghost use Rattle.framehop_dump_stacks.specs.Text.{name_text, numbers_text, thread_name_text, reason_text, cause_text, thread_head};

use crate::exception::{exception_text, unnamed_exception};
use crate::report::Report;
use crate::signal::signal_text;
use framehop_dumps::dump::{Cause, Dump, Thread};
use framehop_explain::Note;
use framehop_frames::explain::shown_block;
use framehop_frames::line::{push_name, refused_block};
use framehop_frames::numbered::numbered_block;
use framehop_frames::stack::Stack;
use framehop_processes::Mapping;
use framehop_processes::files::Files;
use std::alloc::{AllocError, Global};

/// Makes text of a dump: a block for each thread.
#[derive(Clone, Copy, Drop)]
pub struct Text {
    /// Whether a note under each frame says what its caller came from.
    pub explain: bool,
}

impl Report for Text {
    ghost use Rattle.std.specs.Prelude.{◌≡◌, [], false};
    ghost use Rattle.framehop_dump_stacks.specs.Text.{block_text, blocks_text};
    ghost use Rattle.framehop_dump_stacks.specs.Laws.TextParts.{is-by-parts};

    ghost is_explained = { λ report. report.explain };

    ghost is_of_all_files = { λ report. false };

    ghost is_text = { λ report dump files mappings threads text. text ≡ blocks_text report.explain dump files mappings threads };

    ghost is_head = { λ report dump files mappings text. text ≡ [] };

    ghost thread_text = { λ report dump files mappings later walked. block_text report.explain dump files mappings walked };

    ghost end_text = { λ report. [] };

    ghost is_by_parts = { λ report. is-by-parts report.explain };

    fn explains(&self) -> bool {
        self.explain
    }

    fn tells_all_files(&self) -> bool {
        false
    }

    fn head(
        &self,
        alloc: Global,
        _dump: &Dump<'_>,
        _files: &Files<'_>,
        _mappings: &[Mapping],
    ) -> Result<Vec<u8>, AllocError> {
        Ok(Vec::new(alloc))
    }

    fn thread<R: Copy>(
        &self,
        alloc: Global,
        dump: &Dump<'_>,
        files: &Files<'_>,
        mappings: &[Mapping],
        _is_later: bool,
        thread: Thread<'_>,
        stack: &Option<Stack<R>>,
        notes: &[Note],
    ) -> Result<Vec<u8>, AllocError> {
        let head = thread_head(alloc, dump.name, dump.pid, thread)?;
        let lines = stack_lines(alloc, files, mappings, stack)?;
        let (head, lines) = (head.as_slice(), lines.as_slice());
        shown_block(alloc, head, lines, self.explain, notes)
    }

    fn end(&self) -> &'static [u8] {
        b""
    }
}

/// Returns the lines of a stack's frames and of the end of its walk, by its process's mappings in order.
fn stack_lines<R: Copy>(
    alloc: Global,
    files: &Files<'_>,
    mappings: &[Mapping],
    stack: &Option<Stack<R>>,
) -> Result<Vec<u8>, AllocError>
    requires { IsInOrder 0 mappings.now }
    ensures { IfOk result (λ block. block.items ≡ numbered_text files.now mappings.now (option_stack_view stack.now)) }
{
    match stack {
        Some(stack) => numbered_block(alloc, files, mappings, stack),
        None => refused_block(alloc, "no-registers"),
    }
}

/// Returns the head of a thread's block.
#[tactic(auto, unfolding(crate::specs::Text::thread_head))]
fn thread_head(
    alloc: Global,
    name: Option<&[u8]>,
    pid: Option<u32>,
    thread: Thread<'_>,
) -> Result<Vec<u8>, AllocError>
    ensures { IfOk result (λ head. head.items ≡ thread_head (option_map (λ name. name.now) name.entry) pid (thread_view thread.entry)) }
{
    let mut head = Vec::new(alloc);
    push_program(&mut head, name)?;
    let numbers = numbers_text(alloc, pid, thread.tid)?;
    head.extend_from_slice(numbers.as_bytes())?;
    push_thread_name(&mut head, thread.name)?;
    let cause = cause_text(alloc, thread.cause)?;
    head.extend_from_slice(cause.as_bytes())?;
    Ok(head)
}

/// Appends the name of the program.
fn push_program(text: &mut Vec<u8>, name: Option<&[u8]>) -> Result<(), AllocError>
    ensures { OnOk result (text.new.items ≡ text.old.items ++ name_text (option_map (λ name. name.now) name.entry)) }
{
    match name {
        Some(name) => push_name(text, name),
        None => Ok(text.extend_from_slice(b"[unknown]")?),
    }
}

/// Returns the numbers of the process and of the thread.
fn numbers_text(alloc: Global, pid: Option<u32>, tid: u32) -> Result<String, AllocError>
    ensures { IfOk result (λ text. string_bytes text ≡ numbers_text pid tid) }
{
    match pid {
        Some(pid) => Ok(format!(in alloc; " {pid}/{tid}")?),
        None => Ok(format!(in alloc; " {tid}")?),
    }
}

/// Appends the name of a thread, if the file tells it.
fn push_thread_name(text: &mut Vec<u8>, name: Option<&[u8]>) -> Result<(), AllocError>
    ensures { OnOk result (text.new.items ≡ text.old.items ++ thread_name_text (option_map (λ name. name.now) name.entry)) }
{
    if let Some(name) = name {
        text.extend_from_slice(b" \"")?;
        push_name(text, name)?;
        text.extend_from_slice(b"\"")?;
    }
    Ok(())
}

/// Returns how the head of a block ends: with what ended the process, if it was this thread that got it.
fn cause_text(alloc: Global, cause: Option<Cause>) -> Result<String, AllocError>
    ensures { IfOk result (λ text. string_bytes text ≡ cause_text cause) }
{
    let Some(cause) = cause else {
        return Ok(format!(in alloc; ":\n")?);
    };
    let reason = reason_text(alloc, cause)?;
    let reason = reason.as_str();
    Ok(format!(in alloc; " crashed by {reason}:\n")?)
}

/// Returns what ended a process.
pub fn reason_text(alloc: Global, cause: Cause) -> Result<String, AllocError>
    ensures { IfOk result (λ text. string_bytes text ≡ reason_text cause) }
{
    match cause {
        Cause::Signal(signal) => signal_text(alloc, signal),
        Cause::Exception(exception) => exception_text(alloc, exception),
        Cause::Other(code) => unnamed_exception(alloc, code),
    }
}
