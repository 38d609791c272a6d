//! Notes under the lines of a stack's block: where each frame's caller comes from, and why its walk ended.
ghost use Rattle.std.specs.Prelude.{◌≡◌, ◌+◌, ℕ, List, [], ◌∷◌, ◌++◌, length, map, IfOk, OnOk};
ghost use Rattle.framehop_core.specs.ErrorText.{error_text};
ghost use Rattle.framehop_explain.specs.Note.{note_line};
ghost use Rattle.framehop_frames.specs.Explained.{shown_with};
ghost use Rattle.framehop_frames.specs.Notes.{noted_frame, option_noted, caller_of, end_note, IsFrameNote, AreFrameNotes, AreStackNotes};
ghost use Rattle.framehop_frames.specs.Stack.{line_count, option_stack_view};

use crate::machine::Steps;
use crate::stack::{Stack, StackFrame};
use framehop::Error;
use framehop::walk::Words;
use framehop_backtrace::{BacktraceEnd, FoundBy};
use framehop_explain::{Note, annotated};
use std::alloc::{AllocError, Global};

/// Appends a note for each line of the block of a stack: nothing of its head, where each frame's caller comes from, over
/// words, why the walk ended, and nothing of the blank line.
pub fn note_stack<U: Steps, M: Words>(
    alloc: Global,
    unwinder: &U,
    words: &M,
    walked: &Option<Stack<U::UnwindRegs>>,
    notes: &mut Vec<Note>,
) -> Result<(), AllocError>
    ensures noted { OnOk result (length notes.new.items ≡ length notes.old.items + line_count (option_stack_view walked.now)) }
    ensures notes { OnOk result ((added : List (List ℕ)) × AreStackNotes (U.is_note (U.unwinder_view unwinder.now).modules (M.memory words.now))
        (option_noted walked.now) added × (notes.new.items ≡ notes.old.items ++ added)) }
{
    notes.push(Note::new(alloc))?;
    match walked {
        Some(stack) => note_walked(alloc, unwinder, words, stack, notes)?,
        None => notes.push(Note::new(alloc))?,
    }
    notes.push(Note::new(alloc))?;
    Ok(())
}

/// Notes where the caller of each frame comes from, and why the walk was refused, if it was.
fn note_walked<U: Steps, M: Words>(
    alloc: Global,
    unwinder: &U,
    words: &M,
    stack: &Stack<U::UnwindRegs>,
    notes: &mut Vec<Note>,
) -> Result<(), AllocError>
    ensures noted { OnOk result (length notes.new.items ≡ length notes.old.items + length stack.now.frames.items + 1) }
    ensures notes { OnOk result ((added : List (List ℕ)) × AreFrameNotes (U.is_note (U.unwinder_view unwinder.now).modules (M.memory words.now))
        stack.now.step_end (map noted_frame stack.now.frames.items) added
        × (notes.new.items ≡ notes.old.items ++ (added ++ end_note stack.now.end ∷ []))) }
{
    let frames = stack.frames.as_slice();
    note_frames(alloc, unwinder, words, frames, stack.step_end, notes)?;
    notes.push(end_note(alloc, stack.end)?)?;
    Ok(())
}

/// Notes where the caller of each frame comes from, and how the step from the last ended.
fn note_frames<U: Steps, M: Words>(
    alloc: Global,
    unwinder: &U,
    words: &M,
    frames: &[StackFrame<U::UnwindRegs>],
    end: BacktraceEnd,
    notes: &mut Vec<Note>,
) -> Result<(), AllocError>
    ensures noted { OnOk result (length notes.new.items ≡ length notes.old.items + length frames.now) }
    ensures notes { OnOk result ((added : List (List ℕ)) × AreFrameNotes (U.is_note (U.unwinder_view unwinder.now).modules (M.memory words.now))
        end (map noted_frame frames.now) added × (notes.new.items ≡ notes.old.items ++ added)) }
{
    for (at, frame) in frames.iter().enumerate() {
        let caller = caller_of(&frames[at + 1..], end);
        notes.push(frame_note(alloc, unwinder, words, frame, caller)?)?;
    }
    Ok(())
}

/// Returns how the caller of a frame was found, by the frames after it, or how the walk ended there.
fn caller_of<R: Copy>(later: &[StackFrame<R>], end: BacktraceEnd) -> Result<FoundBy, BacktraceEnd>
    ensures { result ≡ caller_of end (map noted_frame later.now) }
{
    match later.first() {
        Some(caller) => Ok(caller.found),
        None => Err(end),
    }
}

/// Returns the note of a frame, by how its caller was found, or how the walk ended there.
fn frame_note<U: Steps, M: Words>(
    alloc: Global,
    unwinder: &U,
    words: &M,
    frame: &StackFrame<U::UnwindRegs>,
    caller: Result<FoundBy, BacktraceEnd>,
) -> Result<Note, AllocError>
    ensures { IfOk result (λ note. IsFrameNote (U.is_note (U.unwinder_view unwinder.now).modules (M.memory words.now))
        (noted_frame frame.now) caller note) }
{
    if frame.is_trampoline {
        return Note::new(alloc).with_line("a signal frame: the registers of the interrupted code");
    }
    unwinder.frame_note(alloc, frame.address, frame.regs, caller, words)
}

/// Returns the note of the end of a walk: why it was refused, if it was.
fn end_note(alloc: Global, end: BacktraceEnd) -> Result<Note, AllocError>
    ensures { IfOk result (λ note. note ≡ end_note end) }
{
    match end {
        BacktraceEnd::Refused(error) => refusal_note(alloc, error),
        _ => Ok(Note::new(alloc)),
    }
}

/// Returns the note of a refusal.
fn refusal_note(alloc: Global, error: Error) -> Result<Note, AllocError>
    ensures { IfOk result (λ note. note ≡ note_line (error_text error)) }
{
    let line = format!(in alloc; "{error}")?;
    Note::new(alloc).with_line(line.as_str())
}

/// Returns the block of a stack after its head, with notes under its lines where it is to be explained.
pub fn shown_block(
    alloc: Global,
    head: &[u8],
    block: &[u8],
    explain: bool,
    notes: &[Note],
) -> Result<Vec<u8>, AllocError>
    ensures { IfOk result (λ shown. shown.items ≡ shown_with explain notes.now (head.now ++ block.now)) }
{
    let mut text = Vec::from_slice(alloc, head)?;
    text.extend_from_slice(block)?;
    if explain {
        return Ok(annotated(alloc, text.as_slice(), notes)?);
    }
    Ok(text)
}
