//! The stack of a sample, and how it ends: as a walk did, as a call chain does, or there is none.
ghost use Rattle.std.specs.Prelude.{◌≡◌, ◌++◌, [], map, IfOk, OnOk};
ghost use Rattle.framehop_frames.specs.Stack.{shown_frame, option_stack_view};
ghost use Rattle.framehop_perf_stacks.specs.Samples.{end_of, stack_of, walked_over, unread_stack, name_of_end, address_of_end, text_of_end, mark_of_part, mark_of_end, is_copy_full, is_in_larger_copy, is_end_of_copy, is_cut};

use crate::run::Options;
use framehop::Error;
use framehop_backtrace::BacktraceEnd;
use framehop_frames::line;
use framehop_frames::line::{end_name, push_end, push_mark};
use framehop_frames::stack::{Stack, StackFrame};
use framehop_processes::Mapping;
use framehop_processes::files::Files;
use framehop_recording::sample::Sample;
use std::alloc::{AllocError, Global};

/// How many bytes of a stack the kernel copies at most, and perf asks for.
const MOST_COPIED: u64 = 65528;

/// How the stack of a sample ends.
#[derive(Clone, Copy, Drop)]
pub(crate) enum StackEnd {
    /// As a walk did over a copy of the stack that begins at `base` (AVMA).
    Walked { base: u64, end: BacktraceEnd },
    /// As a call chain does, of which no end is told.
    CallChain,
    /// There is none, for this reason.
    NoStack(&'static str),
}

/// The stack of a sample.
#[derive(Clone, Copy, Drop)]
pub(crate) struct EndedStack<'a, R: Copy> {
    /// Its frames, the innermost first.
    pub frames: &'a [StackFrame<R>],
    /// How it ends.
    pub end: StackEnd,
}

/// A sample, with what tells of its stack.
#[derive(Clone, Copy, Drop)]
pub(crate) struct SampleAt<'a, 'm> {
    /// None where it can't be read.
    pub sample: Option<Sample<'a>>,
    /// The name of its thread.
    pub name: &'a [u8],
    /// The mappings of its process, in order.
    pub mappings: &'a [Mapping],
    /// The files of the recording.
    pub files: &'a Files<'m>,
    /// What is asked for.
    pub options: Options<'a>,
}

/// Returns the stack of a walk over a copy that begins at an address (AVMA), or that there is none.
pub(crate) fn walked_stack<R: Copy>(walked: &Option<Stack<R>>, base: u64) -> EndedStack<'_, R>
    ensures { stack_of result ≡ walked_over base (option_stack_view walked.entry.now) }
{
    let Some(stack) = walked else {
        return no_stack("no-registers");
    };
    EndedStack {
        frames: stack.frames.as_slice(),
        end: StackEnd::Walked {
            base,
            end: stack.end,
        },
    }
}

/// Returns the stack of a call chain, or that there is none, and why, where that has no frames.
pub(crate) fn chain_stack<'a>(frames: &'a [StackFrame<()>], why: &'static str) -> EndedStack<'a, ()>
    ensures { stack_of result ≡ unread_stack why.entry.now (map shown_frame frames.entry.now) }
{
    if frames.is_empty() {
        return no_stack(why);
    }
    EndedStack {
        frames,
        end: StackEnd::CallChain,
    }
}

/// Returns that there is no stack, and why.
pub(crate) fn no_stack<'a, R: Copy>(why: &'static str) -> EndedStack<'a, R>
    ensures { stack_of result ≡ unread_stack why.entry.now [] }
{
    EndedStack {
        frames: &[],
        end: StackEnd::NoStack(why),
    }
}

/// Returns what the end of a stack is called.
pub(crate) fn name_of_end(end: StackEnd) -> &'static str
    ensures { result.now ≡ name_of_end (end_of end) }
{
    match end {
        StackEnd::Walked { end, .. } => end_name(end),
        StackEnd::CallChain => "callchain",
        StackEnd::NoStack(why) => why,
    }
}

/// Returns the address (AVMA) at which a stack ended, if it ended at one.
pub(crate) fn address_of_end(end: StackEnd) -> Option<u64>
    ensures { result ≡ address_of_end (end_of end) }
{
    match end {
        StackEnd::Walked { end, .. } => line::address_of_end(end),
        StackEnd::CallChain | StackEnd::NoStack(_) => None,
    }
}

/// Returns what the end of a stack is called, with its address, if it has one.
pub(crate) fn text_of_end(alloc: Global, end: StackEnd) -> Result<Vec<u8>, AllocError>
    ensures { IfOk result (λ text. text.items ≡ text_of_end (end_of end)) }
{
    match end {
        StackEnd::Walked { end, .. } => line::end_text(alloc, end),
        end => Vec::from_slice(alloc, name_of_end(end).as_bytes()),
    }
}

/// Appends the mark of the end of a folded stack, of which all frames are there, or a part.
pub(crate) fn push_mark_of_end(
    line: &mut Vec<u8>,
    end: StackEnd,
    is_part: bool,
) -> Result<(), AllocError>
    ensures { OnOk result (line.new.items ≡ line.old.items ++ mark_of_end (end_of end) is_part) }
{
    match end {
        StackEnd::Walked { end, .. } => push_mark_of_part(line, end, is_part),
        StackEnd::CallChain => {
            push_mark(line, "callchain")?;
            push_mark_of_part(line, BacktraceEnd::Root, is_part)
        }
        StackEnd::NoStack(why) => push_mark(line, why),
    }
}

/// Appends the mark of a walk, of which all frames are there, or a part: of its end, or that it is cut before a frame that is
/// not sure.
fn push_mark_of_part(line: &mut Vec<u8>, end: BacktraceEnd, is_part: bool) -> Result<(), AllocError>
    ensures { OnOk result (line.new.items ≡ line.old.items ++ mark_of_part end is_part) }
{
    if is_part {
        return push_mark(line, "not-sure");
    }
    push_end(line, end)
}

/// Returns whether a stack is cut: its walk ended at a word that a larger copy would have, and its sample's copy is full.
pub(crate) fn is_cut(sample: Option<Sample<'_>>, end: StackEnd) -> bool
    ensures { result ≡ is_cut (is_copy_full sample.entry) (end_of end) }
{
    match end {
        StackEnd::Walked { base, end } => is_copy_full(sample) && is_end_of_copy(base, end),
        StackEnd::CallChain | StackEnd::NoStack(_) => false,
    }
}

/// Returns whether the copy of a sample's stack is full.
fn is_copy_full(sample: Option<Sample<'_>>) -> bool
    ensures { result ≡ is_copy_full sample.entry }
{
    match sample {
        Some(Sample { user: Ok(user), .. }) => user.is_full,
        _ => false,
    }
}

/// Returns whether a walk ended at a word that a larger copy of the stack would have, by where the copy begins (AVMA).
fn is_end_of_copy(base: u64, end: BacktraceEnd) -> bool
    ensures { result ≡ is_end_of_copy base end }
{
    match end {
        BacktraceEnd::Refused(Error::CouldNotReadStack(address)) => {
            is_in_larger_copy(base, address)
        }
        _ => false,
    }
}

/// Returns whether a larger copy of a stack, which begins at the same address (AVMA), would have the word at another one.
fn is_in_larger_copy(base: u64, address: u64) -> bool
    ensures { result ≡ is_in_larger_copy base address }
{
    base <= address && address - base <= MOST_COPIED - 8
}
