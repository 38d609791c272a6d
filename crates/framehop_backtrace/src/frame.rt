//! Frames of a backtrace, and how it ends.
ghost use Rattle.std.specs.Prelude.{◌≡◌};
ghost use Rattle.framehop_core.specs.CodeAddress.{at_instruction_pointer};
ghost use Rattle.framehop_backtrace.specs.Backtrace.{frame_view, end_of_refusal, is_stored, is_unknown, root_of};

use framehop_callers::caller::RowRefusal;
use framehop_callers::register_file::RegisterFile;
use framehop_cfi::rule::RegisterRule;
use framehop_core::{Error, FrameAddress};

/// How a frame was found.
#[derive(Clone, Copy, PartialEq, Eq)]
pub enum FoundBy {
    /// It is the one from which the backtrace starts.
    First,

    /// By unwind data of the module that covers its callee.
    Cfi,

    /// A signal interrupted it: its registers are in the signal frame.
    Signal,

    /// By running its callee's code to the return, where call frames of the callee's module do not cover it, or its row
    /// needs what isn't known. It is right after a call, or after code that nobody has.
    Run,

    /// By the frame pointer of its callee, of which no unwind data is known.
    FramePointer,

    /// By the rule of a function's start, since the callee's module has call frames that do not cover it. It is right
    /// after a call, or after code that nobody has.
    Guess,
}

/// How a backtrace ended.
#[derive(Clone, Copy, PartialEq, Eq)]
pub enum BacktraceEnd {
    /// Unwind data says that the last frame is the outermost one.
    Root,

    /// The last frame has no unwind data, and its frame pointer or the return address there is 0.
    FramePointerZero,

    /// At the limit of frames.
    Limit,

    /// The signal frame of the last frame, a trampoline, can't be read.
    SignalFrameUnread,

    /// The canonical frame address (CFA) of the last frame's row can't be evaluated: a register isn't known, or a word
    /// can't be read.
    CfaUnknown,

    /// The same holds of its return address.
    ReturnAddressUnknown,

    /// The caller by the last frame's row would be the frame itself.
    DidNotAdvance,

    /// The last frame has no row, and its stack pointer or frame pointer isn't known.
    RegistersUnknown,

    /// The step of the last frame was refused.
    Refused(Error),

    /// The last frame has no row, and no caller that may be right after a call.
    NoCaller,

    /// The return address (AVMA) of the last frame lies in no executable memory.
    NotCode(u64),
}

/// A frame of a stack.
#[derive(Clone, Copy, Drop)]
pub struct Frame<R: Copy> {
    /// Where it is in its code.
    pub address: FrameAddress,
    /// Its registers, each known or not.
    pub columns: RegisterFile,
    /// The registers for a step of the library: those that are known, and for others what a frame further in had.
    pub regs: R,
    /// How it was found.
    pub found: FoundBy,
}

impl<R: Copy> Frame<R> {
    /// Returns the frame from which a backtrace starts: its instruction pointer (AVMA), the registers that are known, and
    /// all of them as the library's step takes them.
    pub fn first(pc: u64, columns: RegisterFile, regs: R) -> Self
        ensures { frame_view result ≡ record { location = at_instruction_pointer pc; columns = columns; regs = regs; found = FoundBy.First } }
    {
        Frame {
            address: FrameAddress::from_instruction_pointer(pc),
            columns,
            regs,
            found: FoundBy::First,
        }
    }
}

/// Returns the end at a frame whose row gives no caller.
pub(crate) fn end_of_refusal(refusal: RowRefusal) -> BacktraceEnd
    ensures { result ≡ end_of_refusal refusal }
{
    match refusal {
        RowRefusal::Outermost => BacktraceEnd::Root,
        RowRefusal::CfaUnknown => BacktraceEnd::CfaUnknown,
        RowRefusal::ReturnAddressUnknown => BacktraceEnd::ReturnAddressUnknown,
        RowRefusal::DidNotAdvance => BacktraceEnd::DidNotAdvance,
    }
}

/// Returns whether a row has the return address in memory, by its rule for that.
pub(crate) fn is_stored(rule: Option<RegisterRule>) -> bool
    ensures { result ≡ is_stored rule }
{
    match rule {
        Some(RegisterRule::Offset(_)) => true,
        Some(_) => false,
        None => false,
    }
}

/// Returns whether a row has this end since it needs what isn't known and a run may tell: all but the word in which the
/// return address is stored, which a run would read, too.
pub(crate) fn is_unknown(is_stored: bool, end: BacktraceEnd) -> bool
    ensures { result ≡ is_unknown is_stored end }
{
    match end {
        BacktraceEnd::CfaUnknown => true,
        BacktraceEnd::ReturnAddressUnknown => !is_stored,
        BacktraceEnd::Root
        | BacktraceEnd::FramePointerZero
        | BacktraceEnd::Limit
        | BacktraceEnd::SignalFrameUnread
        | BacktraceEnd::DidNotAdvance
        | BacktraceEnd::RegistersUnknown
        | BacktraceEnd::Refused(_)
        | BacktraceEnd::NoCaller
        | BacktraceEnd::NotCode(_) => false,
    }
}

/// Returns the end where a step of this kind finds no caller.
pub(crate) fn root_of(found: FoundBy) -> BacktraceEnd
    ensures { result ≡ root_of found }
{
    match found {
        FoundBy::FramePointer | FoundBy::Guess | FoundBy::Run => BacktraceEnd::FramePointerZero,
        FoundBy::First | FoundBy::Cfi | FoundBy::Signal => BacktraceEnd::Root,
    }
}
