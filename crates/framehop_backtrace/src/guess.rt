//! What tells that a word of a stack is the return address of a call.
ghost use Rattle.std.specs.Prelude.{◌≡◌};
ghost use Rattle.framehop_backtrace.specs.Guess.{rank_of, is_better, prefers_frame_pointer, evidence_of_call, evidence_at, evidence_of};

use crate::machine::BacktraceUnwinder;
use crate::memory::{CodeMemory, is_in_code, is_unread};
use framehop_core::Error;

/// What the code before an address tells of a call to a function from there.
#[derive(Clone, Copy)]
pub(crate) enum Evidence {
    /// The address lies in no code, or after no call.
    NoCall,

    /// It lies after a call that may lead to the function, or after code that nobody has. A call that leads to another
    /// function is one: that may jump on to the function.
    PossibleCall,

    /// It lies after a call that leads to the function's start.
    Call,
}

impl Evidence {
    /// Returns whether this makes an address likelier than other evidence makes another one.
    pub(crate) fn is_better(self, other: Evidence) -> bool
        ensures { result ≡ is_better self other }
    {
        self.rank() > other.rank()
    }

    /// Returns how much it tells.
    fn rank(self) -> u8
        ensures { result ≡ rank_of self }
    {
        match self {
            Evidence::NoCall => 0,
            Evidence::PossibleCall => 1,
            Evidence::Call => 2,
        }
    }
}

/// Returns whether the frame pointer's address is preferred to a guess, by what tells that they are return addresses, and by
/// whether the function has set its frame pointer: what is at the stack pointer then is no return address, if the function
/// has stored anything since.
pub(crate) fn prefers_frame_pointer(is_set: bool, followed: Evidence, guess: Evidence) -> bool
    ensures { result ≡ prefers_frame_pointer is_set followed guess }
{
    if is_set {
        followed.is_better(Evidence::NoCall) && !guess.is_better(followed)
    } else {
        followed.is_better(guess)
    }
}

/// Returns what tells that what a step returns is the return address of a call to a function, whose start (AVMA) may be
/// known.
pub(crate) fn evidence_of<U: BacktraceUnwinder, M: CodeMemory>(
    memory: &M,
    start: Option<u64>,
    answer: Result<Option<u64>, Error>,
) -> Evidence
    ensures { result ≡ evidence_of U.machine (M.code memory.now) start answer }
{
    match answer {
        Ok(Some(address)) => evidence_at::<U, M>(memory, start, address),
        Ok(None) => Evidence::NoCall,
        Err(_) => Evidence::NoCall,
    }
}

/// Returns the same of an address (AVMA).
pub(crate) fn evidence_at<U: BacktraceUnwinder, M: CodeMemory>(
    memory: &M,
    start: Option<u64>,
    address: u64,
) -> Evidence
    ensures { result ≡ evidence_at U.machine (M.code memory.now) start address }
{
    if !is_in_code(memory, address) {
        return Evidence::NoCall;
    }
    if U::is_after_call(memory, address) {
        let target = U::call_target(memory, address);
        return evidence_of_call(start, target);
    }
    if is_unread(memory, address) {
        return Evidence::PossibleCall;
    }
    Evidence::NoCall
}

/// Returns what a call to a target (AVMA) tells of a function with a start (AVMA), if these are known.
fn evidence_of_call(start: Option<u64>, target: Option<u64>) -> Evidence
    ensures { result ≡ evidence_of_call start target }
{
    match (start, target) {
        (Some(start), Some(target)) => {
            if target == start {
                Evidence::Call
            } else {
                Evidence::PossibleCall
            }
        }
        (Some(_), None) => Evidence::PossibleCall,
        (None, _) => Evidence::PossibleCall,
    }
}
