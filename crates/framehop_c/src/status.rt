//! The numbers that calls return: below 0 a refusal, else how the call ended.
ghost use Rattle.std.specs.Prelude.{◌≡◌, ◌≢◌, ◌↔◌, Err};
ghost use Rattle.framehop_c.specs.Status.{out_of_memory, missing_word, wrong_handle, status_of_list_error, status_of_error, unreadable_in, status_of_end, unreadable_at, status_of_stop, unreadable_at_stop, status_of_answer, address_in, unreadable_after};
ghost use Rattle.framehop.specs.SessionView.{end_of};

use framehop::session::WalkEnd;
use framehop::{Error, ModuleListError};
use framehop_lent::WalkStop;

/// The call did what it is for.
pub const FRAMEHOP_OK: i32 = 0;

/// A walk has written as many frames as there is room for.
pub const FRAMEHOP_FRAMES_FULL: i32 = 1;

/// The root of the stack.
pub const FRAMEHOP_END: i32 = 2;

/// A walk over windows asks for a word of which none of them tells.
pub const FRAMEHOP_MISSING_WORD: i32 = 3;

/// An allocation failed.
pub const FRAMEHOP_OUT_OF_MEMORY: i32 = -1;

/// The counter of generations is at its end.
pub const FRAMEHOP_GENERATIONS_EXHAUSTED: i32 = -2;

/// A handle leads to an object of another kind, architecture or policy.
pub const FRAMEHOP_WRONG_HANDLE: i32 = -3;

/// The stack word at an address can't be read.
pub const FRAMEHOP_COULD_NOT_READ_STACK: i32 = -10;

/// The caller's frame pointer or stack pointer does not lie above the callee's.
pub const FRAMEHOP_MOVED_BACKWARDS: i32 = -11;

/// The step would give the same frame again.
pub const FRAMEHOP_DID_NOT_ADVANCE: i32 = -12;

/// A stack pointer or a stack address does not fit 64 bits.
pub const FRAMEHOP_INTEGER_OVERFLOW: i32 = -13;

/// A frame has the return address 0.
pub const FRAMEHOP_RETURN_ADDRESS_IS_NULL: i32 = -14;

/// Returns the number of a refusal to change the modules.
pub(crate) fn list_error_status(error: ModuleListError) -> i32
    ensures { result ≡ status_of_list_error error }
{
    match error {
        ModuleListError::OutOfMemory => FRAMEHOP_OUT_OF_MEMORY,
        ModuleListError::GenerationsExhausted => FRAMEHOP_GENERATIONS_EXHAUSTED,
    }
}

/// Returns the number of a refusal to unwind a frame.
pub(crate) fn error_status(error: Error) -> i32
    ensures status { result ≡ status_of_error error }
    ensures memory { (result ≡ out_of_memory) ↔ (error ≡ Error.OutOfMemory) }
    ensures other { (result ≢ wrong_handle) × (result ≢ missing_word) }
{
    match error {
        Error::CouldNotReadStack(_) => FRAMEHOP_COULD_NOT_READ_STACK,
        Error::FramepointerUnwindingMovedBackwards => FRAMEHOP_MOVED_BACKWARDS,
        Error::DidNotAdvance => FRAMEHOP_DID_NOT_ADVANCE,
        Error::IntegerOverflow => FRAMEHOP_INTEGER_OVERFLOW,
        Error::ReturnAddressIsNull => FRAMEHOP_RETURN_ADDRESS_IS_NULL,
        Error::OutOfMemory => FRAMEHOP_OUT_OF_MEMORY,
    }
}

/// Returns the address (AVMA) of the stack word that could not be read, or 0 after another refusal.
pub(crate) fn error_address(error: Error) -> u64
    ensures { result ≡ unreadable_in error }
{
    match error {
        Error::CouldNotReadStack(address) => address,
        _ => 0,
    }
}

/// Returns the number of the end of a walk, and the address of the word that could not be read, or 0.
pub(crate) fn end_status(end: WalkEnd) -> (i32, u64)
    ensures status { result.0 ≡ status_of_end (end_of end) }
    ensures memory { (result.0 ≡ out_of_memory) ↔ (end ≡ WalkEnd.Refused Error.OutOfMemory) }
    ensures no_address { result.0 ≡ out_of_memory → result.1 ≡ 0 }
    ensures other { (result.0 ≢ wrong_handle) × (result.0 ≢ missing_word) }
    ensures address { result.1 ≡ unreadable_at (end_of end) }
{
    match end {
        WalkEnd::Root => (FRAMEHOP_END, 0),
        WalkEnd::Refused(error) => (error_status(error), error_address(error)),
        WalkEnd::Limit => (FRAMEHOP_FRAMES_FULL, 0),
    }
}

/// Returns the number of why a walk over windows has stopped, and the address of the word that could not be
/// read or is missing, or 0.
pub(crate) fn stop_status(stop: WalkStop) -> (i32, u64)
    ensures status { result.0 ≡ status_of_stop stop }
    ensures memory { (result.0 ≡ out_of_memory) ↔ (stop ≡ WalkStop.Ended (WalkEnd.Refused Error.OutOfMemory)) }
    ensures missing { (result.0 ≡ missing_word) ↔ (stop ≡ WalkStop.Missing result.1) }
    ensures no_address { result.0 ≡ out_of_memory → result.1 ≡ 0 }
    ensures other { result.0 ≢ wrong_handle }
    ensures address { result.1 ≡ unreadable_at_stop stop }
{
    match stop {
        WalkStop::Ended(end) => end_status(end),
        WalkStop::Missing(address) => (FRAMEHOP_MISSING_WORD, address),
    }
}

/// Returns the number of what a step returned.
pub(crate) fn answer_status(answer: Result<Option<u64>, Error>) -> i32
    ensures status { result ≡ status_of_answer answer }
    ensures memory { (result ≡ out_of_memory) ↔ (answer ≡ Err Error.OutOfMemory) }
    ensures other { result ≢ wrong_handle }
{
    match answer {
        Ok(Some(_)) => FRAMEHOP_OK,
        Ok(None) => FRAMEHOP_END,
        Err(error) => error_status(error),
    }
}

/// Returns the return address (AVMA) that a step returned, or 0.
pub(crate) fn answered_address(answer: Result<Option<u64>, Error>) -> u64
    ensures { result ≡ address_in answer }
{
    match answer {
        Ok(Some(address)) => address,
        _ => 0,
    }
}

/// Returns the address (AVMA) of the stack word that a step could not read, or 0.
pub(crate) fn refused_address(answer: Result<Option<u64>, Error>) -> u64
    ensures { result ≡ unreadable_after answer }
{
    match answer {
        Err(error) => error_address(error),
        Ok(_) => 0,
    }
}
