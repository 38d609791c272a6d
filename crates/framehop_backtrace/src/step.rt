//! Steps of the library over a memory.
ghost use Rattle.std.specs.Prelude.{◌≡◌, ◌≢◌, Err, true};
ghost use Rattle.framehop_core.specs.CodeAddress.{location_of};
ghost use Rattle.framehop_core.specs.Memory.{reply};
ghost use Rattle.framehop_core.specs.Outcome.{HasDone};
ghost use Rattle.framehop.specs.Modules.{UnwinderView};
ghost use Rattle.framehop.specs.Soundness.{AreApart};

use framehop::Unwinder;
use framehop_callers::memory::WordMemory;
use framehop_core::unwind_rule::UnwindRule;
use framehop_core::{Error, FrameAddress};

/// Unwinds a frame by the library's step over a memory.
///
/// # Errors
///
/// Those of [`Unwinder::unwind_frame`].
pub fn step<U: Unwinder, M: WordMemory>(
    unwinder: &U,
    cache: &mut U::Cache,
    memory: &M,
    address: FrameAddress,
    regs: &mut U::UnwindRegs,
) -> Result<Option<u64>, Error>
    ensures stays_sound { (other : UnwinderView) → AreApart (U.unwinder_view unwinder.now) other
        → U.is_sound other cache.old → U.is_sound other cache.new }
    ensures may_run_out { result ≡ Err Error.OutOfMemory → U.may_run_out unwinder.now cache.old (location_of address) }
    ensures done { U.is_sound (U.unwinder_view unwinder.now) cache.old → result ≢ Err Error.OutOfMemory
        → HasDone (U.step unwinder.now (location_of address) regs.old (M.memory memory.now)) result regs.old regs.new }
{
    let mut read_stack = |address: u64| -> Result<u64, ()>
        ensures { result ≡ reply (M.memory memory.entry.now address) }
    { read(memory, address) };
    unwinder.unwind_frame(address, regs, cache, &mut read_stack)
}

/// Unwinds a frame by the rule that follows the frame pointer, over a memory.
///
/// # Errors
///
/// Those of [`UnwindRule::exec`].
pub(crate) fn follow_frame_pointer<R: UnwindRule, M: WordMemory>(
    memory: &M,
    is_first_frame: bool,
    regs: &mut R::UnwindRegs,
) -> Result<Option<u64>, Error>
    ensures { HasDone (R.outcome R.fallback is_first_frame regs.old (M.memory memory.now)) result regs.old regs.new }
{
    let mut read_stack = |address: u64| -> Result<u64, ()>
        ensures { result ≡ reply (M.memory memory.entry.now address) }
    { read(memory, address) };
    R::fallback_rule().exec(is_first_frame, regs, &mut read_stack)
}

/// Unwinds a frame by the rule of a function's first instruction, over a memory.
///
/// # Errors
///
/// Those of [`UnwindRule::exec`].
pub(crate) fn step_at_start<R: UnwindRule, M: WordMemory>(
    memory: &M,
    regs: &mut R::UnwindRegs,
) -> Result<Option<u64>, Error>
    ensures { HasDone (R.outcome R.function_start_rule true regs.old (M.memory memory.now)) result regs.old regs.new }
{
    let mut read_stack = |address: u64| -> Result<u64, ()>
        ensures { result ≡ reply (M.memory memory.entry.now address) }
    { read(memory, address) };
    R::rule_for_function_start().exec(true, regs, &mut read_stack)
}

/// Returns the word at an address (AVMA), as steps read it.
pub(crate) fn read<M: WordMemory>(memory: &M, address: u64) -> Result<u64, ()>
    ensures { result ≡ reply (M.memory memory.now address) }
{
    match memory.word(address) {
        Some(word) => Ok(word),
        None => Err(()),
    }
}
