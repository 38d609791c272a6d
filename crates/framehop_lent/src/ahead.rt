//! The words that a step asks for first, found before any of them is read.
ghost use Rattle.std.specs.Prelude.{◌≡◌, ◌≢◌, None, IfSome, ◌⊎◌};
ghost use Rattle.framehop.specs.Memory.{reply};
ghost use Rattle.framehop.specs.CodeAddress.{location_of};
ghost use Rattle.framehop.specs.Outcome.{answer_of, refused};
ghost use Rattle.framehop.specs.Modules.{UnwinderView};
ghost use Rattle.framehop.specs.Soundness.{AreApart};
ghost use Rattle.framehop_lent.specs.Ahead.{zero_at};
ghost use Rattle.framehop_lent.specs.Window.{unreadable_word};

use crate::step::unreadable;
use framehop::{Error, FrameAddress, Unwinder};

/// The stack word for which a step is refused.
#[derive(Clone, Copy, PartialEq, Eq)]
pub struct Wanted {
    /// Its address (AVMA), or `None` where the step is not refused for a word.
    pub address: Option<u64>,

    /// Whether the step has asked for no other word before, but for the one that is known.
    pub is_first: bool,
}

/// Returns the word for which the step from a frame is refused, over a stack that has no word but a 0 at the address
/// (AVMA) that is known, if there is one.
///
/// Where a cached rule steps, these are the words that it reads, whatever the stack has: without a known word the first
/// one, and with that one known the second.
#[inline(always)]
pub fn wanted_word<U: Unwinder>(
    unwinder: &U,
    cache: &mut U::Cache,
    callee: FrameAddress,
    regs: &U::UnwindRegs,
    known: Option<u64>,
) -> Wanted
    ensures some { U.is_sound (U.unwinder_view unwinder.now) cache.old → IfSome result.address (λ address.
        U.step unwinder.now (location_of callee) regs.now (zero_at known) ≡ refused (Error.CouldNotReadStack address)) }
    ensures none { U.is_sound (U.unwinder_view unwinder.now) cache.old → result.address ≡ None →
        (unreadable_word (answer_of (U.step unwinder.now (location_of callee) regs.now (zero_at known))) ≡ None)
        ⊎ U.may_run_out unwinder.now cache.old (location_of callee) }
    ensures cached { result.address ≢ None → cache.new ≡ U.cache_after unwinder.now cache.old (location_of callee) }
    ensures looked_up { (cache.new ≡ U.cache_after unwinder.now cache.old (location_of callee))
        ⊎ (cache.new ≡ U.cache_after_lookup unwinder.now cache.old (location_of callee)) }
    ensures stays_sound { (other : UnwinderView) → AreApart (U.unwinder_view unwinder.now) other
        → U.is_sound other cache.old → U.is_sound other cache.new }
{
    let mut regs = *regs;
    let mut first = None;
    let mut read_stack = |address: u64| -> Result<u64, ()>
        ensures { result ≡ reply (zero_at known address) }
    {
        if known == Some(address) {
            return Ok(0);
        }
        first = first.or(Some(address));
        Err(())
    };
    let answer = unwinder.unwind_frame(callee, &mut regs, cache, &mut read_stack);
    let address = unreadable(answer);
    Wanted {
        address,
        is_first: address == first,
    }
}
