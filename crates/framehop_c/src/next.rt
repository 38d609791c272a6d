//! The frame that called another, and the words that the step from it will ask for.
ghost use Rattle.std.specs.Prelude.{◌≡◌, ◌≢◌, ◌⊎◌, true, false, None, Some};
ghost use Rattle.framehop.specs.Memory.{Memory};
ghost use Rattle.framehop.specs.Outcome.{Outcome, refused, answer_of};
ghost use Rattle.framehop.specs.CodeAddress.{FrameLocation, at_return_address, location_of};
ghost use Rattle.framehop.specs.Iterator.{at_frame, next_of};
ghost use Rattle.framehop.specs.Modules.{UnwinderView};
ghost use Rattle.framehop.specs.Soundness.{AreApart};
ghost use Rattle.framehop_lent.specs.Ahead.{zero_at};
ghost use Rattle.framehop_lent.specs.Window.{told_in, unreadable_word, AgreesWith};
ghost use Rattle.framehop_c.specs.Status.{ok, missing_word, out_of_memory, return_address_is_null, wrong_handle};
ghost use Rattle.framehop_c.specs.Told.{location_at, is_null_return};
ghost use Rattle.framehop_c.specs.Lookups.{lookup_hit, lookup_between};
ghost use Rattle.framehop_c.specs.Ahead.{IsNoAhead, IsNoNext, TellsNoWord, IsNullNext, IsToldNext, IsAsked, LeavesOutNone};

use crate::calls::frame_at;
use crate::lookups::{CountsLookups, FRAMEHOP_LOOKUP_HIT, FRAMEHOP_NO_LOOKUP, lookup_number};
use crate::status::{FRAMEHOP_OK, FRAMEHOP_RETURN_ADDRESS_IS_NULL, stop_status};
use framehop::{Error, FrameAddress, Unwinder};
use framehop_lent::{Wanted, Window, caller_over, wanted_word};

/// The stack words (AVMAs) that a step will ask for first, as far as they can be told before one is read, and how many
/// they are: 0, 1 or 2. `lookup` is the number of how the lookup of the step's rule has ended.
#[repr(C)]
#[derive(Clone, Copy)]
pub struct FramehopAhead {
    pub first: u64,
    pub second: u64,
    pub count: u32,
    pub lookup: i32,
}

/// What a call for the next frame returned: the return address (AVMA), or 0; the address of the stack word that could
/// not be read or that no window has, or 0; the words that the step from the frame that was found will ask for; and the
/// number of how the lookup of the rule has ended by which it was found.
#[repr(C)]
#[derive(Clone, Copy)]
pub struct FramehopNext {
    pub return_address: u64,
    pub unreadable: u64,
    pub ahead: FramehopAhead,
    pub lookup: i32,
}

impl FramehopAhead {
    /// Returns that no word can be told.
    fn nothing(lookup: i32) -> FramehopAhead
        ensures words { TellsNoWord result }
        ensures lookup { result.lookup ≡ lookup }
    {
        FramehopAhead {
            first: 0,
            second: 0,
            count: 0,
            lookup,
        }
    }
}

impl FramehopNext {
    /// Returns what a call tells that has looked for nothing.
    pub fn nothing() -> FramehopNext
        ensures { IsNoNext result }
    {
        FramehopNext::without(0, FRAMEHOP_NO_LOOKUP)
    }

    /// Returns what a call tells that has found no frame.
    fn without(unreadable: u64, lookup: i32) -> FramehopNext
        ensures return_address { result.return_address ≡ 0 }
        ensures unreadable { result.unreadable ≡ unreadable }
        ensures lookup { result.lookup ≡ lookup }
        ensures ahead { IsNoAhead result.ahead }
    {
        FramehopNext {
            return_address: 0,
            unreadable,
            ahead: FramehopAhead::nothing(FRAMEHOP_NO_LOOKUP),
            lookup,
        }
    }
}

/// Finds the frame that called the one at an address (AVMA), over the words of windows: [`caller_over`]. Tells the
/// words that the step from it will ask for: [`words_ahead`].
pub fn next_frame<U: Unwinder>(
    unwinder: &U,
    cache: &mut U::Cache,
    address: u64,
    is_return_address: bool,
    regs: &mut U::UnwindRegs,
    windows: &[Window<'_>],
    next: &mut FramehopNext,
) -> i32
where
    U::Cache: CountsLookups,
    ensures stays_sound { (other : UnwinderView) → AreApart (U.unwinder_view unwinder.now) other
        → U.is_sound other cache.old → U.is_sound other cache.new }
    ensures other { result ≢ wrong_handle }
    ensures null { is_null_return address is_return_address ≡ true → IsNullNext result next.new
        × (regs.new ≡ regs.old) × (cache.new ≡ cache.old) }
    ensures missing { result ≡ missing_word → told_in windows.now next.new.unreadable ≡ None }
    ensures may_run_out { result ≡ out_of_memory → U.may_run_out unwinder.now cache.old (location_at address is_return_address) }
    ensures nothing { result ≢ ok → (next.new.return_address ≡ 0) × IsNoAhead next.new.ahead }
    ensures kept { result ≢ ok → result ≢ return_address_is_null → result ≢ missing_word → regs.new ≡ regs.old }
    ensures looked_up { is_null_return address is_return_address ≡ false →
        (next.new.lookup ≡ lookup_between (U.Cache.counts cache.old)
        (U.Cache.counts (U.cache_after unwinder.now cache.old (location_at address is_return_address))))
        ⊎ (next.new.lookup ≡ lookup_between (U.Cache.counts cache.old)
        (U.Cache.counts (U.cache_after_lookup unwinder.now cache.old (location_at address is_return_address)))) }
    ensures answers { is_null_return address is_return_address ≡ false → U.is_sound (U.unwinder_view unwinder.now) cache.old
        → result ≢ out_of_memory → result ≢ missing_word → (memory : Memory) → AgreesWith windows.now memory →
        let step : FrameLocation → U.UnwindRegs → Outcome U.UnwindRegs = λ location regs. U.step unwinder.now location regs memory in
        IsToldNext (next_of step (at_frame (location_at address is_return_address)) regs.old) result next.new regs.new }
    ensures asked { U.is_sound (U.unwinder_view unwinder.now) cache.old → result ≡ ok →
        let between = U.cache_after unwinder.now cache.old (location_at address is_return_address) in
        let caller = at_return_address next.new.return_address in
        let asking : Memory → Outcome U.UnwindRegs = λ memory. U.step unwinder.now caller regs.new memory in
        U.is_sound (U.unwinder_view unwinder.now) between
        × IsAsked asking next.new.ahead
        × (LeavesOutNone asking next.new.ahead
        ⊎ (U.may_run_out unwinder.now between caller ⊎ U.may_run_out unwinder.now (U.cache_after unwinder.now between caller) caller)) }
    ensures looked_up_ahead { result ≡ ok →
        let between = U.cache_after unwinder.now cache.old (location_at address is_return_address) in
        let caller = at_return_address next.new.return_address in
        (next.new.ahead.lookup ≡ lookup_between (U.Cache.counts between) (U.Cache.counts (U.cache_after unwinder.now between caller)))
        ⊎ (next.new.ahead.lookup ≡ lookup_between (U.Cache.counts between) (U.Cache.counts (U.cache_after_lookup unwinder.now between caller))) }
{
    let Some(callee) = frame_at(address, is_return_address) else {
        *next = FramehopNext::nothing();
        return FRAMEHOP_RETURN_ADDRESS_IS_NULL;
    };
    let before = cache.counts();
    let found = caller_over(unwinder, cache, callee, regs, windows);
    let lookup = lookup_number(&before, &cache.counts());
    match found {
        Ok(caller) => {
            *next = FramehopNext {
                return_address: caller.address(),
                unreadable: 0,
                ahead: words_ahead(unwinder, cache, caller, regs),
                lookup,
            };
            FRAMEHOP_OK
        }
        Err(stop) => {
            let (status, unreadable) = stop_status(stop);
            *next = FramehopNext::without(unreadable, lookup);
            status
        }
    }
}

/// Returns the words that the step from a frame will ask for first: one that is asked for before any other, and where
/// the frame's rule is in the cache also a second one. Where the rule is not there, none is told of a step that has
/// asked for another word before the one for which it is refused; no clause knows which words a step asks for.
fn words_ahead<U: Unwinder>(
    unwinder: &U,
    cache: &mut U::Cache,
    frame: FrameAddress,
    regs: &U::UnwindRegs,
) -> FramehopAhead
where
    U::Cache: CountsLookups,
    ensures asked { U.is_sound (U.unwinder_view unwinder.now) cache.old
        → IsAsked (λ memory. U.step unwinder.now (location_of frame) regs.now memory) result }
    ensures whole { U.is_sound (U.unwinder_view unwinder.now) cache.old
        → LeavesOutNone (λ memory. U.step unwinder.now (location_of frame) regs.now memory) result
        ⊎ (U.may_run_out unwinder.now cache.old (location_of frame)
        ⊎ U.may_run_out unwinder.now (U.cache_after unwinder.now cache.old (location_of frame)) (location_of frame)) }
    ensures looked_up { (result.lookup ≡ lookup_between (U.Cache.counts cache.old) (U.Cache.counts (U.cache_after unwinder.now cache.old (location_of frame))))
        ⊎ (result.lookup ≡ lookup_between (U.Cache.counts cache.old) (U.Cache.counts (U.cache_after_lookup unwinder.now cache.old (location_of frame)))) }
    ensures stays_sound { (other : UnwinderView) → AreApart (U.unwinder_view unwinder.now) other
        → U.is_sound other cache.old → U.is_sound other cache.new }
{
    let before = cache.counts();
    let Wanted { address, is_first } = wanted_word(unwinder, cache, frame, regs, None);
    let lookup = lookup_number(&before, &cache.counts());
    let Some(first) = address else {
        return FramehopAhead::nothing(lookup);
    };
    if lookup == FRAMEHOP_LOOKUP_HIT {
        return words_by_rule(unwinder, cache, frame, regs, first);
    }
    if !is_first {
        return FramehopAhead::nothing(lookup);
    }
    FramehopAhead {
        first,
        second: 0,
        count: 1,
        lookup,
    }
}

/// Returns the words that the rule of a frame asks for first: the first one, and the second one, if there is one.
fn words_by_rule<U: Unwinder>(
    unwinder: &U,
    cache: &mut U::Cache,
    frame: FrameAddress,
    regs: &U::UnwindRegs,
    first: u64,
) -> FramehopAhead
    ensures first { result.first ≡ first }
    ensures few { (result.count ≡ 1) ⊎ (result.count ≡ 2) }
    ensures beyond { result.count ≡ 1 → result.second ≡ 0 }
    ensures lookup { result.lookup ≡ lookup_hit }
    ensures second { U.is_sound (U.unwinder_view unwinder.now) cache.old → result.count ≡ 2
        → U.step unwinder.now (location_of frame) regs.now (zero_at (Some first)) ≡ refused (Error.CouldNotReadStack result.second) }
    ensures no_second { U.is_sound (U.unwinder_view unwinder.now) cache.old → result.count ≡ 1
        → (unreadable_word (answer_of (U.step unwinder.now (location_of frame) regs.now (zero_at (Some first)))) ≡ None)
        ⊎ U.may_run_out unwinder.now cache.old (location_of frame) }
    ensures stays_sound { (other : UnwinderView) → AreApart (U.unwinder_view unwinder.now) other
        → U.is_sound other cache.old → U.is_sound other cache.new }
{
    let (second, count) = match wanted_word(unwinder, cache, frame, regs, Some(first)).address {
        Some(second) => (second, 2),
        None => (0, 1),
    };
    FramehopAhead {
        first,
        second,
        count,
        lookup: FRAMEHOP_LOOKUP_HIT,
    }
}
