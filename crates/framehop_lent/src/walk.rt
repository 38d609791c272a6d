//! A walk into a list that a caller lends.
ghost use Rattle.std.specs.Prelude.{◌≡◌, ◌≢◌, ◌≤◌, ◌-◌, map, length, take, drop, None, Err, IfOk, IfErr, IfSome, IfNone, MatchResult, ◌⊎◌};
ghost use Rattle.std.specs.Option.{is_some};
ghost use Rattle.framehop.specs.Memory.{Memory, Answering, reply};
ghost use Rattle.framehop.specs.CodeAddress.{FrameLocation, address_of, at_return_address, location_of};
ghost use Rattle.framehop.specs.Outcome.{Outcome, answer_of, registers_after};
ghost use Rattle.framehop.specs.Iterator.{at_frame, next_of, walk_on, cache_on};
ghost use Rattle.framehop.specs.UnwindIterator.{unwinder_of, progress_in, regs_of, cache_of, read_stack_of};
ghost use Rattle.framehop.specs.Modules.{UnwinderView};
ghost use Rattle.framehop.specs.Soundness.{AreApart};
ghost use Rattle.framehop.specs.Walk.{walk_from, cache_after_walk, cache_after_callers};
ghost use Rattle.framehop_lent.specs.Window.{words_from, words_in, told_in, noted, unreadable_word, AgreesWith, IsReadAs};
ghost use Rattle.framehop_lent.specs.Walk.{IsWrittenWalk, BeginsWalk, IsWrittenUpTo, IsCallerOrEnd, IsUntold, WhereEnded};

use crate::ordered::{Near, Ordered};
use crate::step::{missing_word, step_over};
use crate::window::{Window, word_at};
use framehop::session::WalkEnd;
use framehop::{Error, FrameAddress, UnwindIterator, Unwinder};

/// How many frames are walked with one copy of the registers before them.
const FRAMES_A_COPY: usize = 16;

/// Why a walk over windows has stopped.
#[derive(Clone, Copy, Debug, PartialEq, Eq)]
pub enum WalkStop {
    /// It has ended.
    Ended(WalkEnd),

    /// The word at this address (AVMA) was asked for, and no window tells of it.
    Missing(u64),
}

/// Walks a stack over the words of a window, from an instruction pointer (AVMA) and initial
/// registers on: writes the addresses (AVMAs) of its frames, the instruction pointer first, and
/// returns how many they are, and how the walk ended. The registers are those at its end.
///
/// It writes at most as many as there is room for. Where memory runs out, the frames up to there
/// are written, and the registers are those of the last one.
pub fn walk_into<U: Unwinder>(
    unwinder: &U,
    cache: &mut U::Cache,
    pc: u64,
    regs: &mut U::UnwindRegs,
    stack: &Window<'_>,
    frames: &mut [u64],
) -> (usize, WalkEnd)
    ensures stays_sound { (other : UnwinderView) → AreApart (U.unwinder_view unwinder.now) other
        → U.is_sound other cache.old → U.is_sound other cache.new }
    ensures fits { result.0 ≤ length frames.old }
    ensures others { drop result.0 frames.new ≡ drop result.0 frames.old }
    ensures may_run_out { result.1 ≡ WalkEnd.Refused Error.OutOfMemory
        → (location : FrameLocation) × (cache : U.Cache) × U.may_run_out unwinder.now cache location }
    ensures answers { U.is_sound (U.unwinder_view unwinder.now) cache.old →
        let step : FrameLocation → U.UnwindRegs → Outcome U.UnwindRegs = λ location regs. U.step unwinder.now location regs (words_from stack.now.base stack.now.words.now) in
        let limit = length frames.old in
        let walk = walk_from step limit pc regs.old in
        BeginsWalk walk result.0 frames.new
        × (result.1 ≡ WalkEnd.Refused Error.OutOfMemory → IsWrittenWalk (walk_from step result.0 pc regs.old) result.0 frames.new WalkEnd.Limit regs.new)
        × (result.1 ≢ WalkEnd.Refused Error.OutOfMemory → IsWrittenWalk walk result.0 frames.new result.1 regs.new
        × (cache.new ≡ cache_after_walk step (U.cache_after unwinder.now) limit pc regs.old cache.old)) }
{
    let mut read_stack = |address: u64| -> Result<u64, ()>
        ensures { result ≡ reply (words_from stack.entry.now.base stack.entry.now.words.now address) }
    { word_at(stack.base, stack.words, address) };
    let mut unwinding = unwinder.iter_frames(pc, *regs, cache, &mut read_stack);
    let walked = next_into(&mut unwinding, frames);
    *regs = *unwinding.regs();
    walked
}

/// Writes the addresses of the next frames of an iterator: how many they are, and how the walk
/// ended.
fn next_into<U: Unwinder, F: FnMut(u64) -> Result<u64, ()>>(
    unwinding: &mut UnwindIterator<'_, '_, '_, U, F>,
    frames: &mut [u64],
) -> (usize, WalkEnd)
    requires { F.IsAlwaysCallable (read_stack_of unwinding.old).now }
    ensures callable { F.IsAlwaysCallable (read_stack_of unwinding.new).now }
    ensures same_unwinder { unwinder_of unwinding.new ≡ unwinder_of unwinding.old }
    ensures same_cache { (cache_of unwinding.new).ghost_name ≡ (cache_of unwinding.old).ghost_name }
    ensures same_callback { (read_stack_of unwinding.new).ghost_name ≡ (read_stack_of unwinding.old).ghost_name }
    ensures stays_sound { (other : UnwinderView) → AreApart (U.unwinder_view (unwinder_of unwinding.old).now) other
        → U.is_sound other (cache_of unwinding.old).now → U.is_sound other (cache_of unwinding.new).now }
    ensures fits { result.0 ≤ length frames.old }
    ensures others { drop result.0 frames.new ≡ drop result.0 frames.old }
    ensures may_run_out { result.1 ≡ WalkEnd.Refused Error.OutOfMemory
        → (location : FrameLocation) × (cache : U.Cache) × U.may_run_out (unwinder_of unwinding.old).now cache location }
    ensures answers { U.is_sound (U.unwinder_view (unwinder_of unwinding.old).now) (cache_of unwinding.old).now
        → Answering F.FnMut (read_stack_of unwinding.old).now (read_stack_of unwinding.new).now (λ memory.
        let step : FrameLocation → U.UnwindRegs → Outcome U.UnwindRegs = λ location regs. U.step (unwinder_of unwinding.old).now location regs memory in
        let limit = length frames.old in
        let walk = walk_on step limit (progress_in unwinding.old) (regs_of unwinding.old) in
        BeginsWalk walk result.0 frames.new
        × (result.1 ≡ WalkEnd.Refused Error.OutOfMemory → IsWrittenWalk (walk_on step result.0 (progress_in unwinding.old) (regs_of unwinding.old)) result.0 frames.new WalkEnd.Limit (regs_of unwinding.new))
        × (result.1 ≢ WalkEnd.Refused Error.OutOfMemory → IsWrittenWalk walk result.0 frames.new result.1 (regs_of unwinding.new)
        × ((cache_of unwinding.new).now
        ≡ cache_on step (U.cache_after (unwinder_of unwinding.old).now) limit (progress_in unwinding.old) (regs_of unwinding.old) (cache_of unwinding.old).now))) }
{
    for i in 0..frames.len() {
        match unwinding.next() {
            Ok(Some(frame)) => frames[i] = frame.address(),
            Ok(None) => return (i, WalkEnd::Root),
            Err(error) => return (i, WalkEnd::Refused(error)),
        }
    }
    (frames.len(), WalkEnd::Limit)
}

/// Walks on from a frame over the words of windows: writes the return addresses (AVMAs) of the
/// frames that called it, and returns how many they are, and why the walk has stopped.
///
/// What is written holds of each stack that has what the windows tell. Where a word is missing, the
/// registers are those of the last frame that is written. Who can read that word adds a window that
/// tells of it, and walks on from that frame. It writes at most as many frames as there is room for.
pub fn walk_on<U: Unwinder>(
    unwinder: &U,
    cache: &mut U::Cache,
    callee: FrameAddress,
    regs: &mut U::UnwindRegs,
    windows: &[Window<'_>],
    frames: &mut [u64],
) -> (usize, WalkStop)
    ensures stays_sound { (other : UnwinderView) → AreApart (U.unwinder_view unwinder.now) other
        → U.is_sound other cache.old → U.is_sound other cache.new }
    ensures fits { result.0 ≤ length frames.old }
    ensures others { drop result.0 frames.new ≡ drop result.0 frames.old }
    ensures missing { IsUntold windows.now result.1 }
    ensures may_run_out { result.1 ≡ WalkStop.Ended (WalkEnd.Refused Error.OutOfMemory)
        → (location : FrameLocation) × (cache : U.Cache) × U.may_run_out unwinder.now cache location }
    ensures answers { U.is_sound (U.unwinder_view unwinder.now) cache.old → (memory : Memory) → AgreesWith windows.now memory →
        let step : FrameLocation → U.UnwindRegs → Outcome U.UnwindRegs = λ location regs. U.step unwinder.now location regs memory in
        let limit = length frames.old in
        IsWrittenUpTo step limit (location_of callee) regs.old result.0 frames.new result.1 regs.new
        × WhereEnded result.1 (λ _. cache.new ≡ cache_after_callers step (U.cache_after unwinder.now) limit (location_of callee) regs.old cache.old) }
{
    let windows = Ordered::new(windows);
    // the window in which the next step's words are expected: as far from the last one as that was from the one before it
    let mut near = 0usize;
    let mut last = 0usize;
    let mut around = windows.near(0);
    let mut callee = callee;
    let mut from = 0;
    while from < frames.len() {
        let before = *regs;
        let end = from + (frames.len() - from).min(FRAMES_A_COPY);
        let mut old = [0; FRAMES_A_COPY];
        old[..end - from].copy_from_slice(&frames[from..end]);
        for i in from..end {
            let mut past = None;
            match caller_past(unwinder, cache, callee, regs, &around, &mut near, &mut past) {
                Ok(caller) => {
                    frames[i] = caller.address();
                    callee = caller;
                    let stride = near.wrapping_sub(last);
                    last = near;
                    near = near.wrapping_add(stride);
                    windows.move_by(&mut around, near, stride);
                }
                Err(stop) => {
                    let Some(address) = past else {
                        return (i, stop);
                    };
                    frames[from..i].copy_from_slice(&old[..i - from]);
                    *regs = before;
                    return (from, WalkStop::Missing(address));
                }
            }
        }
        from = end;
    }
    (frames.len(), WalkStop::Ended(WalkEnd::Limit))
}

/// Returns the caller of a frame over the words of windows, or why there is none. The registers become the caller's.
/// `past` is the address (AVMA) of a missing word without which the step has gone on: then the registers are not to be used.
#[inline(always)]
fn caller_past<U: Unwinder>(
    unwinder: &U,
    cache: &mut U::Cache,
    callee: FrameAddress,
    regs: &mut U::UnwindRegs,
    windows: &Near<'_>,
    near: &mut usize,
    past: &mut Option<u64>,
) -> Result<FrameAddress, WalkStop>
    ensures stays_sound { (other : UnwinderView) → AreApart (U.unwinder_view unwinder.now) other
        → U.is_sound other cache.old → U.is_sound other cache.new }
    ensures is_caller { IfOk result (λ caller. location_of caller ≡ at_return_address (address_of (location_of caller))) }
    ensures missing { IfErr result (λ stop. IsUntold windows.now.windows.now stop) }
    ensures past { IfSome past.new (λ address. told_in windows.now.windows.now address ≡ None) }
    ensures kept { past.new ≡ None → IfErr result (λ stop. stop ≢ WalkStop.Ended (WalkEnd.Refused Error.ReturnAddressIsNull) → regs.new ≡ regs.old) }
    ensures ended { IfErr result (λ stop. WhereEnded stop (λ end. end ≢ WalkEnd.Refused Error.ReturnAddressIsNull → regs.new ≡ regs.old)) }
    ensures may_run_out { result ≡ Err (WalkStop.Ended (WalkEnd.Refused Error.OutOfMemory))
        → U.may_run_out unwinder.now cache.old (location_of callee) }
    ensures out_of_memory { result ≡ Err (WalkStop.Ended (WalkEnd.Refused Error.OutOfMemory)) → regs.new ≡ regs.old }
    ensures looked_up { (cache.new ≡ U.cache_after unwinder.now cache.old (location_of callee))
        ⊎ (cache.new ≡ U.cache_after_lookup unwinder.now cache.old (location_of callee)) }
    ensures cached { MatchResult result
        (λ _. cache.new ≡ U.cache_after unwinder.now cache.old (location_of callee))
        (λ stop. WhereEnded stop (λ _. cache.new ≡ U.cache_after unwinder.now cache.old (location_of callee))) }
    ensures answers { U.is_sound (U.unwinder_view unwinder.now) cache.old → (memory : Memory) → AgreesWith windows.now.windows.now memory →
        let step : FrameLocation → U.UnwindRegs → Outcome U.UnwindRegs = λ location regs. U.step unwinder.now location regs memory in
        IsCallerOrEnd (next_of step (at_frame (location_of callee)) regs.old) result regs.new }
{
    let mut missing = None;
    let answer = step_on(unwinder, cache, callee, regs, windows, near, &mut missing);
    *past = None;
    if let Some(address) = missing {
        if let Ok(Some(_)) = answer {
            *past = missing;
        }
        return Err(WalkStop::Missing(address));
    }
    match answer {
        Ok(Some(return_address)) => FrameAddress::from_return_address(return_address).ok_or(
            WalkStop::Ended(WalkEnd::Refused(Error::ReturnAddressIsNull)),
        ),
        Ok(None) => Err(WalkStop::Ended(WalkEnd::Root)),
        Err(error) => Err(WalkStop::Ended(WalkEnd::Refused(error))),
    }
}

/// Unwinds a single frame as [`step_over`] does, whose other callers share one copy of the step: that of a walk is compiled
/// into its loop.
#[inline(always)]
fn step_on<U: Unwinder>(
    unwinder: &U,
    cache: &mut U::Cache,
    address: FrameAddress,
    regs: &mut U::UnwindRegs,
    windows: &Near<'_>,
    near: &mut usize,
    missing: &mut Option<u64>,
) -> Result<Option<u64>, Error>
    ensures kept { MatchResult result
        (λ answer. IfNone answer (regs.new ≡ regs.old))
        (λ _. regs.new ≡ regs.old) }
    ensures missing { IfSome missing.new (λ asked. told_in windows.now.windows.now asked ≡ None) }
    ensures unreadable { missing.new ≡ None → IfSome (unreadable_word result) (λ address. told_in windows.now.windows.now address ≢ None) }
    ensures may_run_out { result ≡ Err Error.OutOfMemory → U.may_run_out unwinder.now cache.old (location_of address) }
    ensures cached { result ≢ Err Error.OutOfMemory → cache.new ≡ U.cache_after unwinder.now cache.old (location_of address) }
    ensures not_cached { result ≡ Err Error.OutOfMemory → cache.new ≡ U.cache_after_lookup unwinder.now cache.old (location_of address) }
    ensures stays_sound { (other : UnwinderView) → AreApart (U.unwinder_view unwinder.now) other
        → U.is_sound other cache.old → U.is_sound other cache.new }
    ensures answers { U.is_sound (U.unwinder_view unwinder.now) cache.old → result ≢ Err Error.OutOfMemory →
        (memory : Memory) → IsReadAs windows.now.windows.now (is_some missing.new) memory →
        let stepping = U.step unwinder.now (location_of address) regs.old memory in
        (result ≡ answer_of stepping) × (regs.new ≡ registers_after regs.old stepping) }
{
    let mut first_missing: Option<u64> = None;
    let mut read_stack = |address: u64| -> Result<u64, ()>
        ensures reads { result ≡ reply (words_in windows.entry.now.windows.now address) }
        ensures notes { first_missing.exit ≡ noted windows.entry.now.windows.now first_missing.entry address }
    { windows.read(near, &mut first_missing, address) };
    let answer = unwinder.unwind_frame(address, regs, cache, &mut read_stack);
    *missing = match (first_missing, answer) {
        (None, Ok(_)) => None,
        _ => missing_word(windows.windows, first_missing, answer),
    };
    answer
}

/// Returns the caller of a frame over the words of windows, or why there is none. The registers become
/// the caller's. Where a word is missing, they are not to be used: the step has gone on without it.
#[inline(always)]
pub fn caller_over<U: Unwinder>(
    unwinder: &U,
    cache: &mut U::Cache,
    callee: FrameAddress,
    regs: &mut U::UnwindRegs,
    windows: &[Window<'_>],
) -> Result<FrameAddress, WalkStop>
    ensures stays_sound { (other : UnwinderView) → AreApart (U.unwinder_view unwinder.now) other
        → U.is_sound other cache.old → U.is_sound other cache.new }
    ensures is_caller { IfOk result (λ caller. location_of caller ≡ at_return_address (address_of (location_of caller))) }
    ensures missing { IfErr result (λ stop. IsUntold windows.now stop) }
    ensures kept { IfErr result (λ stop. WhereEnded stop (λ end. end ≢ WalkEnd.Refused Error.ReturnAddressIsNull → regs.new ≡ regs.old)) }
    ensures may_run_out { result ≡ Err (WalkStop.Ended (WalkEnd.Refused Error.OutOfMemory))
        → U.may_run_out unwinder.now cache.old (location_of callee) }
    ensures out_of_memory { result ≡ Err (WalkStop.Ended (WalkEnd.Refused Error.OutOfMemory)) → regs.new ≡ regs.old }
    ensures looked_up { (cache.new ≡ U.cache_after unwinder.now cache.old (location_of callee))
        ⊎ (cache.new ≡ U.cache_after_lookup unwinder.now cache.old (location_of callee)) }
    ensures cached { MatchResult result
        (λ _. cache.new ≡ U.cache_after unwinder.now cache.old (location_of callee))
        (λ stop. WhereEnded stop (λ _. cache.new ≡ U.cache_after unwinder.now cache.old (location_of callee))) }
    ensures answers { U.is_sound (U.unwinder_view unwinder.now) cache.old → (memory : Memory) → AgreesWith windows.now memory →
        let step : FrameLocation → U.UnwindRegs → Outcome U.UnwindRegs = λ location regs. U.step unwinder.now location regs memory in
        IsCallerOrEnd (next_of step (at_frame (location_of callee)) regs.old) result regs.new }
{
    let mut missing = None;
    let answer = step_over(unwinder, cache, callee, regs, windows, &mut missing);
    if let Some(address) = missing {
        return Err(WalkStop::Missing(address));
    }
    match answer {
        Ok(Some(return_address)) => FrameAddress::from_return_address(return_address).ok_or(
            WalkStop::Ended(WalkEnd::Refused(Error::ReturnAddressIsNull)),
        ),
        Ok(None) => Err(WalkStop::Ended(WalkEnd::Root)),
        Err(error) => Err(WalkStop::Ended(WalkEnd::Refused(error))),
    }
}
