//! The calls of an unwinder, with numbers for what they return.
ghost use Rattle.std.specs.Prelude.{◌≡◌, ◌≢◌, ◌≤◌, ◌^◌, ◌-◌, ◌+◌, ◌<◌, length, drop, true, false, None, MatchOption, ◌⊎◌, IfOk, IfErr};
ghost use Rattle.framehop.specs.Memory.{Memory};
ghost use Rattle.framehop.specs.Outcome.{Outcome};
ghost use Rattle.framehop.specs.CodeAddress.{FrameLocation, location_of};
ghost use Rattle.framehop.specs.Modules.{UnwinderView, with_module, without_module, has_start};
ghost use Rattle.framehop.specs.Soundness.{AreApart};
ghost use Rattle.framehop.specs.Walk.{walk_from, cache_after_walk};
ghost use Rattle.framehop_lent.specs.Window.{words_from, told_in, AgreesWith, IsReadAs};
ghost use Rattle.framehop_lent.specs.Walk.{BeginsWalk};
ghost use Rattle.framehop_c.specs.Status.{ok, missing_word, out_of_memory, generations_exhausted, wrong_handle, could_not_read_stack};
ghost use Rattle.framehop_c.specs.Told.{IsToldWalk, IsToldPart, IsToldUpTo, IsToldStep, IsNullStep, IsNullWalk, IsNothing, IsStats, location_at, is_null_return, module_of};

use crate::sections::FramehopSections;
use crate::status::{
    FRAMEHOP_OK, FRAMEHOP_RETURN_ADDRESS_IS_NULL, answer_status, answered_address, end_status,
    list_error_status, refused_address, stop_status,
};
use framehop::{CacheStats, FrameAddress, Generations, Module, ModuleListError, Unwinder};
use framehop_lent::{Window, step_over, walk_into, walk_on};
use std::alloc::Global;
use std::ops::Range;

/// What a walk has written: how many frames, and the address (AVMA) of the stack word that could
/// not be read or that no window has, or 0 where that is not why the walk stopped.
#[repr(C)]
#[derive(Clone, Copy)]
pub struct FramehopWalk {
    pub frame_count: usize,
    pub unreadable: u64,
}

/// What a step returned: the return address (AVMA), or 0; the address of the stack word that could
/// not be read, or 0; and the first address of a word that was asked for and that no window tells
/// of, if there is one.
#[repr(C)]
#[derive(Clone, Copy)]
pub struct FramehopStep {
    pub return_address: u64,
    pub unreadable: u64,
    pub missing: u64,
    pub has_missing: bool,
}

impl FramehopWalk {
    /// Returns what a walk tells before its first frame.
    pub fn nothing() -> FramehopWalk
        ensures count { result.frame_count ≡ 0 }
        ensures unreadable { result.unreadable ≡ 0 }
    {
        FramehopWalk {
            frame_count: 0,
            unreadable: 0,
        }
    }
}

impl FramehopStep {
    /// Returns what a step tells that has asked for no word and found no address.
    pub fn nothing() -> FramehopStep
        ensures { IsNothing result }
    {
        FramehopStep {
            return_address: 0,
            unreadable: 0,
            missing: 0,
            has_missing: false,
        }
    }
}

/// The counts of a cache's lookups.
#[repr(C)]
#[derive(Clone, Copy)]
pub struct FramehopCacheStats {
    pub hit_count: u64,
    pub miss_empty_slot_count: u64,
    pub miss_wrong_modules_count: u64,
    pub miss_wrong_address_count: u64,
}

impl FramehopCacheStats {
    /// Writes the counts.
    pub fn store(&mut self, stats: &CacheStats)
        ensures { IsStats self.new stats.now }
    {
        *self = FramehopCacheStats {
            hit_count: stats.hit_count,
            miss_empty_slot_count: stats.miss_empty_slot_count,
            miss_wrong_modules_count: stats.miss_wrong_modules_count,
            miss_wrong_address_count: stats.miss_wrong_address_count,
        };
    }
}

/// Walks a stack over the words of a window: [`walk_into`].
pub fn walk<U: Unwinder>(
    unwinder: &U,
    cache: &mut U::Cache,
    pc: u64,
    regs: &mut U::UnwindRegs,
    stack: &Window<'_>,
    frames: &mut [u64],
    walk: &mut FramehopWalk,
) -> i32
    ensures stays_sound { (other : UnwinderView) → AreApart (U.unwinder_view unwinder.now) other
        → U.is_sound other cache.old → U.is_sound other cache.new }
    ensures other { result ≢ wrong_handle }
    ensures fits { walk.new.frame_count ≤ length frames.old }
    ensures others { drop walk.new.frame_count frames.new ≡ drop walk.new.frame_count frames.old }
    ensures may_run_out { result ≡ out_of_memory
        → (location : FrameLocation) × (cache : U.Cache) × U.may_run_out unwinder.now cache location }
    ensures unreadable { result ≡ out_of_memory → walk.new.unreadable ≡ 0 }
    ensures answers { U.is_sound (U.unwinder_view unwinder.now) cache.old →
        let step : FrameLocation → U.UnwindRegs → Outcome U.UnwindRegs = λ location regs. U.step unwinder.now location regs (words_from stack.now.base stack.now.words.now) in
        let limit = length frames.old in
        let whole = walk_from step limit pc regs.old in
        BeginsWalk whole walk.new.frame_count frames.new
        × (result ≡ out_of_memory → IsToldPart (walk_from step walk.new.frame_count pc regs.old) walk.new frames.new regs.new)
        × (result ≢ out_of_memory → IsToldWalk whole result walk.new frames.new regs.new
        × (cache.new ≡ cache_after_walk step (U.cache_after unwinder.now) limit pc regs.old cache.old)) }
{
    let (frame_count, end) = walk_into(unwinder, cache, pc, regs, stack, frames);
    let (status, unreadable) = end_status(end);
    *walk = FramehopWalk {
        frame_count,
        unreadable,
    };
    status
}

/// Returns the frame at an address, unless it is the return address 0.
pub(crate) fn frame_at(address: u64, is_return_address: bool) -> Option<FrameAddress>
    ensures { MatchOption result (is_null_return address is_return_address ≡ true)
        (λ frame. (is_null_return address is_return_address ≡ false)
        × (location_of frame ≡ location_at address is_return_address)) }
{
    if is_return_address {
        FrameAddress::from_return_address(address)
    } else {
        Some(FrameAddress::from_instruction_pointer(address))
    }
}

/// Unwinds a single frame over the words of windows: [`step_over`].
pub fn unwind_frame<U: Unwinder>(
    unwinder: &U,
    cache: &mut U::Cache,
    address: u64,
    is_return_address: bool,
    regs: &mut U::UnwindRegs,
    windows: &[Window<'_>],
    step: &mut FramehopStep,
) -> i32
    ensures other { result ≢ wrong_handle }
    ensures null { is_null_return address is_return_address ≡ true → IsNullStep result step.new
        × (regs.new ≡ regs.old) × (cache.new ≡ cache.old) }
    ensures kept { result ≢ ok → regs.new ≡ regs.old }
    ensures missing { step.new.has_missing ≡ true → told_in windows.now step.new.missing ≡ None }
    ensures unreadable { step.new.has_missing ≡ false → result ≡ could_not_read_stack
        → told_in windows.now step.new.unreadable ≢ None }
    ensures nothing { result ≡ out_of_memory → (step.new.return_address ≡ 0) × (step.new.unreadable ≡ 0) }
    ensures may_run_out { result ≡ out_of_memory → U.may_run_out unwinder.now cache.old (location_at address is_return_address) }
    ensures cached { is_null_return address is_return_address ≡ false → result ≢ out_of_memory
        → cache.new ≡ U.cache_after unwinder.now cache.old (location_at address is_return_address) }
    ensures not_cached { result ≡ out_of_memory
        → cache.new ≡ U.cache_after_lookup unwinder.now cache.old (location_at address is_return_address) }
    ensures stays_sound { (other : UnwinderView) → AreApart (U.unwinder_view unwinder.now) other
        → U.is_sound other cache.old → U.is_sound other cache.new }
    ensures answers { is_null_return address is_return_address ≡ false → U.is_sound (U.unwinder_view unwinder.now) cache.old
        → result ≢ out_of_memory → (memory : Memory) → IsReadAs windows.now step.new.has_missing memory
        → IsToldStep (U.step unwinder.now (location_at address is_return_address) regs.old memory) result step.new regs.old regs.new }
{
    let Some(frame) = frame_at(address, is_return_address) else {
        *step = FramehopStep::nothing();
        return FRAMEHOP_RETURN_ADDRESS_IS_NULL;
    };
    let mut missing = None;
    let answer = step_over(unwinder, cache, frame, regs, windows, &mut missing);
    *step = FramehopStep {
        return_address: answered_address(answer),
        unreadable: refused_address(answer),
        missing: missing.unwrap_or(0),
        has_missing: missing.is_some(),
    };
    answer_status(answer)
}

/// Walks on from a frame over the words of windows: [`walk_on`].
pub(crate) fn walk_on_from<U: Unwinder>(
    unwinder: &U,
    cache: &mut U::Cache,
    address: u64,
    is_return_address: bool,
    regs: &mut U::UnwindRegs,
    windows: &[Window<'_>],
    frames: &mut [u64],
    walk: &mut FramehopWalk,
) -> i32
    ensures stays_sound { (other : UnwinderView) → AreApart (U.unwinder_view unwinder.now) other
        → U.is_sound other cache.old → U.is_sound other cache.new }
    ensures other { result ≢ wrong_handle }
    ensures null { is_null_return address is_return_address ≡ true → IsNullWalk result walk.new
        × (frames.new ≡ frames.old) × (regs.new ≡ regs.old) × (cache.new ≡ cache.old) }
    ensures fits { walk.new.frame_count ≤ length frames.old }
    ensures others { drop walk.new.frame_count frames.new ≡ drop walk.new.frame_count frames.old }
    ensures missing { result ≡ missing_word → told_in windows.now walk.new.unreadable ≡ None }
    ensures may_run_out { result ≡ out_of_memory
        → (location : FrameLocation) × (cache : U.Cache) × U.may_run_out unwinder.now cache location }
    ensures unreadable { result ≡ out_of_memory → walk.new.unreadable ≡ 0 }
    ensures answers { is_null_return address is_return_address ≡ false → U.is_sound (U.unwinder_view unwinder.now) cache.old
        → (memory : Memory) → AgreesWith windows.now memory →
        let step : FrameLocation → U.UnwindRegs → Outcome U.UnwindRegs = λ location regs. U.step unwinder.now location regs memory in
        IsToldUpTo step (length frames.old) (location_at address is_return_address) regs.old result walk.new frames.new regs.new }
{
    let Some(callee) = frame_at(address, is_return_address) else {
        *walk = FramehopWalk::nothing();
        return FRAMEHOP_RETURN_ADDRESS_IS_NULL;
    };
    let (frame_count, stop) = walk_on(unwinder, cache, callee, regs, windows, frames);
    let (status, unreadable) = stop_status(stop);
    *walk = FramehopWalk {
        frame_count,
        unreadable,
    };
    status
}

/// Makes a module without a name, of its addresses (AVMAs) and sections.
fn make_module(
    alloc: Global,
    avma: Range<u64>,
    base_avma: u64,
    sections: &FramehopSections,
) -> Result<Module<&'static [u8]>, ModuleListError>
    ensures made { IfOk result (λ made. made ≡ module_of avma.start avma.end base_avma sections.now) }
    ensures refused { IfErr result (λ error. error ≡ ModuleListError.OutOfMemory) }
{
    Module::new(alloc, String::new(alloc), avma, base_avma, sections.named())
}

/// Makes a module without a name and adds it.
pub fn add_module<U: Unwinder<Module = Module<&'static [u8]>>>(
    alloc: Global,
    unwinder: &mut U,
    generations: &mut Generations,
    avma: Range<u64>,
    base_avma: u64,
    sections: &FramehopSections,
) -> i32
    ensures added { result ≡ ok → (U.unwinder_view unwinder.new ≡ record {
      modules = with_module (U.module_view (module_of avma.start avma.end base_avma sections.now)) (U.unwinder_view unwinder.old).modules;
      generation = generations.old;
    })
        × (generations.new ≡ generations.old + 1) × (generations.old < 2 ^ 64 - 1) }
    ensures refused { result ≢ ok → (unwinder.new ≡ unwinder.old) × (generations.new ≡ generations.old) }
    ensures exhausted { result ≡ generations_exhausted → generations.old ≡ 2 ^ 64 - 1 }
    ensures statuses { (result ≡ ok) ⊎ (result ≡ out_of_memory) ⊎ (result ≡ generations_exhausted) }
{
    let module = match make_module(alloc, avma, base_avma, sections) {
        Ok(module) => module,
        Err(error) => return list_error_status(error),
    };
    match unwinder.add_module(module, generations) {
        Ok(()) => FRAMEHOP_OK,
        Err(refused) => list_error_status(refused.cause),
    }
}

/// Removes the newest module of a start (AVMA), if there is one.
pub fn remove_module<U: Unwinder>(
    unwinder: &mut U,
    generations: &mut Generations,
    avma_start: u64,
) -> i32
    ensures absent { has_start avma_start (U.unwinder_view unwinder.old).modules ≡ false →
        (result ≡ ok) × (unwinder.new ≡ unwinder.old) × (generations.new ≡ generations.old) }
    ensures removed { has_start avma_start (U.unwinder_view unwinder.old).modules ≡ true → result ≡ ok →
        (generations.old < 2 ^ 64 - 1)
        × (U.unwinder_view unwinder.new ≡ record {
          modules = without_module avma_start (U.unwinder_view unwinder.old).modules;
          generation = generations.old;
        })
        × (generations.new ≡ generations.old + 1) }
    ensures exhausted { result ≢ ok → (result ≡ generations_exhausted) × (generations.old ≡ 2 ^ 64 - 1)
        × (unwinder.new ≡ unwinder.old) × (generations.new ≡ generations.old) }
{
    match unwinder.remove_module(avma_start, generations) {
        Ok(()) => FRAMEHOP_OK,
        Err(error) => list_error_status(error),
    }
}
