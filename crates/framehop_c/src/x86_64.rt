//! The calls for x86_64.
//!
//! Each call tests the kind, the architecture and the policy of the objects behind its handles, and hands on to a
//! call of `calls` or of the library. An exported function has one name and no type parameters, so the other
//! architecture has a file like this one.
ghost use Rattle.std.specs.Prelude.{◌≡◌, ◌≢◌, ◌≤◌, ◌<◌, ◌-◌, ◌^◌, ◌+◌, length, drop, true, false, [], None, Some, MatchOption, IfSome, ◌⊎◌, ◌↔◌};
ghost use Rattle.framehop.specs.Memory.{Memory};
ghost use Rattle.framehop.specs.Outcome.{Outcome};
ghost use Rattle.framehop.specs.CodeAddress.{at_return_address};
ghost use Rattle.framehop.specs.Iterator.{at_frame, next_of};
ghost use Rattle.framehop_core.specs.X86_64.Registers.{Registers};
ghost use Rattle.framehop.specs.Modules.{greatest_end};
ghost use Rattle.framehop.specs.Fresh.{step};
ghost use Rattle.framehop.specs.Soundness.{MayRunOut, cache_after, cache_after_lookup};
ghost use Rattle.framehop.specs.X86_64.{x86_64, IsSoundX86_64};
ghost use Rattle.framehop_lent.specs.Window.{words_from, told_in, AgreesWith, IsReadAs};
ghost use Rattle.framehop_lent.specs.Walk.{BeginsWalk};
ghost use Rattle.framehop_c.specs.Status.{ok, missing_word, out_of_memory, wrong_handle, generations_exhausted, could_not_read_stack, return_address_is_null};
ghost use Rattle.framehop_c.specs.Ahead.{IsNoAhead, IsNullNext, IsToldNext, IsAsked, IsNeeded, IsEnough};
ghost use Rattle.framehop_c.specs.Lookups.{lookup_between};
ghost use Rattle.framehop_c.specs.Told.{IsToldWalk, IsToldPart, IsToldUpTo, IsToldStep, IsNullStep, IsNullWalk, location_at, is_null_return, module_of};
ghost use Rattle.framehop_c.specs.Objects.{generations_in, ForGenerations, policy_for, IsDrawn, IsAddition, IsRemoval};
ghost use Rattle.framehop_c.specs.X86_64.{registers_in, unwinder_in, IsPaired, ForPair, ForUnwinder, StaysSound, RunsOutOnly, walk_over};

use crate::calls::{self, FramehopStep, FramehopWalk};
use crate::handle::{Handle, HandlePlace, hand_out};
use crate::next::{self, FramehopNext};
use crate::object::Object;
use crate::sections::FramehopSections;
use crate::status::{
    FRAMEHOP_OK, FRAMEHOP_OUT_OF_MEMORY, FRAMEHOP_RETURN_ADDRESS_IS_NULL, FRAMEHOP_WRONG_HANDLE,
    list_error_status,
};
use framehop::Unwinder;
use framehop::x86_64::{CacheX86_64, Reg, UnwindRegsX86_64, UnwinderX86_64};
use framehop_lent::Window;
use std::alloc::Global;

/// The registers of x86_64.
#[repr(C)]
pub struct FramehopRegistersX86_64 {
    pub ip: u64,
    pub rax: u64,
    pub rdx: u64,
    pub rcx: u64,
    pub rbx: u64,
    pub rsi: u64,
    pub rdi: u64,
    pub rbp: u64,
    pub rsp: u64,
    pub r8: u64,
    pub r9: u64,
    pub r10: u64,
    pub r11: u64,
    pub r12: u64,
    pub r13: u64,
    pub r14: u64,
    pub r15: u64,
}

impl FramehopRegistersX86_64 {
    /// Returns the registers as the unwinder takes them.
    fn load(&self) -> UnwindRegsX86_64
        ensures { result ≡ registers_in self.now }
    {
        let mut regs = UnwindRegsX86_64::new(self.ip, self.rsp, self.rbp);
        regs.set(Reg::RAX, self.rax);
        regs.set(Reg::RDX, self.rdx);
        regs.set(Reg::RCX, self.rcx);
        regs.set(Reg::RBX, self.rbx);
        regs.set(Reg::RSI, self.rsi);
        regs.set(Reg::RDI, self.rdi);
        regs.set(Reg::R8, self.r8);
        regs.set(Reg::R9, self.r9);
        regs.set(Reg::R10, self.r10);
        regs.set(Reg::R11, self.r11);
        regs.set(Reg::R12, self.r12);
        regs.set(Reg::R13, self.r13);
        regs.set(Reg::R14, self.r14);
        regs.set(Reg::R15, self.r15);
        regs
    }

    /// Writes the registers that a call has left.
    fn store(&mut self, regs: &UnwindRegsX86_64)
        ensures { registers_in self.new ≡ regs.now }
    {
        self.ip = regs.ip();
        self.rax = regs.get(Reg::RAX);
        self.rdx = regs.get(Reg::RDX);
        self.rcx = regs.get(Reg::RCX);
        self.rbx = regs.get(Reg::RBX);
        self.rsi = regs.get(Reg::RSI);
        self.rdi = regs.get(Reg::RDI);
        self.rbp = regs.bp();
        self.rsp = regs.sp();
        self.r8 = regs.get(Reg::R8);
        self.r9 = regs.get(Reg::R9);
        self.r10 = regs.get(Reg::R10);
        self.r11 = regs.get(Reg::R11);
        self.r12 = regs.get(Reg::R12);
        self.r13 = regs.get(Reg::R13);
        self.r14 = regs.get(Reg::R14);
        self.r15 = regs.get(Reg::R15);
    }
}

/// Makes an unwinder without modules, of the next generation.
#[unsafe(no_mangle)]
pub extern "C" fn framehop_unwinder_x86_64_new(
    alloc: Global,
    generations: &mut Handle,
    may_allocate: bool,
    place: &mut HandlePlace,
) -> i32
    ensures made { ForGenerations generations.old.object generations.new.object (λ old new. result ≡ ok →
        unwinder_in place.new.object ≡ Some (policy_for may_allocate, record { modules = []; generation = old })) }
    ensures drawn { ForGenerations generations.old.object generations.new.object (λ old new. IsDrawn result old new) }
    ensures wrong { MatchOption (generations_in generations.old.object) (result ≡ wrong_handle)
        (λ _. (result ≡ ok) ⊎ (result ≡ out_of_memory) ⊎ (result ≡ generations_exhausted)) }
    ensures unchanged { result ≡ wrong_handle → generations.new.object ≡ generations.old.object }
    ensures kept { result ≢ ok → place.new ≡ place.old }
{
    let Object::Generations(generations) = generations.object_mut() else {
        return FRAMEHOP_WRONG_HANDLE;
    };
    if may_allocate {
        match UnwinderX86_64::new(alloc, generations) {
            Ok(unwinder) => hand_out(alloc, Object::UnwinderX86_64(unwinder), place),
            Err(error) => list_error_status(error),
        }
    } else {
        match UnwinderX86_64::new(alloc, generations) {
            Ok(unwinder) => hand_out(alloc, Object::LimitedUnwinderX86_64(unwinder), place),
            Err(error) => list_error_status(error),
        }
    }
}

/// Makes a clone of an unwinder, of the same generation.
#[unsafe(no_mangle)]
pub extern "C" fn framehop_unwinder_x86_64_clone(
    alloc: Global,
    unwinder: &mut Handle,
    place: &mut HandlePlace,
) -> i32
    ensures made { MatchOption (unwinder_in unwinder.old.object) (result ≡ wrong_handle) (λ unwinder.
        ((result ≡ ok) × (unwinder_in place.new.object ≡ Some unwinder)) ⊎ (result ≡ out_of_memory)) }
    ensures kept { unwinder.new.object ≡ unwinder.old.object }
    ensures unchanged { result ≢ ok → place.new ≡ place.old }
{
    match unwinder.object_mut() {
        Object::UnwinderX86_64(unwinder) => match unwinder.clone() {
            Ok(copy) => hand_out(alloc, Object::UnwinderX86_64(copy), place),
            Err(_) => FRAMEHOP_OUT_OF_MEMORY,
        },
        Object::LimitedUnwinderX86_64(unwinder) => match unwinder.clone() {
            Ok(copy) => hand_out(alloc, Object::LimitedUnwinderX86_64(copy), place),
            Err(_) => FRAMEHOP_OUT_OF_MEMORY,
        },
        _ => FRAMEHOP_WRONG_HANDLE,
    }
}

/// Makes a module of its addresses (AVMAs) and sections, and adds it to an unwinder.
#[unsafe(no_mangle)]
pub extern "C" fn framehop_unwinder_x86_64_add_module(
    alloc: Global,
    unwinder: &mut Handle,
    generations: &mut Handle,
    avma_start: u64,
    avma_end: u64,
    base_avma: u64,
    sections: &FramehopSections,
) -> i32
    ensures added { ForUnwinder unwinder.old.object unwinder.new.object (λ policy old new.
        ForGenerations generations.old.object generations.new.object (λ before after.
        IsAddition (module_of avma_start avma_end base_avma sections.now) result old new before after)) }
    ensures statuses { (result ≡ ok) ⊎ (result ≡ out_of_memory) ⊎ (result ≡ generations_exhausted) ⊎ (result ≡ wrong_handle) }
    ensures wrong { MatchOption (generations_in generations.old.object) (result ≡ wrong_handle) (λ _.
        MatchOption (unwinder_in unwinder.old.object) (result ≡ wrong_handle) (λ _. result ≢ wrong_handle)) }
    ensures refused { result ≢ ok → (unwinder.new.object ≡ unwinder.old.object) × (generations.new.object ≡ generations.old.object) }
{
    let Object::Generations(generations) = generations.object_mut() else {
        return FRAMEHOP_WRONG_HANDLE;
    };
    let avma = avma_start..avma_end;
    match unwinder.object_mut() {
        Object::UnwinderX86_64(unwinder) => {
            calls::add_module(alloc, unwinder, generations, avma, base_avma, sections)
        }
        Object::LimitedUnwinderX86_64(unwinder) => {
            calls::add_module(alloc, unwinder, generations, avma, base_avma, sections)
        }
        _ => FRAMEHOP_WRONG_HANDLE,
    }
}

/// Removes the newest module of a start (AVMA), if there is one.
#[unsafe(no_mangle)]
pub extern "C" fn framehop_unwinder_x86_64_remove_module(
    unwinder: &mut Handle,
    generations: &mut Handle,
    avma_start: u64,
) -> i32
    ensures removed { ForUnwinder unwinder.old.object unwinder.new.object (λ policy old new.
        ForGenerations generations.old.object generations.new.object (λ before after.
        IsRemoval avma_start result old new before after)) }
    ensures wrong { MatchOption (generations_in generations.old.object) (result ≡ wrong_handle) (λ _.
        MatchOption (unwinder_in unwinder.old.object) (result ≡ wrong_handle) (λ _. result ≢ wrong_handle)) }
    ensures refused { result ≢ ok → (unwinder.new.object ≡ unwinder.old.object) × (generations.new.object ≡ generations.old.object) }
{
    let Object::Generations(generations) = generations.object_mut() else {
        return FRAMEHOP_WRONG_HANDLE;
    };
    match unwinder.object_mut() {
        Object::UnwinderX86_64(unwinder) => {
            calls::remove_module(unwinder, generations, avma_start)
        }
        Object::LimitedUnwinderX86_64(unwinder) => {
            calls::remove_module(unwinder, generations, avma_start)
        }
        _ => FRAMEHOP_WRONG_HANDLE,
    }
}

/// Writes the greatest end of a module (AVMA), or 0 without modules.
#[unsafe(no_mangle)]
pub extern "C" fn framehop_unwinder_x86_64_max_known_code_address(
    unwinder: &mut Handle,
    address: &mut u64,
) -> i32
    ensures greatest { MatchOption (unwinder_in unwinder.old.object) (result ≡ wrong_handle)
        (λ unwinder. (result ≡ ok) × (address.new ≡ greatest_end unwinder.1.modules)) }
    ensures kept { unwinder.new.object ≡ unwinder.old.object }
    ensures unchanged { result ≡ wrong_handle → address.new ≡ address.old }
{
    *address = match unwinder.object_mut() {
        Object::UnwinderX86_64(unwinder) => unwinder.max_known_code_address(),
        Object::LimitedUnwinderX86_64(unwinder) => unwinder.max_known_code_address(),
        _ => return FRAMEHOP_WRONG_HANDLE,
    };
    FRAMEHOP_OK
}

/// Walks by an unwinder and a cache of one policy: [`calls::walk`].
fn walk_by(
    unwinder: &Object,
    cache: &mut Object,
    pc: u64,
    regs: &mut UnwindRegsX86_64,
    stack: &Window<'_>,
    frames: &mut [u64],
    told: &mut FramehopWalk,
) -> i32
    ensures wrong { IsPaired unwinder.now cache.old (result ≡ wrong_handle) }
    ensures unchanged { result ≡ wrong_handle → (cache.new ≡ cache.old) × (frames.new ≡ frames.old) × (told.new ≡ told.old) }
    ensures fits { result ≢ wrong_handle → told.new.frame_count ≤ length frames.old }
    ensures others { result ≢ wrong_handle → drop told.new.frame_count frames.new ≡ drop told.new.frame_count frames.old }
    ensures may_run_out { result ≡ out_of_memory → RunsOutOnly unwinder.now }
    ensures unreadable { result ≡ out_of_memory → told.new.unreadable ≡ 0 }
    ensures stays_sound { ForPair unwinder.now cache.old cache.new StaysSound }
    ensures answers { ForPair unwinder.now cache.old cache.new (λ policy unwinder old new. IsSoundX86_64 policy unwinder old →
        let memory = words_from stack.now.base stack.now.words.now in
        let whole = walk_over policy unwinder memory (length frames.old) pc regs.old in
        let part = walk_over policy unwinder memory told.new.frame_count pc regs.old in
        BeginsWalk whole told.new.frame_count frames.new
        × (result ≡ out_of_memory → IsToldPart part told.new frames.new regs.new)
        × (result ≢ out_of_memory → IsToldWalk whole result told.new frames.new regs.new)) }
{
    match unwinder {
        Object::UnwinderX86_64(unwinder) => match cache {
            Object::CacheX86_64(cache) => {
                calls::walk(unwinder, cache, pc, regs, stack, frames, told)
            }
            _ => FRAMEHOP_WRONG_HANDLE,
        },
        Object::LimitedUnwinderX86_64(unwinder) => match cache {
            Object::LimitedCacheX86_64(cache) => {
                calls::walk(unwinder, cache, pc, regs, stack, frames, told)
            }
            _ => FRAMEHOP_WRONG_HANDLE,
        },
        _ => FRAMEHOP_WRONG_HANDLE,
    }
}

/// Walks a stack over the words of a window, from an instruction pointer (AVMA) and initial
/// registers on: writes the addresses (AVMAs) of its frames, and the registers at its end.
#[unsafe(no_mangle)]
pub extern "C" fn framehop_unwinder_x86_64_walk(
    unwinder: &mut Handle,
    cache: &mut Handle,
    pc: u64,
    registers: &mut FramehopRegistersX86_64,
    stack: &Window<'_>,
    frames: &mut [u64],
    told: &mut FramehopWalk,
) -> i32
    ensures wrong { IsPaired unwinder.old.object cache.old.object (result ≡ wrong_handle) }
    ensures kept { unwinder.new.object ≡ unwinder.old.object }
    ensures unchanged { result ≡ wrong_handle → (cache.new.object ≡ cache.old.object) × (registers.new ≡ registers.old)
        × (frames.new ≡ frames.old) × (told.new ≡ told.old) }
    ensures fits { result ≢ wrong_handle → told.new.frame_count ≤ length frames.old }
    ensures others { result ≢ wrong_handle → drop told.new.frame_count frames.new ≡ drop told.new.frame_count frames.old }
    ensures may_run_out { result ≡ out_of_memory → RunsOutOnly unwinder.old.object }
    ensures unreadable { result ≡ out_of_memory → told.new.unreadable ≡ 0 }
    ensures stays_sound { ForPair unwinder.old.object cache.old.object cache.new.object StaysSound }
    ensures answers { ForPair unwinder.old.object cache.old.object cache.new.object (λ policy unwinder old new. IsSoundX86_64 policy unwinder old →
        let memory = words_from stack.now.base stack.now.words.now in
        let whole = walk_over policy unwinder memory (length frames.old) pc (registers_in registers.old) in
        let part = walk_over policy unwinder memory told.new.frame_count pc (registers_in registers.old) in
        BeginsWalk whole told.new.frame_count frames.new
        × (result ≡ out_of_memory → IsToldPart part told.new frames.new (registers_in registers.new))
        × (result ≢ out_of_memory → IsToldWalk whole result told.new frames.new (registers_in registers.new))) }
{
    let mut regs = registers.load();
    let status = walk_by(
        unwinder.object_mut(),
        cache.object_mut(),
        pc,
        &mut regs,
        stack,
        frames,
        told,
    );
    if status != FRAMEHOP_WRONG_HANDLE {
        registers.store(&regs);
    }
    status
}

/// Walks on by an unwinder and a cache of one policy: [`calls::walk_on_from`].
fn walk_on_by(
    unwinder: &Object,
    cache: &mut Object,
    address: u64,
    is_return_address: bool,
    regs: &mut UnwindRegsX86_64,
    windows: &[Window<'_>],
    frames: &mut [u64],
    told: &mut FramehopWalk,
) -> i32
    ensures wrong { IsPaired unwinder.now cache.old (result ≡ wrong_handle) }
    ensures unchanged { result ≡ wrong_handle → (cache.new ≡ cache.old) × (frames.new ≡ frames.old) × (told.new ≡ told.old) }
    ensures fits { result ≢ wrong_handle → told.new.frame_count ≤ length frames.old }
    ensures others { result ≢ wrong_handle → drop told.new.frame_count frames.new ≡ drop told.new.frame_count frames.old }
    ensures missing { result ≡ missing_word → told_in windows.now told.new.unreadable ≡ None }
    ensures may_run_out { result ≡ out_of_memory → RunsOutOnly unwinder.now }
    ensures unreadable { result ≡ out_of_memory → told.new.unreadable ≡ 0 }
    ensures null { ForPair unwinder.now cache.old cache.new (λ policy unwinder old new.
        is_null_return address is_return_address ≡ true → IsNullWalk result told.new × (frames.new ≡ frames.old)
        × (regs.new ≡ regs.old) × (new ≡ old)) }
    ensures stays_sound { ForPair unwinder.now cache.old cache.new StaysSound }
    ensures answers { ForPair unwinder.now cache.old cache.new (λ policy unwinder old new.
        is_null_return address is_return_address ≡ false → IsSoundX86_64 policy unwinder old
        → (memory : Memory) → AgreesWith windows.now memory
        → IsToldUpTo (λ location now. step (x86_64 policy) unwinder.modules location now memory) (length frames.old)
        (location_at address is_return_address) regs.old result told.new frames.new regs.new) }
{
    match unwinder {
        Object::UnwinderX86_64(unwinder) => match cache {
            Object::CacheX86_64(cache) => calls::walk_on_from(
                unwinder,
                cache,
                address,
                is_return_address,
                regs,
                windows,
                frames,
                told,
            ),
            _ => FRAMEHOP_WRONG_HANDLE,
        },
        Object::LimitedUnwinderX86_64(unwinder) => match cache {
            Object::LimitedCacheX86_64(cache) => calls::walk_on_from(
                unwinder,
                cache,
                address,
                is_return_address,
                regs,
                windows,
                frames,
                told,
            ),
            _ => FRAMEHOP_WRONG_HANDLE,
        },
        _ => FRAMEHOP_WRONG_HANDLE,
    }
}

/// Walks on from a frame over the words of windows: writes the return addresses (AVMAs) of the
/// frames that called it, and the registers of the last of them, or of the walk's end. It stops at
/// the first word that is asked for and of which no window tells.
#[unsafe(no_mangle)]
pub extern "C" fn framehop_unwinder_x86_64_walk_on(
    unwinder: &mut Handle,
    cache: &mut Handle,
    address: u64,
    is_return_address: bool,
    registers: &mut FramehopRegistersX86_64,
    windows: &[Window<'_>],
    frames: &mut [u64],
    told: &mut FramehopWalk,
) -> i32
    ensures wrong { IsPaired unwinder.old.object cache.old.object (result ≡ wrong_handle) }
    ensures kept { unwinder.new.object ≡ unwinder.old.object }
    ensures unchanged { result ≡ wrong_handle → (cache.new.object ≡ cache.old.object) × (registers.new ≡ registers.old)
        × (frames.new ≡ frames.old) × (told.new ≡ told.old) }
    ensures fits { result ≢ wrong_handle → told.new.frame_count ≤ length frames.old }
    ensures others { result ≢ wrong_handle → drop told.new.frame_count frames.new ≡ drop told.new.frame_count frames.old }
    ensures missing { result ≡ missing_word → told_in windows.now told.new.unreadable ≡ None }
    ensures may_run_out { result ≡ out_of_memory → RunsOutOnly unwinder.old.object }
    ensures unreadable { result ≡ out_of_memory → told.new.unreadable ≡ 0 }
    ensures null { ForPair unwinder.old.object cache.old.object cache.new.object (λ policy unwinder old new.
        is_null_return address is_return_address ≡ true → IsNullWalk result told.new × (frames.new ≡ frames.old)
        × (registers_in registers.new ≡ registers_in registers.old) × (new ≡ old)) }
    ensures stays_sound { ForPair unwinder.old.object cache.old.object cache.new.object StaysSound }
    ensures answers { ForPair unwinder.old.object cache.old.object cache.new.object (λ policy unwinder old new.
        is_null_return address is_return_address ≡ false → IsSoundX86_64 policy unwinder old
        → (memory : Memory) → AgreesWith windows.now memory
        → IsToldUpTo (λ location now. step (x86_64 policy) unwinder.modules location now memory) (length frames.old)
        (location_at address is_return_address) (registers_in registers.old) result told.new frames.new (registers_in registers.new)) }
{
    let mut regs = registers.load();
    let status = walk_on_by(
        unwinder.object_mut(),
        cache.object_mut(),
        address,
        is_return_address,
        &mut regs,
        windows,
        frames,
        told,
    );
    if status != FRAMEHOP_WRONG_HANDLE {
        registers.store(&regs);
    }
    status
}

/// Unwinds by an unwinder and a cache of one policy: [`calls::unwind_frame`].
fn unwind_frame_by(
    unwinder: &Object,
    cache: &mut Object,
    address: u64,
    is_return_address: bool,
    regs: &mut UnwindRegsX86_64,
    windows: &[Window<'_>],
    told: &mut FramehopStep,
) -> i32
    ensures wrong { IsPaired unwinder.now cache.old (result ≡ wrong_handle) }
    ensures unchanged { result ≡ wrong_handle → (cache.new ≡ cache.old) × (told.new ≡ told.old) }
    ensures kept { result ≢ ok → regs.new ≡ regs.old }
    ensures missing { result ≢ wrong_handle → told.new.has_missing ≡ true → told_in windows.now told.new.missing ≡ None }
    ensures unreadable { told.new.has_missing ≡ false → result ≡ could_not_read_stack
        → told_in windows.now told.new.unreadable ≢ None }
    ensures nothing { result ≡ out_of_memory → (told.new.return_address ≡ 0) × (told.new.unreadable ≡ 0) }
    ensures null { ForPair unwinder.now cache.old cache.new (λ policy unwinder old new.
        is_null_return address is_return_address ≡ true → IsNullStep result told.new × (new ≡ old)) }
    ensures may_run_out { ForPair unwinder.now cache.old cache.new (λ policy unwinder old new.
        result ≡ out_of_memory → MayRunOut (x86_64 policy) unwinder old (location_at address is_return_address)) }
    ensures cached { ForPair unwinder.now cache.old cache.new (λ policy unwinder old new.
        is_null_return address is_return_address ≡ false → result ≢ out_of_memory
        → new ≡ cache_after (x86_64 policy) unwinder old (location_at address is_return_address)) }
    ensures not_cached { ForPair unwinder.now cache.old cache.new (λ policy unwinder old new.
        result ≡ out_of_memory → new ≡ cache_after_lookup unwinder old (location_at address is_return_address)) }
    ensures stays_sound { ForPair unwinder.now cache.old cache.new StaysSound }
    ensures answers { ForPair unwinder.now cache.old cache.new (λ policy unwinder old new.
        is_null_return address is_return_address ≡ false → IsSoundX86_64 policy unwinder old → result ≢ out_of_memory
        → (memory : Memory) → IsReadAs windows.now told.new.has_missing memory
        → IsToldStep (step (x86_64 policy) unwinder.modules (location_at address is_return_address) regs.old memory)
        result told.new regs.old regs.new) }
{
    match unwinder {
        Object::UnwinderX86_64(unwinder) => match cache {
            Object::CacheX86_64(cache) => calls::unwind_frame(
                unwinder,
                cache,
                address,
                is_return_address,
                regs,
                windows,
                told,
            ),
            _ => FRAMEHOP_WRONG_HANDLE,
        },
        Object::LimitedUnwinderX86_64(unwinder) => match cache {
            Object::LimitedCacheX86_64(cache) => calls::unwind_frame(
                unwinder,
                cache,
                address,
                is_return_address,
                regs,
                windows,
                told,
            ),
            _ => FRAMEHOP_WRONG_HANDLE,
        },
        _ => FRAMEHOP_WRONG_HANDLE,
    }
}

/// Unwinds a single frame over the words of windows, and writes the caller's registers where it
/// finds a return address.
#[unsafe(no_mangle)]
pub extern "C" fn framehop_unwinder_x86_64_unwind_frame(
    unwinder: &mut Handle,
    cache: &mut Handle,
    address: u64,
    is_return_address: bool,
    registers: &mut FramehopRegistersX86_64,
    windows: &[Window<'_>],
    told: &mut FramehopStep,
) -> i32
    ensures wrong { IsPaired unwinder.old.object cache.old.object (result ≡ wrong_handle) }
    ensures unwinder { unwinder.new.object ≡ unwinder.old.object }
    ensures unchanged { result ≡ wrong_handle → (cache.new.object ≡ cache.old.object) × (told.new ≡ told.old) }
    ensures kept { result ≢ ok → registers.new ≡ registers.old }
    ensures missing { result ≢ wrong_handle → told.new.has_missing ≡ true → told_in windows.now told.new.missing ≡ None }
    ensures unreadable { told.new.has_missing ≡ false → result ≡ could_not_read_stack
        → told_in windows.now told.new.unreadable ≢ None }
    ensures nothing { result ≡ out_of_memory → (told.new.return_address ≡ 0) × (told.new.unreadable ≡ 0) }
    ensures null { ForPair unwinder.old.object cache.old.object cache.new.object (λ policy unwinder old new.
        is_null_return address is_return_address ≡ true → IsNullStep result told.new × (new ≡ old)) }
    ensures may_run_out { ForPair unwinder.old.object cache.old.object cache.new.object (λ policy unwinder old new.
        result ≡ out_of_memory → MayRunOut (x86_64 policy) unwinder old (location_at address is_return_address)) }
    ensures cached { ForPair unwinder.old.object cache.old.object cache.new.object (λ policy unwinder old new.
        is_null_return address is_return_address ≡ false → result ≢ out_of_memory
        → new ≡ cache_after (x86_64 policy) unwinder old (location_at address is_return_address)) }
    ensures not_cached { ForPair unwinder.old.object cache.old.object cache.new.object (λ policy unwinder old new.
        result ≡ out_of_memory → new ≡ cache_after_lookup unwinder old (location_at address is_return_address)) }
    ensures stays_sound { ForPair unwinder.old.object cache.old.object cache.new.object StaysSound }
    ensures answers { ForPair unwinder.old.object cache.old.object cache.new.object (λ policy unwinder old new.
        is_null_return address is_return_address ≡ false → IsSoundX86_64 policy unwinder old → result ≢ out_of_memory
        → (memory : Memory) → IsReadAs windows.now told.new.has_missing memory
        → IsToldStep (step (x86_64 policy) unwinder.modules (location_at address is_return_address) (registers_in registers.old) memory)
        result told.new (registers_in registers.old) (registers_in registers.new)) }
{
    let mut regs = registers.load();
    let status = unwind_frame_by(
        unwinder.object_mut(),
        cache.object_mut(),
        address,
        is_return_address,
        &mut regs,
        windows,
        told,
    );
    if status == FRAMEHOP_OK {
        registers.store(&regs);
    }
    status
}

/// Finds a frame's caller by an unwinder and a cache of one policy: [`next::next_frame`].
fn next_frame_by(
    unwinder: &Object,
    cache: &mut Object,
    address: u64,
    is_return_address: bool,
    regs: &mut UnwindRegsX86_64,
    windows: &[Window<'_>],
    told: &mut FramehopNext,
) -> i32
    ensures wrong { IsPaired unwinder.now cache.old (result ≡ wrong_handle) }
    ensures unchanged { result ≡ wrong_handle → (cache.new ≡ cache.old) × (told.new ≡ told.old) }
    ensures kept { result ≢ ok → result ≢ return_address_is_null → result ≢ missing_word → regs.new ≡ regs.old }
    ensures missing { result ≡ missing_word → told_in windows.now told.new.unreadable ≡ None }
    ensures nothing { result ≢ wrong_handle → result ≢ ok → (told.new.return_address ≡ 0) × IsNoAhead told.new.ahead }
    ensures null { ForPair unwinder.now cache.old cache.new (λ policy unwinder old new.
        is_null_return address is_return_address ≡ true → IsNullNext result told.new × (new ≡ old)) }
    ensures null_kept { is_null_return address is_return_address ≡ true → regs.new ≡ regs.old }
    ensures may_run_out { ForPair unwinder.now cache.old cache.new (λ policy unwinder old new.
        result ≡ out_of_memory → MayRunOut (x86_64 policy) unwinder old (location_at address is_return_address)) }
    ensures looked_up { ForPair unwinder.now cache.old cache.new (λ policy unwinder old new.
        is_null_return address is_return_address ≡ false
        → told.new.lookup ≡ lookup_between old.stats (cache_after (x86_64 policy) unwinder old (location_at address is_return_address)).stats) }
    ensures stays_sound { ForPair unwinder.now cache.old cache.new StaysSound }
    ensures answers { result ≢ out_of_memory → result ≢ missing_word → ForPair unwinder.now cache.old cache.new (λ policy unwinder old new.
        is_null_return address is_return_address ≡ false → IsSoundX86_64 policy unwinder old
        → (memory : Memory) → AgreesWith windows.now memory
        → IsToldNext (next_of (λ location now. step (x86_64 policy) unwinder.modules location now memory)
        (at_frame (location_at address is_return_address)) regs.old) result told.new regs.new) }
    ensures ahead { result ≡ ok → ForPair unwinder.now cache.old cache.new (λ policy unwinder old new. IsSoundX86_64 policy unwinder old →
        let asking : Memory → Outcome Registers = λ memory. step (x86_64 policy) unwinder.modules (at_return_address told.new.return_address) regs.new memory in
        IsAsked asking told.new.ahead × IsNeeded asking told.new.ahead × IsEnough asking told.new.ahead) }
    ensures looked_up_ahead { result ≡ ok → ForPair unwinder.now cache.old cache.new (λ policy unwinder old new.
        let between = cache_after (x86_64 policy) unwinder old (location_at address is_return_address) in
        told.new.ahead.lookup ≡ lookup_between between.stats (cache_after (x86_64 policy) unwinder between (at_return_address told.new.return_address)).stats) }
{
    match unwinder {
        Object::UnwinderX86_64(unwinder) => match cache {
            Object::CacheX86_64(cache) => next::next_frame(
                unwinder,
                cache,
                address,
                is_return_address,
                regs,
                windows,
                told,
            ),
            _ => FRAMEHOP_WRONG_HANDLE,
        },
        Object::LimitedUnwinderX86_64(unwinder) => match cache {
            Object::LimitedCacheX86_64(cache) => next::next_frame(
                unwinder,
                cache,
                address,
                is_return_address,
                regs,
                windows,
                told,
            ),
            _ => FRAMEHOP_WRONG_HANDLE,
        },
        _ => FRAMEHOP_WRONG_HANDLE,
    }
}

/// Finds the frame that called the one at an address (AVMA), over the words of windows: writes its return address (AVMA) and its
/// registers, and tells the words that the step from it will ask for first.
#[unsafe(no_mangle)]
pub extern "C" fn framehop_unwinder_x86_64_next_frame(
    unwinder: &mut Handle,
    cache: &mut Handle,
    address: u64,
    is_return_address: bool,
    registers: &mut FramehopRegistersX86_64,
    windows: &[Window<'_>],
    told: &mut FramehopNext,
) -> i32
    ensures wrong { IsPaired unwinder.old.object cache.old.object (result ≡ wrong_handle) }
    ensures unwinder { unwinder.new.object ≡ unwinder.old.object }
    ensures unchanged { result ≡ wrong_handle → (cache.new.object ≡ cache.old.object) × (told.new ≡ told.old) }
    ensures kept { result ≢ ok → result ≢ return_address_is_null → registers.new ≡ registers.old }
    ensures missing { result ≡ missing_word → told_in windows.now told.new.unreadable ≡ None }
    ensures nothing { result ≢ wrong_handle → result ≢ ok → (told.new.return_address ≡ 0) × IsNoAhead told.new.ahead }
    ensures null { ForPair unwinder.old.object cache.old.object cache.new.object (λ policy unwinder old new.
        is_null_return address is_return_address ≡ true → IsNullNext result told.new × (new ≡ old)) }
    ensures null_kept { is_null_return address is_return_address ≡ true → registers_in registers.new ≡ registers_in registers.old }
    ensures may_run_out { ForPair unwinder.old.object cache.old.object cache.new.object (λ policy unwinder old new.
        result ≡ out_of_memory → MayRunOut (x86_64 policy) unwinder old (location_at address is_return_address)) }
    ensures looked_up { ForPair unwinder.old.object cache.old.object cache.new.object (λ policy unwinder old new.
        is_null_return address is_return_address ≡ false
        → told.new.lookup ≡ lookup_between old.stats (cache_after (x86_64 policy) unwinder old (location_at address is_return_address)).stats) }
    ensures stays_sound { ForPair unwinder.old.object cache.old.object cache.new.object StaysSound }
    ensures answers { result ≢ out_of_memory → result ≢ missing_word → ForPair unwinder.old.object cache.old.object cache.new.object (λ policy unwinder old new.
        is_null_return address is_return_address ≡ false → IsSoundX86_64 policy unwinder old
        → (memory : Memory) → AgreesWith windows.now memory
        → IsToldNext (next_of (λ location now. step (x86_64 policy) unwinder.modules location now memory)
        (at_frame (location_at address is_return_address)) (registers_in registers.old)) result told.new (registers_in registers.new)) }
    ensures ahead { result ≡ ok → ForPair unwinder.old.object cache.old.object cache.new.object (λ policy unwinder old new. IsSoundX86_64 policy unwinder old →
        let asking : Memory → Outcome Registers = λ memory. step (x86_64 policy) unwinder.modules (at_return_address told.new.return_address) (registers_in registers.new) memory in
        IsAsked asking told.new.ahead × IsNeeded asking told.new.ahead × IsEnough asking told.new.ahead) }
    ensures looked_up_ahead { result ≡ ok → ForPair unwinder.old.object cache.old.object cache.new.object (λ policy unwinder old new.
        let between = cache_after (x86_64 policy) unwinder old (location_at address is_return_address) in
        told.new.ahead.lookup ≡ lookup_between between.stats (cache_after (x86_64 policy) unwinder between (at_return_address told.new.return_address)).stats) }
{
    let mut regs = registers.load();
    let status = next_frame_by(
        unwinder.object_mut(),
        cache.object_mut(),
        address,
        is_return_address,
        &mut regs,
        windows,
        told,
    );
    if status == FRAMEHOP_OK || status == FRAMEHOP_RETURN_ADDRESS_IS_NULL {
        registers.store(&regs);
    }
    status
}
