//! Steps and walks of a session, over the words of a stack.
ghost use Rattle.std.specs.Prelude.{◌≡◌, IfOk, IfErr, OnOk};
ghost use Rattle.framehop.specs.Memory.{reply};
ghost use Rattle.framehop.specs.SessionView.{walk_of};
ghost use Rattle.framehop.specs.World.{memory_of};
ghost use Rattle.framehop.specs.Walk.{walk_from, cache_after_walk};
ghost use Rattle.framehop.specs.Soundness.{IsSound, MayRunOut, cache_after};
ghost use Rattle.framehop.specs.CachedWorld.{step_of};
ghost use Rattle.framehop.specs.CodeAddress.{location_of};
ghost use Rattle.framehop.specs.Outcome.{answer_of, registers_after};

use crate::cache::{AllocationPolicy, Cache};
use crate::session::commands::{Memory, SessionError};
use crate::unwinder::{Unwinder, UnwinderInternal, Unwinding};
use crate::walk::{WalkEnd, Words, walk};
use framehop_bytes::section::SectionBytes;
use framehop_core::{Error, FrameAddress};
use std::alloc::Global;

/// Walks a stack over its words: the frames, how the walk ended, and the registers there.
pub(crate) fn walk_stack<D: SectionBytes + Drop, A: Unwinding, P: AllocationPolicy>(
    alloc: Global,
    unwinder: &UnwinderInternal<D, A, P>,
    cache: &mut Cache<A::UnwindRule, P>,
    pc: u64,
    regs: A::UnwindRegs,
    memory: &Memory,
    limit: u32,
) -> Result<(Vec<FrameAddress>, WalkEnd, A::UnwindRegs), SessionError>
    ensures refused { IfErr result (λ error. error ≡ SessionError.OutOfMemory) }
    ensures answers { IsSound (A.unwinding P.policy) unwinder.now cache.old.sets → IfOk result (λ walk.
        let step = step_of (A.unwinding P.policy) unwinder.now (memory_of memory.now) in
        (walk_of walk.0.items walk.1 walk.2 ≡ walk_from step limit pc regs)
        × (cache.new ≡ cache_after_walk step
        (cache_after (A.unwinding P.policy) unwinder.now) limit pc regs cache.old)) }
{
    let mut read_stack = |address: u64| -> Result<u64, ()>
        ensures { result ≡ reply (memory_of memory.entry.now address) }
    { memory.read(address) };
    Ok(walk(alloc, unwinder, cache, pc, regs, &mut read_stack, limit)?)
}

/// Unwinds a frame over the words of a stack: what the step returns, and the registers after it.
pub(crate) fn step_stack<D: SectionBytes + Drop, A: Unwinding, P: AllocationPolicy>(
    unwinder: &UnwinderInternal<D, A, P>,
    cache: &mut Cache<A::UnwindRule, P>,
    address: FrameAddress,
    regs: A::UnwindRegs,
    memory: &Memory,
) -> Result<(Result<Option<u64>, Error>, A::UnwindRegs), SessionError>
    ensures refused { IfErr result (λ error. (error ≡ SessionError.OutOfMemory)
        × MayRunOut (A.unwinding P.policy) unwinder.now cache.old (location_of address)) }
    ensures cached { OnOk result (cache.new
        ≡ cache_after (A.unwinding P.policy) unwinder.now cache.old (location_of address)) }
    ensures answers { IsSound (A.unwinding P.policy) unwinder.now cache.old.sets →
        let stepping = step_of (A.unwinding P.policy) unwinder.now (memory_of memory.now) (location_of address) regs in
        IfOk result (λ stepped. (stepped.0 ≡ answer_of stepping) × (stepped.1 ≡ registers_after regs stepping)) }
{
    let mut read_stack = |address: u64| -> Result<u64, ()>
        ensures { result ≡ reply (memory_of memory.entry.now address) }
    { memory.read(address) };
    let mut regs = regs;
    match unwinder.unwind_frame(address, &mut regs, cache, &mut read_stack) {
        Ok(answer) => Ok((Ok(answer), regs)),
        Err(error) => match error {
            Error::OutOfMemory => Err(SessionError::OutOfMemory),
            refusal => Ok((Err(refusal), regs)),
        },
    }
}
