//! Unwinders with the caches that they share, and the commands over them.
ghost use Rattle.std.specs.Prelude.{◌≡◌, ◌+◌, ◌≤◌, ℕ, [], replicate, IfOk, IfErr};
ghost use Rattle.framehop.specs.CachedWorld.{CachedWorld};
ghost use Rattle.framehop.specs.SessionView.{state_of};
ghost use Rattle.framehop.specs.Transparent.{IsTransparent, Serves};
ghost use Rattle.framehop_cache.specs.Cache.{empty_cache};

use crate::cache::{AllocationPolicy, Cache};
use crate::session::commands::{Command, Memory, Reply, SessionError};
use crate::session::walks::{step_stack, walk_stack};
use crate::unwinder::{Module, ModuleListError, Unwinder, UnwinderInternal, Unwinding};
use framehop_bytes::section::SectionBytes;
use framehop_cache::generations::Generations;
use framehop_core::FrameAddress;
use std::alloc::Global;

/// Unwinders and the caches that they share.
#[derive(Drop)]
pub(crate) struct Session<D: SectionBytes, A: Unwinding, P: AllocationPolicy> {
    alloc: Global,
    unwinders: Vec<UnwinderInternal<D, A, P>>,
    caches: Vec<Cache<A::UnwindRule, P>>,
}

impl<D: SectionBytes + Drop, A: Unwinding, P: AllocationPolicy> Session<D, A, P> {
    /// No unwinder, and so many empty caches.
    pub(crate) fn new(alloc: Global, cache_count: usize) -> Result<Self, SessionError>
        ensures made { IfOk result (λ session.
            (session.unwinders.items ≡ []) × (session.caches.items ≡ replicate cache_count empty_cache)) }
        ensures refused { IfErr result (λ error. error ≡ SessionError.OutOfMemory) }
    {
        let mut caches = Vec::new(alloc);
        for _number in 0..cache_count {
            let Ok(cache) = Cache::new(alloc) else {
                return Err(SessionError::OutOfMemory);
            };
            if caches.push(cache).is_err() {
                return Err(SessionError::OutOfMemory);
            }
        }
        Ok(Session {
            alloc,
            unwinders: Vec::new(alloc),
            caches,
        })
    }

    fn make_unwinder(
        &mut self,
        generations: &mut Generations,
    ) -> Result<Reply<A::UnwindRegs>, SessionError>
        ensures drawn { generations.old ≤ generations.new }
        ensures drawn_at_most { generations.new ≤ generations.old + 1 }
        ensures served { let old : CachedWorld A.UnwindRule = state_of self.old generations.old in
            let command : Command D A.UnwindRegs = Command.New in
            Serves (A.unwinding P.policy) old command result
            (state_of self.new generations.new) }
    {
        let number = self.unwinders.len();
        let Ok(unwinder) = UnwinderInternal::new(self.alloc, generations) else {
            return Err(SessionError::GenerationsExhausted);
        };
        if self.unwinders.push(unwinder).is_err() {
            return Err(SessionError::OutOfMemory);
        }
        Ok(Reply::Made(number))
    }

    fn add_module(
        &mut self,
        unwinder: usize,
        module: Module<D>,
        generations: &mut Generations,
    ) -> Result<Reply<A::UnwindRegs>, SessionError>
        ensures drawn { generations.old ≤ generations.new }
        ensures drawn_at_most { generations.new ≤ generations.old + 1 }
        ensures served { let old : CachedWorld A.UnwindRule = state_of self.old generations.old in
            let command : Command D A.UnwindRegs = Command.Add unwinder «module» in
            Serves (A.unwinding P.policy) old command result
            (state_of self.new generations.new) }
    {
        if unwinder >= self.unwinders.len() {
            return Err(SessionError::NoSuchUnwinder);
        }
        let target = &mut self.unwinders[unwinder];
        match target.add_module(module, generations) {
            Ok(()) => Ok(Reply::Done),
            Err(refused) => Err(match refused.cause {
                ModuleListError::OutOfMemory => SessionError::OutOfMemory,
                ModuleListError::GenerationsExhausted => SessionError::GenerationsExhausted,
            }),
        }
    }

    fn clone_unwinder(&mut self, unwinder: usize) -> Result<Reply<A::UnwindRegs>, SessionError>
        ensures { (next : ℕ) → let old : CachedWorld A.UnwindRule = state_of self.old next in
            let command : Command D A.UnwindRegs = Command.Clone unwinder in
            Serves (A.unwinding P.policy) old command result
            (state_of self.new next) }
    {
        let number = self.unwinders.len();
        if unwinder >= number {
            return Err(SessionError::NoSuchUnwinder);
        }
        let Ok(copy) = self.unwinders[unwinder].clone() else {
            return Err(SessionError::OutOfMemory);
        };
        if self.unwinders.push(copy).is_err() {
            return Err(SessionError::OutOfMemory);
        }
        Ok(Reply::Made(number))
    }

    fn remove_module(
        &mut self,
        unwinder: usize,
        start: u64,
        generations: &mut Generations,
    ) -> Result<Reply<A::UnwindRegs>, SessionError>
        ensures drawn { generations.old ≤ generations.new }
        ensures drawn_at_most { generations.new ≤ generations.old + 1 }
        ensures served { let old : CachedWorld A.UnwindRule = state_of self.old generations.old in
            let command : Command D A.UnwindRegs = Command.Remove unwinder start in
            Serves (A.unwinding P.policy) old command result
            (state_of self.new generations.new) }
    {
        if unwinder >= self.unwinders.len() {
            return Err(SessionError::NoSuchUnwinder);
        }
        let target = &mut self.unwinders[unwinder];
        match target.remove_module(start, generations) {
            Ok(()) => Ok(Reply::Done),
            Err(ModuleListError::OutOfMemory) => Err(SessionError::OutOfMemory),
            Err(ModuleListError::GenerationsExhausted) => Err(SessionError::GenerationsExhausted),
        }
    }

    fn step(
        &mut self,
        unwinder: usize,
        cache: usize,
        address: FrameAddress,
        regs: A::UnwindRegs,
        memory: Memory,
    ) -> Result<Reply<A::UnwindRegs>, SessionError>
        ensures { (next : ℕ) → let old : CachedWorld A.UnwindRule = state_of self.old next in
            let command : Command D A.UnwindRegs = Command.Step unwinder cache address regs memory in
            IsTransparent (A.unwinding P.policy) old →
            Serves (A.unwinding P.policy) old command result
            (state_of self.new next) }
    {
        if unwinder >= self.unwinders.len() {
            return Err(SessionError::NoSuchUnwinder);
        }
        if cache >= self.caches.len() {
            return Err(SessionError::NoSuchCache);
        }
        let stepper = &self.unwinders[unwinder];
        let shared = &mut self.caches[cache];
        let (result, regs) = step_stack(stepper, shared, address, regs, &memory)?;
        Ok(Reply::Step { result, regs })
    }

    fn stats(&self, cache: usize) -> Result<Reply<A::UnwindRegs>, SessionError>
        ensures { (next : ℕ) → let state : CachedWorld A.UnwindRule = state_of self.now next in
            let command : Command D A.UnwindRegs = Command.Stats cache in
            Serves (A.unwinding P.policy) state command result state }
    {
        if cache >= self.caches.len() {
            return Err(SessionError::NoSuchCache);
        }
        Ok(Reply::Stats(self.caches[cache].stats()))
    }

    fn walk(
        &mut self,
        unwinder: usize,
        cache: usize,
        pc: u64,
        regs: A::UnwindRegs,
        memory: Memory,
        limit: u32,
    ) -> Result<Reply<A::UnwindRegs>, SessionError>
        ensures { (next : ℕ) → let old : CachedWorld A.UnwindRule = state_of self.old next in
            let command : Command D A.UnwindRegs = Command.Walk unwinder cache pc regs memory limit in
            IsTransparent (A.unwinding P.policy) old →
            Serves (A.unwinding P.policy) old command result
            (state_of self.new next) }
    {
        if unwinder >= self.unwinders.len() {
            return Err(SessionError::NoSuchUnwinder);
        }
        if cache >= self.caches.len() {
            return Err(SessionError::NoSuchCache);
        }
        let walker = &self.unwinders[unwinder];
        let shared = &mut self.caches[cache];
        let (frames, end, regs) = walk_stack(self.alloc, walker, shared, pc, regs, &memory, limit)?;
        Ok(Reply::Walk { frames, end, regs })
    }

    /// Carries out one command.
    pub(crate) fn serve(
        &mut self,
        command: Command<D, A::UnwindRegs>,
        generations: &mut Generations,
    ) -> Result<Reply<A::UnwindRegs>, SessionError>
        ensures drawn { generations.old ≤ generations.new }
        ensures drawn_at_most { generations.new ≤ generations.old + 1 }
        ensures served { let old : CachedWorld A.UnwindRule = state_of self.old generations.old in
            IsTransparent (A.unwinding P.policy) old →
            Serves (A.unwinding P.policy) old command result
            (state_of self.new generations.new) }
    {
        match command {
            Command::New => self.make_unwinder(generations),
            Command::Clone { unwinder } => self.clone_unwinder(unwinder),
            Command::Add { unwinder, module } => self.add_module(unwinder, module, generations),
            Command::Remove { unwinder, start } => self.remove_module(unwinder, start, generations),
            Command::Step {
                unwinder,
                cache,
                address,
                regs,
                memory,
            } => self.step(unwinder, cache, address, regs, memory),
            Command::Walk {
                unwinder,
                cache,
                pc,
                regs,
                memory,
                limit,
            } => self.walk(unwinder, cache, pc, regs, memory, limit),
            Command::Stats { cache } => self.stats(cache),
        }
    }
}
