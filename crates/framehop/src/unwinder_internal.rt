//! The unwinder of any architecture, over a cache.
//!
//! Each frame is looked up once, and after a miss one rule at most is stored. No section is read here: what modules
//! give is behind `Unwinding`, so all this holds for each kind of unwind data.
ghost use Rattle.std.specs.Prelude.{◌≡◌, ◌≢◌, ◌-◌, true, IfOk, IfErr, IfNone, OnSome, MatchOption, MatchResult, Err, None, Some};
ghost use Rattle.framehop.specs.Memory.{Answering};
ghost use Rattle.framehop.specs.Outcome.{answer_of, registers_after};
ghost use Rattle.framehop.specs.CodeAddress.{location_of, lookup_address, is_first_frame};
ghost use Rattle.framehop.specs.Meaning.{MeansAt};
ghost use Rattle.framehop.specs.Told.{TellsFresh, TellsFreshValues, WritesComputed, AnswerHas};
ghost use Rattle.framehop.specs.Fresh.{fresh, outcome_of, step};
ghost use Rattle.framehop_cache.specs.Cache.{found, counted, ways};
ghost use Rattle.framehop_cache.specs.CacheResult.{result_of, HitRuns};
ghost use Rattle.framehop.specs.Soundness.{key_of, sets_after_miss, MayTakeMemory};
ghost use Rattle.framehop.specs.Loaded.{IsMadeWith};
ghost use Rattle.framehop.specs.Modules.{IsMade, covering};

use crate::cache::{AllocationPolicy, Cache};
use crate::frame_answer::{FrameAnswer, frame_answer};
use crate::lookup::Lookup;
use crate::module_list::ModuleList;
use crate::modules::{Module, ModuleListError};
use crate::unwinder::{RefusedModule, Unwinder};
use crate::unwinding::Unwinding;
use framehop_bytes::section::SectionBytes;
use framehop_cache::generations::Generations;
use framehop_cache::rule_cache::{CacheHandle, CacheResult};
use framehop_cfi::context::UnwindContext;
use framehop_core::unwind_rule::UnwindRule;
use framehop_core::{Error, FrameAddress};
use std::alloc::{AllocError, Global};
use std::marker::{Model, PhantomData};

/// The modules of one process, and unwinding by them, for any architecture.
#[derive(Drop)]
pub struct UnwinderInternal<D: SectionBytes, A: Unwinding, P: AllocationPolicy> {
    modules: ModuleList<D>,
    modules_generation: u64,
    arch: PhantomData<A>,
    allocation_policy: PhantomData<P>,
}

impl<D: SectionBytes, A: Unwinding, P: AllocationPolicy> Model for UnwinderInternal<D, A, P> {
    ghost use Rattle.framehop.specs.Modules.{UnwinderView};

    ghost Value = { UnwinderView };

    ghost view = { λ u. record { modules = u.modules; generation = u.modules_generation } };
}

impl<D: SectionBytes + Drop, A: Unwinding, P: AllocationPolicy> Clone
    for UnwinderInternal<D, A, P> {
    ghost is_clone = { λ u copy. copy ≡ u };

    // the clone keeps the generation, since it has the same modules
    fn clone(&self) -> Result<Self, AllocError> {
        Ok(UnwinderInternal {
            modules: self.modules.clone()?,
            modules_generation: self.modules_generation,
            arch: PhantomData,
            allocation_policy: PhantomData,
        })
    }
}

impl<D: SectionBytes + Drop, A: Unwinding, P: AllocationPolicy> UnwinderInternal<D, A, P> {
    /// Returns an unwinder without modules, of the next generation. It takes no memory, and is refused
    /// only at the counter's end.
    pub fn new(alloc: Global, generations: &mut Generations) -> Result<Self, ModuleListError>
        ensures { IsMade result generations.old generations.new }
    {
        let Some(modules_generation) = generations.next() else {
            return Err(ModuleListError::GenerationsExhausted);
        };
        Ok(UnwinderInternal {
            modules: ModuleList::new(alloc),
            modules_generation,
            arch: PhantomData,
            allocation_policy: PhantomData,
        })
    }

    /// Returns an unwinder with these modules, added one after another, of the next generation.
    ///
    /// # Errors
    ///
    /// `GenerationsExhausted` where the counter is at its end (tested first), and `OutOfMemory`. The counter is
    /// unchanged.
    pub fn with_modules(
        alloc: Global,
        modules: Vec<Module<D>>,
        generations: &mut Generations,
    ) -> Result<Self, ModuleListError>
        ensures { IsMadeWith modules.items result generations.old generations.new }
    {
        let is_at_end = generations.is_exhausted();
        if is_at_end {
            return Err(ModuleListError::GenerationsExhausted);
        }
        let Ok(modules) = ModuleList::of_modules(alloc, modules) else {
            return Err(ModuleListError::OutOfMemory);
        };
        let mut unwinder = UnwinderInternal::new(alloc, generations)?;
        unwinder.modules = modules;
        Ok(unwinder)
    }

    /// Returns the modules, in the order of their starts.
    pub fn modules(&self) -> &[Module<D>]
        ensures { result.now ≡ self.now.modules }
    {
        self.modules.as_slice()
    }

    /// Returns the covering module of an address (AVMA), and the relative address.
    pub fn find_module_for_address(&self, address: u64) -> Option<(&Module<D>, u32)>
        ensures { MatchOption result (covering self.now.modules address ≡ None)
            (λ found. (covering self.now.modules address ≡ Some found.0.now)
            × (found.1 ≡ address - found.0.now.base_avma)) }
    {
        self.modules.covering(address)
    }

    /// Unwinds a frame as [`Unwinder::unwind_frame`] does with an empty cache, which it doesn't take:
    /// the rows of call frame tables are made in the context.
    ///
    /// # Errors
    ///
    /// Those of `unwind_frame`. The registers are then as they were.
    pub fn step_fresh<F>(
        &self,
        unwind_context: &mut UnwindContext<P::GimliUnwindContextStorage>,
        address: FrameAddress,
        regs: &mut A::UnwindRegs,
        read_stack: &mut F,
    ) -> Result<Option<u64>, Error>
    where
        F: FnMut(u64) -> Result<u64, ()>,
        requires { F.IsAlwaysCallable read_stack.old }
        ensures callable { F.IsAlwaysCallable read_stack.new }
        ensures kept { MatchResult result
            (λ answer. IfNone answer (regs.new ≡ regs.old))
            (λ _. regs.new ≡ regs.old) }
        ensures may_run_out { result ≡ Err Error.OutOfMemory
            → MayTakeMemory (A.unwinding P.policy) self.now.modules (lookup_address (location_of address))
            (is_first_frame (location_of address)) }
        ensures answers { Answering F.FnMut read_stack.old read_stack.new (λ memory.
            result ≢ Err Error.OutOfMemory →
            let outcome = step (A.unwinding P.policy) self.now.modules (location_of address) regs.old memory in
            (result ≡ answer_of outcome) × (regs.new ≡ registers_after regs.old outcome)) }
    {
        let is_first_frame = !address.is_return_address();
        match self.unwind_by_modules(
            address.address_for_lookup(),
            is_first_frame,
            regs,
            unwind_context,
            read_stack,
        )? {
            FrameAnswer::Rule(rule) => rule.exec(is_first_frame, regs, read_stack),
            FrameAnswer::Computed(return_address) => Ok(Some(return_address)),
            FrameAnswer::Fallback | FrameAnswer::NotComputed => {
                A::UnwindRule::fallback_rule().exec(is_first_frame, regs, read_stack)
            }
        }
    }

    // looks for the rule of a frame in the cache
    #[inline(always)]
    fn lookup_rule(
        &self,
        address: FrameAddress,
        cache: &mut Cache<A::UnwindRule, P>,
    ) -> CacheResult<A::UnwindRule>
        ensures answer { result ≡ result_of (key_of self.now (location_of address))
            (found ways cache.old.sets (key_of self.now (location_of address))) }
        ensures executable { HitRuns A.UnwindRule.executable result }
        ensures kept { cache.new.sets ≡ cache.old.sets }
        ensures stats { cache.new.stats
            ≡ counted cache.old.stats (found ways cache.old.sets (key_of self.now (location_of address))) }
    {
        cache.lookup(
            address.address_for_lookup(),
            self.modules_generation,
            !address.is_return_address(),
        )
    }

    // unwinds a frame by the unwind data of the module that covers it, else by the fallback rule
    #[inline(always)]
    fn unwind_by_modules<F>(
        &self,
        lookup_address: u64,
        is_first_frame: bool,
        regs: &mut A::UnwindRegs,
        unwind_context: &mut UnwindContext<P::GimliUnwindContextStorage>,
        read_stack: &mut F,
    ) -> Result<FrameAnswer<A::UnwindRule>, Error>
    where
        F: FnMut(u64) -> Result<u64, ()>,
        requires { F.IsAlwaysCallable read_stack.old }
        ensures callable { F.IsAlwaysCallable read_stack.new }
        ensures refused { IfErr result (λ error. (error ≡ Error.OutOfMemory) × (regs.new ≡ regs.old)
            × MayTakeMemory (A.unwinding P.policy) self.now.modules lookup_address is_first_frame) }
        ensures written { IfOk result (λ answer.
            WritesComputed (A.step_advances is_first_frame) answer regs.old regs.new) }
        ensures executable { IfOk result (AnswerHas (λ rule. A.UnwindRule.executable rule ≡ true)) }
        ensures told { IfOk result
            (TellsFresh A.UnwindRule.fallback (fresh (A.unwinding P.policy) self.now.modules lookup_address is_first_frame)) }
        ensures answers { Answering F.FnMut read_stack.old read_stack.new (λ memory.
            IfOk result (λ answer. TellsFreshValues
            (fresh (A.unwinding P.policy) self.now.modules lookup_address is_first_frame)
            regs.old memory answer regs.new)) }
    {
        let Some((module, relative_address)) = self.find_module_for_address(lookup_address) else {
            return Ok(FrameAnswer::Fallback);
        };
        frame_answer(module.unwind_by_data::<A, P, F>(
            self.modules.allocator(),
            unwind_context,
            Lookup {
                relative_address,
                is_first_frame,
            },
            regs,
            read_stack,
        ))
    }

    // unwinds a frame whose rule is not in the cache
    #[inline(always)]
    fn unwind_uncached<F>(
        &self,
        handle: CacheHandle,
        lookup_address: u64,
        is_first_frame: bool,
        regs: &mut A::UnwindRegs,
        cache: &mut Cache<A::UnwindRule, P>,
        read_stack: &mut F,
    ) -> Result<Option<u64>, Error>
    where
        F: FnMut(u64) -> Result<u64, ()>,
        requires { F.IsAlwaysCallable read_stack.old }
        ensures callable { F.IsAlwaysCallable read_stack.new }
        ensures kept { MatchResult result
            (λ answer. IfNone answer (regs.new ≡ regs.old))
            (λ _. regs.new ≡ regs.old) }
        ensures advances { IfOk result (λ answer. OnSome answer (A.step_advances is_first_frame regs.old regs.new)) }
        ensures may_run_out { result ≡ Err Error.OutOfMemory
            → MayTakeMemory (A.unwinding P.policy) self.now.modules lookup_address is_first_frame }
        ensures stored { result ≢ Err Error.OutOfMemory → cache.new ≡ record cache.old {
          sets = sets_after_miss cache.old.sets handle
              (fresh (A.unwinding P.policy) self.now.modules lookup_address is_first_frame);
        } }
        ensures not_stored { result ≡ Err Error.OutOfMemory → cache.new ≡ cache.old }
        ensures answers { Answering F.FnMut read_stack.old read_stack.new (λ memory.
            result ≢ Err Error.OutOfMemory →
            let outcome = outcome_of (A.unwinding P.policy)
            (fresh (A.unwinding P.policy) self.now.modules lookup_address is_first_frame)
            is_first_frame regs.old memory in
            (result ≡ answer_of outcome) × (regs.new ≡ registers_after regs.old outcome)) }
    {
        match self.unwind_by_modules(
            lookup_address,
            is_first_frame,
            regs,
            &mut cache.gimli_unwind_context,
            read_stack,
        )? {
            FrameAnswer::Rule(rule) => {
                cache.insert(handle, rule);
                rule.exec(is_first_frame, regs, read_stack)
            }
            FrameAnswer::Fallback => {
                let fallback = A::UnwindRule::fallback_rule();
                cache.insert(handle, fallback);
                fallback.exec(is_first_frame, regs, read_stack)
            }
            FrameAnswer::Computed(return_address) => Ok(Some(return_address)),
            FrameAnswer::NotComputed => {
                A::UnwindRule::fallback_rule().exec(is_first_frame, regs, read_stack)
            }
        }
    }
}

impl<D: SectionBytes + Drop, A: Unwinding, P: AllocationPolicy> Unwinder
    for UnwinderInternal<D, A, P> {
    ghost use Rattle.framehop.specs.Fresh.{step};
    ghost use Rattle.framehop.specs.Soundness.{IsSound, Extends, MayRunOut, cache_after, cache_after_lookup};

    type UnwindRegs = A::UnwindRegs;

    type Cache = Cache<A::UnwindRule, P>;

    type Module = Module<D>;

    ghost unwinder_view = { λ u. u };

    ghost module_view = { λ m. m };

    ghost step = { λ u location regs memory. step (A.unwinding P.policy) u.modules location regs memory };

    ghost advances = { A.step_advances };

    ghost is_sound = { λ view cache. IsSound (A.unwinding P.policy) view cache.sets };

    ghost cache_after = { λ u cache location. cache_after (A.unwinding P.policy) u cache location };

    ghost cache_after_lookup = { λ u cache location. cache_after_lookup u cache location };

    ghost extends = { λ u old new. Extends (A.unwinding P.policy) u old.sets new.sets };

    ghost may_run_out = { λ u cache location. MayRunOut (A.unwinding P.policy) u cache location };

    ghost means = { λ u location old memory address new.
        MeansAt A.readers A.meanings A.UnwindRule.outcome P.policy u.modules location old memory address new };

    ghost step_means = { λ u location old new memory address answers.
        A.step_means P.policy u.modules location old new memory address answers };

    fn add_module(
        &mut self,
        module: Module<D>,
        generations: &mut Generations,
    ) -> Result<(), RefusedModule<Module<D>>> {
        if generations.is_exhausted() {
            return Err(RefusedModule {
                module,
                cause: ModuleListError::GenerationsExhausted,
            });
        }
        if let Err(module) = self.modules.insert(module) {
            return Err(RefusedModule {
                module,
                cause: ModuleListError::OutOfMemory,
            });
        }
        if let Some(generation) = generations.next() {
            self.modules_generation = generation;
        }
        Ok(())
    }

    fn remove_module(
        &mut self,
        module_avma_range_start: u64,
        generations: &mut Generations,
    ) -> Result<(), ModuleListError> {
        let Some(index) = self.modules.last_with_start(module_avma_range_start) else {
            return Ok(());
        };
        let Some(generation) = generations.next() else {
            return Err(ModuleListError::GenerationsExhausted);
        };
        self.modules.remove(index);
        self.modules_generation = generation;
        Ok(())
    }

    fn max_known_code_address(&self) -> u64 {
        self.modules.greatest_end()
    }

    #[inline]
    fn unwind_frame<F>(
        &self,
        address: FrameAddress,
        regs: &mut A::UnwindRegs,
        cache: &mut Cache<A::UnwindRule, P>,
        read_stack: &mut F,
    ) -> Result<Option<u64>, Error>
    where
        F: FnMut(u64) -> Result<u64, ()>,
    {
        let is_first_frame = !address.is_return_address();
        match self.lookup_rule(address, cache) {
            CacheResult::Hit(rule) => rule.exec(is_first_frame, regs, read_stack),
            CacheResult::Miss(handle) => self.unwind_uncached(
                handle,
                address.address_for_lookup(),
                is_first_frame,
                regs,
                cache,
                read_stack,
            ),
        }
    }
}
