//! The unwinder of x86_64.
ghost use Rattle.std.specs.Prelude.{◌≡◌};
ghost use Rattle.framehop.specs.Loaded.{IsMadeWith};
ghost use Rattle.framehop.specs.Modules.{IsMade};

use crate::cache::{AllocationPolicy, MayAllocateDuringUnwind};
use crate::unwinder::{Module, ModuleListError, RefusedModule, Unwinder, UnwinderInternal};
use crate::x86_64::cache::CacheX86_64;
use framehop_bytes::section::SectionBytes;
use framehop_cache::generations::Generations;
use framehop_core::x86_64::{ArchX86_64, UnwindRegsX86_64};
use framehop_core::{Error, FrameAddress};
use std::alloc::{AllocError, Global};
use std::marker::Model;

/// The unwinder for x86_64.
#[derive(Drop)]
pub struct UnwinderX86_64<D: SectionBytes, P: AllocationPolicy = MayAllocateDuringUnwind>(
    UnwinderInternal<D, ArchX86_64, P>,
);

impl<D: SectionBytes, P: AllocationPolicy> Model for UnwinderX86_64<D, P> {
    ghost use Rattle.framehop.specs.Modules.{UnwinderView};

    ghost Value = { UnwinderView };

    ghost view = { λ u. u.0 };
}

impl<D: SectionBytes + Drop, P: AllocationPolicy> Clone for UnwinderX86_64<D, P> {
    ghost is_clone = { λ u copy. copy ≡ u };

    fn clone(&self) -> Result<Self, AllocError> {
        Ok(UnwinderX86_64(self.0.clone()?))
    }
}

impl<D: SectionBytes + Drop, P: AllocationPolicy> UnwinderX86_64<D, P> {
    /// Returns an unwinder without modules, of the next generation. It takes no memory.
    ///
    /// # Errors
    ///
    /// `GenerationsExhausted` where the counter is at its end.
    ///
    /// # Examples
    ///
    /// ```
    /// let mut generations = Generations::new();
    /// let unwinder = UnwinderX86_64::new(alloc, &mut generations)?;
    /// ```
    pub fn new(alloc: Global, generations: &mut Generations) -> Result<Self, ModuleListError>
        ensures { IsMade result generations.old generations.new }
    {
        Ok(UnwinderX86_64(UnwinderInternal::new(alloc, generations)?))
    }

    /// Returns an unwinder with these modules, added one after another. All of them take one generation, the next.
    ///
    /// # Errors
    ///
    /// `GenerationsExhausted` where the counter is at its end (tested first), and `OutOfMemory`. The counter is
    /// unchanged.
    pub fn with_modules(
        alloc: Global,
        modules: Vec<Module<D>>,
        generations: &mut Generations,
    ) -> Result<Self, ModuleListError>
        ensures { IsMadeWith modules.items result generations.old generations.new }
    {
        Ok(UnwinderX86_64(UnwinderInternal::with_modules(alloc, modules, generations)?))
    }

    /// Returns the unwinder that this one wraps.
    pub fn inner(&self) -> &UnwinderInternal<D, ArchX86_64, P>
        ensures { result.now ≡ self.now }
    {
        &self.0
    }
}

impl<D: SectionBytes + Drop, P: AllocationPolicy> Unwinder for UnwinderX86_64<D, P> {
    ghost use Rattle.framehop.specs.Fresh.{step};
    ghost use Rattle.framehop.specs.Soundness.{IsSound, Extends, MayRunOut, cache_after, cache_after_lookup};
    ghost use Rattle.framehop.specs.X86_64.{x86_64, x86_64_means};
    ghost use Rattle.framehop.specs.Laws.X86_64.{step-means};

    type UnwindRegs = UnwindRegsX86_64;

    type Cache = CacheX86_64<P>;

    type Module = Module<D>;

    ghost unwinder_view = { λ u. u };

    ghost module_view = { λ m. m };

    ghost step = { λ u location regs memory. step (x86_64 P.policy) u.modules location regs memory };

    ghost advances = { λ first old new. Unit {0} };

    ghost is_sound = { λ view cache. IsSound (x86_64 P.policy) view cache.0.sets };

    ghost cache_after = { λ u cache location. record { 0 = cache_after (x86_64 P.policy) u cache.0 location } };

    ghost cache_after_lookup = { λ u cache location. record { 0 = cache_after_lookup u cache.0 location } };

    ghost extends = { λ u old new. Extends (x86_64 P.policy) u old.0.sets new.0.sets };

    ghost may_run_out = { λ u cache location. MayRunOut (x86_64 P.policy) u cache.0 location };

    ghost means = { λ u location old memory address new.
        x86_64_means P.policy u.modules location old memory address new };

    ghost step_means = { λ u location old new memory address answers.
        step-means P.policy u.modules location old new memory address answers };

    fn add_module(
        &mut self,
        module: Module<D>,
        generations: &mut Generations,
    ) -> Result<(), RefusedModule<Module<D>>> {
        self.0.add_module(module, generations)
    }

    fn remove_module(
        &mut self,
        module_avma_range_start: u64,
        generations: &mut Generations,
    ) -> Result<(), ModuleListError> {
        self.0.remove_module(module_avma_range_start, generations)
    }

    fn max_known_code_address(&self) -> u64 {
        self.0.max_known_code_address()
    }

    fn unwind_frame<F>(
        &self,
        address: FrameAddress,
        regs: &mut UnwindRegsX86_64,
        cache: &mut CacheX86_64<P>,
        read_stack: &mut F,
    ) -> Result<Option<u64>, Error>
    where
        F: FnMut(u64) -> Result<u64, ()>,
    {
        self.0.unwind_frame(address, regs, &mut cache.0, read_stack)
    }
}
