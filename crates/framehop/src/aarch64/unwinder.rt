//! The unwinder of aarch64.
ghost use Rattle.std.specs.Prelude.{◌≡◌};
ghost use Rattle.framehop.specs.Loaded.{IsMadeWith};
ghost use Rattle.framehop.specs.Modules.{IsMade};

use crate::aarch64::cache::CacheAarch64;
use crate::cache::{AllocationPolicy, MayAllocateDuringUnwind};
use crate::unwinder::{Module, ModuleListError, RefusedModule, Unwinder, UnwinderInternal};
use framehop_bytes::section::SectionBytes;
use framehop_cache::generations::Generations;
use framehop_core::aarch64::{ArchAarch64, UnwindRegsAarch64};
use framehop_core::{Error, FrameAddress};
use std::alloc::{AllocError, Global};
use std::marker::Model;

/// The unwinder for aarch64.
#[derive(Drop)]
pub struct UnwinderAarch64<D: SectionBytes, P: AllocationPolicy = MayAllocateDuringUnwind>(
    UnwinderInternal<D, ArchAarch64, P>,
);

impl<D: SectionBytes, P: AllocationPolicy> Model for UnwinderAarch64<D, P> {
    ghost use Rattle.framehop.specs.Modules.{UnwinderView};

    ghost Value = { UnwinderView };

    ghost view = { λ u. u.0 };
}

impl<D: SectionBytes + Drop, P: AllocationPolicy> Clone for UnwinderAarch64<D, P> {
    ghost is_clone = { λ u copy. copy ≡ u };

    fn clone(&self) -> Result<Self, AllocError> {
        Ok(UnwinderAarch64(self.0.clone()?))
    }
}

impl<D: SectionBytes + Drop, P: AllocationPolicy> UnwinderAarch64<D, P> {
    /// Returns an unwinder without modules, of the next generation. It takes no memory.
    ///
    /// # Errors
    ///
    /// `GenerationsExhausted` where the counter is at its end.
    ///
    /// # Examples
    ///
    /// ```
    /// let mut generations = Generations::new();
    /// let mut unwinder: UnwinderAarch64<Vec<u8>> = UnwinderAarch64::new(alloc, &mut generations)?;
    /// ```
    pub fn new(alloc: Global, generations: &mut Generations) -> Result<Self, ModuleListError>
        ensures { IsMade result generations.old generations.new }
    {
        Ok(UnwinderAarch64(UnwinderInternal::new(alloc, generations)?))
    }

    /// Returns an unwinder with these modules, added one after another. All of them take one generation, the next.
    ///
    /// # Errors
    ///
    /// `GenerationsExhausted` where the counter is at its end (tested first), and `OutOfMemory`. The counter is
    /// unchanged.
    pub fn with_modules(
        alloc: Global,
        modules: Vec<Module<D>>,
        generations: &mut Generations,
    ) -> Result<Self, ModuleListError>
        ensures { IsMadeWith modules.items result generations.old generations.new }
    {
        Ok(UnwinderAarch64(UnwinderInternal::with_modules(alloc, modules, generations)?))
    }

    /// Returns the unwinder that this one wraps.
    pub fn inner(&self) -> &UnwinderInternal<D, ArchAarch64, P>
        ensures { result.now ≡ self.now }
    {
        &self.0
    }
}

impl<D: SectionBytes + Drop, P: AllocationPolicy> Unwinder for UnwinderAarch64<D, P> {
    ghost use Rattle.framehop.specs.Fresh.{step};
    ghost use Rattle.framehop.specs.Soundness.{IsSound, Extends, MayRunOut, cache_after, cache_after_lookup};
    ghost use Rattle.framehop_dwarf.specs.Aarch64.{Ascends};
    ghost use Rattle.framehop.specs.Aarch64.{aarch64, aarch64_means};
    ghost use Rattle.framehop.specs.Laws.Aarch64.{step-means};

    type UnwindRegs = UnwindRegsAarch64;

    type Cache = CacheAarch64<P>;

    type Module = Module<D>;

    ghost unwinder_view = { λ u. u };

    ghost module_view = { λ m. m };

    ghost step = { λ u location regs memory. step (aarch64 P.policy) u.modules location regs memory };

    ghost advances = { Ascends };

    ghost is_sound = { λ view cache. IsSound (aarch64 P.policy) view cache.0.sets };

    ghost cache_after = { λ u cache location. record { 0 = cache_after (aarch64 P.policy) u cache.0 location } };

    ghost cache_after_lookup = { λ u cache location. record { 0 = cache_after_lookup u cache.0 location } };

    ghost extends = { λ u old new. Extends (aarch64 P.policy) u old.0.sets new.0.sets };

    ghost may_run_out = { λ u cache location. MayRunOut (aarch64 P.policy) u cache.0 location };

    ghost means = { λ u location old memory address new.
        aarch64_means P.policy u.modules location old memory address new };

    ghost step_means = { λ u location old new memory address answers.
        step-means P.policy u.modules location old new memory address answers };

    fn add_module(
        &mut self,
        module: Module<D>,
        generations: &mut Generations,
    ) -> Result<(), RefusedModule<Module<D>>> {
        self.0.add_module(module, generations)
    }

    fn remove_module(
        &mut self,
        module_avma_range_start: u64,
        generations: &mut Generations,
    ) -> Result<(), ModuleListError> {
        self.0.remove_module(module_avma_range_start, generations)
    }

    fn max_known_code_address(&self) -> u64 {
        self.0.max_known_code_address()
    }

    fn unwind_frame<F>(
        &self,
        address: FrameAddress,
        regs: &mut UnwindRegsAarch64,
        cache: &mut CacheAarch64<P>,
        read_stack: &mut F,
    ) -> Result<Option<u64>, Error>
    where
        F: FnMut(u64) -> Result<u64, ()>,
    {
        self.0.unwind_frame(address, regs, &mut cache.0, read_stack)
    }
}
