//! Unwinders that a process can begin with.
ghost use Rattle.std.specs.Prelude.{◌≡◌, ◌↔◌, ◌+◌, ◌-◌, ◌^◌, ◌<◌, ℕ, [], map, IfOk, IfErr};
ghost use Rattle.framehop.specs.Loaded.{with_modules};
ghost use Rattle.framehop.specs.Modules.{UnwinderView};

use framehop::aarch64::UnwinderAarch64;
use framehop::cache::AllocationPolicy;
use framehop::generations::Generations;
use framehop::section::SectionBytes;
use framehop::x86_64::UnwinderX86_64;
use framehop::{Module, ModuleListError, Unwinder};
use std::alloc::Global;

/// An unwinder that can begin without modules, and whose clone has the same modules under the same
/// generation.
pub trait ProcessUnwinder: Unwinder + Drop {
    /// Returns an unwinder without modules, of the next generation. It takes no memory, and is refused
    /// only at the counter's end.
    fn without_modules(
        alloc: Global,
        generations: &mut Generations,
    ) -> Result<Self, ModuleListError>
        ensures made { IfOk result (λ made.
            (Self.unwinder_view made ≡ record { modules = []; generation = generations.old })
            × (generations.new ≡ generations.old + 1)
            × (generations.old < 2 ^ 64 - 1)) }
        ensures exhausted { IfErr result (λ error.
            (error ≡ ModuleListError.GenerationsExhausted)
            × (generations.old ≡ 2 ^ 64 - 1)
            × (generations.new ≡ generations.old)) };

    /// Returns an unwinder with these modules, added one after another, of the next generation.
    ///
    /// # Errors
    ///
    /// `GenerationsExhausted` where the counter is at its end (tested first), and `OutOfMemory`. The counter is
    /// unchanged.
    fn with_modules(
        alloc: Global,
        modules: Vec<Self::Module>,
        generations: &mut Generations,
    ) -> Result<Self, ModuleListError>
        ensures made { IfOk result (λ made.
            (Self.unwinder_view made ≡ record { modules = with_modules (map Self.module_view modules.items) []; generation = generations.old })
            × (generations.new ≡ generations.old + 1)
            × (generations.old < 2 ^ 64 - 1)) }
        ensures refused { IfErr result (λ error. (generations.new ≡ generations.old)
            × ((error ≡ ModuleListError.GenerationsExhausted) ↔ (generations.old ≡ 2 ^ 64 - 1))) };

    // a clone has the same modules and the same generation
    ghost clone_is_same: { (unwinder copy : Self) → Self.is_clone unwinder copy
        → Self.unwinder_view copy ≡ Self.unwinder_view unwinder };
}

impl<D: SectionBytes + Drop, P: AllocationPolicy> ProcessUnwinder for UnwinderX86_64<D, P> {
    ghost clone_is_same = { λ unwinder copy same. same };

    fn without_modules(
        alloc: Global,
        generations: &mut Generations,
    ) -> Result<Self, ModuleListError> {
        UnwinderX86_64::new(alloc, generations)
    }

    fn with_modules(
        alloc: Global,
        modules: Vec<Module<D>>,
        generations: &mut Generations,
    ) -> Result<Self, ModuleListError>
        ensures made { IfOk result (λ made.
            (made ≡ record { modules = with_modules (map (λ m. m) modules.items) []; generation = generations.old })
            × (generations.new ≡ generations.old + 1)
            × (generations.old < 2 ^ 64 - 1)) }
        ensures refused { IfErr result (λ error. (generations.new ≡ generations.old)
            × ((error ≡ ModuleListError.GenerationsExhausted) ↔ (generations.old ≡ 2 ^ 64 - 1))) }
    {
        UnwinderX86_64::with_modules(alloc, modules, generations)
    }
}

impl<D: SectionBytes + Drop, P: AllocationPolicy> ProcessUnwinder for UnwinderAarch64<D, P> {
    ghost clone_is_same = { λ unwinder copy same. same };

    fn without_modules(
        alloc: Global,
        generations: &mut Generations,
    ) -> Result<Self, ModuleListError> {
        UnwinderAarch64::new(alloc, generations)
    }

    fn with_modules(
        alloc: Global,
        modules: Vec<Module<D>>,
        generations: &mut Generations,
    ) -> Result<Self, ModuleListError>
        ensures made { IfOk result (λ made.
            (made ≡ record { modules = with_modules (map (λ m. m) modules.items) []; generation = generations.old })
            × (generations.new ≡ generations.old + 1)
            × (generations.old < 2 ^ 64 - 1)) }
        ensures refused { IfErr result (λ error. (generations.new ≡ generations.old)
            × ((error ≡ ModuleListError.GenerationsExhausted) ↔ (generations.old ≡ 2 ^ 64 - 1))) }
    {
        UnwinderAarch64::with_modules(alloc, modules, generations)
    }
}
