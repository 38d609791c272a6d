//! Modules of mappings that an unwinder gets or loses.
ghost use Rattle.std.specs.Prelude.{◌≡◌, ◌+◌, ◌-◌, ◌^◌, ◌<◌, ◌≤◌, ◌++◌, List, length, map, IfOk, IfErr, OnOk, OnErr, Err};
ghost use Rattle.framehop.specs.Modules.{ModuleView, with_module};
ghost use Rattle.framehop_processes.specs.declared.mapping.Mapping.{Mapping};
ghost use Rattle.framehop_processes.specs.Mappings.{IsInOrder};
ghost use Rattle.framehop_processes.specs.Process.{StartsAt};

use crate::error::ProcessesError;
use crate::maker::ModuleMaker;
use crate::mapping::Mapping;
use crate::unwinder::ProcessUnwinder;
use framehop::generations::Generations;
use std::alloc::{AllocError, Global};

/// Returns the modules of mappings, as the maker makes them.
pub(crate) fn made_modules<U: ProcessUnwinder, M: ModuleMaker<U>>(
    alloc: Global,
    maker: &M,
    mappings: &[Mapping],
) -> Result<Vec<U::Module>, AllocError>
where
    U::Module: Drop,
    ensures { IfOk result (λ made. map U.module_view made.items ≡ map (M.module_of maker.now) mappings.now) }
{
    let mut modules = Vec::with_capacity(alloc, mappings.len())?;
    for mapping in mappings {
        modules.push(maker.make_module(alloc, mapping)?)?;
    }
    Ok(modules)
}

/// Adds the modules of mappings, which the maker makes, among those of others. Each takes a generation.
pub(crate) fn add_modules<U: ProcessUnwinder, M: ModuleMaker<U>>(
    alloc: Global,
    unwinder: &mut U,
    maker: &M,
    added: &[Mapping],
    generations: &mut Generations,
) -> Result<(), ProcessesError>
where
    U::Module: Drop,
    ensures added { OnOk result ((before after : List Mapping) → IsInOrder 0 (before ++ (added.now ++ after))
        → (U.unwinder_view unwinder.old).modules ≡ map (M.module_of maker.now) (before ++ after)
        → (U.unwinder_view unwinder.new).modules ≡ map (M.module_of maker.now) (before ++ (added.now ++ after))) }
    ensures drawn { OnOk result (generations.new ≡ generations.old + length added.now) }
    ensures last { OnOk result (0 < length added.now → (U.unwinder_view unwinder.new).generation + 1 ≡ generations.new) }
    ensures exhausted { result ≡ Err ProcessesError.GenerationsExhausted →
        (generations.new ≡ 2 ^ 64 - 1) × (2 ^ 64 - 1 < generations.old + length added.now) }
    ensures named { IfErr result (λ error. (error ≡ ProcessesError.EmptyMapping) → ⊥) }
    ensures never_back { generations.old ≤ generations.new }
{
    for mapping in added {
        let made = maker.make_module(alloc, mapping)?;
        add_module(unwinder, made, generations)?;
    }
    Ok(())
}

/// Adds a module, which takes the next generation. Where that is refused, nothing changes.
pub(crate) fn add_module<U: ProcessUnwinder>(
    unwinder: &mut U,
    added: U::Module,
    generations: &mut Generations,
) -> Result<(), ProcessesError>
where
    U::Module: Drop,
    ensures added { OnOk result ((U.unwinder_view unwinder.new).modules
        ≡ with_module (U.module_view added) (U.unwinder_view unwinder.old).modules) }
    ensures drawn { OnOk result (((U.unwinder_view unwinder.new).generation ≡ generations.old)
        × (generations.new ≡ generations.old + 1)) }
    ensures refused { OnErr result ((unwinder.new ≡ unwinder.old) × (generations.new ≡ generations.old)) }
    ensures exhausted { result ≡ Err ProcessesError.GenerationsExhausted → generations.old ≡ 2 ^ 64 - 1 }
    ensures named { IfErr result (λ error. (error ≡ ProcessesError.EmptyMapping) → ⊥) }
{
    match unwinder.add_module(added, generations) {
        Ok(()) => Ok(()),
        Err(refused) => Err(ProcessesError::from(refused.cause)),
    }
}

/// Removes the modules of mappings, which are among those of an unwinder. Each takes a generation.
pub(crate) fn remove_modules<U: ProcessUnwinder>(
    unwinder: &mut U,
    removed: &[Mapping],
    generations: &mut Generations,
) -> Result<(), ProcessesError>
    ensures removed { OnOk result ((module_of : Mapping → ModuleView) → StartsAt module_of
        → (before after : List Mapping) → IsInOrder 0 (before ++ (removed.now ++ after))
        → (U.unwinder_view unwinder.old).modules ≡ map module_of (before ++ (removed.now ++ after))
        → ((U.unwinder_view unwinder.new).modules ≡ map module_of (before ++ after))
        × (generations.new ≡ generations.old + length removed.now)) }
    ensures exhausted { IfErr result (λ error. (error ≡ ProcessesError.GenerationsExhausted)
        × (generations.new ≡ 2 ^ 64 - 1)
        × ((module_of : Mapping → ModuleView) → StartsAt module_of
        → (before after : List Mapping) → IsInOrder 0 (before ++ (removed.now ++ after))
        → (U.unwinder_view unwinder.old).modules ≡ map module_of (before ++ (removed.now ++ after))
        → 2 ^ 64 - 1 < generations.old + length removed.now)) }
    ensures never_back { generations.old ≤ generations.new }
{
    // From the last on, so that those that go are not moved first.
    let mut left = removed.len();
    while left > 0 {
        left -= 1;
        unwinder.remove_module(removed[left].start, generations)?;
    }
    Ok(())
}
