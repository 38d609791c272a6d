//! A process: its mappings, and the unwinder that has their modules.
ghost use Rattle.std.specs.Prelude.{ℕ, ◌≡◌, ◌+◌, ◌-◌, ◌^◌, ◌<◌, ◌≤◌, [], Some, IfOk, IfErr, Err, false, if◌then◌else◌};
ghost use Rattle.std.specs.List.{list_any};
ghost use Rattle.framehop.specs.Modules.{greatest_end};
ghost use Rattle.framehop_processes.specs.Mappings.{IsInOrder, with_mapping, covers, content, mapped_at, changed_modules, overlaps, left_by};
ghost use Rattle.framehop_processes.specs.Process.{HasModules, IsDrawn};

use crate::around::{replace, split_ending_by, split_starting_below, with_mapping};
use crate::error::ProcessesError;
use crate::exchange::{exchange_modules, exchange_one};
use crate::maker::ModuleMaker;
use crate::mapping::Mapping;
use crate::modules::{add_modules, made_modules, remove_modules};
use crate::shared::SharedMappings;
use crate::unwinder::ProcessUnwinder;
use framehop::generations::Generations;
use std::alloc::{AllocError, Global};
use std::marker::Model;

/// A process: which files are mapped in it, and the unwinder that has their modules.
#[derive(Drop)]
pub struct Process<U: ProcessUnwinder> {
    mappings: Vec<Mapping>,
    unwinder: U,
}

impl<U: ProcessUnwinder> Model for Process<U> {
    ghost use Rattle.std.specs.Prelude.{◌≡◌};
    ghost use Rattle.framehop.specs.Modules.{greatest_end};
    ghost use Rattle.framehop_processes.specs.Process.{ProcessView};
    ghost use Rattle.framehop_processes.specs.Mappings.{IsInOrder, greatest_end_of};

    ghost Value = { ProcessView };

    ghost view = { λ p. record { mappings = p.mappings.items; unwinder = U.unwinder_view p.unwinder } };

    ghost invariant = { λ p. IsInOrder 0 p.mappings.items
        × (greatest_end (U.unwinder_view p.unwinder).modules ≡ greatest_end_of p.mappings.items) };
}

impl<U: ProcessUnwinder> Clone for Process<U> {
    ghost is_clone = { λ p copy. copy ≡ p };

    fn clone(&self) -> Result<Self, AllocError> {
        Ok(Process {
            mappings: self.mappings.clone()?,
            unwinder: self.unwinder.clone()?,
        })
    }
}

impl<U: ProcessUnwinder> Process<U> {
    /// Returns a process without mappings. Its unwinder has the next generation.
    pub fn new(alloc: Global, generations: &mut Generations) -> Result<Self, ProcessesError>
        ensures made { IfOk result (λ made.
            (made ≡ record { mappings = []; unwinder = record { modules = []; generation = generations.old } })
            × (generations.new ≡ generations.old + 1)) }
        ensures exhausted { IfErr result (λ error.
            (error ≡ ProcessesError.GenerationsExhausted)
            × (generations.old ≡ 2 ^ 64 - 1)
            × (generations.new ≡ generations.old)) }
    {
        let unwinder = U::without_modules(alloc, generations)?;
        Ok(Process {
            mappings: Vec::new(alloc),
            unwinder,
        })
    }

    /// Returns a process with these mappings, and an unwinder with their modules, as the maker makes them, of the next
    /// generation.
    ///
    /// # Errors
    ///
    /// `GenerationsExhausted` where the counter is at its end, and `OutOfMemory`. No generation was drawn then.
    pub fn with_mappings<M: ModuleMaker<U>>(
        alloc: Global,
        maker: &M,
        mappings: &SharedMappings,
        generations: &mut Generations,
    ) -> Result<Self, ProcessesError>
    where
        U::Module: Drop,
        ensures served { IfOk result (λ made. HasModules (M.module_of maker.now) made) }
        ensures mapped { IfOk result (λ made. made.mappings ≡ mappings.now) }
        ensures drawn { IfOk result (λ made. (made.unwinder.generation ≡ generations.old)
            × (generations.new ≡ generations.old + 1)) }
        ensures refused { IfErr result (λ error. (generations.new ≡ generations.old) × ((error ≡ ProcessesError.EmptyMapping) → ⊥)
            × ((error ≡ ProcessesError.GenerationsExhausted) → (generations.old ≡ 2 ^ 64 - 1))) }
    {
        let mappings = mappings.to_list(alloc)?;
        let modules = made_modules(alloc, maker, mappings.as_slice())?;
        let unwinder = U::with_modules(alloc, modules, generations)?;
        Ok(Process { mappings, unwinder })
    }

    /// Returns the process with a part of a file mapped into it, so that it can be executed, in the place of what it
    /// overlaps: of an overlapped mapping what lies outside the new one stays. The modules of the overlapped ones go,
    /// and those of the new one and of what stays are added, as the maker makes them. Each takes a generation. Only
    /// mappings that can be executed are to be given: a recording may have others, too.
    ///
    /// # Errors
    ///
    /// - `EmptyMapping` where the mapping has no address;
    /// - `GenerationsExhausted` where fewer generations are left than modules go and come;
    /// - `OutOfMemory`.
    ///
    /// There is no process any more then, and generations may have been drawn.
    ///
    /// Source: mmap(2), MAP_FIXED; munmap(2).
    pub fn mapped<M: ModuleMaker<U>>(
        self,
        alloc: Global,
        maker: &M,
        mapping: Mapping,
        generations: &mut Generations,
    ) -> Result<Process<U>, ProcessesError>
    where
        U::Module: Drop,
        requires { HasModules (M.module_of maker.now) self }
        ensures served { IfOk result (λ mapped. HasModules (M.module_of maker.now) mapped) }
        ensures mapped { IfOk result (λ mapped. mapped.mappings ≡ with_mapping mapping self.mappings) }
        ensures by_address { IfOk result (λ mapped. (address : ℕ) → mapped_at address mapped.mappings
            ≡ (if covers address mapping then Some (content mapping) else mapped_at address self.mappings)) }
        ensures drawn { IfOk result (λ mapped. IsDrawn generations.old mapped.unwinder.generation generations.new) }
        ensures counted { IfOk result (λ mapped. (generations.new ≡ generations.old + changed_modules mapping self.mappings)
            × (mapped.unwinder.generation + 1 ≡ generations.new)) }
        ensures empty { mapping.end ≤ mapping.start → (result ≡ Err ProcessesError.EmptyMapping) × (generations.new ≡ generations.old) }
        ensures not_empty { result ≡ Err ProcessesError.EmptyMapping → mapping.end ≤ mapping.start }
        ensures exhausted { result ≡ Err ProcessesError.GenerationsExhausted → (generations.new ≡ 2 ^ 64 - 1)
            × (2 ^ 64 - 1 < generations.old + changed_modules mapping self.mappings) }
        ensures never_back { generations.old ≤ generations.new }
    {
        if mapping.end <= mapping.start {
            return Err(ProcessesError::EmptyMapping);
        }
        let Process {
            mut mappings,
            mut unwinder,
        } = self;
        let (before, rest) = split_ending_by(mappings.as_slice(), mapping.start);
        let (overlapped, _) = split_starting_below(rest, mapping.end);
        let from = before.len();
        let to = from + overlapped.len();
        let changed = with_mapping(alloc, overlapped, mapping)?;
        remove_modules(&mut unwinder, overlapped, generations)?;
        add_modules(alloc, &mut unwinder, maker, changed.as_slice(), generations)?;
        replace(&mut mappings, from, to, changed.as_slice())?;
        Ok(Process { mappings, unwinder })
    }

    /// Returns the process with other mappings in the place of its own, and an unwinder with their modules, as the maker
    /// makes them, of the next generation. It takes less time than a new process where both have most mappings: of these
    /// the modules stay.
    ///
    /// # Errors
    ///
    /// `GenerationsExhausted` where the counter is at its end, and `OutOfMemory`. There is no process any more then, and a
    /// generation may have been drawn.
    pub fn exchanged<M: ModuleMaker<U>>(
        self,
        alloc: Global,
        maker: &M,
        mappings: &SharedMappings,
        generations: &mut Generations,
    ) -> Result<Process<U>, ProcessesError>
    where
        U::Module: Drop,
        requires { HasModules (M.module_of maker.now) self }
        ensures served { IfOk result (λ made. HasModules (M.module_of maker.now) made) }
        ensures mapped { IfOk result (λ made. made.mappings ≡ mappings.now) }
        ensures drawn { IfOk result (λ made. (made.unwinder.generation ≡ generations.old)
            × (generations.new ≡ generations.old + 1)) }
        ensures refused { IfErr result (λ error. ((error ≡ ProcessesError.EmptyMapping) → ⊥)
            × ((error ≡ ProcessesError.GenerationsExhausted) → (generations.old ≡ 2 ^ 64 - 1))) }
        ensures never_back { (generations.old ≤ generations.new) × (generations.new ≤ generations.old + 1) }
    {
        let Process {
            mappings: old,
            mut unwinder,
        } = self;
        let Some(generation) = generations.next() else {
            return Err(ProcessesError::GenerationsExhausted);
        };
        let new = mappings.to_list(alloc)?;
        let (gone, come) = (old.as_slice(), new.as_slice());
        if exchange_modules(alloc, &mut unwinder, maker, gone, come, generation)? {
            return Ok(Process {
                mappings: new,
                unwinder,
            });
        }
        let modules = made_modules(alloc, maker, new.as_slice())?;
        let unwinder = U::with_modules(alloc, modules, &mut Generations::starting_at(generation))?;
        Ok(Process {
            mappings: new,
            unwinder,
        })
    }

    /// Returns the process with one mapping more, which overlaps none of those that are left: of its own the one that starts at
    /// an address (AVMA) goes, if one is given. The unwinder has their modules, as the maker makes them, and the next generation. No
    /// other mapping is looked at.
    ///
    /// # Errors
    ///
    /// `GenerationsExhausted` where the counter is at its end, and `OutOfMemory`. There is no process any more then, and a
    /// generation may have been drawn.
    pub fn one_exchanged<M: ModuleMaker<U>>(
        self,
        alloc: Global,
        maker: &M,
        gone: Option<u64>,
        come: Mapping,
        generations: &mut Generations,
    ) -> Result<Process<U>, ProcessesError>
    where
        U::Module: Drop,
        requires modules { HasModules (M.module_of maker.now) self }
        requires address { come.start < come.end }
        requires apart { list_any (overlaps come) (left_by gone self.mappings) ≡ false }
        ensures served { IfOk result (λ made. HasModules (M.module_of maker.now) made) }
        ensures mapped { IfOk result (λ made. made.mappings ≡ with_mapping come (left_by gone self.mappings)) }
        ensures drawn { IfOk result (λ made. (made.unwinder.generation ≡ generations.old)
            × (generations.new ≡ generations.old + 1)) }
        ensures refused { IfErr result (λ error. ((error ≡ ProcessesError.EmptyMapping) → ⊥)
            × ((error ≡ ProcessesError.GenerationsExhausted) → (generations.old ≡ 2 ^ 64 - 1))) }
        ensures never_back { (generations.old ≤ generations.new) × (generations.new ≤ generations.old + 1) }
    {
        let Process {
            mut mappings,
            mut unwinder,
        } = self;
        let Some(generation) = generations.next() else {
            return Err(ProcessesError::GenerationsExhausted);
        };
        exchange_one(
            alloc,
            &mut unwinder,
            maker,
            &mut mappings,
            gone,
            come,
            generation,
        )?;
        Ok(Process { mappings, unwinder })
    }

    /// Returns the mappings, in order of start.
    pub fn mappings(&self) -> &[Mapping]
        ensures value { result.now ≡ self.now.mappings }
        ensures ordered { IsInOrder 0 self.now.mappings }
    {
        self.mappings.as_slice()
    }

    /// Returns the greatest end of a mapping (AVMA), which is that of a module of the unwinder, or 0 without mappings.
    pub fn greatest_end(&self) -> u64
        ensures { result ≡ greatest_end self.now.unwinder.modules }
    {
        match self.mappings.as_slice().last() {
            Some(mapping) => mapping.end,
            None => 0,
        }
    }

    /// Returns the unwinder, which has the modules of the mappings.
    pub fn unwinder(&self) -> &U
        ensures { U.unwinder_view result.now ≡ self.now.unwinder }
    {
        &self.unwinder
    }
}
