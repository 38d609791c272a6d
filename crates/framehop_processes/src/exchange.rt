//! Modules of mappings in the place of those of other mappings.
ghost use Rattle.std.specs.Prelude.{◌≡◌, ◌+◌, ◌-◌, ◌^◌, ◌<◌, ◌≤◌, length, map, slice_get, Some, None, true, false, IfErr, OnOk, IfSome, Ok, MatchOption, remove};
ghost use Rattle.std.specs.List.{list_any};
ghost use Rattle.framehop.specs.Modules.{with_module, has_start, without_module};
ghost use Rattle.framehop_processes.specs.Mappings.{IsInOrder, with_mapping, overlaps, left_by};

use crate::around::{exchange_at, split_ending_by};
use crate::error::ProcessesError;
use crate::maker::ModuleMaker;
use crate::mapping::Mapping;
use crate::modules::add_module;
use crate::unwinder::ProcessUnwinder;
use framehop::generations::Generations;
use std::alloc::Global;

/// At most so many modules go and come one by one. To make all anew takes less time than more of them.
const MOST_CHANGES: usize = 64;

/// What the next of two lists of mappings in order of start are.
#[derive(Clone, Copy, PartialEq, Eq)]
pub(crate) enum Step {
    /// The next of both are the same, and not the last of the first list.
    Keep,
    /// The next one of the first list goes.
    Remove,
    /// The next one of the second list comes.
    Add,
}

/// Puts the modules of mappings in the place of those of others, which an unwinder has. The modules of mappings that both
/// have stay, but for the last. The unwinder has a generation then that no other has.
///
/// Returns whether it has been done: not where there were no mappings, or where many modules would go and come.
pub(crate) fn exchange_modules<U: ProcessUnwinder, M: ModuleMaker<U>>(
    alloc: Global,
    unwinder: &mut U,
    maker: &M,
    old: &[Mapping],
    new: &[Mapping],
    generation: u64,
) -> Result<bool, ProcessesError>
where
    U::Module: Drop,
    requires ordered { (IsInOrder 0 old.now) × (IsInOrder 0 new.now) }
    requires modules { (U.unwinder_view unwinder.old).modules ≡ map (M.module_of maker.now) old.now }
    requires drawn { generation < 2 ^ 64 - 1 }
    ensures exchanged { result ≡ Ok true → ((U.unwinder_view unwinder.new).modules ≡ map (M.module_of maker.now) new.now)
        × ((U.unwinder_view unwinder.new).generation ≡ generation) }
    ensures refused { IfErr result (λ error. error ≡ ProcessesError.OutOfMemory) }
{
    if old.is_empty() {
        return Ok(false);
    }
    let (mut gone, mut come) = (0, 0);
    let mut changes = 0;
    while let Some(step) = next_step(old, gone, new, come) {
        if changes == MOST_CHANGES {
            return Ok(false);
        }
        match step {
            Step::Keep => {
                gone += 1;
                come += 1;
            }
            Step::Remove => {
                remove_one(unwinder, &old[gone], generation);
                gone += 1;
                changes += 1;
            }
            Step::Add => {
                add_one(alloc, unwinder, maker, &new[come], generation)?;
                come += 1;
                changes += 1;
            }
        }
    }
    Ok(true)
}

/// Returns what to do next, with so many of two lists of mappings behind: those of the first list go, and those of the second
/// come, in order of start.
fn next_step(old: &[Mapping], gone: usize, new: &[Mapping], come: usize) -> Option<Step>
    ensures ended { result ≡ None → (length old.now ≤ gone) × (length new.now ≤ come) }
    ensures kept { result ≡ Some Step.Keep → (gone + 1 < length old.now) × (come < length new.now)
        × (slice_get old.now gone ≡ slice_get new.now come) }
    ensures removed { result ≡ Some Step.Remove → gone < length old.now }
    ensures added { result ≡ Some Step.Add → (come < length new.now)
        × IfSome (slice_get old.now gone) (λ going. IfSome (slice_get new.now come) (λ coming. coming.start < going.start)) }
{
    let Some(going) = old.get(gone) else {
        return match new.get(come) {
            Some(_) => Some(Step::Add),
            None => None,
        };
    };
    let Some(coming) = new.get(come) else {
        return Some(Step::Remove);
    };
    if coming.start < going.start {
        return Some(Step::Add);
    }
    if going == coming && gone + 1 < old.len() {
        return Some(Step::Keep);
    }
    Some(Step::Remove)
}

/// Puts a mapping, which overlaps none of the others, in the place of the one that starts at an address (AVMA), if one is given, and its
/// module in the place of that one's. The unwinder has a generation then that no other has.
pub(crate) fn exchange_one<U: ProcessUnwinder, M: ModuleMaker<U>>(
    alloc: Global,
    unwinder: &mut U,
    maker: &M,
    mappings: &mut Vec<Mapping>,
    gone: Option<u64>,
    new: Mapping,
    generation: u64,
) -> Result<(), ProcessesError>
where
    U::Module: Drop,
    requires ordered { IsInOrder 0 mappings.old.items }
    requires address { new.start < new.end }
    requires apart { list_any (overlaps new) (left_by gone mappings.old.items) ≡ false }
    requires modules { (U.unwinder_view unwinder.old).modules ≡ map (M.module_of maker.now) mappings.old.items }
    requires drawn { generation < 2 ^ 64 - 1 }
    ensures mapped { OnOk result (mappings.new.items ≡ with_mapping new (left_by gone mappings.old.items)) }
    ensures modules { OnOk result (((U.unwinder_view unwinder.new).modules
        ≡ map (M.module_of maker.now) (with_mapping new (left_by gone mappings.old.items)))
        × ((U.unwinder_view unwinder.new).generation ≡ generation)) }
    ensures refused { IfErr result (λ error. error ≡ ProcessesError.OutOfMemory) }
{
    let Some(index) = index_of(mappings.as_slice(), gone) else {
        return put_in(alloc, unwinder, maker, mappings, new, generation);
    };
    remove_one(unwinder, &mappings[index], generation);
    add_one(alloc, unwinder, maker, &new, generation)?;
    exchange_at(mappings.as_mut_slice(), index, new);
    Ok(())
}

/// Returns the index of the mapping that starts at an address (AVMA), if one is given and one does.
fn index_of(mappings: &[Mapping], start: Option<u64>) -> Option<usize>
    requires { IsInOrder 0 mappings.now }
    ensures { MatchOption result (mappings.now ≡ left_by start mappings.now)
        (λ index. (index < length mappings.now) × (remove mappings.now index ≡ left_by start mappings.now)) }
{
    let start = start?;
    let index = split_ending_by(mappings, start).0.len();
    if index < mappings.len() && mappings[index].start == start {
        return Some(index);
    }
    None
}

/// Puts a mapping that overlaps none among mappings, and its module among those of the unwinder.
fn put_in<U: ProcessUnwinder, M: ModuleMaker<U>>(
    alloc: Global,
    unwinder: &mut U,
    maker: &M,
    mappings: &mut Vec<Mapping>,
    new: Mapping,
    generation: u64,
) -> Result<(), ProcessesError>
where
    U::Module: Drop,
    requires ordered { IsInOrder 0 mappings.old.items }
    requires address { new.start < new.end }
    requires apart { list_any (overlaps new) mappings.old.items ≡ false }
    requires modules { (U.unwinder_view unwinder.old).modules ≡ map (M.module_of maker.now) mappings.old.items }
    requires drawn { generation < 2 ^ 64 - 1 }
    ensures mapped { OnOk result (mappings.new.items ≡ with_mapping new mappings.old.items) }
    ensures modules { OnOk result (((U.unwinder_view unwinder.new).modules ≡ map (M.module_of maker.now) mappings.new.items)
        × ((U.unwinder_view unwinder.new).generation ≡ generation)) }
    ensures refused { IfErr result (λ error. error ≡ ProcessesError.OutOfMemory) }
{
    let index = split_ending_by(mappings.as_slice(), new.start).0.len();
    add_one(alloc, unwinder, maker, &new, generation)?;
    if mappings.insert(index, new).is_err() {
        return Err(ProcessesError::OutOfMemory);
    }
    Ok(())
}

/// Removes the module of a mapping from an unwinder that has it, and gives it a generation.
fn remove_one<U: ProcessUnwinder>(unwinder: &mut U, mapping: &Mapping, generation: u64)
    requires { generation < 2 ^ 64 - 1 }
    ensures { has_start mapping.now.start (U.unwinder_view unwinder.old).modules ≡ true
        → ((U.unwinder_view unwinder.new).modules ≡ without_module mapping.now.start (U.unwinder_view unwinder.old).modules)
        × ((U.unwinder_view unwinder.new).generation ≡ generation) }
{
    let Ok(()) = unwinder.remove_module(mapping.start, &mut Generations::starting_at(generation))
    else {
        unreachable!()
    };
}

/// Adds the module of a mapping to an unwinder, and gives it a generation.
fn add_one<U: ProcessUnwinder, M: ModuleMaker<U>>(
    alloc: Global,
    unwinder: &mut U,
    maker: &M,
    mapping: &Mapping,
    generation: u64,
) -> Result<(), ProcessesError>
where
    U::Module: Drop,
    requires { generation < 2 ^ 64 - 1 }
    ensures added { OnOk result (((U.unwinder_view unwinder.new).modules
        ≡ with_module (M.module_of maker.now mapping.now) (U.unwinder_view unwinder.old).modules)
        × ((U.unwinder_view unwinder.new).generation ≡ generation)) }
    ensures refused { IfErr result (λ error. error ≡ ProcessesError.OutOfMemory) }
{
    let made = maker.make_module(alloc, mapping)?;
    add_module(unwinder, made, &mut Generations::starting_at(generation))
}
