//! The mappings around a new one.
ghost use Rattle.std.specs.Prelude.{◌≡◌, ◌<◌, ◌≤◌, ◌-◌, ◌++◌, ◌∷◌, [], false, length, take, drop, remove, IfOk, OnOk};
ghost use Rattle.std.specs.List.{list_any};
ghost use Rattle.framehop_processes.specs.Mappings.{IsInOrder, ending_by, starting_from, part_below, part_above, below, above, with_mapping, overlaps};

use crate::mapping::Mapping;
use std::alloc::{AllocError, Global};

/// Splits mappings in order into those that end at or below an address (AVMA), and the others.
pub(crate) fn split_ending_by<'a>(
    mappings: &'a [Mapping],
    address: u64,
) -> (&'a [Mapping], &'a [Mapping])
    requires { IsInOrder 0 mappings.now }
    ensures whole { mappings.entry.now ≡ result.0.now ++ result.1.now }
    ensures before { result.0.now ≡ ending_by address mappings.entry.now }
    ensures ordered { IsInOrder 0 result.1.now }
{
    let place = mappings.partition_point(|mapping| mapping.end <= address);
    mappings.split_at(place)
}

/// Splits mappings in order into those that start below an address (AVMA), and the others.
pub(crate) fn split_starting_below<'a>(
    mappings: &'a [Mapping],
    address: u64,
) -> (&'a [Mapping], &'a [Mapping])
    requires { IsInOrder 0 mappings.now }
    ensures whole { mappings.entry.now ≡ result.0.now ++ result.1.now }
    ensures after { result.1.now ≡ starting_from address mappings.entry.now }
{
    let place = mappings.partition_point(|mapping| mapping.start < address);
    mappings.split_at(place)
}

/// Returns these mappings with a new one in the place of what it overlaps.
pub(crate) fn with_mapping(
    alloc: Global,
    mappings: &[Mapping],
    new: Mapping,
) -> Result<Vec<Mapping>, AllocError>
    ensures { IfOk result (λ list. list.items ≡ with_mapping new mappings.now) }
{
    let mut list = below(alloc, mappings, new.start)?;
    let above = above(alloc, mappings, new.end)?;
    list.push(new)?;
    list.extend_from_slice(above.as_slice())?;
    Ok(list)
}

/// Returns what of mappings lies below an address (AVMA).
fn below(alloc: Global, mappings: &[Mapping], address: u64) -> Result<Vec<Mapping>, AllocError>
    ensures { IfOk result (λ list. list.items ≡ below address mappings.now) }
{
    mappings
        .iter()
        .filter(|mapping| mapping.start < address)
        .map(|mapping| part_below(address, *mapping))
        .collect(alloc)
}

/// Returns the part of a mapping that lies below an address (AVMA).
pub(crate) fn part_below(address: u64, mapping: Mapping) -> Mapping
    ensures { result ≡ part_below address mapping }
{
    let end = mapping.end.min(address);
    Mapping { end, ..mapping }
}

/// Returns what of mappings lies at or above an address (AVMA).
fn above(alloc: Global, mappings: &[Mapping], address: u64) -> Result<Vec<Mapping>, AllocError>
    ensures { IfOk result (λ list. list.items ≡ above address mappings.now) }
{
    mappings
        .iter()
        .filter(|mapping| address < mapping.end)
        .map(|mapping| part_above(address, *mapping))
        .collect(alloc)
}

/// Returns the part of a mapping that lies at or above an address (AVMA).
pub(crate) fn part_above(address: u64, mapping: Mapping) -> Mapping
    ensures { result ≡ part_above address mapping }
{
    let start = mapping.start.max(address);
    Mapping { start, ..mapping }
}

/// Puts mappings in the place of those from one index of a list up to another. The list is not copied.
pub(crate) fn replace(
    list: &mut Vec<Mapping>,
    from: usize,
    to: usize,
    changed: &[Mapping],
) -> Result<(), AllocError>
    requires rising { from ≤ to }
    requires within { to ≤ length list.old.items }
    ensures { OnOk result (list.new.items ≡ take from list.old.items ++ (changed.now ++ drop to list.old.items)) }
{
    cut(list, from, to);
    let mut at = from;
    for mapping in changed {
        list.insert(at, *mapping)?;
        at += 1;
    }
    Ok(())
}

/// Takes the mappings from one index of a list up to another out of it. It takes no memory.
fn cut(list: &mut Vec<Mapping>, from: usize, to: usize)
    requires rising { from ≤ to }
    requires within { to ≤ length list.old.items }
    ensures { list.new.items ≡ take from list.old.items ++ drop to list.old.items }
{
    drop(list.drain(from..to));
}

/// Puts a mapping, which overlaps none of the others, in the place of the one at an index, in order of start. Only mappings between
/// both places are moved.
pub(crate) fn exchange_at(mappings: &mut [Mapping], index: usize, new: Mapping)
    requires ordered { IsInOrder 0 mappings.old }
    requires address { new.start < new.end }
    requires within { index < length mappings.old }
    requires apart { list_any (overlaps new) (remove mappings.old index) ≡ false }
    ensures { mappings.new ≡ with_mapping new (remove mappings.old index) }
{
    let place = split_ending_by(mappings, new.start).0.len();
    if index < place {
        put_last(&mut mappings[index..place], new);
    } else {
        put_first(&mut mappings[place..=index], new);
    }
}

/// Puts a mapping after all others but the first, which goes.
fn put_last(mappings: &mut [Mapping], new: Mapping)
    requires { 0 < length mappings.old }
    ensures { mappings.new ≡ drop 1 mappings.old ++ new ∷ [] }
{
    mappings[0] = new;
    mappings.rotate_left(1);
}

/// Puts a mapping before all others but the last, which goes.
fn put_first(mappings: &mut [Mapping], new: Mapping)
    requires { 0 < length mappings.old }
    ensures { mappings.new ≡ new ∷ take (length mappings.old - 1) mappings.old }
{
    let last = mappings.len() - 1;
    mappings[last] = new;
    mappings.rotate_right(1);
}
