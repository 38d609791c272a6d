//! Ranges of memory that may overlap, of which the first that has some bytes is found by halving.
ghost use Rattle.std.specs.Prelude.{◌≡◌, IfOk, find, map, option_map};
ghost use Rattle.framehop_memory.specs.SizedRange.{has_sized, range_in, run_of};

use crate::memory::MemoryRange;
use crate::stairs::{Run, Stairs};
use std::alloc::{AllocError, Global};
use std::marker::Model;

/// How many ranges are looked at one by one.
const FEW: usize = 32;

/// A range of memory, and how many bytes of it there are.
#[derive(Clone, Copy, Drop)]
pub(crate) struct SizedRange {
    /// The range.
    pub(crate) range: MemoryRange,
    /// How many bytes there are from its start on: fewer than its size where a file is cut off.
    pub(crate) size: u64,
}

/// Ranges of memory in the order of a file, halved until few are left.
#[cycle(range_tree)]
#[derive(Drop)]
pub(crate) struct RangeTree {
    node: Node,
}

/// A part of the ranges.
#[cycle(range_tree)]
#[derive(Drop)]
enum Node {
    /// Few ranges.
    Few(Vec<SizedRange>),
    /// Which bytes the first half of the ranges has, and the two halves.
    Halves(Stairs, Box<RangeTree>, Box<RangeTree>),
}

impl Model for RangeTree {
    ghost use Rattle.std.specs.Prelude.{List, length};
    ghost use Rattle.framehop_memory.specs.declared.range_tree.SizedRange.{SizedRange};

    ghost Value = { List SizedRange };

    ghost use Rattle.framehop_memory.specs.RangeTree.{ranges_of, IsHalved};

    ghost view = { λ tree. ranges_of tree.node };

    ghost invariant = { λ tree. IsHalved tree.node };

    ghost size = { length };

    ghost use Rattle.std.proofs.Common.{arith, length-append};

    ghost size_decreases = { λ a h. Prim.grind (arith, length-append) };
}

impl RangeTree {
    /// Returns the tree of these ranges.
    pub(crate) fn new(alloc: Global, ranges: &[SizedRange]) -> Result<Self, AllocError>
        ensures { IfOk result (λ tree. tree ≡ ranges.now) }
    {
        if ranges.len() <= FEW {
            let few = Vec::from_slice(alloc, ranges)?;
            return Ok(RangeTree {
                node: Node::Few(few),
            });
        }
        let (first, second) = ranges.split_at(ranges.len() / 2);
        let stairs = Stairs::new(runs_of(alloc, first)?)?;
        let first = Box::new(alloc, RangeTree::new(alloc, first)?)?;
        let second = Box::new(alloc, RangeTree::new(alloc, second)?)?;
        Ok(RangeTree {
            node: Node::Halves(stairs, first, second),
        })
    }

    /// Returns the first range that has so many bytes from an address on.
    pub(crate) fn first_with(&self, address: u64, size: u64) -> Option<MemoryRange>
        ensures { result ≡ option_map range_in (find (has_sized address size) self.now) }
    {
        match &self.node {
            Node::Few(ranges) => first_of(ranges.as_slice(), address, size),
            Node::Halves(stairs, first, second) => {
                if stairs.have(address, size) {
                    first.first_with(address, size)
                } else {
                    second.first_with(address, size)
                }
            }
        }
    }
}

/// Returns the addresses that ranges have.
fn runs_of(alloc: Global, ranges: &[SizedRange]) -> Result<Vec<Run>, AllocError>
    ensures { IfOk result (λ runs. runs.items ≡ map run_of ranges.now) }
{
    ranges
        .iter()
        .map(|sized| Run {
            start: sized.range.start,
            size: sized.size,
        })
        .collect(alloc)
}

/// Returns the first of the ranges that has so many bytes from an address on.
fn first_of(ranges: &[SizedRange], address: u64, size: u64) -> Option<MemoryRange>
    ensures { result ≡ option_map range_in (find (has_sized address size) ranges.now) }
{
    let sized = ranges
        .iter()
        .find(|sized| has(**sized, address, size))
        .copied()?;
    Some(sized.range)
}

/// Returns whether a range has so many bytes from an address on.
fn has(sized: SizedRange, address: u64, size: u64) -> bool
    ensures { result ≡ has_sized address size sized }
{
    sized.range.start <= address
        && size <= sized.size
        && address - sized.range.start <= sized.size - size
}
