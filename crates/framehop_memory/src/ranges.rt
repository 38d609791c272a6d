//! Ranges of memory, of which the first that has some bytes is found by halving.
ghost use Rattle.std.specs.Prelude.{◌≡◌, ◌<◌, ◌↔◌, ℕ, List, true, IfOk, IfSome, Vec, is_some, find, length, map};
ghost use Rattle.std.specs.Global.{Global};
ghost use Rattle.framehop_memory.specs.Range.{dumped, available, has_available, start_of, AreApart, AreReordered};
ghost use Rattle.framehop_memory.specs.SizedRange.{sized};
ghost use Rattle.framehop_memory.specs.declared.memory.MemoryRange.{MemoryRange};
ghost use Rattle.framehop_memory.specs.declared.range_tree.SizedRange.{SizedRange};
ghost use Rattle.framehop_memory.specs.declared.ranges.Search.TheVariants.{Apart, Overlapping};

use crate::memory::MemoryRange;
use crate::range_tree::{RangeTree, SizedRange};
use framehop_bytes::bytes::{back, front};
use framehop_bytes::place::{Starts, place};
use std::alloc::{AllocError, Global};

/// Ranges of memory in the order of a file. An address is looked for by halving.
#[derive(Drop)]
pub(crate) struct MemoryRanges {
    /// In the order of the file. Where they overlap, the first has the bytes.
    pub(crate) listed: Vec<MemoryRange>,
    /// The size of the file, where only those bytes count that it has.
    pub(crate) file_size: Option<u64>,
    /// The same ranges, as they are searched.
    search: Search,
    ghost apart: { (ranges : Vec MemoryRange Global) → search ≡ Apart ranges → AreReordered listed.items ranges.items × AreApart ranges.items },
    ghost overlapping: { (tree : List SizedRange) → search ≡ Overlapping tree → tree ≡ map (sized file_size) listed.items },
}

/// Ranges of memory as they are searched.
#[derive(Drop)]
enum Search {
    /// Of ranges that don't overlap: in the order of their starts.
    Apart(Vec<MemoryRange>),
    /// Of others: a tree of them in the order of the file.
    Overlapping(RangeTree),
}

/// The starts of ranges.
#[derive(Clone, Copy, Drop)]
struct RangeStarts<'a> {
    ranges: &'a [MemoryRange],
}

impl<'a> Starts for RangeStarts<'a> {
    ghost starts = { λ table. map start_of table.ranges.now };

    fn count(&self) -> usize {
        self.ranges.len()
    }

    fn start(&self, index: usize) -> u64 {
        self.ranges[index].start
    }
}

impl MemoryRanges {
    /// Returns these ranges. With the size of a file only those bytes count that it has.
    pub(crate) fn new(
        alloc: Global,
        listed: Vec<MemoryRange>,
        file_size: Option<u64>,
    ) -> Result<Self, AllocError>
        ensures listed { IfOk result (λ ranges. ranges.listed.items ≡ listed.items) }
        ensures size { IfOk result (λ ranges. ranges.file_size ≡ file_size) }
    {
        let search = Search::new(alloc, listed.as_slice(), file_size)?;
        Ok(MemoryRanges {
            listed,
            file_size,
            search,
        })
    }

    /// Returns the first range that has so many bytes from an address on. Of no bytes it is one of those that do.
    pub(crate) fn first_with(&self, address: u64, size: u64) -> Option<MemoryRange>
        ensures first { 0 < size → result ≡ find (has_available self.now.file_size address size) self.now.listed.items }
        ensures some { is_some result ≡ is_some (find (has_available self.now.file_size address size) self.now.listed.items) }
        ensures found { IfSome result (λ range. has_available self.now.file_size address size range ≡ true) }
    {
        match &self.search {
            Search::Apart(ranges) => {
                nearest_with(ranges.as_slice(), self.file_size, address, size)
            }
            Search::Overlapping(tree) => tree.first_with(address, size),
        }
    }
}

impl Search {
    /// Returns these ranges. With the size of a file only those bytes count that it has.
    fn new(
        alloc: Global,
        listed: &[MemoryRange],
        file_size: Option<u64>,
    ) -> Result<Self, AllocError>
        ensures apart { IfOk result (λ search. (ranges : Vec MemoryRange Global) → search ≡ Apart ranges
            → AreReordered listed.now ranges.items × AreApart ranges.items) }
        ensures overlapping { IfOk result (λ search. (tree : List SizedRange) → search ≡ Overlapping tree
            → tree ≡ map (sized file_size) listed.now) }
    {
        let mut by_start = Vec::from_slice(alloc, listed)?;
        by_start.sort_by_key(|range| range.start)?;
        if are_apart(by_start.as_slice()) {
            return Ok(Search::Apart(by_start));
        }
        drop(by_start);
        let sized = sized_ranges(alloc, listed, file_size)?;
        Ok(Search::Overlapping(RangeTree::new(alloc, sized.as_slice())?))
    }
}

/// Returns whether each range ends before the next one begins.
fn are_apart(ranges: &[MemoryRange]) -> bool
    ensures { (result ≡ true) ↔ AreApart ranges.now }
{
    for index in 1..ranges.len() {
        let range = ranges[index - 1];
        let next = ranges[index];
        if next.start < range.start || next.start - range.start < range.size {
            return false;
        }
    }
    true
}

/// Returns the ranges, with how many bytes of each count.
fn sized_ranges(
    alloc: Global,
    ranges: &[MemoryRange],
    file_size: Option<u64>,
) -> Result<Vec<SizedRange>, AllocError>
    ensures { IfOk result (λ all. all.items ≡ map (sized file_size) ranges.now) }
{
    ranges
        .iter()
        .map(|range| SizedRange {
            range: *range,
            size: available(*range, file_size),
        })
        .collect(alloc)
}

/// Returns the range, of those that are apart, that has so many bytes from an address on. Of no bytes it is one of those
/// that do.
fn nearest_with(
    ranges: &[MemoryRange],
    file_size: Option<u64>,
    address: u64,
    size: u64,
) -> Option<MemoryRange>
    requires apart { AreApart ranges.now }
    ensures first { 0 < size → result ≡ find (has_available file_size address size) ranges.now }
    ensures some { is_some result ≡ is_some (find (has_available file_size address size) ranges.now) }
    ensures found { IfSome result (λ range. has_available file_size address size range ≡ true) }
{
    if ranges.is_empty() {
        return None;
    }
    let range = ranges[place(&RangeStarts { ranges }, address)];
    if has(range, file_size, address, size) {
        Some(range)
    } else {
        None
    }
}

/// Returns whether a range has so many bytes from an address on.
fn has(range: MemoryRange, file_size: Option<u64>, address: u64, size: u64) -> bool
    ensures { result ≡ has_available file_size address size range }
{
    let available = available(range, file_size);
    range.start <= address && size <= available && address - range.start <= available - size
}

/// Returns how many bytes of a range count: where there is a file, as many as it has.
fn available(range: MemoryRange, file_size: Option<u64>) -> u64
    ensures { result ≡ available file_size range }
{
    match file_size {
        Some(file_size) => range.size.min(file_size.saturating_sub(range.offset)),
        None => range.size,
    }
}

/// Returns the bytes of a range that the file has.
pub(crate) fn dumped(file: &[u8], range: MemoryRange) -> &[u8]
    ensures { result.now ≡ dumped file.entry.now range }
{
    front(back(file, range.offset), range.size as usize)
}
