//! Segments of memory, asked by address.
ghost use Rattle.std.specs.Prelude.{◌≡◌, IfOk, find};
ghost use Rattle.framehop_memory.specs.Code.{has_address};
ghost use Rattle.framehop_memory.specs.ByAddress.{numbered_range, numbered_ranges};

use crate::memory::MemoryRange;
use crate::ranges::MemoryRanges;
use crate::segment::Segment;
use std::alloc::{AllocError, Global};
use std::marker::Model;

/// Segments of memory, of which the first that has an address is asked for.
#[derive(Drop)]
pub struct SegmentsByAddress<'a> {
    /// In the order of the file.
    segments: &'a [Segment],
    /// Where they are. The offset of each is the segment's number.
    ranges: MemoryRanges,
}

impl<'a> Model for SegmentsByAddress<'a> {
    ghost use Rattle.std.specs.Prelude.{List};
    ghost use Rattle.framehop_memory.specs.declared.segment.Segment.{Segment};

    ghost Value = { List Segment };

    ghost view = { λ table. table.segments.now };

    ghost use Rattle.framehop_memory.specs.ByAddress.{AreNumbered};

    ghost invariant = { λ table. AreNumbered table.segments.now table.ranges };
}

impl<'a> SegmentsByAddress<'a> {
    /// Returns these segments, whose addresses are AVMAs. An address is looked for by halving, also where they overlap.
    pub fn new(alloc: Global, segments: &'a [Segment]) -> Result<Self, AllocError>
        ensures { IfOk result (λ table. table ≡ segments.entry.now) }
    {
        let ranges = numbered_ranges(alloc, segments)?;
        let ranges = MemoryRanges::new(alloc, ranges, None)?;
        Ok(SegmentsByAddress { segments, ranges })
    }

    /// Returns the first segment, in the order of the file, that has an address (AVMA).
    pub fn at(&self, address: u64) -> Option<Segment>
        ensures { result ≡ find (has_address address) self.now }
    {
        let range = self.ranges.first_with(address, 1)?;
        self.segments.get(range.offset as usize).copied()
    }
}

/// Returns where the segments are, each with its number.
fn numbered_ranges(alloc: Global, segments: &[Segment]) -> Result<Vec<MemoryRange>, AllocError>
    ensures { IfOk result (λ ranges. ranges.items ≡ numbered_ranges segments.now) }
{
    segments
        .iter()
        .enumerate()
        .map(|(number, segment)| numbered_range(number, *segment))
        .collect(alloc)
}

/// Returns where a segment is in memory, with its number in the place of an offset.
fn numbered_range(number: usize, segment: Segment) -> MemoryRange
    ensures { result ≡ numbered_range (number, segment) }
{
    MemoryRange {
        start: segment.address,
        size: segment.size,
        offset: number as u64,
    }
}
