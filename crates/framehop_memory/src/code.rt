//! Which memory may be executed, asked by address.
ghost use Rattle.std.specs.Prelude.{◌≡◌, ℕ, IfOk, is_some, find};
ghost use Rattle.framehop_memory.specs.Range.{has_available};
ghost use Rattle.framehop_memory.specs.Code.{has_code, is_code, is_code_in, range_of, code_ranges};

use crate::memory::MemoryRange;
use crate::ranges::MemoryRanges;
use crate::segment::Segment;
use std::alloc::{AllocError, Global};

/// Segments of memory, of which is asked whether one that may be executed has an address.
#[derive(Drop)]
pub struct CodeSegments {
    /// In the order of the file.
    segments: Vec<Segment>,
    /// Where those are that may be executed.
    code: MemoryRanges,
    ghost same: { (address : ℕ) → is_some (find (has_available code.file_size address 1) code.listed.items) ≡ is_code_in segments.items address },
}

impl CodeSegments {
    /// Returns these segments, whose addresses are AVMAs. An address is looked for by halving.
    pub fn new(alloc: Global, segments: Vec<Segment>) -> Result<Self, AllocError>
        ensures { IfOk result (λ code. code.segments.items ≡ segments.items) }
    {
        let ranges = code_ranges(alloc, segments.as_slice())?;
        let code = MemoryRanges::new(alloc, ranges, None)?;
        Ok(CodeSegments { segments, code })
    }

    /// Returns the segments, in the order of the file.
    pub fn segments(&self) -> &[Segment]
        ensures { result.now ≡ self.now.segments.items }
    {
        self.segments.as_slice()
    }

    /// Returns whether an address (AVMA) is in a segment that may be executed.
    pub fn is_code_at(&self, address: u64) -> bool
        ensures { result ≡ is_code_in self.now.segments.items address }
    {
        self.code.first_with(address, 1).is_some()
    }
}

/// Returns where those segments are that may be executed.
fn code_ranges(alloc: Global, segments: &[Segment]) -> Result<Vec<MemoryRange>, AllocError>
    ensures { IfOk result (λ ranges. ranges.items ≡ code_ranges segments.now) }
{
    segments
        .iter()
        .filter(|segment| segment.is_code)
        .map(|segment| range_of(*segment))
        .collect(alloc)
}

/// Returns where a segment is in memory.
fn range_of(segment: Segment) -> MemoryRange
    ensures { result ≡ range_of segment }
{
    MemoryRange {
        start: segment.address,
        size: segment.size,
        offset: 0,
    }
}
