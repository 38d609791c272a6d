//! The end of a segment of a core file's memory that is read.
ghost use Rattle.std.specs.Prelude.{◌≡◌, IfOk};
ghost use Rattle.std.specs.List.Sorted.{IsNonDecreasingBy};
ghost use Rattle.framehop_disk.specs.Wanted.{is_new, is_unread, part_of, parts_from, start_of, sum_64, unwanted, wanted_from, wanted_size, wanting, with_wanted};

use framehop_memory::left_out::ReadPart;
use framehop_memory::memory::MemoryRange;
use std::alloc::{AllocError, Global};

/// How many bytes before an address that is asked for are read with it: a walk may ask for what lies below it.
const MARGIN: u64 = 0x1_0000;

/// A segment of memory, of which an end is read.
#[derive(Clone, Copy)]
pub(crate) struct WantedSegment {
    /// Where the file has it.
    pub(crate) range: MemoryRange,
    /// The size of the end that is read, in bytes.
    pub(crate) wanted: u64,
}

impl WantedSegment {
    /// Returns where the file has the end that is read.
    pub(crate) fn wanted_offset(&self) -> u64
        ensures { result ≡ sum_64 self.now.range.offset (unwanted self.now) }
    {
        self.range.offset.saturating_add(self.unwanted())
    }

    /// Returns how many bytes are not read, before those that are.
    fn unwanted(&self) -> u64
        ensures { result ≡ unwanted self.now }
    {
        self.range.size.saturating_sub(self.wanted)
    }

    /// Returns what is read of this segment, with its bytes at an offset.
    pub(crate) fn read_part(&self, offset: u64) -> ReadPart
        ensures { result ≡ part_of self.now offset }
    {
        ReadPart {
            segment: self.range,
            read: MemoryRange {
                start: self.range.start.saturating_add(self.unwanted()),
                size: self.wanted,
                offset,
            },
        }
    }

    /// Wants the memory from an address (AVMA) on, if it is in this segment. Returns whether it was not wanted before.
    pub(crate) fn want(&mut self, address: u64) -> bool
        ensures new { result ≡ is_unread self.old address }
        ensures wanted { self.new ≡ with_wanted self.old (wanted_from self.old address) }
    {
        let Some(before) = address.checked_sub(self.range.start) else {
            return false;
        };
        let is_new = before < self.unwanted();
        if is_new {
            self.wanted = self
                .range
                .size
                .saturating_sub(before.saturating_sub(MARGIN));
        }
        is_new
    }
}

/// Wants the memory from an address (AVMA) on, up to the end of its segment: the last that begins there or before, of segments
/// in order. Returns whether some of it was not wanted before.
pub(crate) fn want(segments: &mut [WantedSegment], address: u64) -> bool
    ensures new { IsNonDecreasingBy start_of segments.old → result ≡ is_new address segments.old }
    ensures wanted { IsNonDecreasingBy start_of segments.old → segments.new ≡ wanting address segments.old }
{
    let later = segments.partition_point(|segment| segment.range.start <= address);
    let last = later.saturating_sub(1);
    if last < segments.len() {
        segments[last].want(address)
    } else {
        false
    }
}

/// Returns how many bytes are read of segments.
pub(crate) fn wanted_size(segments: &[WantedSegment]) -> u64
    ensures { result ≡ wanted_size segments.now }
{
    let mut size: u64 = 0;
    for segment in segments {
        size = size.saturating_add(segment.wanted);
    }
    size
}

/// Returns what is read of segments, each part with its bytes after those of the one before.
pub(crate) fn wanted_parts(
    alloc: Global,
    segments: &[WantedSegment],
) -> Result<Vec<ReadPart>, AllocError>
    ensures { IfOk result (λ parts. parts.items ≡ parts_from 0 segments.now) }
{
    let mut offset: u64 = 0;
    let mut parts = Vec::with_capacity(alloc, segments.len())?;
    for segment in segments {
        parts.push(segment.read_part(offset))?;
        offset = offset.saturating_add(segment.wanted);
    }
    Ok(parts)
}
