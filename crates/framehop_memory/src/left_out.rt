//! Memory that a file has, of which parts were read, and what was asked for of the rest.
use crate::memory::MemoryRange;
use std::alloc::{AllocError, Global};
use std::cell::Cell;

/// A segment of memory that a file has, and its end, which was read.
#[derive(Clone, Copy, PartialEq, Eq)]
pub struct ReadPart {
    /// Where the file has the segment.
    pub segment: MemoryRange,
    /// Its end, and where it begins in the bytes that were read. It may have no byte.
    pub read: MemoryRange,
}

/// What was not read of segments of memory. It notes what is asked for there, so that it can be read, and what was made
/// without it be made again.
#[derive(Drop)]
pub struct LeftOut {
    /// In the order of their addresses, and apart.
    parts: Vec<LeftOutPart>,
}

/// The part of a segment before the end that was read.
#[derive(Drop)]
struct LeftOutPart {
    /// Its first address (AVMA).
    start: u64,
    /// The address after its last (AVMA).
    end: u64,
    /// The lowest address in it (AVMA) that was asked for.
    lowest: Cell<Option<u64>>,
}

impl LeftOut {
    /// Returns what was not read of these segments, of which nothing was asked for. They must be in the order of their
    /// addresses, and apart: of others not everything that is asked for is noted.
    pub fn new(alloc: Global, parts: &[ReadPart]) -> Result<Self, AllocError> {
        let mut left_out = Vec::with_capacity(alloc, parts.len())?;
        for part in parts {
            left_out.push(LeftOutPart {
                start: part.segment.start,
                end: part.read.start,
                lowest: Cell::new(None),
            })?;
        }
        Ok(LeftOut { parts: left_out })
    }

    /// Returns the lowest addresses (AVMAs) that were asked for and not read, one of each segment in which something was.
    pub fn asked(&self, alloc: Global) -> Result<Vec<u64>, AllocError> {
        self.parts
            .iter()
            .filter_map(|part| part.lowest.get())
            .collect(alloc)
    }

    /// Notes that an address (AVMA) was asked for, if it was not read.
    pub fn note(&self, address: u64) {
        let later = self.parts.partition_point(|part| part.start <= address);
        if let Some(part) = self.parts.get(later.saturating_sub(1)) {
            part.note(address);
        }
    }
}

impl LeftOutPart {
    /// Notes that an address was asked for, if it is in this part.
    fn note(&self, address: u64) {
        if address < self.start || self.end <= address {
            return;
        }
        match self.lowest.get() {
            Some(lowest) if lowest <= address => {}
            _ => self.lowest.set(Some(address)),
        }
    }
}
