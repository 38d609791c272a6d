//! The memory of a process that is gone, as far as a file has it.
ghost use Rattle.std.specs.Prelude.{◌≡◌, ◌<◌, ℕ, List, true, false, IfOk, IfSome, is_some, find, map, Some, option_map, length};

use crate::left_out::{LeftOut, ReadPart};
use crate::ranges::{MemoryRanges, dumped};
use framehop_bytes::bytes::{back, front, u64_at};
use std::alloc::{AllocError, Global};

/// A range of memory, and where a file has its bytes.
#[derive(Clone, Copy, PartialEq, Eq)]
pub struct MemoryRange {
    /// Its first address (AVMA).
    pub start: u64,
    /// Its size, in bytes. A file that is cut off has fewer of them.
    pub size: u64,
    /// Where its bytes begin, in bytes from the start of the file.
    pub offset: u64,
}

/// The memory of a process, as far as a file has it.
#[derive(Drop)]
pub struct ProcessMemory<'a> {
    /// The bytes of the file.
    pub file: &'a [u8],
    /// Which of them are where.
    ranges: MemoryRanges,
    /// What the file has beside them, where it was not read whole.
    left_out: Option<&'a LeftOut>,
    ghost sized: { ranges.file_size ≡ Some (length file.now) },
}

impl<'a> ProcessMemory<'a> {
    ghost use Rattle.framehop_memory.specs.Parts.{read_range, whole_memory, is_left_out, AreReadFrom};
    ghost use Rattle.framehop_memory.specs.Range.{has};
    ghost use Rattle.framehop_memory.specs.Memory.{memory_view, bytes_of, bytes_after, word_of};

    /// Returns the memory of which a file has these ranges. Where they overlap, the first has the bytes. An address
    /// is looked for by halving.
    pub fn new(alloc: Global, file: &'a [u8], ranges: Vec<MemoryRange>) -> Result<Self, AllocError>
        ensures { IfOk result (λ memory. memory_view memory ≡ record { file = file.entry.now; ranges = ranges.items }) }
    {
        let ranges = MemoryRanges::new(alloc, ranges, Some(file.len() as u64))?;
        Ok(ProcessMemory {
            file,
            ranges,
            left_out: None,
        })
    }

    /// Returns the memory of which these parts were read from a file, whose bytes are those of the file: of each address that
    /// was read it has what the whole file has. What is asked for of the rest is noted.
    pub fn of_parts(
        alloc: Global,
        bytes: &'a [u8],
        parts: &[ReadPart],
        left_out: &'a LeftOut,
    ) -> Result<Self, AllocError>
        ensures ranges { IfOk result (λ memory. memory_view memory ≡ record { file = bytes.entry.now; ranges = map read_range parts.now }) }
        ensures whole { IfOk result (λ memory. (file : List ℕ) → AreReadFrom file bytes.entry.now parts.now
            → (address size : ℕ) → is_left_out address parts.now ≡ false → 0 < size
            → bytes_of (memory_view memory) address size ≡ bytes_of (whole_memory file parts.now) address size) }
        ensures rest { IfOk result (λ memory. (file : List ℕ) → AreReadFrom file bytes.entry.now parts.now
            → (address : ℕ) → is_left_out address parts.now ≡ false
            → bytes_after (memory_view memory) address ≡ bytes_after (whole_memory file parts.now) address) }
    {
        let ranges = read_ranges(alloc, parts)?;
        let ranges = MemoryRanges::new(alloc, ranges, Some(bytes.len() as u64))?;
        Ok(ProcessMemory {
            file: bytes,
            ranges,
            left_out: Some(left_out),
        })
    }

    /// Returns which ranges of memory the file has, in its order.
    pub fn ranges(&self) -> &[MemoryRange]
        ensures { result.now ≡ (memory_view self.now).ranges }
    {
        self.ranges.listed.as_slice()
    }

    /// Returns the bytes of memory from an address (AVMA) on, as far as the range has them, if the file has the one
    /// there: those of the first range that has it.
    pub fn bytes_from(&self, address: u64) -> Option<&'a [u8]>
        ensures { option_map (λ bytes. bytes.now) result ≡ bytes_after (memory_view self.now) address }
    {
        let range = self.range_with(address, 1)?;
        Some(back(dumped(self.file, range), address - range.start))
    }

    /// Returns the word of eight bytes at an address (AVMA), if the file has them: as [`ProcessMemory::bytes_at`] has
    /// them.
    pub fn word_at(&self, address: u64) -> Option<u64>
        ensures { result ≡ word_of (memory_view self.now) address }
    {
        let bytes = self.bytes_at(address, 8)?;
        Some(u64_at(bytes, 0))
    }

    /// Returns so many bytes of memory from an address (AVMA) on, if the file has them: those of the first range that
    /// has all of them.
    pub fn bytes_at(&self, address: u64, size: u64) -> Option<&'a [u8]>
        ensures exact { option_map (λ bytes. bytes.now) result ≡ bytes_of (memory_view self.now) address size }
        ensures whole { IfSome result (λ bytes. length bytes.now ≡ size) }
    {
        let range = self.range_with(address, size)?;
        let bytes = back(dumped(self.file, range), address - range.start);
        Some(front(bytes, size as usize))
    }

    /// Returns the first range that has so many bytes from an address on, and of no bytes one of those that do. Where none
    /// has, notes that the address was asked for.
    fn range_with(&self, address: u64, size: u64) -> Option<MemoryRange>
        ensures first { 0 < size → result ≡ find (has self.now.file.now address size) (memory_view self.now).ranges }
        ensures some { is_some result ≡ is_some (find (has self.now.file.now address size) (memory_view self.now).ranges) }
        ensures found { IfSome result (λ range. has self.now.file.now address size range ≡ true) }
    {
        let found = self.ranges.first_with(address, size);
        if found.is_none() {
            self.note(address);
        }
        found
    }

    /// Notes that an address was asked for that no range has.
    #[cold]
    fn note(&self, address: u64) {
        if let Some(left_out) = self.left_out {
            left_out.note(address);
        }
    }
}

/// Returns where the parts are that were read.
fn read_ranges(alloc: Global, parts: &[ReadPart]) -> Result<Vec<MemoryRange>, AllocError>
    ensures { IfOk result (λ ranges. ranges.items ≡ map (λ part. part.read) parts.now) }
{
    parts.iter().map(|part| part.read).collect(alloc)
}
