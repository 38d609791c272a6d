//! The memory of a process, as far as a core file has it.
ghost use Rattle.std.specs.Prelude.{◌≡◌, IfOk, map};
ghost use Rattle.framehop_dump_files.specs.Coredump.Memory.{range_of};
ghost use Rattle.framehop_memory.specs.Memory.{memory_view};

use framehop_memory::memory::{MemoryRange, ProcessMemory};
use framehop_memory::segment::Segment;
use std::alloc::{AllocError, Global};

/// Returns the memory that a core file has by its loaded segments, whose addresses are AVMAs. What a segment has in
/// memory beyond its bytes in the file was not dumped.
///
/// Source: System V gABI, chapter 5, "Program Header"; `core(5)`.
pub fn memory_of<'a>(
    alloc: Global,
    file: &'a [u8],
    segments: &[Segment],
) -> Result<ProcessMemory<'a>, AllocError>
    ensures { IfOk result (λ memory. memory_view memory
        ≡ record { file = file.entry.now; ranges = map range_of segments.now }) }
{
    let ranges = ranges_of(alloc, segments)?;
    ProcessMemory::new(alloc, file, ranges)
}

/// Returns the ranges of memory that were dumped of these segments.
fn ranges_of(alloc: Global, segments: &[Segment]) -> Result<Vec<MemoryRange>, AllocError>
    ensures { IfOk result (λ ranges. ranges.items ≡ map range_of segments.now) }
{
    segments
        .iter()
        .map(|segment| range_of(*segment))
        .collect(alloc)
}

/// Returns the range of memory that was dumped of a segment.
fn range_of(segment: Segment) -> MemoryRange
    ensures { result ≡ range_of segment }
{
    MemoryRange {
        start: segment.address,
        size: segment.file_size,
        offset: segment.offset,
    }
}
