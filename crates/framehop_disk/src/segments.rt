//! Which segments of a core file's memory are read apart.
ghost use Rattle.std.specs.Prelude.{◌≡◌, ◌++◌, IfOk, OnOk, IsPermutation, true};
ghost use Rattle.std.specs.List.{list_any};
ghost use Rattle.std.specs.List.Sorted.{IsNonDecreasingBy};
ghost use Rattle.framehop_disk.specs.Segments.{are_apart, had, has_file, is_cut, is_cut_off, loaded_of, piece_of, pieces_beside, pieces_of, segments_in, start_of, unread, wanted_beside};

use crate::wanted::WantedSegment;
use framehop_dump_files::coredump::mapped_file::MappedFile;
use framehop_memory::memory::MemoryRange;
use framehop_memory::segment::Segment;
use std::alloc::{AllocError, Global};

/// The size, in bytes, from which on a segment of code that no file has is read in pieces, as that of a JIT compiler: 16 MiB.
const LARGE_CODE: u64 = 0x100_0000;

/// The size of a piece in bytes, without what it shares with the next one: 1 MiB.
const PIECE: u64 = 0x10_0000;

/// How many bytes a piece shares with the next one. A read of code is shorter, so each has a piece with all of its bytes.
const SHARED: u64 = 0x1_0000;

/// The first address (AVMA) that is the kernel's.
const FIRST_OF_KERNEL: u64 = 0x8000_0000_0000_0000;

/// A segment of memory that a core file has.
#[derive(Clone, Copy)]
pub(crate) struct LoadedSegment {
    /// Where the file has it.
    pub(crate) range: MemoryRange,
    /// It may be executed.
    pub(crate) is_code: bool,
}

/// Returns whether a file of a size lacks some of a segment that is not the kernel's.
pub(crate) fn is_cut_off(loaded: &Segment, size: u64) -> bool
    ensures { result ≡ is_cut_off size loaded.now }
{
    let end = loaded.offset.saturating_add(loaded.file_size);
    end > size && loaded.address < FIRST_OF_KERNEL
}

/// Returns the segments of memory of which a file of a size has something, in the order of their addresses.
pub(crate) fn segments_in(
    alloc: Global,
    loaded: &[Segment],
    size: u64,
) -> Result<Vec<LoadedSegment>, AllocError>
    ensures all { IfOk result (λ segments. IsPermutation (segments_in size loaded.now) segments.items) }
    ensures ordered { IfOk result (λ segments. IsNonDecreasingBy start_of segments.items) }
{
    let mut segments = segments_of(alloc, loaded, size)?;
    segments.sort_by_key(|segment| segment.range.start)?;
    Ok(segments)
}

/// Returns the segments of memory of which a file of a size has something.
fn segments_of(
    alloc: Global,
    loaded: &[Segment],
    size: u64,
) -> Result<Vec<LoadedSegment>, AllocError>
    ensures { IfOk result (λ segments. segments.items ≡ segments_in size loaded.now) }
{
    loaded
        .iter()
        .filter(|segment| had(segment, size) > 0)
        .map(|segment| loaded_of(segment, size))
        .collect(alloc)
}

/// Returns how much of a segment a file of a size has, in bytes.
fn had(segment: &Segment, size: u64) -> u64
    ensures { result ≡ had size segment.now }
{
    size.saturating_sub(segment.offset).min(segment.file_size)
}

/// Returns a segment of memory as a file of a size has it.
fn loaded_of(segment: &Segment, size: u64) -> LoadedSegment
    ensures { result ≡ loaded_of size segment.now }
{
    LoadedSegment {
        range: MemoryRange {
            start: segment.address,
            size: had(segment, size),
            offset: segment.offset,
        },
        is_code: segment.is_code,
    }
}

/// Returns whether each segment ends before the next one begins.
pub(crate) fn are_apart(segments: &[LoadedSegment]) -> bool
    ensures { result ≡ are_apart 0 segments.now }
{
    let mut end: u64 = 0;
    for segment in segments {
        let Some(next) = segment.range.start.checked_add(segment.range.size) else {
            return false;
        };
        if segment.range.start < end {
            return false;
        }
        end = next;
    }
    true
}

/// Returns the segments that are read apart, by the files that were mapped: large ones of code that no file has are cut into
/// pieces.
pub(crate) fn wanted_beside(
    alloc: Global,
    loaded: &[LoadedSegment],
    mapped: &[MappedFile<'_>],
) -> Result<Vec<WantedSegment>, AllocError>
    ensures { IfOk result (λ segments. segments.items ≡ wanted_beside mapped.now loaded.now) }
{
    let mut segments = Vec::with_capacity(alloc, loaded.len())?;
    for segment in loaded {
        push_beside(alloc, segment, mapped, &mut segments)?;
    }
    Ok(segments)
}

/// Appends a segment, or its pieces.
fn push_beside(
    alloc: Global,
    segment: &LoadedSegment,
    mapped: &[MappedFile<'_>],
    segments: &mut Vec<WantedSegment>,
) -> Result<(), AllocError>
    ensures { OnOk result (segments.new.items ≡ segments.old.items ++ pieces_beside mapped.now segment.now) }
{
    if is_cut(segment, mapped) {
        segments.extend_from_slice(pieces_of(alloc, segment.range)?.as_slice())
    } else {
        segments.push(unread(segment.range))?;
        Ok(())
    }
}

/// Returns whether a segment is read in pieces.
fn is_cut(segment: &LoadedSegment, mapped: &[MappedFile<'_>]) -> bool
    ensures { result ≡ is_cut mapped.now segment.now }
{
    segment.is_code && segment.range.size > LARGE_CODE && !is_mapped(segment.range, mapped)
}

/// Returns whether one of these files was mapped at an address of a range.
fn is_mapped(range: MemoryRange, mapped: &[MappedFile<'_>]) -> bool
    ensures { result ≡ list_any (has_file range) mapped.now }
{
    mapped.iter().any(|file| has_file(range, file))
}

/// Returns whether a file was mapped at an address of a range.
fn has_file(range: MemoryRange, file: &MappedFile<'_>) -> bool
    ensures { result ≡ has_file range file.now }
{
    file.start < range.start.saturating_add(range.size) && range.start < file.end
}

/// Returns the pieces of a range, of which nothing is wanted.
fn pieces_of(alloc: Global, range: MemoryRange) -> Result<Vec<WantedSegment>, AllocError>
    ensures { IfOk result (λ pieces. pieces.items ≡ pieces_of range) }
{
    (0..range.size.div_ceil(PIECE))
        .map(|number| piece_of(range, number))
        .collect(alloc)
}

/// Returns a piece of a range by its number.
fn piece_of(range: MemoryRange, number: u64) -> WantedSegment
    ensures { result ≡ piece_of range number }
{
    let before = number.saturating_mul(PIECE);
    unread(MemoryRange {
        start: range.start.saturating_add(before),
        size: range.size.saturating_sub(before).min(PIECE + SHARED),
        offset: range.offset.saturating_add(before),
    })
}

/// Returns a range of which nothing is wanted.
fn unread(range: MemoryRange) -> WantedSegment
    ensures { result ≡ unread range }
{
    WantedSegment { range, wanted: 0 }
}
