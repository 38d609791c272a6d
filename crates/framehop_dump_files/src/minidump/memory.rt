//! The memory of a process, as far as a minidump has it.
ghost use Rattle.std.specs.Prelude.{◌≡◌, ◌+◌, ◌≤◌, ◌++◌, List, Ok, Err, MatchResult, length, map};
ghost use Rattle.framehop_memory.specs.declared.memory.MemoryRange.{MemoryRange};
ghost use Rattle.framehop_bytes.specs.Gathered.{IsGathered};
ghost use Rattle.framehop_dump_files.specs.Minidump.Location.{IsErrorOf};
ghost use Rattle.framehop_dump_files.specs.Minidump.Memory.{descriptor_at, range_at, short_entries_of, long_list_in, long_list_of, ranges_from, ranges_of};

use crate::minidump::error::MinidumpError;
use crate::minidump::list::read_list;
use crate::minidump::location::read_located;
use crate::minidump::stream::{Stream, first_stream};
use framehop_bytes::bytes::{back, u32_at, u64_at};
use framehop_bytes::gathered::pushed;
use framehop_memory::memory::MemoryRange;
use std::alloc::{AllocError, Global};

/// `MemoryListStream`.
const MEMORY_LIST_STREAM: u32 = 5;

/// `Memory64ListStream`.
const MEMORY64_LIST_STREAM: u32 = 9;

/// The size of an entry of both lists, in bytes.
const ENTRY_SIZE: usize = 16;

/// The size of what is before the entries of the second: their number, and where the bytes begin.
const LONG_HEADER_SIZE: u64 = 16;

/// Reads which memory of the process the minidump has: the ranges of the first stream of type
/// `MemoryListStream`, and after them those of the first of type `Memory64ListStream`.
///
/// # Errors
///
/// The first of these, of the first stream and then of the second:
///
/// - `Eof` where the file ends before the stream does;
/// - `ShortStream` where it ends before its entries begin;
/// - `BadListSize` where its size is not that of so many entries; in the first, four bytes of padding may
///   come after their number;
/// - `OffsetTooBig` where a range of the second ends at an offset of the file that does not fit 64 bits.
///
/// Else `OutOfMemory`.
///
/// Source: `minidumpapiset.h`, `MINIDUMP_MEMORY_LIST` and `MINIDUMP_MEMORY64_LIST`.
#[tactic(auto, unfolding(crate::specs::Minidump::Memory::ranges_of))]
pub fn read_memory(
    alloc: Global,
    file: &[u8],
    streams: &[Stream],
) -> Result<Vec<MemoryRange>, MinidumpError>
    ensures { MatchResult result
        (λ ranges. ranges_of file.now streams.now ≡ Ok ranges.items)
        (λ error. IsErrorOf (ranges_of file.now streams.now) error) }
{
    let short = short_entries(file, streams)?;
    let (base, long) = long_list(file, streams)?;
    match with_long_ranges(short_ranges(alloc, short), base, long)? {
        Some(ranges) => Ok(ranges),
        None => Err(MinidumpError::OutOfMemory),
    }
}

/// Returns the entries of the list of type `MemoryListStream`.
#[tactic(auto, unfolding(crate::specs::Minidump::Memory::short_entries_of))]
fn short_entries<'a>(
    file: &'a [u8],
    streams: &[Stream],
) -> Result<&'a [[u8; ENTRY_SIZE]], MinidumpError>
    ensures { MatchResult result
        (λ entries. short_entries_of file.entry.now streams.now ≡ Ok entries.now)
        (λ error. short_entries_of file.entry.now streams.now ≡ Err error) }
{
    let list = read_list(file, streams, MEMORY_LIST_STREAM, ENTRY_SIZE as u64)?;
    let (entries, _) = list.as_chunks::<ENTRY_SIZE>();
    Ok(entries)
}

/// Returns where the bytes of the first range begin, and the entries, of the list of type
/// `Memory64ListStream`: none where there is no such stream.
#[tactic(auto, unfolding(crate::specs::Minidump::Memory::long_list_of))]
fn long_list<'a>(
    file: &'a [u8],
    streams: &[Stream],
) -> Result<(u64, &'a [[u8; ENTRY_SIZE]]), MinidumpError>
    ensures { MatchResult result
        (λ read. long_list_of file.entry.now streams.now ≡ Ok (read.0, read.1.now))
        (λ error. long_list_of file.entry.now streams.now ≡ Err error) }
{
    let Some(stream) = first_stream(streams, MEMORY64_LIST_STREAM) else {
        return Ok((0, &[]));
    };
    let list = read_located(file, stream.location)?;
    long_list_in(u64::from(stream.location.offset), list)
}

/// Returns where the bytes of the first range begin, and the entries, of a list of type
/// `Memory64ListStream` that is at an offset of the file.
#[tactic(auto, unfolding(crate::specs::Minidump::Memory::long_list_in))]
fn long_list_in(offset: u64, list: &[u8]) -> Result<(u64, &[[u8; ENTRY_SIZE]]), MinidumpError>
    ensures { MatchResult result
        (λ read. long_list_in offset list.entry.now ≡ Ok (read.0, read.1.now))
        (λ error. long_list_in offset list.entry.now ≡ Err error) }
{
    let length = list.len() as u64;
    if length < LONG_HEADER_SIZE {
        return Err(MinidumpError::ShortStream { offset });
    }
    let size = length - LONG_HEADER_SIZE;
    let entry_size = ENTRY_SIZE as u64;
    if size % entry_size != 0 || size / entry_size != u64_at(list, 0) {
        return Err(MinidumpError::BadListSize { offset });
    }
    let (entries, _) = back(list, LONG_HEADER_SIZE).as_chunks::<ENTRY_SIZE>();
    Ok((u64_at(list, 8), entries))
}

/// Returns the ranges with those of these entries of the list of type `Memory64ListStream`, whose bytes lie
/// one after another from an offset of the file on.
fn with_long_ranges(
    ranges: Option<Vec<MemoryRange>>,
    base: u64,
    entries: &[[u8; ENTRY_SIZE]],
) -> Result<Option<Vec<MemoryRange>>, MinidumpError>
    ensures exact { MatchResult result
        (λ all. (read : List MemoryRange) × (ranges_from base entries.now ≡ Ok read) × ((list : List MemoryRange) → IsGathered list ranges → IsGathered (list ++ read) all))
        (λ error. ranges_from base entries.now ≡ Err error) }
{
    let mut ranges = ranges;
    let mut offset = base;
    for entry in entries {
        let start = u64_at(entry, 0);
        let size = u64_at(entry, 8);
        let Some(end) = offset.checked_add(size) else {
            return Err(MinidumpError::OffsetTooBig { offset });
        };
        ranges = pushed(
            ranges,
            MemoryRange {
                start,
                size,
                offset,
            },
        );
        offset = end;
    }
    Ok(ranges)
}

/// Returns the ranges of these entries of the list of type `MemoryListStream`, or `None` where an
/// allocation fails.
fn short_ranges(alloc: Global, entries: &[[u8; ENTRY_SIZE]]) -> Option<Vec<MemoryRange>>
    ensures { IsGathered (map range_at entries.now) result }
{
    let ranges: Result<Vec<MemoryRange>, AllocError> = entries
        .iter()
        .map(|entry| range_at(entry))
        .collect(alloc);
    match ranges {
        Ok(ranges) => Some(ranges),
        Err(_) => None,
    }
}

/// Returns the range of an entry of the list of type `MemoryListStream`.
fn range_at(entry: &[u8; ENTRY_SIZE]) -> MemoryRange
    ensures { result ≡ range_at entry.now }
{
    descriptor_at(entry, 0)
}

/// Returns the range of a descriptor at an offset of an entry: `MINIDUMP_MEMORY_DESCRIPTOR` (`StartOfMemoryRange`,
/// `DataSize`, `Rva`).
pub(crate) fn descriptor_at(entry: &[u8], at: usize) -> MemoryRange
    requires { at + 16 ≤ length entry.now }
    ensures { result ≡ descriptor_at entry.now at }
{
    MemoryRange {
        start: u64_at(entry, at),
        size: u64::from(u32_at(entry, at + 8)),
        offset: u64::from(u32_at(entry, at + 12)),
    }
}
