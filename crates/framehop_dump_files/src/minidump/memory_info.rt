//! Which memory of a process could be executed.
ghost use Rattle.std.specs.Prelude.{◌≡◌, Ok, Err, MatchResult, IfOk, map};
ghost use Rattle.framehop_dump_files.specs.Minidump.Location.{IsErrorOf};
ghost use Rattle.framehop_dump_files.specs.Minidump.MemoryInfo.{region_at, info_list_in, info_list_of, regions_of};

use crate::minidump::error::MinidumpError;
use crate::minidump::location::read_located;
use crate::minidump::stream::{Stream, first_stream};
use framehop_bytes::bytes::{back, u32_at, u64_at};
use framehop_memory::segment::Segment;
use std::alloc::{AllocError, Global};

/// `MemoryInfoListStream`.
const MEMORY_INFO_LIST_STREAM: u32 = 16;

/// The size of what is before the entries, in bytes: `MINIDUMP_MEMORY_INFO_LIST`.
const HEADER_SIZE: u32 = 16;

/// The size of an entry, in bytes: `MINIDUMP_MEMORY_INFO`.
const ENTRY_SIZE: usize = 48;

/// `PAGE_EXECUTE`, `PAGE_EXECUTE_READ`, `PAGE_EXECUTE_READWRITE` and `PAGE_EXECUTE_WRITECOPY`.
const EXECUTE: u32 = 0xf0;

/// Reads the regions of the memory that the process had, and which of them could be executed: the entries of the first
/// stream of type `MemoryInfoListStream`, in its order. They are segments without bytes. There are none without such a
/// stream, or where it says that its header or its entries have other sizes than `MINIDUMP_MEMORY_INFO_LIST` and
/// `MINIDUMP_MEMORY_INFO`.
///
/// # Errors
///
/// - `Eof` where the file ends before the stream does;
/// - `ShortStream` where it ends before its entries begin;
/// - `BadListSize` where its size is not that of so many entries;
/// - `OutOfMemory`.
///
/// Source: `minidumpapiset.h`, `MINIDUMP_MEMORY_INFO_LIST`; `winnt.h`, memory protection constants.
#[tactic(auto, unfolding(crate::specs::Minidump::MemoryInfo::regions_of))]
pub fn read_memory_info(
    alloc: Global,
    file: &[u8],
    streams: &[Stream],
) -> Result<Vec<Segment>, MinidumpError>
    ensures { MatchResult result
        (λ regions. regions_of file.now streams.now ≡ Ok regions.items)
        (λ error. IsErrorOf (regions_of file.now streams.now) error) }
{
    let entries = info_list(file, streams)?;
    Ok(regions(alloc, entries)?)
}

/// Returns the entries of the list, if there is one.
#[tactic(auto, unfolding(crate::specs::Minidump::MemoryInfo::info_list_of))]
fn info_list<'a>(
    file: &'a [u8],
    streams: &[Stream],
) -> Result<&'a [[u8; ENTRY_SIZE]], MinidumpError>
    ensures { MatchResult result
        (λ entries. info_list_of file.entry.now streams.now ≡ Ok entries.now)
        (λ error. info_list_of file.entry.now streams.now ≡ Err error) }
{
    let Some(stream) = first_stream(streams, MEMORY_INFO_LIST_STREAM) else {
        return Ok(&[]);
    };
    let list = read_located(file, stream.location)?;
    info_list_in(u64::from(stream.location.offset), list)
}

/// Returns the entries of a list that is at an offset of the file.
#[tactic(auto, unfolding(crate::specs::Minidump::MemoryInfo::info_list_in))]
fn info_list_in(offset: u64, list: &[u8]) -> Result<&[[u8; ENTRY_SIZE]], MinidumpError>
    ensures { MatchResult result
        (λ entries. info_list_in offset list.entry.now ≡ Ok entries.now)
        (λ error. info_list_in offset list.entry.now ≡ Err error) }
{
    let length = list.len() as u64;
    let header_size = u64::from(HEADER_SIZE);
    if length < header_size {
        return Err(MinidumpError::ShortStream { offset });
    }
    if u32_at(list, 0) != HEADER_SIZE || u32_at(list, 4) != ENTRY_SIZE as u32 {
        return Ok(&[]);
    }
    let size = length - header_size;
    let entry_size = ENTRY_SIZE as u64;
    if size % entry_size != 0 || size / entry_size != u64_at(list, 8) {
        return Err(MinidumpError::BadListSize { offset });
    }
    let (entries, _) = back(list, header_size).as_chunks::<ENTRY_SIZE>();
    Ok(entries)
}

/// Returns the regions of entries.
fn regions(alloc: Global, entries: &[[u8; ENTRY_SIZE]]) -> Result<Vec<Segment>, AllocError>
    ensures { IfOk result (λ regions. regions.items ≡ map region_at entries.now) }
{
    entries.iter().map(|entry| region_at(entry)).collect(alloc)
}

/// Returns the region of an entry: `BaseAddress`, `RegionSize` and `Protect`.
fn region_at(entry: &[u8; ENTRY_SIZE]) -> Segment
    ensures { result ≡ region_at entry.now }
{
    Segment {
        address: u64_at(entry, 0),
        size: u64_at(entry, 24),
        offset: 0,
        file_size: 0,
        is_code: u32_at(entry, 36) & EXECUTE != 0,
    }
}
