//! The files that a process had mapped.
ghost use Rattle.std.specs.Prelude.{◌≡◌, ◌+◌, ◌*◌, ◌≤◌, Ok, Err, MatchResult, map, length};
ghost use Rattle.framehop_dump_files.specs.Coredump.Refusal.{IsErrorOf};
ghost use Rattle.framehop_dump_files.specs.Coredump.Note.{placed_view};
ghost use Rattle.framehop_dump_files.specs.Coredump.MappedFile.{mapped_file_view, path_at, mapped_file_of, entries_in, files_of, files_in, mapped_files_of};

use crate::coredump::error::CoreFileError;
use crate::coredump::note::{PlacedNote, first_of};
use framehop_bytes::bytes::{back, front, u64_at};
use framehop_bytes::gathered::pushed;
use framehop_bytes::string::string_at;
use std::alloc::Global;

/// `NT_FILE` of "CORE".
const NT_FILE: u32 = 0x46494c45;

/// The size of what is before the entries: their count and the size of a page.
const HEADER_SIZE: u64 = 16;

/// The size of an entry, in bytes.
const ENTRY_SIZE: usize = 24;

/// A file that a process had mapped.
#[derive(Clone, Copy, Drop)]
pub struct MappedFile<'a> {
    /// The first address (AVMA).
    pub start: u64,
    /// The address after the last (AVMA).
    pub end: u64,
    /// Where the mapping begins in the file, in bytes.
    pub offset: u64,
    /// The file's path, without the 0 after it.
    pub path: &'a [u8],
}

/// Reads the files that a process had mapped from its notes, in the order of their addresses: those of
/// the first note of "CORE" of type NT_FILE, none where there is no such note.
///
/// # Errors
///
/// `ShortNote` where the note ends before its entries or their paths do, and `OffsetTooBig` where a file
/// is mapped from an offset on, in bytes, that does not fit 64 bits: the first of these. Else
/// `OutOfMemory`.
///
/// Source: Linux, `fs/binfmt_elf.c`, `fill_files_note`; `core(5)`.
pub fn read_mapped_files<'a>(
    alloc: Global,
    notes: &[PlacedNote<'a>],
) -> Result<Vec<MappedFile<'a>>, CoreFileError>
    ensures { MatchResult result
        (λ files. mapped_files_of (map placed_view notes.entry.now) ≡ Ok (map mapped_file_view files.items))
        (λ error. IsErrorOf (mapped_files_of (map placed_view notes.entry.now)) error) }
{
    match first_of(notes, b"CORE\0", NT_FILE) {
        Some(placed) => read_note(alloc, placed.offset, placed.note.descriptor),
        None => Ok(Vec::new(alloc)),
    }
}

/// Returns the mapped files of a note.
#[tactic(auto, unfolding(crate::specs::Coredump::MappedFile::files_in))]
fn read_note<'a>(
    alloc: Global,
    offset: u64,
    descriptor: &'a [u8],
) -> Result<Vec<MappedFile<'a>>, CoreFileError>
    ensures { MatchResult result
        (λ files. files_in offset descriptor.entry.now ≡ Ok (map mapped_file_view files.items))
        (λ error. IsErrorOf (files_in offset descriptor.entry.now) error) }
{
    let short = CoreFileError::ShortNote { offset };
    let length = descriptor.len() as u64;
    if length < HEADER_SIZE {
        return Err(short);
    }
    let count = u64_at(descriptor, 0);
    if count > (length - HEADER_SIZE) / ENTRY_SIZE as u64 {
        return Err(short);
    }
    let page_size = u64_at(descriptor, 8);
    let entries = entries(descriptor, count);
    let paths = back(descriptor, HEADER_SIZE + ENTRY_SIZE as u64 * count);
    read_files(alloc, offset, page_size, entries, paths)
}

/// Returns so many entries.
fn entries(descriptor: &[u8], count: u64) -> &[[u8; ENTRY_SIZE]]
    requires { 16 + 24 * count ≤ length descriptor.now }
    ensures { result.now ≡ entries_in descriptor.entry.now count }
{
    let size = ENTRY_SIZE * count as usize;
    let (entries, _) = front(back(descriptor, HEADER_SIZE), size).as_chunks::<ENTRY_SIZE>();
    entries
}

/// Returns the mapped file of each entry.
fn read_files<'a>(
    alloc: Global,
    offset: u64,
    page_size: u64,
    entries: &[[u8; ENTRY_SIZE]],
    paths: &'a [u8],
) -> Result<Vec<MappedFile<'a>>, CoreFileError>
    ensures { MatchResult result
        (λ files. files_of offset page_size entries.now paths.entry.now ≡ Ok (map mapped_file_view files.items))
        (λ error. IsErrorOf (files_of offset page_size entries.now paths.entry.now) error) }
{
    let mut files = Some(Vec::new(alloc));
    let mut rest = paths;
    for entry in entries {
        let (path, later) = read_path(offset, rest)?;
        let file = read_entry(offset, page_size, entry, path)?;
        files = pushed(files, file);
        rest = later;
    }
    match files {
        Some(files) => Ok(files),
        None => Err(CoreFileError::OutOfMemory),
    }
}

/// Returns the path at the front of paths, and the paths after it.
fn read_path(offset: u64, paths: &[u8]) -> Result<(&[u8], &[u8]), CoreFileError>
    ensures exact { MatchResult result
        (λ read. path_at offset paths.entry.now ≡ Ok (read.0.now, read.1.now))
        (λ error. path_at offset paths.entry.now ≡ Err error) }
{
    let path = string_at(paths, 0);
    if path.len() >= paths.len() {
        return Err(CoreFileError::ShortNote { offset });
    }
    Ok((path, back(paths, path.len() as u64 + 1)))
}

/// Returns the mapped file of an entry and a path.
fn read_entry<'a>(
    offset: u64,
    page_size: u64,
    entry: &[u8; ENTRY_SIZE],
    path: &'a [u8],
) -> Result<MappedFile<'a>, CoreFileError>
    ensures exact { MatchResult result
        (λ file. mapped_file_of offset page_size entry.now path.entry.now ≡ Ok (mapped_file_view file))
        (λ error. mapped_file_of offset page_size entry.now path.entry.now ≡ Err error) }
{
    let Some(file_offset) = u64_at(entry, 16).checked_mul(page_size) else {
        return Err(CoreFileError::OffsetTooBig { offset });
    };
    Ok(MappedFile {
        start: u64_at(entry, 0),
        end: u64_at(entry, 8),
        offset: file_offset,
        path,
    })
}
