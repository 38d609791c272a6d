//! Core files of which only parts are read: the headers and the notes, and of memory what is asked for.
ghost use Rattle.std.specs.Prelude.{◌≡◌, IfOk, IfSome, MatchOption, true};
ghost use Rattle.std.specs.List.{list_any};
ghost use Rattle.std.specs.List.Sorted.{IsNonDecreasingBy};
ghost use Rattle.framehop_disk.specs.CoreParts.{AreApart, AreApartBy, AreBesideFiles, AreMapped, AreSegments, HasNone, HasNotes, IsOfCore, headers_end, most_rounds};
ghost use Rattle.framehop_disk.specs.Segments.{is_cut_off};
ghost use Rattle.framehop_disk.specs.Wanted.{has_new, parts_from, start_of, wanting_all};

use crate::input::{read_at, read_front, zeros};
use crate::object_parts::write_u64;
use crate::segments::{LoadedSegment, are_apart, is_cut_off, segments_in, wanted_beside};
use crate::wanted::{WantedSegment, want, wanted_parts, wanted_size};
use framehop_dump_files::coredump::core_file::read_core_file;
use framehop_dump_files::coredump::mapped_file::{MappedFile, read_mapped_files};
use framehop_dump_files::coredump::note::read_notes;
use framehop_memory::left_out::ReadPart;
use framehop_memory::segment::Segment;
use framehop_object::elf::header::{HEADER_SIZE, read_file_header};
use framehop_object::elf::program_header::{
    ENTRY_SIZE as PROGRAM_HEADER_SIZE, PT_NOTE, ProgramHeader,
};
use framehop_object::elf::segment::loaded_segments;
use std::alloc::{AllocError, Global};
use std::fs::File;
use std::{fs, io};

/// The most bytes of headers and notes that are read apart from memory: 64 MiB.
const LARGEST_FRONT: u64 = 0x400_0000;

/// The offset of `p_offset` in a program header, in bytes.
const P_OFFSET: u64 = 8;

/// The size of a core file, in bytes, up to which it is small: 16 MiB.
const SMALL_FILE: u64 = 0x100_0000;

/// How often more of a small core file is read before it is read whole. Each time all is done again, where whole files of that
/// size are read in less time.
const ROUNDS_OF_SMALL_FILE: u32 = 3;

/// How often more of another core file is read before it is read whole.
const MOST_ROUNDS: u32 = 16;

/// A core file of which parts are read.
#[derive(Drop)]
pub struct CoreParts {
    file: File,
    /// The size of the file, in bytes.
    size: u64,
    /// The headers of the file, and then its notes.
    front: Vec<u8>,
    /// The memory that the file has, in the order of addresses. Two share bytes only where they are pieces of one segment.
    segments: Vec<WantedSegment>,
    ghost ordered: { IsNonDecreasingBy start_of segments.items },
}

/// What was read of the memory of a core file.
#[derive(Drop)]
pub struct ReadMemory {
    /// The bytes that were read.
    pub bytes: Vec<u8>,
    /// Of which ends of which segments they are.
    pub parts: Vec<ReadPart>,
}

/// The headers of a core file, as bytes, after which its notes come, and as they are read.
#[derive(Drop)]
struct Front {
    bytes: Vec<u8>,
    headers: Vec<ProgramHeader>,
}

impl CoreParts {
    /// Opens a core file, and reads its headers and its notes. `None` of what is no core file, of one whose memory overlaps or
    /// does not lie in the file, and of one that has too many bytes of headers and notes: such a file is read whole.
    pub fn open(rt: &HostRuntime, path: &str) -> io::Result<Option<CoreParts>> {
        let metadata = fs::metadata(rt, path)?;
        if !metadata.is_file() || metadata.len() < HEADER_SIZE {
            return Ok(None);
        }
        let file = File::open(rt, path)?;
        CoreParts::read(rt.alloc(), file, metadata.len())
    }

    /// Reads the headers and the notes of a core file of a size.
    fn read(alloc: Global, file: File, size: u64) -> io::Result<Option<CoreParts>>
        ensures size { IfOk result (λ found. IfSome found (λ parts. parts.size ≡ size)) }
        ensures apart { IfOk result (λ found. IfSome found (λ parts. AreApartBy parts.front.items size parts.segments.items)) }
    {
        let mut file = file;
        let Some(front) = read_front_of_core(alloc, &mut file, size)? else {
            return Ok(None);
        };
        match wanted_segments(alloc, &front, size)? {
            Some(segments) => Ok(Some(CoreParts {
                file,
                size,
                front: front.bytes,
                segments,
            })),
            None => Ok(None),
        }
    }

    /// Returns the headers of the file, and then its notes, as a file of their own.
    pub fn front(&self) -> &[u8]
        ensures { result.now ≡ self.entry.now.front.items }
    {
        self.front.as_slice()
    }

    /// Returns how often more of the file is read before it is read whole.
    pub fn most_rounds(&self) -> u32
        ensures { result ≡ most_rounds self.now.size }
    {
        if self.size <= SMALL_FILE {
            ROUNDS_OF_SMALL_FILE
        } else {
            MOST_ROUNDS
        }
    }

    /// Reads the memory that is wanted. `None` where it has more bytes than the file, since segments share some.
    pub fn read_memory(&mut self, alloc: Global) -> io::Result<Option<ReadMemory>>
        ensures parts { IfOk result (λ read. IfSome read (λ memory. memory.parts.items ≡ parts_from 0 self.old.segments.items)) }
        ensures kept { self.new.segments ≡ self.old.segments }
    {
        let size = wanted_size(self.segments.as_slice());
        if size > self.size {
            return Ok(None);
        }
        Ok(Some(ReadMemory {
            bytes: self.read_bytes(alloc, size)?,
            parts: wanted_parts(alloc, self.segments.as_slice())?,
        }))
    }

    /// Reads the bytes that are wanted, of which there are so many.
    fn read_bytes(&mut self, alloc: Global, size: u64) -> io::Result<Vec<u8>>
        ensures kept { self.new.segments ≡ self.old.segments }
    {
        let mut bytes = zeros(alloc, size as usize)?;
        let mut rest = bytes.as_mut_slice();
        for segment in &self.segments {
            let (offset, size) = (segment.wanted_offset(), segment.wanted);
            rest = read_front(&mut self.file, offset, size, rest)?;
        }
        Ok(bytes)
    }

    /// Wants memory from addresses (AVMAs) on, each up to the end of its segment. Returns whether some of it was not wanted
    /// before.
    pub fn want(&mut self, addresses: &[u64]) -> bool
        ensures new { result ≡ has_new addresses.now self.old.segments.items }
        ensures wanted { self.new.segments.items ≡ wanting_all addresses.now self.old.segments.items }
    {
        let mut is_new = false;
        for address in addresses {
            let wanted = want(self.segments.as_mut_slice(), *address);
            is_new = is_new || wanted;
        }
        is_new
    }
}

/// Reads the headers of a core file of a size, and then its notes. `None` of what is no core file, and where they have too many
/// bytes.
fn read_front_of_core(alloc: Global, file: &mut File, size: u64) -> io::Result<Option<Front>> {
    let most = size.min(LARGEST_FRONT);
    let Some(end) = read_headers_end(alloc, file, most)? else {
        return Ok(None);
    };
    let mut bytes = read_at(alloc, file, 0, end)?;
    let Some(headers) = headers_in(alloc, bytes.as_slice()) else {
        return Ok(None);
    };
    if add_notes(alloc, file, headers.as_slice(), most, &mut bytes)? {
        Ok(Some(Front { bytes, headers }))
    } else {
        Ok(None)
    }
}

/// Returns where the program headers of a core file end, if they are in its first bytes, of which there are at most so many.
fn read_headers_end(alloc: Global, file: &mut File, most: u64) -> io::Result<Option<u64>> {
    let header = read_at(alloc, file, 0, HEADER_SIZE)?;
    Ok(headers_end(header.as_slice(), most))
}

/// Returns the program headers of a core file.
fn headers_in(alloc: Global, front: &[u8]) -> Option<Vec<ProgramHeader>>
    ensures { IfSome result (λ headers. IsOfCore front.now headers.items) }
{
    match read_core_file(alloc, front) {
        Ok(core) => Some(core.segments),
        Err(_) => None,
    }
}

/// Returns the segments that are read apart, of which nothing is wanted. `None` where they overlap, or do not lie in the file, of
/// a size, and where the notes can't be read.
fn wanted_segments(
    alloc: Global,
    front: &Front,
    size: u64,
) -> Result<Option<Vec<WantedSegment>>, AllocError>
    ensures { IfOk result (λ found. IfSome found (λ segments. AreApart front.now.bytes.items front.now.headers.items size segments.items)) }
{
    match segments_of(alloc, front.headers.as_slice(), size)? {
        Some(loaded) => in_pieces(alloc, front.bytes.as_slice(), loaded.as_slice()),
        None => Ok(None),
    }
}

/// Returns where the program headers of a core file end, if they are in its first bytes, of which there are at most so many.
fn headers_end(header: &[u8], most: u64) -> Option<u64>
    ensures { result ≡ headers_end most header.now }
{
    let header = read_file_header(header).ok()?;
    let size = PROGRAM_HEADER_SIZE as u64 * u64::from(header.e_phnum);
    let end = header.e_phoff.checked_add(size)?;
    if end <= most {
        Some(end.max(HEADER_SIZE))
    } else {
        None
    }
}

/// Reads the notes of a core file, adds them to its headers, and writes there where they are. Returns whether the file has
/// them, and there are at most so many bytes together.
fn add_notes(
    alloc: Global,
    file: &mut File,
    headers: &[ProgramHeader],
    most: u64,
    front: &mut Vec<u8>,
) -> io::Result<bool> {
    let Ok(header) = read_file_header(front.as_slice()) else {
        return Ok(false);
    };
    let mut place = header.e_phoff.saturating_add(P_OFFSET);
    for header in headers {
        if header.p_type == PT_NOTE && !add_note(alloc, file, header, most, place, front)? {
            return Ok(false);
        }
        place = place.saturating_add(PROGRAM_HEADER_SIZE as u64);
    }
    Ok(true)
}

/// Reads the notes of a program header, adds them to the front of a core file, and writes there, at a place, where they are.
/// Returns whether the file has them, and there are at most so many bytes together.
fn add_note(
    alloc: Global,
    file: &mut File,
    header: &ProgramHeader,
    most: u64,
    place: u64,
    front: &mut Vec<u8>,
) -> io::Result<bool>
    ensures { IfOk result (λ is. is ≡ true → HasNotes front.old.items place header.now.p_filesz front.new.items) }
{
    let start = front.len() as u64;
    let end = header.p_offset.checked_add(header.p_filesz);
    if end.is_none() || start.saturating_add(header.p_filesz) > most {
        return Ok(false);
    }
    let Ok(notes) = read_at(alloc, file, header.p_offset, header.p_filesz) else {
        return Ok(false);
    };
    write_u64(front.as_mut_slice(), place, start);
    front.extend_from_slice(notes.as_slice())?;
    Ok(true)
}

/// Returns the segments that are read apart, of which nothing is wanted: those of memory, of which large ones of code that no file
/// has are cut into pieces. `None` where the notes, which are in the front of the file, can't be read.
fn in_pieces(
    alloc: Global,
    front: &[u8],
    loaded: &[LoadedSegment],
) -> Result<Option<Vec<WantedSegment>>, AllocError>
    ensures { IfOk result (λ found. IfSome found (λ segments. AreBesideFiles front.now loaded.now segments.items)) }
{
    match mapped_files(alloc, front) {
        Some(mapped) => Ok(Some(wanted_beside(alloc, loaded, mapped.as_slice())?)),
        None => Ok(None),
    }
}

/// Returns the files that were mapped, by the front of a core file.
fn mapped_files(alloc: Global, front: &[u8]) -> Option<Vec<MappedFile<'_>>>
    ensures { IfSome result (λ files. AreMapped front.entry.now files.items) }
{
    let core = read_core_file(alloc, front).ok()?;
    let notes = read_notes(alloc, front, core.segments.as_slice()).ok()?;
    read_mapped_files(alloc, notes.as_slice()).ok()
}

/// Returns the segments of memory that a file of a size has, in the order of their addresses; `None` where they overlap, or do
/// not lie in the file.
fn segments_of(
    alloc: Global,
    headers: &[ProgramHeader],
    size: u64,
) -> Result<Option<Vec<LoadedSegment>>, AllocError>
    ensures { IfOk result (λ found. MatchOption found (HasNone size headers.now) (λ segments. AreSegments size headers.now segments.items)) }
{
    let loaded = loaded_segments(alloc, headers)?;
    if lacks_some(loaded.as_slice(), size) {
        return Ok(None);
    }
    let segments = segments_in(alloc, loaded.as_slice(), size)?;
    if are_apart(segments.as_slice()) {
        Ok(Some(segments))
    } else {
        Ok(None)
    }
}

/// Returns whether a file of a size lacks some of a segment.
fn lacks_some(loaded: &[Segment], size: u64) -> bool
    ensures { result ≡ list_any (is_cut_off size) loaded.now }
{
    loaded.iter().any(|segment| is_cut_off(segment, size))
}
