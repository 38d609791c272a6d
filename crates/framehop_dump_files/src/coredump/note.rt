//! The notes of a core file.
ghost use Rattle.std.specs.Prelude.{◌≡◌, ◌+◌, ◌^◌, ◌<◌, ◌≤◌, ◌++◌, List, Ok, Err, IfOk, MatchResult, length, map, option_map, find};
ghost use Rattle.framehop_dump_files.specs.declared.coredump.note.PlacedNote.{PlacedNote};
ghost use Rattle.framehop_dump_files.specs.Coredump.Refusal.{IsErrorOf};
ghost use Rattle.framehop_bytes.specs.Gathered.{IsGathered};
ghost use Rattle.framehop_dump_files.specs.Coredump.Note.{placed_view, is_of, placed_at, notes_in, notes_size, notes_of_segment, notes_of};

use crate::coredump::error::CoreFileError;
use framehop_bytes::bytes::back;
use framehop_bytes::gathered::pushed;
use framehop_object::elf::note::{ElfNote, read_note};
use framehop_object::elf::program_header::{PT_NOTE, ProgramHeader};
use framehop_object::elf::segment::read_segment;
use std::alloc::Global;

/// A note of a core file, and where it is.
#[derive(Clone, Copy, Drop)]
pub struct PlacedNote<'a> {
    /// Where it begins, in bytes from the start of the file.
    pub offset: u64,
    /// What it has.
    pub note: ElfNote<'a>,
}

/// Returns the first note of an owner, whose name ends with a 0, and of one of its types.
pub(crate) fn first_of<'a>(
    notes: &[PlacedNote<'a>],
    owner: &[u8],
    n_type: u32,
) -> Option<PlacedNote<'a>>
    ensures { option_map placed_view result ≡ find (is_of owner.now n_type) (map placed_view notes.entry.now) }
{
    notes
        .iter()
        .find(|placed| is_of(**placed, owner, n_type))
        .copied()
}

/// Returns whether a note is of an owner, whose name ends with a 0, and of one of its types.
pub(crate) fn is_of<'a>(placed: PlacedNote<'a>, owner: &[u8], n_type: u32) -> bool
    ensures { result ≡ is_of owner.now n_type (placed_view placed.entry) }
{
    placed.note.n_type == n_type && placed.note.name == owner
}

/// Reads the notes of the segments of type `PT_NOTE`, in the order of the file.
///
/// # Errors
///
/// The first of these, in the order of the segments:
///
/// - `Elf` with `Eof` where the file ends before such a segment does;
/// - `SharedNotes` where it has, with those before it, more bytes than the file;
/// - `NoteBeyondSegment` where it ends before a note does.
///
/// Else `OutOfMemory`.
///
/// Source: System V gABI, chapter 5, "Note Section".
pub fn read_notes<'a>(
    alloc: Global,
    file: &'a [u8],
    segments: &[ProgramHeader],
) -> Result<Vec<PlacedNote<'a>>, CoreFileError>
    ensures { MatchResult result
        (λ notes. notes_of file.entry.now segments.now ≡ Ok (map placed_view notes.items))
        (λ error. IsErrorOf (notes_of file.entry.now segments.now) error) }
{
    let mut notes = Some(Vec::new(alloc));
    let mut left = file.len() as u64;
    for segment in segments {
        notes = with_notes_of(notes, file, left, *segment)?;
        left = left.saturating_sub(notes_size(*segment));
    }
    match notes {
        Some(notes) => Ok(notes),
        None => Err(CoreFileError::OutOfMemory),
    }
}

/// Returns the notes with those of a segment, which may have so many bytes.
#[tactic(auto, unfolding(crate::specs::Coredump::Note::notes_of_segment))]
fn with_notes_of<'a>(
    notes: Option<Vec<PlacedNote<'a>>>,
    file: &'a [u8],
    left: u64,
    segment: ProgramHeader,
) -> Result<Option<Vec<PlacedNote<'a>>>, CoreFileError>
    ensures exact { MatchResult result
        (λ all. (read : List PlacedNote) × (notes_of_segment file.entry.now left segment ≡ Ok (map placed_view read)) × ((list : List PlacedNote) → IsGathered list notes.entry → IsGathered (list ++ read) all))
        (λ error. notes_of_segment file.entry.now left segment ≡ Err error) }
{
    if segment.p_type != PT_NOTE {
        return Ok(notes);
    }
    let offset = segment.p_offset;
    let block = read_segment(file, segment)?;
    if segment.p_filesz > left {
        return Err(CoreFileError::SharedNotes { offset });
    }
    with_notes_in(notes, offset, block)
}

/// Returns the notes with those in these bytes, which are at an offset of the file.
fn with_notes_in<'a>(
    notes: Option<Vec<PlacedNote<'a>>>,
    start: u64,
    bytes: &'a [u8],
) -> Result<Option<Vec<PlacedNote<'a>>>, CoreFileError>
    requires { start + length bytes.now < 2 ^ 64 }
    ensures exact { MatchResult result
        (λ all. (read : List PlacedNote) × (notes_in 0 start bytes.entry.now ≡ Ok (map placed_view read)) × ((list : List PlacedNote) → IsGathered list notes.entry → IsGathered (list ++ read) all))
        (λ error. notes_in 0 start bytes.entry.now ≡ Err error) }
{
    let mut notes = notes;
    let mut offset = start;
    let mut rest = bytes;
    while !rest.is_empty() {
        let (note, size) = read_placed(offset, rest)?;
        notes = pushed(notes, note);
        offset += size.min(rest.len() as u64);
        rest = back(rest, size);
    }
    Ok(notes)
}

/// Returns the note at the front of the bytes, which are at an offset of the file, and how many of them
/// it takes.
#[tactic(auto, unfolding(crate::specs::Coredump::Note::placed_at))]
fn read_placed<'a>(offset: u64, bytes: &'a [u8]) -> Result<(PlacedNote<'a>, u64), CoreFileError>
    ensures exact { MatchResult result
        (λ read. placed_at offset bytes.entry.now ≡ Ok (placed_view read.0, read.1))
        (λ error. placed_at offset bytes.entry.now ≡ Err error) }
    ensures forward { IfOk result (λ read. (0 < read.1) × (0 < length bytes.entry.now)) }
{
    match read_note(bytes) {
        Some((note, size)) => Ok((PlacedNote { offset, note }, size)),
        None => Err(CoreFileError::NoteBeyondSegment { offset }),
    }
}

/// Returns how many bytes of notes a segment has.
fn notes_size(segment: ProgramHeader) -> u64
    ensures { result ≡ notes_size segment }
{
    if segment.p_type == PT_NOTE {
        segment.p_filesz
    } else {
        0
    }
}
