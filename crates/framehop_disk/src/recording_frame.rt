//! What is before and after the records of a recording, as a recording that has none: it is read apart, and its records in pieces.
//!
//! Source: Linux, `tools/perf/Documentation/perf.data-file-format.txt`.
ghost use Rattle.std.specs.Prelude.{◌≡◌, ◌++◌, IfOk, MatchBool, None, Some, option_map};
ghost use Rattle.framehop_disk.specs.RecordingFrame.{after_records, body_size, frame_of, is_read_in_parts, left_after, piece_of, section_moved, whole_records};

use crate::object_parts::write_u64;
use framehop_bytes::bytes::read_u64;
use framehop_recording::error::RecordingError;
use framehop_recording::header::{Header, Section};
use std::alloc::AllocError;

/// The size of the smallest file that is read in parts, in bytes: 1 MiB.
const SMALLEST_FILE: u64 = 0x10_0000;

/// The most bytes before and after the records: 64 MiB.
const LARGEST_FRAME: u64 = 0x400_0000;

/// How many bytes of records are read at a time: 1 MiB.
const PIECE: u64 = 0x10_0000;

/// The size of where a section lies, in bytes: `perf_file_section`.
const SECTION_SIZE: usize = 16;

/// The size of a record's header, in bytes: `perf_event_header`.
pub const RECORD_HEADER_SIZE: usize = 8;

/// Returns whether a file of a size, in bytes, is read in parts.
pub fn is_read_in_parts(is_regular: bool, size: u64) -> bool
    ensures { result ≡ is_read_in_parts is_regular size }
{
    is_regular && size >= SMALLEST_FILE
}

/// Returns where what is after the records of a file of a size lies. `None` where the file ends before they do, or much is before or
/// after them.
pub fn after_records(records: Section, size: u64) -> Option<Section>
    ensures { result ≡ after_records records size }
{
    let end = records.offset.checked_add(records.size)?;
    let left = size.checked_sub(end)?;
    if left > LARGEST_FRAME || records.offset > LARGEST_FRAME {
        return None;
    }
    Some(Section {
        offset: end,
        size: left,
    })
}

/// Returns what is before and after the records of a recording, as a recording that has none: the sections after its records are
/// where they are without these. `None` where not all of them are after the records.
pub fn frame_of(
    header: &Header,
    before: Vec<u8>,
    after: &[u8],
) -> Result<Option<Vec<u8>>, AllocError>
    ensures { IfOk result (λ frame. option_map (λ bytes. bytes.items) frame ≡ frame_of header.now (before.items ++ after.now)) }
{
    let mut frame = before;
    frame.extend_from_slice(after)?;
    if move_sections(frame.as_mut_slice(), header) {
        Ok(Some(frame))
    } else {
        Ok(None)
    }
}

/// Moves the sections after the records of a recording to where they are without its records. Returns whether all of them are
/// after the records.
fn move_sections(frame: &mut [u8], header: &Header) -> bool
    ensures { MatchBool result (frame_of header.now frame.old ≡ Some frame.new) (frame_of header.now frame.old ≡ None) }
{
    let mut at = header.records.offset as usize;
    for _section in 0..header.features.count_ones() {
        if !move_section(frame, at, header.records) {
            return false;
        }
        at = at.saturating_add(SECTION_SIZE);
    }
    true
}

/// Moves the section that is told of at an offset to where it is without the records. Returns whether it is after them.
fn move_section(frame: &mut [u8], at: usize, records: Section) -> bool
    ensures { MatchBool result (section_moved records at frame.old ≡ Some frame.new) (section_moved records at frame.old ≡ None) }
{
    let Some((offset, size_at)) = read_u64(frame, at) else {
        return false;
    };
    let end = records.offset.saturating_add(records.size);
    if offset < end || read_u64(frame, size_at).is_none() {
        return false;
    }
    write_u64(frame, at as u64, offset - records.size);
    true
}

/// Returns where the piece is that is read next of the records that are left: 1 MiB of them, or all where they are less.
pub fn piece_of(left: Section) -> Section
    ensures { result ≡ piece_of left }
{
    Section {
        size: left.size.min(PIECE),
        ..left
    }
}

/// Returns where the records are that are left after so many bytes of them.
pub fn left_after(left: Section, taken: u64) -> Section
    ensures { result ≡ left_after left taken }
{
    Section {
        offset: left.offset.saturating_add(taken),
        size: left.size.saturating_sub(taken),
    }
}

/// Returns how many bytes the whole records of a piece take, by the piece's size, whether it is the last, and the refusal at its
/// end. `None` where a record is refused that is not only cut off by the end of the piece.
pub fn size_of_whole_records(
    size: u64,
    is_last: bool,
    refusal: Option<RecordingError>,
) -> Option<u64>
    ensures { result ≡ whole_records size is_last refusal }
{
    match refusal {
        None => Some(size),
        Some(RecordingError::Eof { offset }) if !is_last && offset > 0 => Some(offset),
        Some(_) => None,
    }
}

/// Returns how many bytes the body of a record has, by its header.
pub fn body_size(header: &[u8; RECORD_HEADER_SIZE]) -> usize
    ensures { result ≡ body_size header.now }
{
    let [_, _, _, _, _, _, low, high] = *header;
    usize::from(u16::from_le_bytes([low, high])).saturating_sub(RECORD_HEADER_SIZE)
}
