//! The names of a recording's events, after the records.
ghost use Rattle.std.specs.Prelude.{◌≡◌, ◌⊎◌, ◌<◌, ◌≤◌, ◌^◌, Ok, Err, IfOk, MatchResult, length, map};
ghost use Rattle.framehop_recording.specs.EventNames.{event_name_at, event_names_from, event_names_in, event_names_at, event_names_of};
ghost use Rattle.framehop_recording.specs.declared.error.RecordingError.{RecordingError};

use crate::bytes::{read_block, read_u32};
use crate::error::RecordingError;
use crate::header::{Header, Section, feature_section};
use framehop_bytes::string::before_nul;
use std::alloc::Global;

/// HEADER_EVENT_DESC among the features of the header.
const EVENT_DESC: u64 = 0x1000;

/// Reads the names of the events of a recording, in the order of the events, as `perf evlist` prints them. A file may have
/// none.
///
/// # Errors
///
/// `Eof` where the file ends before the records do, or before the names; and `OutOfMemory`.
///
/// Source: Linux, `perf.data-file-format.txt`, HEADER_EVENT_DESC.
#[tactic(auto, unfolding(crate::specs::EventNames::event_names_of))]
pub fn read_event_names<'a>(
    alloc: Global,
    file: &'a [u8],
    header: &Header,
) -> Result<Vec<&'a [u8]>, RecordingError>
    ensures exact { MatchResult result
        (λ names. event_names_of file.entry.now header.now ≡ Ok (map (λ name. name.now) names.items))
        (λ error. (error ≡ RecordingError.OutOfMemory) ⊎ (event_names_of file.entry.now header.now ≡ Err error)) }
{
    let section = feature_section(file, header, EVENT_DESC)?;
    read_names_at(alloc, file, section)
}

/// Reads the names of events from their section.
#[tactic(auto, unfolding(crate::specs::EventNames::event_names_at))]
fn read_names_at<'a>(
    alloc: Global,
    file: &'a [u8],
    section: Option<Section>,
) -> Result<Vec<&'a [u8]>, RecordingError>
    ensures exact { MatchResult result
        (λ names. event_names_at file.entry.now section ≡ Ok (map (λ name. name.now) names.items))
        (λ error. (error ≡ RecordingError.OutOfMemory) ⊎ (event_names_at file.entry.now section ≡ Err error)) }
{
    let Some(section) = section else {
        return Ok(Vec::new(alloc));
    };
    let short = RecordingError::Eof {
        offset: section.offset,
    };
    let (bytes, _) = read_block(file, section.offset, section.size, short)?;
    read_names_in(alloc, bytes, short)
}

/// Reads the names of events from the bytes of their section.
#[tactic(auto, unfolding(crate::specs::EventNames::event_names_in, crate::specs::Bytes::u32_at))]
fn read_names_in<'a>(
    alloc: Global,
    bytes: &'a [u8],
    short: RecordingError,
) -> Result<Vec<&'a [u8]>, RecordingError>
    ensures exact { MatchResult result
        (λ names. event_names_in bytes.entry.now short ≡ Ok (map (λ name. name.now) names.items))
        (λ error. (error ≡ RecordingError.OutOfMemory) ⊎ (event_names_in bytes.entry.now short ≡ Err error)) }
{
    let (count, at) = read_u32(bytes, 0, short)?;
    let (size, at) = read_u32(bytes, at, short)?;
    read_names_from(alloc, bytes, size as usize, short, at, count)
}

/// Reads the names of so many events, which lie one after another from an offset of bytes on, by the size of an attribute.
fn read_names_from<'a>(
    alloc: Global,
    bytes: &'a [u8],
    size: usize,
    short: RecordingError,
    start: usize,
    count: u32,
) -> Result<Vec<&'a [u8]>, RecordingError>
    requires within { start ≤ length bytes.now }
    requires small { size < 2 ^ 32 }
    ensures exact { MatchResult result
        (λ names. event_names_from bytes.entry.now size short start count ≡ Ok (map (λ name. name.now) names.items))
        (λ error. (error ≡ RecordingError.OutOfMemory) ⊎ (event_names_from bytes.entry.now size short start count ≡ Err error)) }
{
    let mut names = Vec::new(alloc);
    let mut at = start;
    let mut left = count;
    while left > 0 {
        let (name, next) = read_event_name(bytes, size, at, short)?;
        names.push(name)?;
        at = next;
        left -= 1;
    }
    Ok(names)
}

/// Reads the name of the event at an offset of bytes, by the size of an attribute. Returns it with the offset after the
/// event.
#[tactic(auto, unfolding(crate::specs::EventNames::event_name_at))]
fn read_event_name<'a>(
    bytes: &'a [u8],
    size: usize,
    at: usize,
    short: RecordingError,
) -> Result<(&'a [u8], usize), RecordingError>
    requires within { at ≤ length bytes.now }
    requires small { size < 2 ^ 32 }
    ensures exact { MatchResult result
        (λ read. event_name_at bytes.entry.now size at short ≡ Ok (read.0.now, read.1))
        (λ error. event_name_at bytes.entry.now size at short ≡ Err error) }
    ensures within { IfOk result (λ read. read.1 ≤ length bytes.entry.now) }
{
    let (ids, at) = read_u32(bytes, at + size, short)?;
    let (length, at) = read_u32(bytes, at, short)?;
    let (name, at) = read_block(bytes, at as u64, u64::from(length), short)?;
    let (_, at) = read_block(bytes, at as u64, 8 * u64::from(ids), short)?;
    Ok((before_nul(name), at))
}
