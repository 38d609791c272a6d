//! The records of a recording, one after another.
ghost use Rattle.std.specs.Prelude.{◌≡◌, ◌+◌, ◌^◌, ◌<◌, ◌≤◌, IfOk, IfErr, MatchResult, Ok, Err, length};
ghost use Rattle.framehop_recording.specs.Records.{trailing_of, sized_record_at, record_at, record_view, refusal_at_end, run_in, run_of, run_view};

use crate::bytes::{read_block, read_u16, read_u32, read_u64};
use crate::error::RecordingError;
use crate::header::Section;
use crate::kind::{AUXTRACE, COMPRESSED, COMPRESSED2};
use framehop_bytes::bytes::{back, front};
use std::alloc::Global;

/// A record: `perf_event_header`, and what is after it.
#[derive(Clone, Copy, Drop)]
pub struct Record<'a> {
    /// Where it is, in bytes from the start of the file.
    pub offset: u64,
    /// Its `type`, of which [`crate::kind`] has those that are read.
    pub kind: u32,
    /// Its flags.
    pub misc: u16,
    /// What is after its header of eight bytes.
    pub body: &'a [u8],
}

/// The records up to the first that can't be read.
#[derive(Drop)]
pub struct Recorded<'a> {
    /// In the order of the file.
    pub records: Vec<Record<'a>>,
    /// Why the next one can't be read, or `None` where these are all.
    pub refusal: Option<RecordingError>,
}

/// Reads the records of a section of the file, up to the first that can't be read. Of each only the
/// header is read.
///
/// # Errors
///
/// `OutOfMemory`. The field `refusal` has the refusal of a record: `Eof` where the file or the section
/// ends before the record does, `BadRecordSize`, and `Compressed`.
///
/// Source: Linux, `include/uapi/linux/perf_event.h`, `perf_event_header`;
/// `perf.data-file-format.txt`, PERF_RECORD_AUXTRACE and PERF_RECORD_COMPRESSED;
/// `tools/lib/perf/include/perf/event.h`, PERF_RECORD_COMPRESSED2.
pub fn read_records<'a>(
    alloc: Global,
    file: &'a [u8],
    section: Section,
) -> Result<Recorded<'a>, RecordingError>
    ensures refused { IfErr result (λ error. error ≡ RecordingError.OutOfMemory) }
    ensures exact { IfOk result (λ read. run_view read ≡ run_of file.entry.now section) }
{
    let offset = section.offset;
    if offset > file.len() as u64 {
        return Ok(Recorded {
            records: Vec::new(alloc),
            refusal: Some(RecordingError::Eof { offset }),
        });
    }
    let bytes = front(back(file, offset), section.size as usize);
    let is_cut = (bytes.len() as u64) < section.size;
    read_run(alloc, is_cut, offset, bytes)
}

/// Reads the records in bytes, which are at an offset of the file, and of which some may be cut off.
fn read_run<'a>(
    alloc: Global,
    is_cut: bool,
    start: u64,
    bytes: &'a [u8],
) -> Result<Recorded<'a>, RecordingError>
    requires { start + length bytes.now < 2 ^ 64 }
    ensures refused { IfErr result (λ error. error ≡ RecordingError.OutOfMemory) }
    ensures exact { IfOk result (λ read. run_view read ≡ run_in is_cut 0 start bytes.entry.now) }
{
    let mut records = Vec::new(alloc);
    let mut offset = start;
    let mut rest = bytes;
    while !rest.is_empty() {
        match read_record(offset, rest) {
            Ok((record, size)) => {
                records.push(record)?;
                offset += size as u64;
                rest = back(rest, size as u64);
            }
            Err(error) => {
                let refusal = Some(error);
                return Ok(Recorded { records, refusal });
            }
        }
    }
    let refusal = refusal_at_end(is_cut, offset);
    Ok(Recorded { records, refusal })
}

/// Returns the record at the front of the bytes, which are at an offset of the file, and how many
/// bytes it takes.
#[tactic(auto, unfolding(crate::specs::Records::record_at))]
fn read_record<'a>(offset: u64, bytes: &'a [u8]) -> Result<(Record<'a>, usize), RecordingError>
    ensures exact { MatchResult result
        (λ read. record_at offset bytes.entry.now ≡ Ok (record_view read.0, read.1))
        (λ error. record_at offset bytes.entry.now ≡ Err error) }
    ensures within { IfOk result (λ read. (0 < read.1) × (read.1 ≤ length bytes.entry.now)) }
{
    let eof = RecordingError::Eof { offset };
    let (kind, _) = read_u32(bytes, 0, eof)?;
    let (misc, _) = read_u16(bytes, 4, eof)?;
    let (size, _) = read_u16(bytes, 6, eof)?;
    read_sized_record(offset, bytes, kind, misc, size)
}

/// Returns the record of a kind and a size at the front of the bytes, and how many bytes it takes.
#[tactic(auto, unfolding(crate::specs::Records::sized_record_at))]
fn read_sized_record<'a>(
    offset: u64,
    bytes: &'a [u8],
    kind: u32,
    misc: u16,
    size: u16,
) -> Result<(Record<'a>, usize), RecordingError>
    ensures exact { MatchResult result
        (λ read. sized_record_at offset bytes.entry.now kind misc size ≡ Ok (record_view read.0, read.1))
        (λ error. sized_record_at offset bytes.entry.now kind misc size ≡ Err error) }
    ensures within { IfOk result (λ read. (0 < read.1) × (read.1 ≤ length bytes.entry.now)) }
{
    if size < 8 {
        return Err(RecordingError::BadRecordSize { offset });
    }
    let eof = RecordingError::Eof { offset };
    let size = u64::from(size);
    let (whole, _) = read_block(bytes, 0, size, eof)?;
    if kind == COMPRESSED || kind == COMPRESSED2 {
        return Err(RecordingError::Compressed { offset });
    }
    let trailing = trailing_size(offset, kind, whole)?;
    let (_, end) = read_block(bytes, size, trailing, eof)?;
    let body = back(whole, 8);
    let record = Record {
        offset,
        kind,
        misc,
        body,
    };
    Ok((record, end))
}

/// Returns how many bytes after a record belong to it.
#[tactic(auto, unfolding(crate::specs::Records::trailing_of))]
fn trailing_size(offset: u64, kind: u32, whole: &[u8]) -> Result<u64, RecordingError>
    ensures { result ≡ trailing_of offset kind whole.now }
{
    if kind != AUXTRACE {
        return Ok(0);
    }
    let (trailing, _) = read_u64(whole, 8, RecordingError::BadRecordSize { offset })?;
    Ok(trailing)
}

/// Returns the refusal after the last record, if more were to follow.
fn refusal_at_end(is_cut: bool, offset: u64) -> Option<RecordingError>
    ensures { result ≡ refusal_at_end is_cut offset }
{
    if is_cut {
        Some(RecordingError::Eof { offset })
    } else {
        None
    }
}
