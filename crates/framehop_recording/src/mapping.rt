//! Mappings of files into processes.
ghost use Rattle.std.specs.Prelude.{◌≡◌, Ok, Err, MatchResult};
ghost use Rattle.framehop_recording.specs.Records.{record_view};
ghost use Rattle.framehop_recording.specs.Mapping.{build_id_at, mapping_fields, mapping_at, mapping_view};

use crate::bytes::{read_block, read_u32, read_u64};
use crate::error::RecordingError;
use crate::kind::{MMAP, MMAP2};
use crate::records::Record;
use framehop_bytes::bytes::{back, front};
use framehop_bytes::string::before_nul;

/// PERF_RECORD_MISC_MMAP_DATA.
const MMAP_DATA: u16 = 0x2000;

/// PERF_RECORD_MISC_MMAP_BUILD_ID.
const MMAP_BUILD_ID: u16 = 0x4000;

/// A file that a process has mapped.
#[derive(Clone, Copy, Drop)]
pub struct Mapping<'a> {
    /// The process.
    pub pid: u32,
    /// The first address (AVMA).
    pub start: u64,
    /// In bytes.
    pub size: u64,
    /// Where the mapping begins in the file, in bytes.
    pub offset: u64,
    /// Whether the mapping is executable.
    pub is_executable: bool,
    /// The file's build id, or no bytes where the record has none.
    pub build_id: &'a [u8],
    /// The file's name, without the 0 after it.
    pub name: &'a [u8],
}

/// Reads a mapping from its record.
///
/// # Errors
///
/// `OtherKind` where the record is no PERF_RECORD_MMAP and no PERF_RECORD_MMAP2, and `ShortRecord`.
///
/// Source: Linux, `include/uapi/linux/perf_event.h`, PERF_RECORD_MMAP and PERF_RECORD_MMAP2.
#[tactic(auto, unfolding(crate::specs::Mapping::mapping_at))]
pub fn read_mapping<'a>(record: Record<'a>) -> Result<Mapping<'a>, RecordingError>
    ensures exact { MatchResult result
        (λ mapping. mapping_at (record_view «record».entry) ≡ Ok (mapping_view mapping))
        (λ error. mapping_at (record_view «record».entry) ≡ Err error) }
{
    match record.kind {
        MMAP => read_fields(record, 32, &[]),
        MMAP2 => {
            let build_id = read_build_id(record)?;
            read_fields(record, 64, build_id)
        }
        _ => Err(RecordingError::OtherKind {
            offset: record.offset,
        }),
    }
}

/// Reads the fields of a mapping whose name is at an offset of the record's body.
#[tactic(auto, unfolding(crate::specs::Mapping::mapping_fields))]
fn read_fields<'a>(
    record: Record<'a>,
    name_at: u64,
    build_id: &'a [u8],
) -> Result<Mapping<'a>, RecordingError>
    ensures exact { MatchResult result
        (λ mapping. mapping_fields (record_view «record».entry) name_at build_id.entry.now ≡ Ok (mapping_view mapping))
        (λ error. mapping_fields (record_view «record».entry) name_at build_id.entry.now ≡ Err error) }
{
    let short = RecordingError::ShortRecord {
        offset: record.offset,
    };
    let (pid, _) = read_u32(record.body, 0, short)?;
    let (start, _) = read_u64(record.body, 8, short)?;
    let (size, _) = read_u64(record.body, 16, short)?;
    let (offset, _) = read_u64(record.body, 24, short)?;
    let (_, end) = read_block(record.body, 0, name_at, short)?;
    let name = before_nul(back(record.body, end as u64));
    Ok(Mapping {
        pid,
        start,
        size,
        offset,
        is_executable: record.misc & MMAP_DATA == 0,
        build_id,
        name,
    })
}

/// Returns the build id of a PERF_RECORD_MMAP2.
#[tactic(auto, unfolding(crate::specs::Mapping::build_id_at))]
fn read_build_id<'a>(record: Record<'a>) -> Result<&'a [u8], RecordingError>
    ensures exact { MatchResult result
        (λ build_id. build_id_at (record_view «record».entry) ≡ Ok build_id.now)
        (λ error. build_id_at (record_view «record».entry) ≡ Err error) }
{
    if record.misc & MMAP_BUILD_ID == 0 {
        return Ok(&[]);
    }
    let short = RecordingError::ShortRecord {
        offset: record.offset,
    };
    let (size, _) = read_u32(record.body, 32, short)?;
    Ok(front(front(back(record.body, 36), 20), (size % 256) as usize))
}
