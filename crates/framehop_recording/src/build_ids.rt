//! The build ids of the files that were mapped, after the records.
ghost use Rattle.std.specs.Prelude.{◌≡◌, ◌⊎◌, None, Ok, Err, IsOk, MatchResult, map};
ghost use Rattle.framehop_recording.specs.declared.error.RecordingError.{RecordingError};
ghost use Rattle.framehop_recording.specs.Bytes.{each_of};
ghost use Rattle.framehop_recording.specs.Records.{record_view};
ghost use Rattle.framehop_recording.specs.BuildIds.{build_ids_section, file_build_id_at, file_build_id_view, build_ids_at, build_ids_of};

use crate::bytes::read_u32;
use crate::error::RecordingError;
use crate::header::{Header, Section, feature_section};
use crate::records::{Record, read_records};
use framehop_bytes::bytes::{back, front};
use framehop_bytes::string::before_nul;
use std::alloc::Global;

/// HEADER_BUILD_ID among the features of the header.
const BUILD_ID: u64 = 0x4;

/// PERF_RECORD_MISC_BUILD_ID_SIZE.
const BUILD_ID_SIZE: u16 = 0x8000;

/// The build id of a file.
#[derive(Clone, Copy, Drop)]
pub struct FileBuildId<'a> {
    /// Whose kernel the file was mapped by: the process of a virtual machine, or `u32::MAX` (-1) for this
    /// machine.
    pub pid: u32,
    /// At most 20 bytes.
    pub build_id: &'a [u8],
    /// The file's name, without the 0 after it.
    pub name: &'a [u8],
}

/// Reads the build ids of the files that were mapped, in the order of the file. A file may have none.
///
/// # Errors
///
/// `Eof` where the file ends before the records do, or before the section; what refuses a record of the
/// section: `BadRecordSize`, `Compressed` and `ShortRecord`; and, where there is a section, `OutOfMemory`.
///
/// Source: Linux, `perf.data-file-format.txt`, HEADER_BUILD_ID; `tools/lib/perf/include/perf/event.h`,
/// `perf_record_header_build_id`.
#[tactic(auto, unfolding(crate::specs::BuildIds::build_ids_of))]
pub fn read_build_ids<'a>(
    alloc: Global,
    file: &'a [u8],
    header: &Header,
) -> Result<Vec<FileBuildId<'a>>, RecordingError>
    ensures exact { MatchResult result
        (λ build_ids. build_ids_of file.entry.now header.now ≡ Ok (map file_build_id_view build_ids.items))
        (λ error. (error ≡ RecordingError.OutOfMemory) ⊎ (build_ids_of file.entry.now header.now ≡ Err error)) }
    ensures sought { result ≡ Err RecordingError.OutOfMemory → build_ids_section file.entry.now header.now ≡ Ok None → ⊥ }
    ensures placed { (error : RecordingError) → build_ids_section file.entry.now header.now ≡ Err error → result ≡ Err error }
{
    let section = feature_section(file, header, BUILD_ID)?;
    read_build_ids_at(alloc, file, section)
}

/// Reads the build ids of a section.
fn read_build_ids_at<'a>(
    alloc: Global,
    file: &'a [u8],
    section: Option<Section>,
) -> Result<Vec<FileBuildId<'a>>, RecordingError>
    ensures exact { MatchResult result
        (λ build_ids. build_ids_at file.entry.now section ≡ Ok (map file_build_id_view build_ids.items))
        (λ error. (error ≡ RecordingError.OutOfMemory) ⊎ (build_ids_at file.entry.now section ≡ Err error)) }
    ensures sought { section ≡ None → IsOk result }
{
    let Some(section) = section else {
        return Ok(Vec::new(alloc));
    };
    let read = read_records(alloc, file, section)?;
    if let Some(error) = read.refusal {
        return Err(error);
    }
    read_each(alloc, read.records.as_slice())
}

/// Reads the build id of each of these records.
fn read_each<'a>(
    alloc: Global,
    records: &[Record<'a>],
) -> Result<Vec<FileBuildId<'a>>, RecordingError>
    ensures exact { MatchResult result
        (λ build_ids. each_of file_build_id_at (map record_view records.entry.now) ≡ Ok (map file_build_id_view build_ids.items))
        (λ error. (error ≡ RecordingError.OutOfMemory)
        ⊎ (each_of file_build_id_at (map record_view records.entry.now) ≡ Err error)) }
{
    let mut build_ids = Vec::new(alloc);
    for index in 0..records.len() {
        let build_id = read_file_build_id(records[index])?;
        build_ids.push(build_id)?;
    }
    Ok(build_ids)
}

/// Reads the build id of a file from its record.
#[tactic(auto, unfolding(crate::specs::BuildIds::file_build_id_at))]
fn read_file_build_id<'a>(record: Record<'a>) -> Result<FileBuildId<'a>, RecordingError>
    ensures exact { MatchResult result
        (λ build_id. file_build_id_at (record_view «record».entry) ≡ Ok (file_build_id_view build_id))
        (λ error. file_build_id_at (record_view «record».entry) ≡ Err error) }
{
    let short = RecordingError::ShortRecord {
        offset: record.offset,
    };
    let (pid, _) = read_u32(record.body, 0, short)?;
    let (size, _) = read_u32(record.body, 24, short)?;
    let size = if record.misc & BUILD_ID_SIZE != 0 {
        (size % 256) as usize
    } else {
        20
    };
    Ok(FileBuildId {
        pid,
        build_id: front(front(back(record.body, 4), 20), size),
        name: before_nul(back(record.body, 28)),
    })
}
