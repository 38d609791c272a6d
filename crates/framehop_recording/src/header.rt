//! The header of a recording.
ghost use Rattle.std.specs.Prelude.{◌≡◌, ◌<◌};
ghost use Rattle.framehop_recording.specs.Header.{number_at, section_at, features_at, fields_at, header_at, feature_section};

use crate::bytes::{read_block, read_u64};
use crate::error::RecordingError;

/// "PERFILE2" as a little-endian number.
const MAGIC: u64 = 0x32454c4946524550;

/// The same on a machine of the other byte order.
const SWAPPED_MAGIC: u64 = 0x50455246494c4532;

/// The size of the header of a file.
const HEADER_SIZE: u64 = 104;

/// The size of the header of a file of the old format, which has no features.
const OLD_HEADER_SIZE: u64 = 72;

/// The size of the header that is written to a pipe.
const PIPE_HEADER_SIZE: u64 = 16;

/// Where a part of the file lies: `perf_file_section`.
#[derive(Clone, Copy, PartialEq, Eq)]
pub struct Section {
    /// In bytes from the start of the file.
    pub offset: u64,
    /// In bytes.
    pub size: u64,
}

/// The header of a recording: `perf_header`.
#[derive(Clone, Copy)]
pub struct Header {
    /// The size of an entry of the section `attributes`, in bytes.
    pub attribute_size: u64,
    /// The attributes of the events.
    pub attributes: Section,
    /// The records.
    pub records: Section,
    /// Which of the features 0 to 63 have a section after the records.
    pub features: u64,
}

/// Reads the header of a recording, from the bytes of its file.
///
/// # Errors
///
/// - `NotARecording` and `BigEndian` by the first eight bytes;
/// - `Piped` where the header is that of a pipe, and `BadHeaderSize` where it has another size than that
///   of a file, 104 bytes, or 72 in the old format, which has no features;
/// - `Unfinished` where the size of the records is 0: it is written when the recording ends;
/// - `Eof` where the file ends before a field.
///
/// Source: Linux, `tools/perf/Documentation/perf.data-file-format.txt`, `perf_header`;
/// `tools/perf/util/header.c`, `perf_file_header__read` and `perf_session__read_header`.
#[tactic(auto, unfolding(crate::specs::Header::header_at))]
pub fn read_header(file: &[u8]) -> Result<Header, RecordingError>
    ensures { result ≡ header_at file.now }
{
    let (magic, _) = read_number(file, 0)?;
    match magic {
        MAGIC => read_fields(file),
        SWAPPED_MAGIC => Err(RecordingError::BigEndian { offset: 0 }),
        _ => Err(RecordingError::NotARecording { offset: 0 }),
    }
}

/// Reads the fields from `size` on.
#[tactic(auto, unfolding(crate::specs::Header::fields_at))]
fn read_fields(file: &[u8]) -> Result<Header, RecordingError>
    ensures { result ≡ fields_at file.now }
{
    let (size, _) = read_number(file, 8)?;
    let features = read_features(file, size)?;
    let (attribute_size, _) = read_number(file, 16)?;
    let (attributes, _) = read_section(file, 24)?;
    let (records, _) = read_section(file, 40)?;
    let (_event_types, _) = read_section(file, 56)?;
    if records.size == 0 {
        return Err(RecordingError::Unfinished { offset: 48 });
    }
    Ok(Header {
        attribute_size,
        attributes,
        records,
        features,
    })
}

/// Reads which features have a section, where the header has a size.
#[tactic(auto, unfolding(crate::specs::Header::features_at))]
fn read_features(file: &[u8], size: u64) -> Result<u64, RecordingError>
    ensures { result ≡ features_at file.now size }
{
    match size {
        PIPE_HEADER_SIZE => Err(RecordingError::Piped { offset: 8 }),
        OLD_HEADER_SIZE => Ok(0),
        HEADER_SIZE => {
            let (features, _) = read_number(file, 72)?;
            Ok(features)
        }
        _ => Err(RecordingError::BadHeaderSize { offset: 8 }),
    }
}

/// Returns where the section of a feature lies, by its bit, if the file has it.
#[tactic(auto, unfolding(crate::specs::Header::feature_section))]
pub(crate) fn feature_section(
    file: &[u8],
    header: &Header,
    bit: u64,
) -> Result<Option<Section>, RecordingError>
    requires { 0 < bit }
    ensures { result ≡ feature_section file.now header.now bit }
{
    if header.features & bit == 0 {
        return Ok(None);
    }
    let records = header.records;
    let short = RecordingError::Eof {
        offset: records.offset,
    };
    let (_, end) = read_block(file, records.offset, records.size, short)?;
    let before = (header.features & (bit - 1)).count_ones() as usize;
    let (section, _) = read_section(file, end + 16 * before)?;
    Ok(Some(section))
}

/// Reads where a section lies.
#[tactic(auto, unfolding(crate::specs::Header::section_at))]
pub(crate) fn read_section(file: &[u8], at: usize) -> Result<(Section, usize), RecordingError>
    ensures { result ≡ section_at file.now at }
{
    let (offset, at) = read_number(file, at)?;
    let (size, at) = read_number(file, at)?;
    Ok((Section { offset, size }, at))
}

/// Reads a number of the file.
#[inline]
fn read_number(file: &[u8], at: usize) -> Result<(u64, usize), RecordingError>
    ensures { result ≡ number_at file.now at }
{
    read_u64(file, at, RecordingError::Eof { offset: at as u64 })
}
