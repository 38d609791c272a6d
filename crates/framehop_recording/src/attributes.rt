//! The events of a recording, by their attributes.
ghost use Rattle.std.specs.Prelude.{◌≡◌, ◌+◌, ◌^◌, ◌<◌, ◌≤◌, ◌⊎◌, Ok, Err, IfOk, IsOk, MatchResult, map};
ghost use Rattle.framehop_recording.specs.Bytes.{offsets, each_of, IsErrorOf};
ghost use Rattle.framehop_recording.specs.Attributes.{attribute_in, attribute_at, attributes_of, attribute_view};

use crate::bytes::{read_block, read_u32, read_u64};
use crate::error::RecordingError;
use crate::header::Header;
use std::alloc::Global;

/// The least size of an entry: an attribute with user registers and a user stack, and a section.
const ENTRY_SIZE: u64 = 112;

/// The size of the section after an attribute, `perf_file_section`.
const SECTION_SIZE: u64 = 16;

/// `sample_id_all` among the flags of an attribute.
const SAMPLE_ID_ALL: u64 = 0x40000;

/// An event that was recorded: `perf_event_attr`.
#[derive(Clone, Copy, Drop)]
pub struct Attribute<'a> {
    /// Which fields its samples have, as bits.
    pub sample_type: u64,
    /// Whether records that are no samples end with thread, time and id.
    pub sample_id_all: bool,
    /// Which user registers its samples have, as bits.
    pub sample_regs_user: u64,
    /// The ids by which records name it, of eight bytes each.
    pub ids: &'a [u8],
}

/// Reads the attributes of the events of a recording, in the order of the file.
///
/// # Errors
///
/// `ShortAttribute` where the header's entries have no user registers, and those of [`read_attribute`];
/// else `OutOfMemory`.
///
/// Source: Linux, `perf.data-file-format.txt`, `perf_header` and `perf_file_attr`.
#[tactic(auto, unfolding(crate::specs::Attributes::attributes_of))]
pub(crate) fn read_attributes<'a>(
    alloc: Global,
    file: &'a [u8],
    header: &Header,
) -> Result<Vec<Attribute<'a>>, RecordingError>
    ensures exact { MatchResult result
        (λ attributes. attributes_of file.entry.now header.now ≡ Ok (map attribute_view attributes.items))
        (λ error. IsErrorOf (attributes_of file.entry.now header.now) error) }
{
    let size = header.attribute_size;
    let offset = header.attributes.offset;
    if size < ENTRY_SIZE {
        return Err(RecordingError::ShortAttribute { offset });
    }
    let count = header.attributes.size / size;
    check_entries(file, offset, size, count)?;
    let attributes = read_entries(alloc, file, offset, size, count)?;
    Ok(attributes)
}

/// Returns whether so many attributes can be read, whose entries have a size, in bytes, and lie one after
/// another from an offset of the file on.
fn check_entries(file: &[u8], start: u64, size: u64, count: u64) -> Result<(), RecordingError>
    ensures { MatchResult result
        (λ _. IsOk (each_of (λ at. attribute_at file.now at size) (offsets start size count)))
        (λ error. each_of (λ at. attribute_at file.now at size) (offsets start size count) ≡ Err error) }
{
    let mut at = start;
    let mut left = count;
    while left > 0 {
        read_attribute(file, at, size)?;
        at += size;
        left -= 1;
    }
    Ok(())
}

/// Reads so many attributes, whose entries have a size, in bytes, and lie one after another from an
/// offset of the file on.
fn read_entries<'a>(
    alloc: Global,
    file: &'a [u8],
    start: u64,
    size: u64,
    count: u64,
) -> Result<Vec<Attribute<'a>>, RecordingError>
    ensures exact { MatchResult result
        (λ attributes. each_of (λ at. attribute_at file.entry.now at size) (offsets start size count) ≡ Ok (map attribute_view attributes.items))
        (λ error. (error ≡ RecordingError.OutOfMemory)
        ⊎ (each_of (λ at. attribute_at file.entry.now at size) (offsets start size count) ≡ Err error)) }
{
    let mut attributes = Vec::new(alloc);
    let mut at = start;
    let mut left = count;
    while left > 0 {
        let attribute = read_attribute(file, at, size)?;
        attributes.push(attribute)?;
        at += size;
        left -= 1;
    }
    Ok(attributes)
}

/// Reads the attribute whose entry lies at an offset of the file and has a size, in bytes.
///
/// # Errors
///
/// - `ShortAttribute` where the entry has no user registers;
/// - `BadAttributeSize` where the attribute's own size, with the 16 bytes after it, is not that size;
/// - `Eof` where the file ends before the entry or its ids do.
///
/// Source: Linux, `perf.data-file-format.txt`, `perf_file_attr`; `include/uapi/linux/perf_event.h`,
/// `perf_event_attr`; `tools/perf/util/header.c`, `read_attr`.
#[tactic(auto, unfolding(crate::specs::Attributes::attribute_at))]
fn read_attribute<'a>(file: &'a [u8], at: u64, size: u64) -> Result<Attribute<'a>, RecordingError>
    ensures exact { MatchResult result
        (λ attribute. attribute_at file.entry.now at size ≡ Ok (attribute_view attribute))
        (λ error. attribute_at file.entry.now at size ≡ Err error) }
    ensures within { IfOk result (λ _. at + size < 2 ^ 64) }
{
    if size < ENTRY_SIZE {
        return Err(RecordingError::ShortAttribute { offset: at });
    }
    let short = RecordingError::Eof { offset: at };
    let (entry, _) = read_block(file, at, size, short)?;
    let (own_size, _) = read_u32(entry, 4, short)?;
    if u64::from(own_size) + SECTION_SIZE != size {
        return Err(RecordingError::BadAttributeSize { offset: at });
    }
    let attribute = read_fields(file, at, size, entry)?;
    Ok(attribute)
}

/// Reads the fields of an attribute, whose entry has these bytes and lies at an offset of the file.
#[tactic(auto, unfolding(crate::specs::Attributes::attribute_in))]
fn read_fields<'a>(
    file: &'a [u8],
    at: u64,
    size: u64,
    entry: &[u8],
) -> Result<Attribute<'a>, RecordingError>
    requires { 112 ≤ size }
    ensures exact { MatchResult result
        (λ attribute. attribute_in file.entry.now at size entry.now ≡ Ok (attribute_view attribute))
        (λ error. attribute_in file.entry.now at size entry.now ≡ Err error) }
{
    let short = RecordingError::Eof { offset: at };
    let (sample_type, _) = read_u64(entry, 24, short)?;
    let (flags, _) = read_u64(entry, 40, short)?;
    let (sample_regs_user, _) = read_u64(entry, 80, short)?;
    let (ids_offset, _) = read_u64(entry, (size - 16) as usize, short)?;
    let (ids_size, _) = read_u64(entry, (size - 8) as usize, short)?;
    let beyond = RecordingError::Eof { offset: ids_offset };
    let (ids, _) = read_block(file, ids_offset, ids_size, beyond)?;
    Ok(Attribute {
        sample_type,
        sample_id_all: flags & SAMPLE_ID_ALL != 0,
        sample_regs_user,
        ids,
    })
}
