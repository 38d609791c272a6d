//! The section headers of a file.
ghost use Rattle.std.specs.Prelude.{◌≡◌, Ok, Err, MatchResult, IfOk, map};
ghost use Rattle.framehop_object.specs.Pe.Block.{IsErrorOf};
ghost use Rattle.framehop_object.specs.Pe.SectionHeader.{section_header_of, section_entries_of, section_headers_of};

use crate::pe::block::read_block;
use crate::pe::error::PeError;
use crate::pe::header::FileHeader;
use framehop_bytes::bytes::u32_at;
use std::alloc::{AllocError, Global};

/// The size of a section header, in bytes.
const ENTRY_SIZE: usize = 40;

/// A section header: `IMAGE_SECTION_HEADER`.
#[derive(Clone, Copy, PartialEq, Eq)]
pub struct SectionHeader {
    /// Its name, filled up with zeros: `Name`.
    pub name: [u8; 8],
    /// Its size in memory, in bytes: `VirtualSize`.
    pub virtual_size: u32,
    /// Its first address (RVA): `VirtualAddress`.
    pub virtual_address: u32,
    /// Its size in the file, in bytes, padding counted: `SizeOfRawData`.
    pub size_of_raw_data: u32,
    /// Where it begins in the file, in bytes, or 0 where it has no bytes there: `PointerToRawData`.
    pub pointer_to_raw_data: u32,
    /// Its attributes, as bits: `Characteristics`.
    pub characteristics: u32,
}

/// Reads the section headers of a file, in its order.
///
/// # Errors
///
/// `Eof` where the file ends before they do, else `OutOfMemory`.
///
/// Source: Microsoft, "PE Format", "Section Table (Section Headers)".
#[tactic(auto, unfolding(crate::specs::Pe::SectionHeader::section_headers_of))]
pub fn read_section_headers(
    alloc: Global,
    file: &[u8],
    header: FileHeader,
) -> Result<Vec<SectionHeader>, PeError>
    ensures { MatchResult result
        (λ headers. section_headers_of file.now header ≡ Ok headers.items)
        (λ error. IsErrorOf (section_headers_of file.now header) error) }
{
    let entries = section_entries(file, header)?;
    Ok(section_headers(alloc, entries)?)
}

/// Returns the entries of the section table.
#[tactic(auto, unfolding(crate::specs::Pe::SectionHeader::section_entries_of))]
fn section_entries(file: &[u8], header: FileHeader) -> Result<&[[u8; ENTRY_SIZE]], PeError>
    ensures { MatchResult result
        (λ entries. section_entries_of file.entry.now header ≡ Ok entries.now)
        (λ error. section_entries_of file.entry.now header ≡ Err error) }
{
    let size = ENTRY_SIZE as u64 * u64::from(header.number_of_sections);
    let block = read_block(file, header.section_table, size)?;
    let (entries, _) = block.as_chunks::<ENTRY_SIZE>();
    Ok(entries)
}

/// Returns the section headers that have these bytes.
fn section_headers(
    alloc: Global,
    entries: &[[u8; ENTRY_SIZE]],
) -> Result<Vec<SectionHeader>, AllocError>
    ensures { IfOk result (λ headers. headers.items ≡ map section_header_of entries.now) }
{
    entries
        .iter()
        .map(|entry| section_header(entry))
        .collect(alloc)
}

/// Returns the section header of an entry.
fn section_header(entry: &[u8; ENTRY_SIZE]) -> SectionHeader
    ensures { result ≡ section_header_of entry.now }
{
    SectionHeader {
        name: *entry.first_chunk::<8>().unwrap(),
        virtual_size: u32_at(entry, 8),
        virtual_address: u32_at(entry, 12),
        size_of_raw_data: u32_at(entry, 16),
        pointer_to_raw_data: u32_at(entry, 20),
        characteristics: u32_at(entry, 36),
    }
}
