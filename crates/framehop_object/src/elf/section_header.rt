//! The section headers of a file.
ghost use Rattle.std.specs.Prelude.{◌≡◌, ◌≤◌, Ok, Err, MatchResult, IfOk, length, map};
ghost use Rattle.framehop_object.specs.Elf.Block.{table_at, IsErrorOf};
ghost use Rattle.framehop_object.specs.Elf.SectionHeader.{section_header_of, first_section_of, section_count_of, sections_of, section_headers_of};

use crate::elf::block::{read_block, read_table_block};
use crate::elf::error::ElfError;
use crate::elf::header::FileHeader;
use framehop_bytes::bytes::{u32_at, u64_at};
use std::alloc::{AllocError, Global};

/// The size of a section header, in bytes.
pub const ENTRY_SIZE: usize = 64;

/// A section header: `Elf64_Shdr`.
#[derive(Clone, Copy, PartialEq, Eq)]
pub struct SectionHeader {
    /// Where the name begins in the section of names, in bytes.
    pub sh_name: u32,
    /// What the section holds.
    pub sh_type: u32,
    /// Its attributes, as bits.
    pub sh_flags: u64,
    /// Its first address (SVMA), or 0.
    pub sh_addr: u64,
    /// Where it begins in the file, in bytes.
    pub sh_offset: u64,
    /// Its size, in bytes.
    pub sh_size: u64,
    /// The index of a section that belongs to it.
    pub sh_link: u32,
    /// More, by its type.
    pub sh_info: u32,
    /// The alignment of its address, in bytes.
    pub sh_addralign: u64,
    /// The size of each of its entries, in bytes, or 0.
    pub sh_entsize: u64,
}

/// Reads the section headers of a file. The one of index 0 is no section.
///
/// # Errors
///
/// - `Eof` where the file ends before the table does, or before its first entry does, which has their
///   number where the ELF header has not;
/// - `BadEntrySize` where there are some, and `e_shentsize` is not the size of `Elf64_Shdr`;
/// - `OutOfMemory`.
///
/// Source: System V gABI, chapter 4, "Sections".
#[tactic(auto, unfolding(crate::specs::Elf::SectionHeader::section_headers_of))]
pub fn read_section_headers(
    alloc: Global,
    file: &[u8],
    header: FileHeader,
) -> Result<Vec<SectionHeader>, ElfError>
    ensures { MatchResult result
        (λ headers. section_headers_of file.now header ≡ Ok headers.items)
        (λ error. IsErrorOf (section_headers_of file.now header) error) }
{
    let count = section_count(file, header)?;
    let entries = section_entries(file, header, count)?;
    Ok(section_headers(alloc, entries)?)
}

/// Returns how many sections there are.
#[tactic(auto, unfolding(crate::specs::Elf::SectionHeader::section_count_of))]
fn section_count(file: &[u8], header: FileHeader) -> Result<u64, ElfError>
    ensures { result ≡ section_count_of file.now header }
{
    if header.e_shoff == 0 {
        return Ok(0);
    }
    if header.e_shnum != 0 {
        return Ok(u64::from(header.e_shnum));
    }
    let first = read_first_section(file, header)?;
    Ok(first.sh_size)
}

/// Reads the section header of index 0.
#[tactic(auto, unfolding(crate::specs::Elf::SectionHeader::first_section_of))]
pub(crate) fn read_first_section(file: &[u8], header: FileHeader) -> Result<SectionHeader, ElfError>
    ensures { result ≡ first_section_of file.now header }
{
    if header.e_shoff == 0 {
        return Err(ElfError::NoSuchSection { offset: 40 });
    }
    let entry = read_block(file, header.e_shoff, ENTRY_SIZE as u64)?;
    Ok(section_header(entry))
}

/// Returns the bytes of the section headers.
#[tactic(auto, unfolding(crate::specs::Elf::SectionHeader::sections_of, crate::specs::Elf::Block::table_at))]
fn section_entries<'a>(
    file: &'a [u8],
    header: FileHeader,
    count: u64,
) -> Result<&'a [[u8; ENTRY_SIZE]], ElfError>
    ensures { MatchResult result
        (λ entries. sections_of file.entry.now header count ≡ Ok (map section_header_of entries.now))
        (λ error. sections_of file.entry.now header count ≡ Err error) }
{
    if count != 0 && usize::from(header.e_shentsize) != ENTRY_SIZE {
        return Err(ElfError::BadEntrySize { offset: 58 });
    }
    let block = read_table_block(file, header.e_shoff, count, ENTRY_SIZE as u64)?;
    let (entries, _) = block.as_chunks::<ENTRY_SIZE>();
    Ok(entries)
}

/// Returns the section headers that have these bytes.
fn section_headers(
    alloc: Global,
    entries: &[[u8; ENTRY_SIZE]],
) -> Result<Vec<SectionHeader>, AllocError>
    ensures { IfOk result (λ headers. headers.items ≡ map section_header_of entries.now) }
{
    entries
        .iter()
        .map(|entry| section_header(entry))
        .collect(alloc)
}

/// Returns the section header at the front of the bytes.
fn section_header(entry: &[u8]) -> SectionHeader
    requires { 64 ≤ length entry.now }
    ensures { result ≡ section_header_of entry.now }
{
    SectionHeader {
        sh_name: u32_at(entry, 0),
        sh_type: u32_at(entry, 4),
        sh_flags: u64_at(entry, 8),
        sh_addr: u64_at(entry, 16),
        sh_offset: u64_at(entry, 24),
        sh_size: u64_at(entry, 32),
        sh_link: u32_at(entry, 40),
        sh_info: u32_at(entry, 44),
        sh_addralign: u64_at(entry, 48),
        sh_entsize: u64_at(entry, 56),
    }
}
