//! The program headers of a file.
ghost use Rattle.std.specs.Prelude.{◌≡◌, ◌≤◌, Ok, Err, MatchResult, IfOk, length, map};
ghost use Rattle.framehop_object.specs.Elf.Block.{table_at, IsErrorOf};
ghost use Rattle.framehop_object.specs.Elf.ProgramHeader.{program_header_of, segment_count_of, segments_of, program_headers_of};

use crate::elf::block::read_table_block;
use crate::elf::error::ElfError;
use crate::elf::header::FileHeader;
use crate::elf::section_header::read_first_section;
use framehop_bytes::bytes::{u32_at, u64_at};
use std::alloc::{AllocError, Global};

/// `PT_NOTE`: a segment of notes.
pub const PT_NOTE: u32 = 4;

/// The value of `e_phnum` of a file that has as many segments or more.
const PN_XNUM: u16 = 0xffff;

/// The size of a program header, in bytes.
pub const ENTRY_SIZE: usize = 56;

/// A program header: `Elf64_Phdr`.
#[derive(Clone, Copy, PartialEq, Eq)]
pub struct ProgramHeader {
    /// What the segment is.
    pub p_type: u32,
    /// Whether it can be executed, written and read, as bits.
    pub p_flags: u32,
    /// Where it begins in the file, in bytes.
    pub p_offset: u64,
    /// Its first address (SVMA).
    pub p_vaddr: u64,
    /// Its first physical address.
    pub p_paddr: u64,
    /// Its size in the file, in bytes.
    pub p_filesz: u64,
    /// Its size in memory, in bytes.
    pub p_memsz: u64,
    /// The alignment of its address, in bytes.
    pub p_align: u64,
}

/// Reads the program headers of a file.
///
/// # Errors
///
/// - `Eof` where the file ends before the table does, or before the first section header does, which
///   has their number where `e_phnum` is `PN_XNUM`;
/// - `NoSuchSection` where `e_phnum` is `PN_XNUM`, and the file has no section headers;
/// - `BadEntrySize` where there are some, and `e_phentsize` is not the size of `Elf64_Phdr`;
/// - `OutOfMemory`.
///
/// Source: System V gABI, chapter 5, "Program Header".
#[tactic(auto, unfolding(crate::specs::Elf::ProgramHeader::program_headers_of))]
pub fn read_program_headers(
    alloc: Global,
    file: &[u8],
    header: FileHeader,
) -> Result<Vec<ProgramHeader>, ElfError>
    ensures { MatchResult result
        (λ headers. program_headers_of file.now header ≡ Ok headers.items)
        (λ error. IsErrorOf (program_headers_of file.now header) error) }
{
    let count = segment_count(file, header)?;
    let entries = segment_entries(file, header, count)?;
    Ok(program_headers(alloc, entries)?)
}

/// Returns how many segments there are.
#[tactic(auto, unfolding(crate::specs::Elf::ProgramHeader::segment_count_of))]
fn segment_count(file: &[u8], header: FileHeader) -> Result<u64, ElfError>
    ensures { result ≡ segment_count_of file.now header }
{
    if header.e_phoff == 0 {
        return Ok(0);
    }
    if header.e_phnum != PN_XNUM {
        return Ok(u64::from(header.e_phnum));
    }
    let first = read_first_section(file, header)?;
    Ok(u64::from(first.sh_info))
}

/// Returns the bytes of the program headers.
#[tactic(auto, unfolding(crate::specs::Elf::ProgramHeader::segments_of, crate::specs::Elf::Block::table_at))]
fn segment_entries<'a>(
    file: &'a [u8],
    header: FileHeader,
    count: u64,
) -> Result<&'a [[u8; ENTRY_SIZE]], ElfError>
    ensures { MatchResult result
        (λ entries. segments_of file.entry.now header count ≡ Ok (map program_header_of entries.now))
        (λ error. segments_of file.entry.now header count ≡ Err error) }
{
    if count != 0 && usize::from(header.e_phentsize) != ENTRY_SIZE {
        return Err(ElfError::BadEntrySize { offset: 54 });
    }
    let block = read_table_block(file, header.e_phoff, count, ENTRY_SIZE as u64)?;
    let (entries, _) = block.as_chunks::<ENTRY_SIZE>();
    Ok(entries)
}

/// Returns the program headers that have these bytes.
fn program_headers(
    alloc: Global,
    entries: &[[u8; ENTRY_SIZE]],
) -> Result<Vec<ProgramHeader>, AllocError>
    ensures { IfOk result (λ headers. headers.items ≡ map program_header_of entries.now) }
{
    entries
        .iter()
        .map(|entry| program_header(entry))
        .collect(alloc)
}

/// Returns the program header at the front of the bytes.
fn program_header(entry: &[u8]) -> ProgramHeader
    requires { 56 ≤ length entry.now }
    ensures { result ≡ program_header_of entry.now }
{
    ProgramHeader {
        p_type: u32_at(entry, 0),
        p_flags: u32_at(entry, 4),
        p_offset: u64_at(entry, 8),
        p_vaddr: u64_at(entry, 16),
        p_paddr: u64_at(entry, 24),
        p_filesz: u64_at(entry, 32),
        p_memsz: u64_at(entry, 40),
        p_align: u64_at(entry, 48),
    }
}
