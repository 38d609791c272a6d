//! The pages of `__unwind_info` (Apple, mach-o/compact_unwind_encoding.h, structs
//! unwind_info_regular_second_level_page_header and .._compressed_..).
ghost use Rattle.std.specs.Prelude.{◌≡◌, ◌+◌, ◌<◌, ◌^◌, None, Ok, Err, IfOk, IfSome, MatchResult};
ghost use Rattle.framehop_macho.specs.UnwindInfo.{page_at, regular_page, compressed_page, in_page, in_regular, in_compressed, page_of, starts_in, Covers};
ghost use Rattle.framehop_macho.specs.Table.{regular_starts, compressed_starts, row_of, IsBefore};

use super::error::CompactReadError;
use super::info::Function;
use super::table::{CompressedEntries, RegularEntries, opcode_at, part, row_of_address};
use framehop_bytes::bytes::{u16_at, u32_at};

const REGULAR: u32 = 2;

const COMPRESSED: u32 = 3;

/// The tables of a page.
#[derive(Clone, Copy)]
pub enum Page<'a> {
    /// Entries of an address and an opcode.
    Regular(&'a [u8]),
    /// Entries of a word each, which has a part of the address and the number of an opcode, and
    /// the opcodes that are the page's own.
    Compressed(&'a [u8], &'a [u8]),
}

impl<'a> Page<'a> {
    /// Reads the page at an offset.
    ///
    /// # Errors
    ///
    /// `Eof` where its header or one of its tables does not lie in the bytes as a whole,
    /// `BadPageKind` where it is neither regular nor compressed.
    #[tactic(auto, unfolding(crate::specs::UnwindInfo::page_at))]
    pub fn parse(bytes: &'a [u8], offset: u32) -> Result<Page<'a>, CompactReadError>
        ensures { MatchResult result
            (λ page. page_at bytes.now offset ≡ Ok (page_of page))
            (λ error. page_at bytes.now offset ≡ Err error) }
    {
        let at = offset as usize;
        if bytes.len() < at + 4 {
            return Err(CompactReadError::Eof);
        }
        let kind = u32_at(bytes, at);
        if kind == REGULAR {
            return parse_regular(bytes, at);
        }
        if kind == COMPRESSED {
            return parse_compressed(bytes, at);
        }
        Err(CompactReadError::BadPageKind)
    }

    /// Returns the function of an address, in a page between the addresses where it and the next
    /// page begin.
    ///
    /// # Errors
    ///
    /// `AddressTooBig` where the function ends above 32 bits, `BadEncodingIndex` where the number
    /// of its opcode is beyond the common opcodes and those of the page.
    pub fn lookup(
        self,
        common_opcodes: &[u8],
        page_address: u32,
        next_page_address: u32,
        address: u32,
    ) -> Result<Option<Function>, CompactReadError>
        ensures covers { IfOk result (λ found. IfSome found (Covers address)) }
        ensures outside { address < next_page_address → result ≡ Ok None
            → IsBefore (starts_in page_address (page_of self.entry)) address }
        ensures exact { result ≡ in_page common_opcodes.now page_address next_page_address address (page_of self.entry) }
    {
        match self {
            Page::Regular(entries) => Ok(lookup_regular(entries, next_page_address, address)),
            Page::Compressed(entries, opcodes) => {
                let entries = CompressedEntries {
                    page_address,
                    bytes: entries,
                };
                lookup_compressed(
                    common_opcodes,
                    &entries,
                    opcodes,
                    next_page_address,
                    address,
                )
            }
        }
    }
}

/// Reads a regular page at an offset.
fn parse_regular(bytes: &[u8], at: usize) -> Result<Page<'_>, CompactReadError>
    requires { at < 2 ^ 32 }
    ensures { MatchResult result
        (λ page. regular_page bytes.now at ≡ Ok (page_of page))
        (λ error. regular_page bytes.now at ≡ Err error) }
{
    if bytes.len() < at + 8 {
        return Err(CompactReadError::Eof);
    }
    let offset = usize::from(u16_at(bytes, at + 4));
    let count = usize::from(u16_at(bytes, at + 6));
    let entries = part(bytes, at + offset, 8 * count)?;
    Ok(Page::Regular(entries))
}

/// Reads a compressed page at an offset.
fn parse_compressed(bytes: &[u8], at: usize) -> Result<Page<'_>, CompactReadError>
    requires { at < 2 ^ 32 }
    ensures { MatchResult result
        (λ page. compressed_page bytes.now at ≡ Ok (page_of page))
        (λ error. compressed_page bytes.now at ≡ Err error) }
{
    if bytes.len() < at + 12 {
        return Err(CompactReadError::Eof);
    }
    let offset = usize::from(u16_at(bytes, at + 4));
    let count = usize::from(u16_at(bytes, at + 6));
    let entries = part(bytes, at + offset, 4 * count)?;
    let offset = usize::from(u16_at(bytes, at + 8));
    let count = usize::from(u16_at(bytes, at + 10));
    let opcodes = part(bytes, at + offset, 4 * count)?;
    Ok(Page::Compressed(entries, opcodes))
}

/// Returns the function of an address among the entries of a regular page.
fn lookup_regular(entries: &[u8], next_page_address: u32, address: u32) -> Option<Function>
    ensures covers { IfSome result (Covers address) }
    ensures outside { address < next_page_address → result ≡ None → IsBefore (regular_starts entries.now) address }
    ensures exact { result ≡ in_regular entries.now next_page_address address (row_of (regular_starts entries.now) address) }
{
    let row = row_of_address(&RegularEntries { bytes: entries }, u64::from(address))?;
    let function = Function {
        start_address: row.start as u32,
        end_address: row.next.unwrap_or(u64::from(next_page_address)) as u32,
        opcode: u32_at(entries, 8 * row.index + 4),
    };
    if address < function.end_address {
        Some(function)
    } else {
        None
    }
}

/// Returns the function of an address among the entries of a compressed page.
fn lookup_compressed(
    common_opcodes: &[u8],
    entries: &CompressedEntries<'_>,
    opcodes: &[u8],
    next_page_address: u32,
    address: u32,
) -> Result<Option<Function>, CompactReadError>
    ensures covers { IfOk result (λ found. IfSome found (Covers address)) }
    ensures outside { address < next_page_address → result ≡ Ok None
        → IsBefore (compressed_starts entries.now.page_address entries.now.bytes.now) address }
    ensures exact { result ≡ in_compressed common_opcodes.now entries.now.bytes.now opcodes.now next_page_address address
        (row_of (compressed_starts entries.now.page_address entries.now.bytes.now) address) }
{
    let Some(row) = row_of_address(entries, u64::from(address)) else {
        return Ok(None);
    };
    let end = row.next.unwrap_or(u64::from(next_page_address));
    let end_address = u32::try_from(end).map_err(|_| CompactReadError::AddressTooBig)?;
    if end_address <= address {
        return Ok(None);
    }
    let number = u32_at(entries.bytes, 4 * row.index) >> 24;
    Ok(Some(Function {
        start_address: row.start as u32,
        end_address,
        opcode: opcode_at(common_opcodes, opcodes, number as usize)?,
    }))
}
