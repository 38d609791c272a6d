//! The function of an address, by the index of `__unwind_info` and its pages (Apple,
//! mach-o/compact_unwind_encoding.h, struct unwind_info_section_header).
ghost use Rattle.std.specs.Prelude.{◌≡◌, None, Ok, Err, IfOk, IfSome, MatchOption, MatchResult};
ghost use Rattle.framehop_macho.specs.UnwindInfo.{shared_lists_of, in_lists, shared_lists, page_entry_of, IsOutsideIndex, IsInPage, IsOutside, Covers};
ghost use Rattle.framehop_macho.specs.Table.{index_starts};

use super::error::CompactReadError;
use super::page::Page;
use super::table::{IndexEntries, part, row_of_address};
use framehop_bytes::bytes::u32_at;

/// A function that `__unwind_info` describes.
#[derive(Clone, Copy, PartialEq, Eq)]
pub struct Function {
    /// Where it begins, a relative address.
    pub start_address: u32,
    /// Where the next one begins, a relative address.
    pub end_address: u32,
    /// How to unwind from it; what the bits mean depends on the architecture.
    pub opcode: u32,
}

/// The bytes of `__unwind_info`, and in them the lists that all pages share.
#[derive(Clone, Copy)]
pub struct UnwindInfo<'a> {
    pub bytes: &'a [u8],
    pub common_opcodes: &'a [u8],
    pub index: &'a [u8],
}

impl<'a> UnwindInfo<'a> {
    /// Reads the header.
    ///
    /// # Errors
    ///
    /// `Eof` where the header, the common opcodes or the index does not lie in the bytes as a
    /// whole, `BadVersion` where the version is not 1.
    #[tactic(auto, unfolding(crate::specs::UnwindInfo::shared_lists_of))]
    pub fn parse(bytes: &'a [u8]) -> Result<UnwindInfo<'a>, CompactReadError>
        ensures { MatchResult result
            (λ info. (shared_lists_of bytes.now ≡ Ok (shared_lists info)) × (info.bytes.now ≡ bytes.now))
            (λ error. shared_lists_of bytes.now ≡ Err error) }
    {
        if bytes.len() < 28 {
            return Err(CompactReadError::Eof);
        }
        if u32_at(bytes, 0) != 1 {
            return Err(CompactReadError::BadVersion);
        }
        let common_opcodes = part(
            bytes,
            u32_at(bytes, 4) as usize,
            4 * u32_at(bytes, 8) as usize,
        )?;
        let index = part(
            bytes,
            u32_at(bytes, 20) as usize,
            12 * u32_at(bytes, 24) as usize,
        )?;
        Ok(UnwindInfo {
            bytes,
            common_opcodes,
            index,
        })
    }

    /// Returns the function of an address (relative), found by halving in the index and in a page.
    ///
    /// # Errors
    ///
    /// Those of the page and of the function.
    pub fn lookup(&self, address: u32) -> Result<Option<Function>, CompactReadError>
        ensures covers { IfOk result (λ found. IfSome found (Covers address)) }
        ensures outside { result ≡ Ok None → IsOutside self.now.bytes.now (shared_lists self.now) address }
        ensures exact { result ≡ in_lists self.now.bytes.now (shared_lists self.now) address }
    {
        let Some(entry) = page_entry(self.index, address) else {
            return Ok(None);
        };
        let page = Page::parse(self.bytes, entry.page_offset)?;
        page.lookup(
            self.common_opcodes,
            entry.page_address,
            entry.next_page_address,
            address,
        )
    }
}

/// A page as the index describes it.
#[derive(Clone, Copy)]
pub(crate) struct PageEntry {
    /// Where its first function begins, a relative address.
    pub page_address: u32,
    /// Where the first function of the next page begins, a relative address.
    pub next_page_address: u32,
    /// Where the page lies, in bytes from the beginning of the section.
    pub page_offset: u32,
}

/// Returns the page of an address. The last entry of the index is a sentinel, and no page.
#[tactic(auto, unfolding(crate::specs::UnwindInfo::page_entry_of))]
fn page_entry(index: &[u8], address: u32) -> Option<PageEntry>
    ensures exact { result ≡ page_entry_of index.now address }
    ensures outside { MatchOption result (IsOutsideIndex (index_starts index.now) address) (IsInPage address) }
{
    let row = row_of_address(&IndexEntries { bytes: index }, u64::from(address))?;
    let next = row.next?;
    Some(PageEntry {
        page_address: row.start as u32,
        next_page_address: next as u32,
        page_offset: u32_at(index, 12 * row.index + 4),
    })
}
