//! Tables of fixed rows inside the bytes of `__unwind_info`, read in place.
ghost use Rattle.std.specs.Prelude.{◌≡◌, ◌≤◌, Ok, Err, MatchResult, MatchOption, length};
ghost use Rattle.framehop_macho.specs.Table.{part_of, index_starts, regular_starts, compressed_starts, row_of, IsRow, IsBefore};
ghost use Rattle.framehop_macho.specs.UnwindInfo.{opcode_by_number};

use super::error::CompactReadError;
use framehop_bytes::bytes::u32_at;
use framehop_bytes::place::{Starts, place};

/// Returns so many bytes from an offset on, or `Eof` where they are not there.
pub(crate) fn part(bytes: &[u8], from: usize, size: usize) -> Result<&[u8], CompactReadError>
    ensures { MatchResult result
        (λ part. part_of bytes.now from size ≡ Ok part.now)
        (λ error. part_of bytes.now from size ≡ Err error) }
{
    if bytes.len() < size || from > bytes.len() - size {
        return Err(CompactReadError::Eof);
    }
    let (_, rest) = bytes.split_at(from);
    let (part, _) = rest.split_at(size);
    Ok(part)
}

/// A row of a table: its index, where it begins, and where the row after it begins, if there is
/// one (relative addresses, which in a table that is not valid can be above 32 bits).
#[derive(Clone, Copy, PartialEq, Eq)]
pub struct Row {
    pub index: usize,
    pub start: u64,
    pub next: Option<u64>,
}

/// Returns the row at the place of an address, if it begins at or below the address.
#[tactic(auto, unfolding(crate::specs::Table::row_of))]
pub(crate) fn row_of_address<T: Starts>(table: &T, address: u64) -> Option<Row>
    ensures exact { result ≡ row_of (T.starts table.now) address }
    ensures law { MatchOption result (IsBefore (T.starts table.now) address) (IsRow (T.starts table.now) address) }
{
    let count = table.count();
    if count == 0 {
        return None;
    }
    let index = place(table, address);
    let start = table.start(index);
    if start > address {
        return None;
    }
    let mut next = None;
    if index + 1 < count {
        next = Some(table.start(index + 1));
    }
    Some(Row { index, start, next })
}

/// The entries of the index: rows of an address, a page's offset and a word that is not used here.
#[derive(Clone, Copy)]
pub(crate) struct IndexEntries<'a> {
    pub bytes: &'a [u8],
}

impl<'a> Starts for IndexEntries<'a> {
    ghost starts = { λ entries. index_starts entries.bytes.now };

    fn count(&self) -> usize {
        self.bytes.len() / 12
    }

    fn start(&self, index: usize) -> u64 {
        u64::from(u32_at(self.bytes, 12 * index))
    }
}

/// The entries of a regular page: rows of an address and an opcode.
#[derive(Clone, Copy)]
pub(crate) struct RegularEntries<'a> {
    pub bytes: &'a [u8],
}

impl<'a> Starts for RegularEntries<'a> {
    ghost starts = { λ entries. regular_starts entries.bytes.now };

    fn count(&self) -> usize {
        self.bytes.len() / 8
    }

    fn start(&self, index: usize) -> u64 {
        u64::from(u32_at(self.bytes, 8 * index))
    }
}

/// The entries of a compressed page: words, whose low 24 bits are added to the page's address.
#[derive(Clone, Copy)]
pub(crate) struct CompressedEntries<'a> {
    pub page_address: u32,
    pub bytes: &'a [u8],
}

impl<'a> Starts for CompressedEntries<'a> {
    ghost starts = { λ entries. compressed_starts entries.page_address entries.bytes.now };

    fn count(&self) -> usize {
        self.bytes.len() / 4
    }

    fn start(&self, index: usize) -> u64 {
        u64::from(self.page_address) + u64::from(u32_at(self.bytes, 4 * index) & 0x00ff_ffff)
    }
}

/// Returns the opcode of a number: those of the first list come first, then those of the second.
/// `BadEncodingIndex` where the number is beyond both.
pub(crate) fn opcode_at(common: &[u8], own: &[u8], number: usize) -> Result<u32, CompactReadError>
    ensures { result ≡ opcode_by_number common.now own.now number }
{
    let common_count = common.len() / 4;
    if number < common_count {
        return Ok(u32_at(common, 4 * number));
    }
    let number = number - common_count;
    if number < own.len() / 4 {
        return Ok(u32_at(own, 4 * number));
    }
    Err(CompactReadError::BadEncodingIndex)
}
