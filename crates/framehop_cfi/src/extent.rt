//! Where an entry of a call frame section begins and ends (DWARF 5 section 7.4).
ghost use Rattle.std.specs.Prelude.{◌≡◌, ◌≢◌, Err, ◌<◌, ℕ, IfOk};
ghost use Rattle.framehop_cfi.specs.EntryExtent.{extent_at, held, is_zero_length, IsWithin};

use crate::numbers::{read_u32, read_u64};
use crate::read_error::ReadError;

/// The extent of an entry: where its contents stand, after its length.
#[derive(Clone, Copy)]
pub struct EntryExtent {
    /// The offset of the contents.
    pub contents: usize,
    /// The offset after them.
    pub end: usize,
    /// The size of the entry's offsets into the section: 4 or 8 bytes.
    pub offset_size: u8,
}

/// Returns the extent of the entry at an offset. Its length has 4 bytes, or 8 after four bytes `FF`.
#[tactic(auto, unfolding(crate::specs::EntryExtent::extent_at, crate::specs::EntryExtent::long_extent))]
pub fn read_extent(bytes: &[u8], at: usize) -> Result<EntryExtent, ReadError>
    ensures exact { result ≡ extent_at bytes.now at }
    ensures within { IfOk result (IsWithin bytes.now at) }
    ensures memory { result ≢ Err ReadError.OutOfMemory }
{
    let (length, next) = read_u32(bytes, at)?;
    if length < 0xffff_fff0 {
        return held_extent(bytes, 4, next, u64::from(length));
    }
    if length == 0xffff_ffff {
        let (length, next) = read_u64(bytes, next)?;
        return held_extent(bytes, 8, next, length);
    }
    Err(ReadError::BadLength)
}

/// Returns the extent of contents of that length, if the section holds them.
fn held_extent(
    bytes: &[u8],
    offset_size: u8,
    contents: usize,
    length: u64,
) -> Result<EntryExtent, ReadError>
    ensures exact { result ≡ held bytes.now offset_size contents length }
    ensures within { (at : ℕ) → at < contents → IfOk result (IsWithin bytes.now at) }
    ensures memory { result ≢ Err ReadError.OutOfMemory }
{
    if contents > bytes.len() || length > (bytes.len() - contents) as u64 {
        return Err(ReadError::Eof);
    }
    let end = contents + length as usize;
    Ok(EntryExtent {
        contents,
        end,
        offset_size,
    })
}

impl EntryExtent {
    /// Returns whether this is a length of 0 in 4 bytes, which is no entry.
    #[inline]
    pub fn is_zero_length(&self) -> bool
        ensures { result ≡ is_zero_length self.now }
    {
        self.offset_size == 4 && self.contents == self.end
    }
}
