//! Blocks of a file.
ghost use Rattle.std.specs.Prelude.{◌≡◌, ◌+◌, ◌≤◌, Ok, Err, MatchResult, IfOk, length};
ghost use Rattle.framehop_dump_files.specs.Minidump.Location.{block_at, location_at, located};

use crate::minidump::error::MinidumpError;
use framehop_bytes::block;
use framehop_bytes::bytes::u32_at;

/// Where a part of the file is: `MINIDUMP_LOCATION_DESCRIPTOR`.
#[derive(Clone, Copy, PartialEq, Eq)]
pub struct Location {
    /// Its size, in bytes: `DataSize`.
    pub size: u32,
    /// Where it begins, in bytes from the start of the file: `Rva`.
    pub offset: u32,
}

/// Returns the location at an offset of an entry.
pub(crate) fn location_at(entry: &[u8], at: usize) -> Location
    requires { at + 8 ≤ length entry.now }
    ensures { result ≡ location_at entry.now at }
{
    Location {
        size: u32_at(entry, at),
        offset: u32_at(entry, at + 4),
    }
}

/// Returns the bytes of a location.
///
/// # Errors
///
/// `Eof` where the file ends before them.
///
/// Source: `minidumpapiset.h`, `MINIDUMP_LOCATION_DESCRIPTOR`.
pub fn read_located(file: &[u8], location: Location) -> Result<&[u8], MinidumpError>
    ensures exact { MatchResult result
        (λ bytes. located file.entry.now location ≡ Ok bytes.now)
        (λ error. located file.entry.now location ≡ Err error) }
    ensures whole { IfOk result (λ bytes. length bytes.now ≡ location.size) }
{
    read_block(file, u64::from(location.offset), u64::from(location.size))
}

/// Returns so many bytes from an offset of the file on.
///
/// # Errors
///
/// `Eof` where the file ends before them.
pub(crate) fn read_block(file: &[u8], offset: u64, size: u64) -> Result<&[u8], MinidumpError>
    ensures exact { MatchResult result
        (λ block. block_at file.entry.now offset size ≡ Ok block.now)
        (λ error. block_at file.entry.now offset size ≡ Err error) }
    ensures whole { IfOk result (λ block. length block.now ≡ size) }
    ensures within { IfOk result (λ _. offset + size ≤ length file.entry.now) }
{
    block::read_block(file, offset, size).ok_or(MinidumpError::Eof { offset })
}
