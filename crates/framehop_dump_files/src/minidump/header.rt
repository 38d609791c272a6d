//! The header of a minidump.
ghost use Rattle.std.specs.Prelude.{◌≡◌};
ghost use Rattle.framehop_dump_files.specs.Minidump.Header.{header_of};

use crate::minidump::error::MinidumpError;
use crate::minidump::location::read_block;
use framehop_bytes::bytes::{u16_at, u32_at};

/// "MDMP" as a little-endian number.
const MINIDUMP_SIGNATURE: u32 = 0x504d444d;

/// The lower half of the version.
const MINIDUMP_VERSION: u16 = 0xa793;

/// The size of the header, in bytes.
const HEADER_SIZE: u64 = 32;

/// The header of a minidump: `MINIDUMP_HEADER`.
#[derive(Clone, Copy)]
pub struct Header {
    /// How many streams there are: `NumberOfStreams`.
    pub stream_count: u32,
    /// Where their directory begins, in bytes from the start of the file: `StreamDirectoryRva`.
    pub directory: u32,
    /// When the minidump was made, in seconds since 1970, or 0: `TimeDateStamp`.
    pub time: u32,
}

/// Reads the header of a minidump, from the bytes of its file.
///
/// # Errors
///
/// The first of these:
///
/// - `Eof` where the file ends before the header does;
/// - `NotAMinidump` and `UnknownVersion` by its fields `Signature` and `Version`.
///
/// Source: `minidumpapiset.h`, `MINIDUMP_HEADER`.
#[tactic(auto, unfolding(crate::specs::Minidump::Header::header_of))]
pub fn read_header(file: &[u8]) -> Result<Header, MinidumpError>
    ensures { result ≡ header_of file.now }
{
    let header = read_block(file, 0, HEADER_SIZE)?;
    if u32_at(header, 0) != MINIDUMP_SIGNATURE {
        return Err(MinidumpError::NotAMinidump { offset: 0 });
    }
    if u16_at(header, 4) != MINIDUMP_VERSION {
        return Err(MinidumpError::UnknownVersion { offset: 4 });
    }
    Ok(Header {
        stream_count: u32_at(header, 8),
        directory: u32_at(header, 12),
        time: u32_at(header, 20),
    })
}
