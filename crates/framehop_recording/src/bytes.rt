//! Numbers and blocks at an offset of bytes.
ghost use Rattle.std.specs.Prelude.{◌≡◌, ◌+◌, ◌^◌, ◌<◌, ◌≤◌, Ok, Err, IfOk, MatchResult, length};
ghost use Rattle.framehop_recording.specs.Bytes.{u16_at, u32_at, u64_at, word_at, word_from_end, block_at};

use crate::error::RecordingError;
use framehop_bytes::{block, bytes};

/// Reads a number of two bytes, or returns the refusal where the bytes end before it.
#[inline]
#[tactic(auto, unfolding(crate::specs::Bytes::u16_at))]
pub(crate) fn read_u16(
    bytes: &[u8],
    at: usize,
    short: RecordingError,
) -> Result<(u16, usize), RecordingError>
    ensures { result ≡ u16_at bytes.now at short }
{
    bytes::read_u16(bytes, at).ok_or(short)
}

/// Reads a number of four bytes, or returns the refusal where the bytes end before it.
#[inline]
#[tactic(auto, unfolding(crate::specs::Bytes::u32_at))]
pub(crate) fn read_u32(
    bytes: &[u8],
    at: usize,
    short: RecordingError,
) -> Result<(u32, usize), RecordingError>
    ensures { result ≡ u32_at bytes.now at short }
{
    bytes::read_u32(bytes, at).ok_or(short)
}

/// Reads a number of eight bytes, or returns the refusal where the bytes end before it.
#[inline]
#[tactic(auto, unfolding(crate::specs::Bytes::u64_at))]
pub(crate) fn read_u64(
    bytes: &[u8],
    at: usize,
    short: RecordingError,
) -> Result<(u64, usize), RecordingError>
    ensures { result ≡ u64_at bytes.now at short }
{
    bytes::read_u64(bytes, at).ok_or(short)
}

/// Returns the number of eight bytes that is so many such numbers before the end, if the bytes have it.
#[inline]
pub(crate) fn word_from_end(bytes: &[u8], words: usize) -> Option<u64>
    requires { words < 2 ^ 16 }
    ensures { result ≡ word_from_end bytes.now words }
{
    let size = 8 * words;
    if size > bytes.len() {
        return None;
    }
    word(bytes, bytes.len() - size)
}

/// Returns the number of eight bytes at an offset, if the bytes have it.
#[inline]
pub(crate) fn word(bytes: &[u8], at: usize) -> Option<u64>
    ensures { result ≡ word_at bytes.now at }
{
    let (word, _) = bytes::read_u64(bytes, at)?;
    Some(word)
}

/// Returns so many bytes, or the refusal where the bytes end before them.
#[inline]
pub(crate) fn read_block<'a>(
    bytes: &'a [u8],
    at: u64,
    size: u64,
    short: RecordingError,
) -> Result<(&'a [u8], usize), RecordingError>
    ensures exact { MatchResult result
        (λ read. block_at bytes.entry.now at size short ≡ Ok (read.0.now, read.1))
        (λ error. block_at bytes.entry.now at size short ≡ Err error) }
    ensures within { IfOk result (λ read. (read.1 ≡ at + size) × (read.1 ≤ length bytes.entry.now) × (read.1 < 2 ^ 64)) }
{
    let block = block::read_block(bytes, at, size).ok_or(short)?;
    Ok((block, (at + size) as usize))
}
