//! The numbers of call frame sections.
//!
//! A reader is given the section's bytes and an offset into them, and returns the number there with the offset after it,
//! or `Eof` where the bytes end before it does.
ghost use Rattle.std.specs.Prelude.{◌≡◌, ◌≢◌, ◌<◌, Err, IfErr, IfOk};
ghost use Rattle.framehop_cfi.specs.Numbers.{u8_at, u16_at, u32_at, u64_at};
ghost use Rattle.framehop_cfi.specs.Refusal.{IsSliceRefusal};

use crate::read_error::ReadError;
use framehop_bytes::bytes;

/// Reads a byte.
#[inline]
#[tactic(auto, unfolding(crate::specs::Numbers::u8_at))]
pub fn read_u8(section: &[u8], at: usize) -> Result<(u8, usize), ReadError>
    ensures exact { result ≡ u8_at section.now at }
    ensures forward { IfOk result (λ read. at < read.1) }
    ensures refusal { IfErr result IsSliceRefusal }
    ensures memory { result ≢ Err ReadError.OutOfMemory }
{
    bytes::read_u8(section, at).ok_or(ReadError::Eof)
}

/// Reads a number of two bytes.
#[inline]
#[tactic(auto, unfolding(crate::specs::Numbers::u16_at))]
pub fn read_u16(section: &[u8], at: usize) -> Result<(u16, usize), ReadError>
    ensures exact { result ≡ u16_at section.now at }
    ensures forward { IfOk result (λ read. at < read.1) }
    ensures refusal { IfErr result IsSliceRefusal }
    ensures memory { result ≢ Err ReadError.OutOfMemory }
{
    bytes::read_u16(section, at).ok_or(ReadError::Eof)
}

/// Reads a number of four bytes.
#[inline]
#[tactic(auto, unfolding(crate::specs::Numbers::u32_at))]
pub fn read_u32(section: &[u8], at: usize) -> Result<(u32, usize), ReadError>
    ensures exact { result ≡ u32_at section.now at }
    ensures forward { IfOk result (λ read. at < read.1) }
    ensures refusal { IfErr result IsSliceRefusal }
    ensures memory { result ≢ Err ReadError.OutOfMemory }
{
    bytes::read_u32(section, at).ok_or(ReadError::Eof)
}

/// Reads a number of eight bytes.
#[inline]
#[tactic(auto, unfolding(crate::specs::Numbers::u64_at))]
pub fn read_u64(section: &[u8], at: usize) -> Result<(u64, usize), ReadError>
    ensures exact { result ≡ u64_at section.now at }
    ensures forward { IfOk result (λ read. at < read.1) }
    ensures refusal { IfErr result IsSliceRefusal }
    ensures memory { result ≢ Err ReadError.OutOfMemory }
{
    bytes::read_u64(section, at).ok_or(ReadError::Eof)
}
