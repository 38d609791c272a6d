//! ELF's compressed sections: `Elf64_Chdr` and what follows it (gABI, "Section Compression").
ghost use Rattle.std.specs.Prelude.{◌≡◌, ◌⊎◌, ◌≤◌, ◌+◌, Ok, Err, IfOk, IfErr, length};
ghost use Rattle.framehop_inflate.specs.Bits.{little_4};
ghost use Rattle.framehop_inflate.specs.Zlib.{little_8, section_inflated};
ghost use Rattle.framehop_inflate.specs.declared.inflate_error.InflateError.{InflateError};

use crate::bits::u32_at;
use crate::inflate_error::InflateError;
use crate::zlib::inflate;
use std::alloc::Global;

/// Returns what a little-endian 64-bit section with the flag SHF_COMPRESSED stands for.
///
/// # Errors
///
/// [`InflateError::BadHeader`] if its `ch_type` is not ELFCOMPRESS_ZLIB; [`InflateError::WrongSize`] if the stream gives
/// more bytes than `ch_size`, or fewer, or if `ch_size` is above 1,032 times the stream's length, before memory is taken;
/// otherwise why the stream is not one of zlib.
#[tactic(auto, unfolding(crate::specs::Zlib::section_inflated))]
pub fn inflate_section(alloc: Global, section: &[u8]) -> Result<Vec<u8>, InflateError>
    ensures ok { IfOk result (λ out. section_inflated section.now ≡ Ok out.items) }
    ensures err { IfErr result (λ error. (error ≡ InflateError.OutOfMemory) ⊎ (section_inflated section.now ≡ Err error)) }
{
    if section.len() < 24 {
        return Err(InflateError::Truncated);
    }
    if u32_at(section, 0) != 1 {
        return Err(InflateError::BadHeader);
    }
    inflate(alloc, &section[24..], u64_at(section, 8) as usize)
}

/// Returns the number of eight bytes, the lowest first.
fn u64_at(bytes: &[u8], at: usize) -> u64
    requires { at + 8 ≤ length bytes.now }
    ensures { result ≡ little_8 bytes.now at }
{
    (u64::from(u32_at(bytes, at + 4)) << 32) + u64::from(u32_at(bytes, at))
}
