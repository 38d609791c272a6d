//! The build id that LLDB makes up for an ELF file that has none: the CRC-32 of the file, in 4 bytes.
//!
//! Source: LLDB, `ObjectFileELF::GetUUID`; of the CRC-32 ITU-T V.42, 8.1.1.6.2, and RFC 1952, section 8.
ghost use Rattle.std.specs.Prelude.{◌≡◌, ◌<◌, ◌≤◌, ◌^◌};
ghost use Rattle.framehop_bytes.specs.Bytes.{le4};
ghost use Rattle.framehop_processes.specs.MadeUpId.{bit_of, after_bit, after_byte, crc32, is_made_up};

use framehop_bytes::bytes::u32_at;

/// The divisor x^32 + x^26 + x^23 + x^22 + x^16 + x^12 + x^11 + x^10 + x^8 + x^7 + x^5 + x^4 + x^2 + x + 1, without its first
/// term: the coefficient of x^31 is the lowest bit.
const DIVISOR: u32 = 0xEDB8_8320;

/// Returns whether a build id that is wanted is the one that LLDB makes up for a file without one.
#[tactic(auto, unfolding(crate::specs::MadeUpId::is_made_up))]
pub fn is_made_up(wanted: &[u8], file: &[u8]) -> bool
    ensures { result ≡ is_made_up wanted.now file.now }
{
    wanted.len() == 4 && u32_at(wanted, 0) == crc32(file)
}

/// Returns the CRC-32 of bytes.
fn crc32(bytes: &[u8]) -> u32
    ensures { result ≡ crc32 bytes.now }
{
    let mut remainder: u32 = 0xFFFF_FFFF;
    for byte in bytes {
        remainder = after_byte(remainder, *byte);
    }
    remainder ^ 0xFFFF_FFFF
}

/// Returns the remainder after a byte, whose lowest bit comes first.
fn after_byte(remainder: u32, byte: u8) -> u32
    ensures { result ≡ after_byte remainder byte }
{
    let mut remainder = remainder;
    for place in 0..8u32 {
        remainder = after_bit(remainder, bit_of(byte, place));
    }
    remainder
}

/// Returns the bit of a byte at a place.
fn bit_of(byte: u8, place: u32) -> u32
    requires { place < 8 }
    ensures { result ≡ bit_of byte place }
{
    u32::from(byte >> place) % 2
}

/// Returns the remainder after a bit.
fn after_bit(remainder: u32, bit: u32) -> u32
    ensures { result ≡ after_bit remainder bit }
{
    let sum = remainder ^ bit;
    if sum % 2 == 1 {
        (sum / 2) ^ DIVISOR
    } else {
        sum / 2
    }
}
