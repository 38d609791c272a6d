//! The strings of a minidump.
ghost use Rattle.std.specs.Prelude.{◌≡◌, Ok, Err, MatchResult, IfOk, map, string_bytes};
ghost use Rattle.framehop_dump_files.specs.Minidump.Location.{IsErrorOf};
ghost use Rattle.framehop_dump_files.specs.Minidump.String.{unit_at, units_of, text_of, string_of};

use crate::minidump::error::MinidumpError;
use crate::minidump::location::read_block;
use framehop_bytes::bytes::{u16_at, u32_at};
use std::alloc::{AllocError, Global};

/// The size of what is before a string, in bytes.
const LENGTH_SIZE: u64 = 4;

/// The size of a unit of UTF-16, in bytes.
const UNIT_SIZE: usize = 2;

/// Reads the string at an offset of the file. Each surrogate that has no partner becomes U+FFFD.
///
/// # Errors
///
/// `Eof` where the file ends before the string does, and `OddString` where its bytes are an odd number; else
/// `OutOfMemory`.
///
/// Source: `minidumpapiset.h`, `MINIDUMP_STRING`.
pub fn read_string(alloc: Global, file: &[u8], offset: u32) -> Result<String, MinidumpError>
    ensures { MatchResult result
        (λ text. string_of file.now offset ≡ Ok (string_bytes text))
        (λ error. IsErrorOf (string_of file.now offset) error) }
{
    read_far_string(alloc, file, u64::from(offset))
}

/// Reads the string at an offset of the file, which may be beyond 4 GiB, as [`read_string`] does.
#[tactic(auto, unfolding(crate::specs::Minidump::String::string_of))]
pub fn read_far_string(alloc: Global, file: &[u8], offset: u64) -> Result<String, MinidumpError>
    ensures { MatchResult result
        (λ text. string_of file.now offset ≡ Ok (string_bytes text))
        (λ error. IsErrorOf (string_of file.now offset) error) }
{
    let units = units_at(file, offset)?;
    Ok(text(alloc, units)?)
}

/// Returns the bytes of the units of the string at an offset of the file.
#[tactic(auto, unfolding(crate::specs::Minidump::String::units_of))]
fn units_at(file: &[u8], offset: u64) -> Result<&[[u8; UNIT_SIZE]], MinidumpError>
    ensures { MatchResult result
        (λ units. units_of file.entry.now offset ≡ Ok (map unit_at units.now))
        (λ error. units_of file.entry.now offset ≡ Err error) }
{
    let length = u32_at(read_block(file, offset, LENGTH_SIZE)?, 0);
    if length % 2 != 0 {
        return Err(MinidumpError::OddString { offset });
    }
    let block = read_block(file, offset + LENGTH_SIZE, u64::from(length))?;
    let (units, _) = block.as_chunks::<UNIT_SIZE>();
    Ok(units)
}

/// Returns the text of these units.
fn text(alloc: Global, bytes: &[[u8; UNIT_SIZE]]) -> Result<String, AllocError>
    ensures { IfOk result (λ text. string_bytes text ≡ text_of (map unit_at bytes.now)) }
{
    let units = units(alloc, bytes)?;
    String::from_utf16_lossy(alloc, units.as_slice())
}

/// Returns the units that have these bytes.
fn units(alloc: Global, units: &[[u8; UNIT_SIZE]]) -> Result<Vec<u16>, AllocError>
    ensures { IfOk result (λ read. read.items ≡ map unit_at units.now) }
{
    units.iter().map(|unit| u16_at(unit, 0)).collect(alloc)
}
