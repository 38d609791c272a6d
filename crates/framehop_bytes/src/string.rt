//! Strings that end with a 0, as the formats of files of Unix and Windows have them.
ghost use Rattle.std.specs.Prelude.{◌≡◌};
ghost use Rattle.framehop_bytes.specs.String.{before_nul, string_of};

use crate::bytes::{back, front};

/// Returns the string that begins at an offset of a table of strings, in bytes: the bytes before the first
/// 0, or all that are left where there is none.
///
/// Source: System V gABI, chapter 4, "String Table".
pub fn string_at(table: &[u8], at: u32) -> &[u8]
    ensures { result.now ≡ string_of table.entry.now at }
{
    before_nul(back(table, u64::from(at)))
}

/// Returns the bytes before the first 0, or all of them where there is none.
pub fn before_nul(bytes: &[u8]) -> &[u8]
    ensures { result.now ≡ before_nul bytes.entry.now }
{
    for end in 0..bytes.len() {
        if bytes[end] == 0 {
            return front(bytes, end);
        }
    }
    bytes
}
