//! Blocks of a file.
ghost use Rattle.std.specs.Prelude.{◌≡◌, ◌+◌, ◌<◌, ◌≤◌, MatchOption, IfSome, length, take, drop};

use crate::bytes::{back, front};

/// Returns so many bytes from an offset of the file on, or `None` where the file ends before them.
#[inline]
pub fn read_block(file: &[u8], offset: u64, size: u64) -> Option<&[u8]>
    ensures exact { MatchOption result
        (length file.entry.now < offset + size)
        (λ block. (offset + size ≤ length file.entry.now) × (block.now ≡ take size (drop offset file.entry.now))) }
    ensures whole { IfSome result (λ block. length block.now ≡ size) }
{
    let length = file.len() as u64;
    if offset > length || size > length - offset {
        return None;
    }
    Some(front(back(file, offset), size as usize))
}
