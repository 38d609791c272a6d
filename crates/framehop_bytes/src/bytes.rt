//! Parts of bytes, and the little-endian numbers at an offset of them.
//!
//! `u16_at` to `u64_at` are for bytes that are known to hold the number. `read_u8` to `read_u64` return it with the
//! offset after it, or `None` where the bytes end before it does.
ghost use Rattle.std.specs.Prelude.{◌≡◌, ◌+◌, ◌≤◌, ◌<◌, MatchOption, take, drop, length, slice_index};
ghost use Rattle.framehop_bytes.specs.Bytes.{le2, le4, le8};

/// Returns the bytes before an end, or all of them where they end before it.
#[inline]
pub fn front(bytes: &[u8], end: usize) -> &[u8]
    ensures { result.now ≡ take end bytes.now }
{
    &bytes[..end.min(bytes.len())]
}

/// Returns the bytes from an offset on, or none where they end before it.
#[inline]
pub fn back(bytes: &[u8], start: u64) -> &[u8]
    ensures { result.now ≡ drop start bytes.entry.now }
{
    if start > bytes.len() as u64 {
        return &[];
    }
    &bytes[start as usize..]
}

/// Reads a byte.
#[inline]
pub fn read_u8(bytes: &[u8], at: usize) -> Option<(u8, usize)>
    ensures { MatchOption result (length bytes.now < at + 1)
        (λ read. (at + 1 ≤ length bytes.now) × (read ≡ (slice_index bytes.now at, at + 1))) }
{
    if at < bytes.len() {
        Some((bytes[at], at + 1))
    } else {
        None
    }
}

/// Reads a number of two bytes.
#[inline]
pub fn read_u16(bytes: &[u8], at: usize) -> Option<(u16, usize)>
    ensures { MatchOption result (length bytes.now < at + 2)
        (λ read. (at + 2 ≤ length bytes.now) × (read ≡ (le2 bytes.now at, at + 2))) }
{
    if bytes.len() < 2 || at > bytes.len() - 2 {
        return None;
    }
    Some((u16_at(bytes, at), at + 2))
}

/// Reads a number of four bytes.
#[inline]
pub fn read_u32(bytes: &[u8], at: usize) -> Option<(u32, usize)>
    ensures { MatchOption result (length bytes.now < at + 4)
        (λ read. (at + 4 ≤ length bytes.now) × (read ≡ (le4 bytes.now at, at + 4))) }
{
    if bytes.len() < 4 || at > bytes.len() - 4 {
        return None;
    }
    Some((u32_at(bytes, at), at + 4))
}

/// Reads a number of eight bytes.
#[inline]
pub fn read_u64(bytes: &[u8], at: usize) -> Option<(u64, usize)>
    ensures { MatchOption result (length bytes.now < at + 8)
        (λ read. (at + 8 ≤ length bytes.now) × (read ≡ (le8 bytes.now at, at + 8))) }
{
    if bytes.len() < 8 || at > bytes.len() - 8 {
        return None;
    }
    Some((u64_at(bytes, at), at + 8))
}

/// Returns the number of two bytes at an offset.
#[inline]
pub fn u16_at(bytes: &[u8], at: usize) -> u16
    requires { at + 2 ≤ length bytes.now }
    ensures { result ≡ le2 bytes.now at }
{
    u16::from_le_bytes([bytes[at], bytes[at + 1]])
}

/// Returns the number of four bytes at an offset. Like its sisters it is not inlined by force: the compiler then makes
/// one load of the four, before it sees that a caller masks one of them.
#[inline]
pub fn u32_at(bytes: &[u8], at: usize) -> u32
    requires { at + 4 ≤ length bytes.now }
    ensures { result ≡ le4 bytes.now at }
{
    u32::from_le_bytes([bytes[at], bytes[at + 1], bytes[at + 2], bytes[at + 3]])
}

/// Returns the number of eight bytes at an offset.
#[inline]
pub fn u64_at(bytes: &[u8], at: usize) -> u64
    requires { at + 8 ≤ length bytes.now }
    ensures { result ≡ le8 bytes.now at }
{
    u64::from_le_bytes([
        bytes[at],
        bytes[at + 1],
        bytes[at + 2],
        bytes[at + 3],
        bytes[at + 4],
        bytes[at + 5],
        bytes[at + 6],
        bytes[at + 7],
    ])
}
