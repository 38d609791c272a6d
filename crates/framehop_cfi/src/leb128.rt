//! LEB128 numbers: groups of seven bits, the lowest first (DWARF 5 section 7.6).
ghost use Rattle.std.specs.Prelude.{◌≡◌, ◌≢◌, Ok, Err, IfSome, IfErr, ◌+◌, ◌*◌, ◌<◌, ◌≤◌, ◌^◌, IfOk, IsTrue, Some, None, if◌then◌else◌};
ghost use Rattle.framehop_cfi.specs.Refusal.{IsSliceRefusal};
ghost use Rattle.framehop_cfi.specs.Leb128.{groups_at, uleb_at, sleb_at, with_sign, fits_i64};

use crate::read_error::ReadError;

/// Returns the groups of a number, up to the first byte below 128 and at most ten: their sum, and how many
/// bits they have.
fn read_groups(bytes: &[u8], at: usize) -> Result<((u128, u32), usize), ReadError>
    ensures exact { result ≡ groups_at bytes.now at }
    ensures bits { IfOk result (λ read. (0 < read.0.1) × (read.0.1 ≤ 70) × (read.0.0 < 2 ^ read.0.1)) }
    ensures forward { IfOk result (λ read. at < read.1) }
    ensures refusal { IfErr result IsSliceRefusal }
    ensures memory { result ≢ Err ReadError.OutOfMemory }
{
    let mut sum = 0u128;
    let mut next = at;
    for count in 0..10u32 {
        if next >= bytes.len() {
            return Err(ReadError::Eof);
        }
        let byte = bytes[next];
        sum += u128::from(byte & 0x7f) << (7 * count);
        next += 1;
        if byte < 0x80 {
            return Ok(((sum, 7 * (count + 1)), next));
        }
    }
    Err(ReadError::BadLeb)
}

/// Returns an unsigned number of one byte, if there is one.
#[inline(always)]
#[tactic(auto, unfolding(crate::specs::Leb128::uleb_at))]
pub(crate) fn read_short_uleb128(bytes: &[u8], at: usize) -> Option<(u64, usize)>
    ensures exact { IfSome result (λ read. uleb_at bytes.now at ≡ Ok read) }
    ensures forward { IfSome result (λ read. at < read.1) }
{
    if at < bytes.len() && bytes[at] < 0x80 {
        return Some((u64::from(bytes[at]), at + 1));
    }
    None
}

/// Returns an unsigned number of at most ten bytes and 64 bits.
#[inline]
#[tactic(auto, unfolding(crate::specs::Leb128::uleb_at))]
pub fn read_uleb128(bytes: &[u8], at: usize) -> Result<(u64, usize), ReadError>
    ensures exact { result ≡ uleb_at bytes.now at }
    ensures forward { IfOk result (λ read. at < read.1) }
    ensures refusal { IfErr result IsSliceRefusal }
    ensures memory { result ≢ Err ReadError.OutOfMemory }
{
    if at < bytes.len() && bytes[at] < 0x80 {
        return Ok((u64::from(bytes[at]), at + 1));
    }
    let ((sum, _bits), next) = read_groups(bytes, at)?;
    match u64::try_from(sum) {
        Ok(number) => Ok((number, next)),
        Err(_) => Err(ReadError::BadLeb),
    }
}

/// Returns a signed number of at most ten bytes and 64 bits.
#[inline]
#[tactic(auto, unfolding(crate::specs::Leb128::sleb_at))]
pub fn read_sleb128(bytes: &[u8], at: usize) -> Result<(i64, usize), ReadError>
    ensures exact { result ≡ sleb_at bytes.now at }
    ensures forward { IfOk result (λ read. at < read.1) }
    ensures refusal { IfErr result IsSliceRefusal }
    ensures memory { result ≢ Err ReadError.OutOfMemory }
{
    if at < bytes.len() && bytes[at] < 0x80 {
        return Ok((short_signed(bytes[at]), at + 1));
    }
    let ((sum, bits), next) = read_groups(bytes, at)?;
    match signed(sum, bits) {
        Some(number) => Ok((number, next)),
        None => Err(ReadError::BadLeb),
    }
}

/// Returns the number whose highest bit is its sign, if it fits 64 bits.
fn signed(sum: u128, bits: u32) -> Option<i64>
    requires some { 0 < bits }
    requires few { bits ≤ 70 }
    requires within { sum < 2 ^ bits }
    ensures { result ≡ (if fits_i64 (with_sign sum bits) then Some (with_sign sum bits) else None) }
{
    let magnitude = sum as i128;
    let value = if 2 * sum < 1 << bits {
        magnitude
    } else {
        magnitude - (1 << bits)
    };
    match i64::try_from(value) {
        Ok(number) => Some(number),
        Err(_) => None,
    }
}

/// Returns the signed number of one group.
fn short_signed(group: u8) -> i64
    requires { group < 128 }
    ensures signed { result ≡ with_sign group 7 }
    ensures fits { IsTrue (fits_i64 result) }
{
    if group < 0x40 {
        i64::from(group)
    } else {
        i64::from(group) - 0x80
    }
}
