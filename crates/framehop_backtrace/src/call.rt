//! Call instructions, by their bytes.
ghost use Rattle.std.specs.Prelude.{◌≡◌, ◌≤◌, ◌+◌, ◌*◌, ◌^◌, ◌<◌, nat_eq};
ghost use Rattle.std.specs.Cmp.Lexicographic.{pointwise};
ghost use Rattle.framehop_backtrace.specs.Call.{byte_of, modrm_length, is_direct_call, is_indirect_call, is_call_x86_64, is_call_aarch64, is_after, is_after_call_x86_64, is_after_call_aarch64, is_after_indirect_call, number_of, distance_of, target_x86_64, target_aarch64, call_target_x86_64, call_target_aarch64, ENDBR64, sets_rbp, sets_x29, passes_before, has_set_x86_64, has_set_aarch64};

use crate::memory::CodeMemory;
use framehop_bytes::bytes::back;

/// Returns whether an address (AVMA) lies right after a call of x86_64: `E8` with an offset of 32 bits, or `FF /2` of
/// any length.
///
/// Source: Intel 64 and IA-32 Architectures Software Developer's Manual, volume 2, `CALL`.
pub fn is_after_call_x86_64<M: CodeMemory>(memory: &M, address: u64) -> bool
    ensures { result ≡ is_after_call_x86_64 (M.code memory.now).bytes address }
{
    is_x86_64_of(memory, address, 5)
        || is_x86_64_of(memory, address, 2)
        || is_x86_64_of(memory, address, 3)
        || is_x86_64_of(memory, address, 4)
        || is_x86_64_of(memory, address, 6)
        || is_x86_64_of(memory, address, 7)
}

/// Returns whether an address (AVMA) lies right after a call of aarch64: `BL` or `BLR`.
///
/// Source: Arm Architecture Reference Manual, C6.2.
pub fn is_after_call_aarch64<M: CodeMemory>(memory: &M, address: u64) -> bool
    ensures { result ≡ is_after_call_aarch64 (M.code memory.now).bytes address }
{
    match memory.bytes_at(address.saturating_sub(4), 4) {
        Some(code) => is_call_aarch64(code),
        None => false,
    }
}

/// Returns where the call right before an address (AVMA) of x86_64 leads, if it is a direct one. Where the bytes are an
/// indirect call, too, they may be that.
///
/// Source: Intel 64 and IA-32 Architectures Software Developer's Manual, volume 2, `CALL`.
pub(crate) fn call_target_x86_64<M: CodeMemory>(memory: &M, address: u64) -> Option<u64>
    ensures { result ≡ call_target_x86_64 (M.code memory.now).bytes address }
{
    if is_after_indirect_call(memory, address) {
        return None;
    }
    target_x86_64(address, memory.bytes_at(address.saturating_sub(5), 5)?)
}

/// Returns where the call right before an address (AVMA) of aarch64 leads, if it is a `BL`.
///
/// Source: Arm Architecture Reference Manual, C6.2.
pub(crate) fn call_target_aarch64<M: CodeMemory>(memory: &M, address: u64) -> Option<u64>
    ensures { result ≡ call_target_aarch64 (M.code memory.now).bytes address }
{
    target_aarch64(address, memory.bytes_at(address.saturating_sub(4), 4)?)
}

/// Returns whether a function of x86_64 that begins at an address (AVMA) has set rbp before another: it begins with
/// `push rbp` and `mov rbp, rsp`, or these are after `endbr64`.
///
/// Source: Intel 64 and IA-32 Architectures Software Developer's Manual, volume 2, `PUSH`, `MOV` and `ENDBR64`.
pub(crate) fn has_set_x86_64<M: CodeMemory>(memory: &M, start: u64, address: u64) -> bool
    ensures { result ≡ has_set_x86_64 (M.code memory.now).bytes start address }
{
    if sets_rbp_before(memory, start, address) {
        return true;
    }
    match (memory.bytes_at(start, 4), start.checked_add(4)) {
        (Some(code), Some(next)) if code == [0xf3, 0x0f, 0x1e, 0xfa].as_slice() => {
            sets_rbp_before(memory, next, address)
        }
        _ => false,
    }
}

/// Returns whether a function of aarch64 that begins at an address (AVMA) has set x29 before another: it begins with `stp`
/// of x29 and x30 below sp, which it lowers, and `mov x29, sp`.
///
/// Source: Arm Architecture Reference Manual, C6.2.
pub(crate) fn has_set_aarch64<M: CodeMemory>(memory: &M, start: u64, address: u64) -> bool
    ensures { result ≡ has_set_aarch64 (M.code memory.now).bytes start address }
{
    if address < start || address - start < 8 {
        return false;
    }
    match memory.bytes_at(start, 8) {
        Some(code) => sets_x29(code),
        None => false,
    }
}

/// Returns whether the code from an address (AVMA) on sets rbp before another.
fn sets_rbp_before<M: CodeMemory>(memory: &M, start: u64, address: u64) -> bool
    ensures { result ≡ passes_before sets_rbp (M.code memory.now).bytes 4 start address }
{
    if address < start || address - start < 4 {
        return false;
    }
    match memory.bytes_at(start, 4) {
        Some(code) => sets_rbp(code),
        None => false,
    }
}

/// Returns whether bytes are a PUSH of rbp and a MOV of rsp to rbp.
fn sets_rbp(code: &[u8]) -> bool
    ensures { result ≡ sets_rbp code.now }
{
    code == [0x55, 0x48, 0x89, 0xe5].as_slice() || code == [0x55, 0x48, 0x8b, 0xec].as_slice()
}

/// Returns whether bytes are a STP of x29 and x30 below sp and a MOV of sp to x29.
fn sets_x29(code: &[u8]) -> bool
    ensures { result ≡ sets_x29 code.now }
{
    byte_of(code, 0) == 0xfd
        && byte_of(code, 1) == 0x7b
        && byte_of(code, 2) >= 0x80
        && byte_of(code, 3) == 0xa9
        && back(code, 4) == [0xfd, 0x03, 0x00, 0x91].as_slice()
}

/// Returns whether an address (AVMA) lies right after a call of so many bytes.
fn is_x86_64_of<M: CodeMemory>(memory: &M, address: u64, size: u64) -> bool
    ensures { result ≡ is_after is_call_x86_64 (M.code memory.now).bytes address size }
{
    match memory.bytes_at(address.saturating_sub(size), size) {
        Some(code) => is_call_x86_64(code),
        None => false,
    }
}

/// Returns whether an address (AVMA) lies right after an indirect call of x86_64.
fn is_after_indirect_call<M: CodeMemory>(memory: &M, address: u64) -> bool
    ensures { result ≡ is_after_indirect_call (M.code memory.now).bytes address }
{
    is_indirect_of(memory, address, 2)
        || is_indirect_of(memory, address, 3)
        || is_indirect_of(memory, address, 4)
        || is_indirect_of(memory, address, 6)
        || is_indirect_of(memory, address, 7)
}

/// Returns whether an address (AVMA) lies right after an indirect call of so many bytes.
fn is_indirect_of<M: CodeMemory>(memory: &M, address: u64, size: u64) -> bool
    ensures { result ≡ is_after is_indirect_call (M.code memory.now).bytes address size }
{
    match memory.bytes_at(address.saturating_sub(size), size) {
        Some(code) => is_indirect_call(code),
        None => false,
    }
}

/// Returns whether bytes are a call of x86_64.
fn is_call_x86_64(code: &[u8]) -> bool
    ensures { result ≡ is_call_x86_64 code.now }
{
    is_direct_call(code) || is_indirect_call(code)
}

/// Returns whether bytes are `E8` with an offset of 32 bits.
fn is_direct_call(code: &[u8]) -> bool
    ensures { result ≡ is_direct_call code.now }
{
    code.len() == 5 && byte_of(code, 0) == 0xe8
}

/// Returns whether bytes are `FF /2` with its operand.
fn is_indirect_call(code: &[u8]) -> bool
    ensures { result ≡ is_indirect_call code.now }
{
    let modrm = byte_of(code, 1);
    let base = byte_of(code, 2) % 8;
    byte_of(code, 0) == 0xff
        && (modrm / 8) % 8 == 2
        && code.len() == modrm_length(modrm / 64, modrm % 8, base)
}

/// Returns how long an instruction of one opcode byte and a ModR/M byte is.
fn modrm_length(mode: u8, rm: u8, base: u8) -> usize
    ensures { result ≡ modrm_length mode rm base }
{
    if mode == 3 {
        2
    } else if mode == 1 {
        if rm == 4 { 4 } else { 3 }
    } else if mode == 2 {
        if rm == 4 { 7 } else { 6 }
    } else if rm == 5 {
        6
    } else if rm == 4 {
        if base == 5 { 7 } else { 3 }
    } else {
        2
    }
}

/// Returns where a direct call of x86_64 leads that ends at an address.
fn target_x86_64(address: u64, code: &[u8]) -> Option<u64>
    ensures { result ≡ target_x86_64 address code.now }
{
    if !is_direct_call(code) {
        return None;
    }
    let distance = distance_of(0x8000_0000, number_of(code, 1));
    Some(address.wrapping_add(distance))
}

/// Returns whether bytes are a call of aarch64.
fn is_call_aarch64(code: &[u8]) -> bool
    ensures { result ≡ is_call_aarch64 code.now }
{
    byte_of(code, 3) / 4 == 0x25
        || (byte_of(code, 3) == 0xd6
            && byte_of(code, 2) == 0x3f
            && byte_of(code, 1) / 4 == 0
            && byte_of(code, 0) % 32 == 0)
}

/// Returns where a `BL` leads that ends at an address.
fn target_aarch64(address: u64, code: &[u8]) -> Option<u64>
    ensures { result ≡ target_aarch64 address code.now }
{
    if byte_of(code, 3) / 4 != 0x25 {
        return None;
    }
    let words = number_of(code, 0) % 0x400_0000;
    let distance = distance_of(0x800_0000, 4 * words);
    Some(address.saturating_sub(4).wrapping_add(distance))
}

/// Returns a signed distance, which is negative from a limit on, modulo 2^64.
fn distance_of(limit: u64, distance: u64) -> u64
    requires small { limit ≤ 2 ^ 31 }
    requires within { distance + 1 ≤ 2 * limit }
    ensures { result ≡ distance_of limit distance }
{
    if distance < limit {
        distance
    } else {
        distance + (u64::MAX - 2 * limit + 1)
    }
}

/// Returns the number of 32 bits at a place of code, as if zeros were beyond its end.
fn number_of(code: &[u8], at: usize) -> u64
    requires { at ≤ 1 }
    ensures number { result ≡ number_of code.now at }
    ensures small { result + 1 ≤ 2 ^ 32 }
{
    u64::from(byte_of(code, at))
        + 0x100 * u64::from(byte_of(code, at + 1))
        + 0x1_0000 * u64::from(byte_of(code, at + 2))
        + 0x100_0000 * u64::from(byte_of(code, at + 3))
}

/// Returns a byte of code, or 0 beyond its end.
fn byte_of(code: &[u8], at: usize) -> u8
    ensures { result ≡ byte_of code.now at }
{
    match code.get(at) {
        Some(byte) => *byte,
        None => 0,
    }
}
