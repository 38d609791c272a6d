//! Instruction words of aarch64: which word is which instruction, and its fields (Arm Architecture
//! Reference Manual, "A64 instruction set encoding").
ghost use Rattle.std.specs.Prelude.{◌≡◌, ◌+◌, ◌<◌, ◌≤◌, pos, negsuc, ◌≤ℤ◌, ◌==◌, length, IsTrue, ◌↔◌, Some, OnSome, IfNone};
ghost use Rattle.framehop_analysis.specs.Aarch64.Words.{word_at, addressing, first_register, second_register, is_store, is_load, is_sub_sp, is_add_sp, is_add_fp, is_indexed, pair_offset, immediate, is_pacibsp, is_return, is_b, is_br, is_braa, is_mov};

/// Returns the instruction word at an offset (in bytes), or `None` where the slice does not have
/// all of its four bytes.
#[inline]
pub fn word_at(bytes: &[u8], at: usize) -> Option<u32>
    ensures value { result ≡ word_at bytes.now at }
    ensures within { OnSome result (at + 4 ≤ length bytes.now) }
    ensures whole { IfNone result (length bytes.now < at + 4) }
{
    if bytes.len() < 4 || at > bytes.len() - 4 {
        return None;
    }
    Some(u32::from_le_bytes([bytes[at], bytes[at + 1], bytes[at + 2], bytes[at + 3]]))
}

/// Returns whether the slice has this instruction word at the offset (in bytes).
#[inline]
pub(crate) fn has_word(bytes: &[u8], at: usize, word: u32) -> bool
    ensures value { IsTrue result ↔ (word_at bytes.now at ≡ Some word) }
    ensures within { IsTrue result → at + 4 ≤ length bytes.now }
{
    match word_at(bytes, at) {
        Some(found) => found == word,
        None => false,
    }
}

/// Returns whether the word is `stp` of two 64-bit registers to an address from sp, in any of the three
/// addressing modes.
#[inline]
pub(crate) fn is_store(word: u32) -> bool
    ensures { result ≡ is_store word }
{
    (word >> 22) & 0b1011111001 == 0b1010100000
        && (word >> 23) & 0b11 != 0
        && (word >> 5) & 0b11111 == 31
}

/// Returns whether the word is `ldp` of two 64-bit registers from an address from sp, in any of the three
/// addressing modes.
#[inline]
pub(crate) fn is_load(word: u32) -> bool
    ensures { result ≡ is_load word }
{
    (word >> 22) & 0b1011111001 == 0b1010100001
        && (word >> 23) & 0b11 != 0
        && (word >> 5) & 0b11111 == 31
}

/// Returns whether a pair access writes its address back to sp, before the access or after it.
#[inline]
pub fn is_indexed(word: u32) -> bool
    ensures { result ≡ is_indexed word }
{
    (word >> 23) & 0b11 != 0b10
}

/// Returns whether a pair access is post-indexed: it begins at sp as it is, and moves sp afterwards.
#[inline]
pub(crate) fn is_post_indexed(word: u32) -> bool
    ensures { result ≡ (addressing word == 1) }
{
    (word >> 23) & 0b11 == 0b01
}

/// Returns the number of the first register of a pair access.
#[inline]
pub(crate) fn first_register(word: u32) -> u32
    ensures { result ≡ first_register word }
{
    word & 0b11111
}

/// Returns the number of the second register of a pair access.
#[inline]
pub(crate) fn second_register(word: u32) -> u32
    ensures { result ≡ second_register word }
{
    (word >> 10) & 0b11111
}

/// Returns the signed offset of a pair access, in bytes.
#[inline]
pub fn pair_offset(word: u32) -> i128
    ensures value { result ≡ pair_offset word }
    ensures low { negsuc 511 ≤ℤ result }
    ensures high { result ≤ℤ pos 504 }
{
    let imm7 = i128::from((word >> 15) & 0b1111111);
    if imm7 < 64 { imm7 * 8 } else { imm7 * 8 - 1024 }
}

/// Returns whether the word is `sub sp, sp, #imm`.
#[inline]
pub(crate) fn is_sub_sp(word: u32) -> bool
    ensures { result ≡ is_sub_sp word }
{
    (word >> 23) & 0b111111111 == 0b110100010 && (word >> 5) & 0b11111 == 31 && word & 0b11111 == 31
}

/// Returns whether the word is `add sp, sp, #imm`.
#[inline]
pub(crate) fn is_add_sp(word: u32) -> bool
    ensures { result ≡ is_add_sp word }
{
    (word >> 23) & 0b111111111 == 0b100100010 && (word >> 5) & 0b11111 == 31 && word & 0b11111 == 31
}

/// Returns whether the word is `add x29, sp, #imm`, of which `mov x29, sp` is the case with 0.
#[inline]
pub(crate) fn is_add_fp(word: u32) -> bool
    ensures { result ≡ is_add_fp word }
{
    (word >> 23) & 0b111111111 == 0b100100010 && (word >> 5) & 0b11111 == 31 && word & 0b11111 == 29
}

/// Returns the immediate of `add` or `sub`, shifted by 12 bits where the word says so.
#[inline]
pub fn immediate(word: u32) -> i128
    ensures value { result ≡ pos (immediate word) }
    ensures low { pos 0 ≤ℤ result }
    ensures high { result ≤ℤ pos 16773120 }
{
    let imm12 = i128::from((word >> 10) & 0b111111111111);
    if (word >> 22) & 1 == 1 {
        imm12 * 4096
    } else {
        imm12
    }
}

/// Returns whether the word is `pacibsp`, which signs lr.
#[inline]
pub(crate) fn is_pacibsp(word: u32) -> bool
    ensures { result ≡ is_pacibsp word }
{
    word == 0xd503237f
}

/// Returns whether the word is `ret`, or `retab`, which authenticates lr as it returns.
#[inline]
pub fn is_return(word: u32) -> bool
    ensures { result ≡ is_return word }
{
    word == 0xd65f03c0 || word == 0xd65f0fff
}

/// Returns whether the word is `b`.
#[inline]
pub(crate) fn is_b(word: u32) -> bool
    ensures { result ≡ is_b word }
{
    word >> 26 == 0b000101
}

/// Returns whether the word is `br xN`.
#[inline]
pub(crate) fn is_br(word: u32) -> bool
    ensures { result ≡ is_br word }
{
    word & 0xff_ff_fc_1f == 0xd6_1f_00_00
}

/// Returns whether the word is `braa xN, x16`.
#[inline]
pub(crate) fn is_braa(word: u32) -> bool
    ensures { result ≡ is_braa word }
{
    word & 0xff_ff_fc_00 == 0xd7_1f_08_00 && word & 0b11111 == 16
}

/// Returns whether the word is `mov x16, #imm`.
#[inline]
pub(crate) fn is_mov(word: u32) -> bool
    ensures { result ≡ is_mov word }
{
    (word >> 23) & 0b111000111 == 0b110000101 && word & 0b11111 == 16
}
