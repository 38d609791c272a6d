//! Registers, numbers and addresses by the fields of an aarch64 instruction (Arm Architecture Reference Manual for
//! A-profile, "A64 base instruction descriptions").
ghost use Rattle.std.specs.Prelude.{◌≡◌, ◌<◌, ◌≤◌};
ghost use Rattle.framehop_code.specs.Aarch64.Fields.{register_at, rd, rn, rt2, rm, value_of, named, set_of, general_set, width_of, word_of, above, ahead, is_set, size_of, pair_size, is_quad, access_size};

use super::instruction::bits;
use crate::action::{Address, Operand, Source, Width};
use framehop_cfi::rule::Register;

/// Returns the register whose number is in five bits of a word, from a lowest one on.
pub(crate) fn register_at(word: u32, low: u32) -> Register
    requires low { low < 32 }
    ensures { result ≡ register_at word low }
{
    Register(((word >> low) % 32) as u16)
}

/// Returns Rd, which is Rt too.
pub(crate) fn rd(word: u32) -> Register
    ensures { result ≡ rd word }
{
    register_at(word, 0)
}

/// Returns Rn, the base register.
pub(crate) fn rn(word: u32) -> Register
    ensures { result ≡ rn word }
{
    register_at(word, 5)
}

/// Returns Rt2.
pub(crate) fn rt2(word: u32) -> Register
    ensures { result ≡ rt2 word }
{
    register_at(word, 10)
}

/// Returns Rm, which is Rs too.
pub(crate) fn rm(word: u32) -> Register
    ensures { result ≡ rm word }
{
    register_at(word, 16)
}

/// Returns the value of a register, of which 31 is the zero register.
pub(crate) fn value_of(register: Register) -> Source
    ensures { result ≡ value_of register }
{
    match register.0 {
        31 => Source::Immediate(0),
        _ => Source::Operand(Operand::Register(register)),
    }
}

/// Returns a register as part of a sum, of which 31 is the zero register.
pub(crate) fn named(register: Register) -> Option<Register>
    ensures { result ≡ named register }
{
    match register.0 {
        31 => None,
        _ => Some(register),
    }
}

/// Returns the set of one register, of which 31 is `sp`.
pub(crate) fn set_of(register: Register) -> u32
    ensures { result ≡ set_of register }
{
    1 << (register.0 % 32)
}

/// Returns the set of one register, of which 31 is the zero register.
pub(crate) fn general_set(register: Register) -> u32
    ensures { result ≡ general_set register }
{
    match register.0 {
        31 => 0,
        _ => set_of(register),
    }
}

/// Returns the width of a register, by sf.
pub(crate) fn width_of(word: u32) -> Width
    ensures { result ≡ width_of word }
{
    if is_set(word, 31) {
        Width::Eight
    } else {
        Width::Four
    }
}

/// Returns a number of any sign as the 64 bits that are added.
pub(crate) fn word_of(number: i64) -> u64
    ensures { result ≡ word_of number }
{
    number.cast_unsigned()
}

/// Returns the address so many bytes above a register.
pub(crate) fn above(register: Register, bytes: i64) -> Address
    ensures { result ≡ above register bytes }
{
    Address {
        base: Some(register),
        index: None,
        displacement: word_of(bytes),
        from_next: false,
    }
}

/// Returns the address so many bytes after the next instruction.
pub(crate) fn ahead(bytes: i64) -> Address
    ensures { result ≡ ahead bytes }
{
    Address {
        base: None,
        index: None,
        displacement: word_of(bytes),
        from_next: true,
    }
}

/// Returns whether a bit is 1.
pub(crate) fn is_set(word: u32, place: u32) -> bool
    requires place { place < 32 }
    ensures { result ≡ is_set word place }
{
    bits(word, place, 1) == 1
}

/// Returns how many bytes are accessed, by size.
pub(crate) fn size_of(word: u32) -> u8
    ensures exact { result ≡ size_of word }
    ensures most { result ≤ 8 }
{
    match bits(word, 30, 2) {
        0 => 1,
        1 => 2,
        2 => 4,
        _ => 8,
    }
}

/// Returns how many bytes a pair has together, by the low bit of size.
pub(crate) fn pair_size(word: u32) -> u64
    ensures { result ≡ pair_size word }
{
    if is_set(word, 30) { 16 } else { 8 }
}

/// Returns whether a vector register of 16 bytes is accessed, by V and opc.
pub(crate) fn is_quad(word: u32) -> bool
    ensures { result ≡ is_quad word }
{
    is_set(word, 26) && is_set(word, 23)
}

/// Returns how many bytes an access to one register has, by size, V and opc.
pub(crate) fn access_size(word: u32) -> u8
    ensures exact { result ≡ access_size word }
    ensures most { result ≤ 16 }
{
    if is_quad(word) { 16 } else { size_of(word) }
}
