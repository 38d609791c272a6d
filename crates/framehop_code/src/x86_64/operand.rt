//! The operands of an instruction: general registers and places in memory (Intel 64 and IA-32 Architectures Software
//! Developer's Manual, volume 2, section 2.1.5, "Addressing-Mode Encoding of ModR/M and SIB Bytes", and tables 2-2 and
//! 3-1).
ghost use Rattle.std.specs.Prelude.{◌≡◌};
ghost use Rattle.framehop_code.specs.X86_64.Operand.{column_of, numbered, is_register, reg_of, reg_register, rm_register, opcode_register, is_word, operand_size, width_of, extended, base_of, scale_of, index_of, address_of, scaled_by, place_of, rm_operand, target_of};

use super::instruction::{Map, Opcode, Parts, Prefixes};
use crate::action::{Address, Index, Operand, Place, Width};
use framehop_cfi::rule::Register;

/// Returns the DWARF number of the general register that has a number from 0 to 15 in instructions.
///
/// Source: System V ABI for AMD64, figure 3.36.
pub(crate) fn column_of(number: u8) -> Register
    ensures { result ≡ column_of number }
{
    match number {
        1 => Register(2),
        2 => Register(1),
        4 => Register(7),
        5 => Register(6),
        6 => Register(4),
        7 => Register(5),
        _ => Register(u16::from(number)),
    }
}

/// Returns the general register that has a number in instructions, by its low three bits and whether its fourth bit is
/// set.
pub(crate) fn numbered(number: u8, high: bool) -> Register
    ensures { result ≡ numbered number high }
{
    if high {
        column_of(number % 8 + 8)
    } else {
        column_of(number % 8)
    }
}

/// Returns whether r/m of the ModRM byte is a register.
pub(crate) fn is_register(parts: Parts) -> bool
    ensures { result ≡ is_register parts }
{
    parts.address.modrm / 64 == 3
}

/// Returns reg of the ModRM byte, without its fourth bit.
pub(crate) fn reg_of(parts: Parts) -> u8
    ensures { result ≡ reg_of parts }
{
    parts.address.modrm / 8 % 8
}

/// Returns the general register that reg of the ModRM byte names.
pub(crate) fn reg_register(parts: Parts) -> Register
    ensures { result ≡ reg_register parts }
{
    numbered(parts.address.modrm / 8, parts.opcode.prefixes.rex.r)
}

/// Returns the general register that r/m of the ModRM byte names.
pub(crate) fn rm_register(parts: Parts) -> Register
    ensures { result ≡ rm_register parts }
{
    numbered(parts.address.modrm, parts.opcode.prefixes.rex.b)
}

/// Returns the general register of the opcode's low three bits.
pub(crate) fn opcode_register(opcode: Opcode) -> Register
    ensures { result ≡ opcode_register opcode }
{
    numbered(opcode.byte, opcode.prefixes.rex.b)
}

/// Returns whether a general operand has 16 bits: a prefix 66 without REX.W.
pub(crate) fn is_word(prefixes: Prefixes) -> bool
    ensures { result ≡ is_word prefixes }
{
    prefixes.operand_size && !prefixes.rex.w
}

/// Returns the size of a general operand, in bytes.
pub(crate) fn operand_size(prefixes: Prefixes) -> u64
    ensures { result ≡ operand_size prefixes }
{
    if prefixes.rex.w {
        8
    } else if prefixes.operand_size {
        2
    } else {
        4
    }
}

/// Returns the width of a general operand, or `None` for 16 bits.
pub(crate) fn width_of(prefixes: Prefixes) -> Option<Width>
    ensures { result ≡ width_of prefixes }
{
    if prefixes.rex.w {
        Some(Width::Eight)
    } else if prefixes.operand_size {
        None
    } else {
        Some(Width::Four)
    }
}

/// Returns a number with its sign extended to eight bytes.
pub(crate) fn extended(number: i32) -> u64
    ensures { result ≡ extended number }
{
    i64::from(number).cast_unsigned()
}

/// Returns the operand that r/m of the ModRM byte names.
pub(crate) fn rm_operand(parts: Parts) -> Operand
    ensures { result ≡ rm_operand parts }
{
    if is_register(parts) {
        Operand::Register(rm_register(parts))
    } else {
        Operand::Memory(place_of(parts, 1))
    }
}

/// Returns the place of a memory operand. By EVEX its displacement of one byte counts units of so many bytes.
pub(crate) fn place_of(parts: Parts, unit: u64) -> Place
    ensures { result ≡ place_of parts unit }
{
    if parts.opcode.prefixes.segment || parts.opcode.prefixes.address_size {
        return Place::Elsewhere;
    }
    Place::At(scaled_by(address_of(parts), parts, unit))
}

/// Returns an address with its displacement taken as many times as EVEX asks for.
fn scaled_by(address: Address, parts: Parts, unit: u64) -> Address
    ensures { result ≡ scaled_by address parts unit }
{
    match parts.opcode.map {
        Map::Vector(fields) if fields.is_evex && parts.address.modrm / 64 == 1 => Address {
            displacement: address.displacement.wrapping_mul(unit),
            ..address
        },
        _ => address,
    }
}

/// Returns the address that ModRM, SIB and the displacement are.
pub(crate) fn address_of(parts: Parts) -> Address
    ensures { result ≡ address_of parts }
{
    let bytes = parts.address;
    let is_sum = bytes.modrm / 64 != 0;
    let displacement = extended(bytes.displacement);
    if bytes.modrm % 8 == 4 {
        return Address {
            base: base_of(bytes.sib, is_sum, parts.opcode.prefixes.rex.b),
            index: index_of(bytes.sib, parts.opcode.prefixes.rex.x),
            displacement,
            from_next: false,
        };
    }
    let base = base_of(bytes.modrm, is_sum, parts.opcode.prefixes.rex.b);
    Address {
        base,
        index: None,
        displacement,
        from_next: base.is_none(),
    }
}

/// Returns the base register of an address, by the byte with its low three bits and the fourth one: 5 is none with mod
/// 0.
fn base_of(byte: u8, is_sum: bool, high: bool) -> Option<Register>
    ensures { result ≡ base_of byte is_sum high }
{
    if byte % 8 == 5 && !is_sum {
        None
    } else {
        Some(numbered(byte, high))
    }
}

/// Returns the index register of an address, by the SIB byte and the fourth bit of its index: 4 is none.
fn index_of(sib: u8, high: bool) -> Option<Index>
    ensures { result ≡ index_of sib high }
{
    if sib / 8 % 8 == 4 && !high {
        return None;
    }
    Some(Index {
        register: numbered(sib / 8, high),
        scale: scale_of(sib / 64),
    })
}

/// Returns what an index register is multiplied by.
fn scale_of(bits: u8) -> u8
    ensures { result ≡ scale_of bits }
{
    match bits {
        0 => 1,
        1 => 2,
        2 => 4,
        _ => 8,
    }
}

/// Returns the target of a direct jump or call.
pub(crate) fn target_of(parts: Parts) -> Address
    ensures { result ≡ target_of parts }
{
    Address {
        base: None,
        index: None,
        displacement: extended(parts.immediate),
        from_next: true,
    }
}
