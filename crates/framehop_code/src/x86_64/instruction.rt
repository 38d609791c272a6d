//! The parts of an x86_64 instruction: prefixes, opcode, ModRM byte, SIB byte, displacement and immediate operand (Intel 64
//! and IA-32 Architectures Software Developer's Manual, volume 2, chapter 2, "Instruction format").
//!
//! An instruction has at most 15 bytes. Those after them are not looked at, so that a longer one ends too early.
ghost use Rattle.std.specs.Prelude.{◌≡◌, ◌+◌, ◌<◌, ◌≤◌, ◌%◌, ◌/◌, ◌==◌, not, take, drop, length, position, IfSome, IfNone, IfOk};
ghost use Rattle.framehop_code.specs.X86_64.Instruction.{bit, is_legacy_prefix, rex_of, prefixes_of, prefixes_before, prefixes_at, opcode_of_row, vector_prefixes, vex_vector, evex_vector, evex_size, vector_opcode_at, long_vector_at, short_vector_at, evex_at, is_xop, escaped_at, opcode_at, has_sib, displacement_size, immediate_size, signed_at, skipped, sib_at, memory_at, address_at, immediate_at, parts_at, instruction_at};
ghost use Rattle.framehop_code.specs.X86_64.Machine.{IsAsMachine};
ghost use Rattle.std.specs.List.{list_any};
ghost use Rattle.framehop_cfi.specs.Numbers.{u8_at};

use super::opcode::{
    Immediate, Opcodes, Operands, Operation, one_byte, three_byte_3a, three_byte_38, two_byte,
    vector,
};
use super::operation::effect_of;
use crate::effect::Effect;
use framehop_bytes::bytes::front;
use framehop_cfi::numbers::{read_u8, read_u16, read_u32, read_u64};
use framehop_cfi::read_error::ReadError;

/// The size of the longest instruction, in bytes.
const LONGEST: usize = 15;

/// The bits of a REX prefix, or those of VEX, EVEX or XOP that mean the same.
#[derive(Clone, Copy)]
pub struct Rex {
    /// Whether there is such a prefix.
    pub present: bool,
    /// The operand has 64 bits.
    pub w: bool,
    /// The fourth bit of the ModRM byte's reg.
    pub r: bool,
    /// The fourth bit of the SIB byte's index.
    pub x: bool,
    /// The fourth bit of the ModRM byte's r/m, of the SIB byte's base, or of the register in the opcode.
    pub b: bool,
}

/// The prefixes of an instruction.
#[derive(Clone, Copy)]
pub struct Prefixes {
    /// 66: the operand has 16 bits.
    pub operand_size: bool,
    /// 67: addresses have 32 bits.
    pub address_size: bool,
    /// F2 or F3.
    pub repeated: bool,
    /// F2.
    pub repeated_unequal: bool,
    /// 64 or 65: memory operands count from FS or GS.
    pub segment: bool,
    pub rex: Rex,
}

/// The opcode map of an opcode.
#[derive(Clone, Copy)]
pub enum Map {
    /// Opcodes of one byte.
    OneByte,
    /// Those after 0F.
    TwoByte,
    /// Those after 0F 38.
    ThreeByte38,
    /// Those after 0F 3A.
    ThreeByte3a,
    /// Those after a prefix VEX, EVEX or XOP.
    Vector(Vector),
}

/// What a prefix VEX, EVEX or XOP says besides the bits of `Prefixes`.
#[derive(Clone, Copy)]
pub struct Vector {
    /// The number of the opcode map.
    pub map: u8,
    /// The size of a vector, in bytes.
    pub size: u8,
    /// EVEX: a displacement of one byte counts units of more bytes.
    pub is_evex: bool,
    /// EVEX with a bit by which general registers from 16 on are named.
    pub is_extended: bool,
}

/// An opcode with its prefixes.
#[derive(Clone, Copy)]
pub struct Opcode {
    pub prefixes: Prefixes,
    pub map: Map,
    pub byte: u8,
    /// The register of VEX.vvvv.
    pub vvvv: u8,
    pub operands: Operands,
    pub operation: Operation,
}

/// The bytes of a memory operand, or of two registers.
#[derive(Clone, Copy)]
pub struct Address {
    /// The ModRM byte, or 0.
    pub modrm: u8,
    /// The SIB byte, or 0.
    pub sib: u8,
    /// In bytes.
    pub displacement: i32,
}

/// The parts of an instruction.
#[derive(Clone, Copy)]
pub struct Parts {
    pub opcode: Opcode,
    pub address: Address,
    /// The immediate operand, or 0. Of more than four bytes it is not kept.
    pub immediate: i32,
    /// In bytes.
    pub size: usize,
}

/// Returns the instruction at an offset of code, or `None` where the bytes end or none is recognised.
#[tactic(auto, unfolding(crate::specs::X86_64::Instruction::instruction_at))]
pub fn read_instruction(code: &[u8], at: usize) -> Option<Effect>
    ensures exact { result ≡ instruction_at code.now at }
    ensures machine { IsAsMachine code.now at result }
    ensures sized { IfSome result (λ effect. (0 < effect.size) × (at + effect.size ≤ length code.now)) }
{
    match read_parts(longest_at(code, at)?) {
        Ok(parts) => Some(effect_of(parts)),
        Err(_) => None,
    }
}

/// Returns the parts of the instruction at the front of bytes.
#[tactic(auto, unfolding(crate::specs::X86_64::Instruction::parts_at))]
pub(crate) fn read_parts(bytes: &[u8]) -> Result<Parts, ReadError>
    ensures exact { result ≡ parts_at bytes.now }
    ensures inside { IfOk result (λ parts. (0 < parts.size) × (parts.size ≤ length bytes.now)) }
{
    let (prefixes, next) = read_prefixes(bytes)?;
    let (opcode, next) = read_opcode(prefixes, bytes, next)?;
    let (address, next) = read_address(opcode.operands, bytes, next)?;
    let (immediate, size) = read_immediate(opcode, address.modrm, bytes, next)?;
    Ok(Parts {
        opcode,
        address,
        immediate,
        size,
    })
}

/// Returns the prefixes at the front, and the offset after them.
#[tactic(auto, unfolding(crate::specs::X86_64::Instruction::prefixes_at))]
fn read_prefixes(bytes: &[u8]) -> Result<(Prefixes, usize), ReadError>
    ensures { result ≡ prefixes_at bytes.now }
{
    match count_legacy(bytes) {
        Some(count) => prefixes_before(bytes, count),
        None => Err(ReadError::Eof),
    }
}

/// Returns how many legacy prefixes are at the front, or `None` where nothing follows them.
fn count_legacy(bytes: &[u8]) -> Option<usize>
    ensures { result ≡ position (λ byte. not (is_legacy_prefix byte)) bytes.now }
{
    bytes.iter().position(|byte| !is_legacy_prefix(*byte))
}

/// Returns whether a byte is a legacy prefix: LOCK, REPNE, REP, a segment override, or one of operand or address size.
fn is_legacy_prefix(byte: u8) -> bool
    ensures { result ≡ is_legacy_prefix byte }
{
    matches!(
        byte,
        0x26 | 0x2e | 0x36 | 0x3e | 0x64..=0x67 | 0xf0 | 0xf2 | 0xf3
    )
}

/// Returns so many legacy prefixes with REX, if it follows, and the offset after them.
fn prefixes_before(bytes: &[u8], count: usize) -> Result<(Prefixes, usize), ReadError>
    ensures { result ≡ prefixes_before bytes.now (Some count) }
{
    let (first, after) = read_u8(bytes, count)?;
    let prefixes = prefixes_of(front(bytes, count), first);
    Ok((prefixes, if prefixes.rex.present { after } else { count }))
}

/// Returns the legacy prefixes, and the bits of the byte after them if it is REX.
fn prefixes_of(legacy: &[u8], first: u8) -> Prefixes
    ensures { result ≡ prefixes_of legacy.now first }
{
    Prefixes {
        operand_size: contains(legacy, 0x66),
        address_size: contains(legacy, 0x67),
        repeated: contains(legacy, 0xf2) || contains(legacy, 0xf3),
        repeated_unequal: contains(legacy, 0xf2),
        segment: contains(legacy, 0x64) || contains(legacy, 0x65),
        rex: rex_of(first),
    }
}

/// Returns whether a byte is among others.
fn contains(bytes: &[u8], wanted: u8) -> bool
    ensures { result ≡ list_any (λ byte. byte == wanted) bytes.now }
{
    bytes.iter().any(|byte| *byte == wanted)
}

/// Returns the bits of a byte that may be a REX prefix.
fn rex_of(byte: u8) -> Rex
    ensures { result ≡ rex_of byte }
{
    let present = byte / 16 == 4;
    Rex {
        present,
        w: present && bit(byte, 3),
        r: present && bit(byte, 2),
        x: present && bit(byte, 1),
        b: present && bit(byte, 0),
    }
}

/// Returns the opcode at an offset after the legacy prefixes and REX, and the offset after it.
#[tactic(auto, unfolding(crate::specs::X86_64::Instruction::opcode_at))]
fn read_opcode(prefixes: Prefixes, bytes: &[u8], at: usize) -> Result<(Opcode, usize), ReadError>
    ensures exact { result ≡ opcode_at prefixes bytes.now at }
    ensures inside { IfOk result (λ read. (at < read.1) × (read.1 ≤ length bytes.now)) }
{
    let (byte, next) = read_byte(bytes, at)?;
    if byte == 0x0f {
        return read_escaped(prefixes, bytes, next);
    }
    if byte == 0xc5 {
        return read_short_vector(prefixes, bytes, next);
    }
    if byte == 0x62 {
        return read_evex(prefixes, bytes, next);
    }
    if byte == 0xc4 || (byte == 0x8f && is_xop(bytes, next)) {
        return read_long_vector(prefixes, bytes, next);
    }
    Ok((
        opcode_of_row(prefixes, Map::OneByte, byte, 0, one_byte(byte))?,
        next,
    ))
}

/// Returns the opcode after 0F, and the offset after it.
#[tactic(auto, unfolding(crate::specs::X86_64::Instruction::escaped_at))]
fn read_escaped(prefixes: Prefixes, bytes: &[u8], at: usize) -> Result<(Opcode, usize), ReadError>
    ensures exact { result ≡ escaped_at prefixes bytes.now at }
    ensures inside { IfOk result (λ read. (at < read.1) × (read.1 ≤ length bytes.now)) }
{
    let (byte, next) = read_byte(bytes, at)?;
    match byte {
        0x38 => {
            let (byte, next) = read_byte(bytes, next)?;
            Ok((
                opcode_of_row(prefixes, Map::ThreeByte38, byte, 0, three_byte_38(byte))?,
                next,
            ))
        }
        0x3a => {
            let (byte, next) = read_byte(bytes, next)?;
            Ok((
                opcode_of_row(prefixes, Map::ThreeByte3a, byte, 0, three_byte_3a(byte))?,
                next,
            ))
        }
        _ => Ok((
            opcode_of_row(prefixes, Map::TwoByte, byte, 0, two_byte(byte))?,
            next,
        )),
    }
}

/// Returns the opcode after a prefix VEX of two bytes, whose second one is at an offset: X, B and W are 0, the map is 1.
#[tactic(auto, unfolding(crate::specs::X86_64::Instruction::short_vector_at))]
fn read_short_vector(
    prefixes: Prefixes,
    bytes: &[u8],
    at: usize,
) -> Result<(Opcode, usize), ReadError>
    ensures exact { result ≡ short_vector_at prefixes bytes.now at }
    ensures inside { IfOk result (λ read. (at < read.1) × (read.1 ≤ length bytes.now)) }
{
    let (low, next) = read_byte(bytes, at)?;
    let high = low / 128 * 128 + 0x7f;
    let prefixes = vector_prefixes(prefixes, high, low % 128);
    read_vector_opcode(prefixes, vex_vector(1, low), 15 - low / 8 % 16, bytes, next)
}

/// Returns the opcode after a prefix EVEX, whose second byte is at an offset.
#[tactic(auto, unfolding(crate::specs::X86_64::Instruction::evex_at))]
fn read_evex(prefixes: Prefixes, bytes: &[u8], at: usize) -> Result<(Opcode, usize), ReadError>
    ensures exact { result ≡ evex_at prefixes bytes.now at }
    ensures inside { IfOk result (λ read. (at < read.1) × (read.1 ≤ length bytes.now)) }
{
    let (high, next) = read_byte(bytes, at)?;
    let (low, next) = read_byte(bytes, next)?;
    let (mask, next) = read_byte(bytes, next)?;
    let prefixes = vector_prefixes(prefixes, high, low);
    read_vector_opcode(
        prefixes,
        evex_vector(high, low, mask),
        15 - low / 8 % 16,
        bytes,
        next,
    )
}

/// Returns whether 8F before an offset begins a prefix XOP: a map from 8 on follows. Else it is POP.
fn is_xop(bytes: &[u8], at: usize) -> bool
    ensures { result ≡ is_xop bytes.now at }
{
    match bytes.get(at) {
        Some(byte) => *byte % 32 >= 8,
        None => false,
    }
}

/// Returns the opcode after a prefix VEX of three bytes, or XOP, whose second byte is at an offset.
#[tactic(auto, unfolding(crate::specs::X86_64::Instruction::long_vector_at))]
fn read_long_vector(
    prefixes: Prefixes,
    bytes: &[u8],
    at: usize,
) -> Result<(Opcode, usize), ReadError>
    ensures exact { result ≡ long_vector_at prefixes bytes.now at }
    ensures inside { IfOk result (λ read. (at < read.1) × (read.1 ≤ length bytes.now)) }
{
    let (high, next) = read_byte(bytes, at)?;
    let (low, next) = read_byte(bytes, next)?;
    let prefixes = vector_prefixes(prefixes, high, low);
    read_vector_opcode(
        prefixes,
        vex_vector(high % 32, low),
        15 - low / 8 % 16,
        bytes,
        next,
    )
}

/// Returns the prefixes that VEX, EVEX or XOP has, by its bytes with the inverted bits R, X and B, and with W and pp.
fn vector_prefixes(prefixes: Prefixes, high: u8, low: u8) -> Prefixes
    ensures { result ≡ vector_prefixes prefixes high low }
{
    Prefixes {
        operand_size: low % 4 == 1,
        repeated: low % 4 >= 2,
        repeated_unequal: low % 4 == 3,
        rex: Rex {
            present: true,
            w: bit(low, 7),
            r: !bit(high, 7),
            x: !bit(high, 6),
            b: !bit(high, 5),
        },
        ..prefixes
    }
}

/// Returns what a prefix VEX or XOP says, by its map and by its byte with L.
fn vex_vector(map: u8, low: u8) -> Vector
    ensures { result ≡ vex_vector map low }
{
    Vector {
        map,
        size: if bit(low, 2) { 32 } else { 16 },
        is_evex: false,
        is_extended: false,
    }
}

/// Returns what a prefix EVEX says, by its three bytes.
fn evex_vector(high: u8, low: u8, mask: u8) -> Vector
    ensures { result ≡ evex_vector high low mask }
{
    Vector {
        map: high % 8,
        size: evex_size(mask / 32 % 4),
        is_evex: true,
        is_extended: bit(high, 3) || !bit(low, 2),
    }
}

/// Returns the size of a vector, in bytes, by L'L of EVEX.
fn evex_size(length: u8) -> u8
    ensures { result ≡ evex_size length }
{
    match length {
        0 => 16,
        1 => 32,
        _ => 64,
    }
}

/// Returns a bit of a byte.
fn bit(byte: u8, place: u8) -> bool
    requires { place < 8 }
    ensures { result ≡ bit byte place }
{
    (byte >> place) % 2 == 1
}

/// Returns the opcode at an offset after the prefix VEX, EVEX or XOP, and the offset after it.
#[tactic(auto, unfolding(crate::specs::X86_64::Instruction::vector_opcode_at))]
fn read_vector_opcode(
    prefixes: Prefixes,
    fields: Vector,
    vvvv: u8,
    bytes: &[u8],
    at: usize,
) -> Result<(Opcode, usize), ReadError>
    ensures exact { result ≡ vector_opcode_at prefixes fields vvvv bytes.now at }
    ensures inside { IfOk result (λ read. (at < read.1) × (read.1 ≤ length bytes.now)) }
{
    let (byte, next) = read_byte(bytes, at)?;
    let row = vector(fields.map, byte);
    Ok((
        opcode_of_row(prefixes, Map::Vector(fields), byte, vvvv, row)?,
        next,
    ))
}

/// Returns an opcode with the row of its map.
fn opcode_of_row(
    prefixes: Prefixes,
    map: Map,
    byte: u8,
    vvvv: u8,
    row: Option<Opcodes>,
) -> Result<Opcode, ReadError>
    ensures { result ≡ opcode_of_row prefixes map byte vvvv row }
{
    match row {
        Some(Opcodes(_, _, operands, operation)) => Ok(Opcode {
            prefixes,
            map,
            byte,
            vvvv,
            operands,
            operation,
        }),
        None => Err(ReadError::UnknownInstruction),
    }
}

/// Returns the ModRM byte with what it asks for, where the operands have one, and the offset after it.
fn read_address(operands: Operands, bytes: &[u8], at: usize) -> Result<(Address, usize), ReadError>
    requires { at ≤ length bytes.now }
    ensures exact { result ≡ address_at operands bytes.now at }
    ensures inside { IfOk result (λ read. (at ≤ read.1) × (read.1 ≤ length bytes.now)) }
{
    match operands {
        Operands::Bare | Operands::Then(_) => {
            let none = Address {
                modrm: 0,
                sib: 0,
                displacement: 0,
            };
            Ok((none, at))
        }
        Operands::ModRm | Operands::ModRmThen(_) => read_memory(bytes, at),
    }
}

/// Returns the ModRM byte at an offset with what it asks for, and the offset after it.
#[tactic(auto, unfolding(crate::specs::X86_64::Instruction::memory_at))]
fn read_memory(bytes: &[u8], at: usize) -> Result<(Address, usize), ReadError>
    ensures exact { result ≡ memory_at bytes.now at }
    ensures inside { IfOk result (λ read. (at ≤ read.1) × (read.1 ≤ length bytes.now)) }
{
    let (modrm, next) = read_byte(bytes, at)?;
    let (sib, next) = read_sib(modrm, bytes, next)?;
    let (displacement, next) = read_signed(bytes, next, displacement_size(modrm, sib))?;
    let address = Address {
        modrm,
        sib,
        displacement,
    };
    Ok((address, next))
}

/// Returns the SIB byte at an offset where the ModRM byte asks for one, else 0, and the offset after it.
#[tactic(auto, unfolding(crate::specs::X86_64::Instruction::sib_at))]
fn read_sib(modrm: u8, bytes: &[u8], at: usize) -> Result<(u8, usize), ReadError>
    requires { at ≤ length bytes.now }
    ensures exact { result ≡ sib_at modrm bytes.now at }
    ensures inside { IfOk result (λ read. (at ≤ read.1) × (read.1 ≤ length bytes.now)) }
{
    if has_sib(modrm) {
        return read_byte(bytes, at);
    }
    Ok((0, at))
}

/// Returns whether a SIB byte follows a ModRM byte.
fn has_sib(modrm: u8) -> bool
    ensures { result ≡ has_sib modrm }
{
    modrm / 64 != 3 && modrm % 8 == 4
}

/// Returns the byte at an offset, and the offset after it.
#[tactic(auto, unfolding(framehop_cfi::specs::Numbers::u8_at))]
fn read_byte(bytes: &[u8], at: usize) -> Result<(u8, usize), ReadError>
    ensures exact { result ≡ u8_at bytes.now at }
    ensures inside { IfOk result (λ read. (read.1 ≡ at + 1) × (read.1 ≤ length bytes.now)) }
{
    read_u8(bytes, at)
}

/// Returns how many bytes a displacement has, after a ModRM byte and a SIB byte.
fn displacement_size(modrm: u8, sib: u8) -> usize
    ensures { result ≡ displacement_size modrm sib }
{
    let has_no_base = modrm % 8 == 5 || (modrm % 8 == 4 && sib % 8 == 5);
    match modrm / 64 {
        0 if has_no_base => 4,
        1 => 1,
        2 => 4,
        _ => 0,
    }
}

/// Returns the immediate operand, where the operands have one, and the offset after it.
fn read_immediate(
    opcode: Opcode,
    modrm: u8,
    bytes: &[u8],
    at: usize,
) -> Result<(i32, usize), ReadError>
    requires { at ≤ length bytes.now }
    ensures exact { result ≡ immediate_at opcode modrm bytes.now at }
    ensures inside { IfOk result (λ read. (at ≤ read.1) × (read.1 ≤ length bytes.now)) }
{
    match opcode.operands {
        Operands::Bare | Operands::ModRm => Ok((0, at)),
        Operands::Then(immediate) | Operands::ModRmThen(immediate) => {
            read_signed(bytes, at, immediate_size(immediate, opcode.prefixes, modrm))
        }
    }
}

/// Returns the signed number of so many bytes at an offset, and the offset after it. Of none, three or eight bytes it is 0.
#[tactic(auto, unfolding(crate::specs::X86_64::Instruction::signed_at, framehop_cfi::specs::Numbers::u8_at, framehop_cfi::specs::Numbers::u16_at, framehop_cfi::specs::Numbers::u32_at))]
fn read_signed(bytes: &[u8], at: usize, size: usize) -> Result<(i32, usize), ReadError>
    requires { at ≤ length bytes.now }
    ensures exact { result ≡ signed_at bytes.now at size }
    ensures inside { IfOk result (λ read. (at ≤ read.1) × (read.1 ≤ length bytes.now)) }
{
    match size {
        1 => {
            let (number, next) = read_u8(bytes, at)?;
            Ok((i32::from(number.cast_signed()), next))
        }
        2 => {
            let (number, next) = read_u16(bytes, at)?;
            Ok((i32::from(number.cast_signed()), next))
        }
        4 => {
            let (number, next) = read_u32(bytes, at)?;
            Ok((number.cast_signed(), next))
        }
        _ => skip(bytes, at, size),
    }
}

/// Passes so many bytes, and returns 0 and the offset after them.
fn skip(bytes: &[u8], at: usize, size: usize) -> Result<(i32, usize), ReadError>
    requires { at ≤ length bytes.now }
    ensures exact { result ≡ skipped bytes.now at size }
    ensures inside { IfOk result (λ read. (at ≤ read.1) × (read.1 ≤ length bytes.now)) }
{
    if size > bytes.len() - at {
        return Err(ReadError::Eof);
    }
    Ok((0, at + size))
}

/// Returns how many bytes an immediate operand has.
fn immediate_size(immediate: Immediate, prefixes: Prefixes, modrm: u8) -> usize
    ensures { result ≡ immediate_size immediate prefixes modrm }
{
    let long = if prefixes.operand_size && !prefixes.rex.w {
        2
    } else {
        4
    };
    let is_test = modrm / 8 % 8 < 2;
    match immediate {
        Immediate::Byte => 1,
        Immediate::Word => 2,
        Immediate::WordAndByte => 3,
        Immediate::Long => long,
        Immediate::Near => 4,
        Immediate::Full => if prefixes.rex.w { 8 } else { long },
        Immediate::Address => if prefixes.address_size { 4 } else { 8 },
        Immediate::ByteOfTest => if is_test { 1 } else { 0 },
        Immediate::LongOfTest => if is_test { long } else { 0 },
    }
}

/// Returns the bytes from an offset on, as many as an instruction can have.
pub(crate) fn longest_at(code: &[u8], at: usize) -> Option<&[u8]>
    ensures some { IfSome result (λ bytes. (at ≤ length code.now) × (bytes.now ≡ take 15 (drop at code.now))) }
    ensures inside { IfSome result (λ bytes. at + length bytes.now ≤ length code.now) }
    ensures none { IfNone result (length code.now < at) }
{
    if at > code.len() {
        return None;
    }
    let rest = &code[at..];
    Some(&rest[..rest.len().min(LONGEST)])
}
