//! What an aarch64 instruction does to `sp` and `x29`, and where it leads, by its word (Arm Architecture Reference Manual
//! for A-profile, "A64 base instruction descriptions").
ghost use Rattle.std.specs.Prelude.{◌≡◌, pos, negsuc, ◌≤ℤ◌, ◌+◌, ◌<◌, ◌≤◌, length, IfSome};
ghost use Rattle.framehop_core.specs.Bits.{bits_at};
ghost use Rattle.framehop_code.specs.Aarch64.Machine.{AreAsMachine};
ghost use Rattle.framehop_code.specs.Aarch64.Instruction.{signed, numbered, setting, writing, moving, added, pair_offset, imm9, moving_by_pair, writing_pair, distance, leading, register_flow, exclusive, compare_pair, memory_copy, written_back, effect_of_class, effect_of, instruction_at};

use super::encoding::{Class, class_of};
use crate::effect::{Base, Change, Effect, Flow, plain, with_register};
use framehop_cfi::numbers::read_u32;

/// The size of an instruction, in bytes.
const SIZE: usize = 4;

/// Returns the instruction at an offset of code, or `None` where the bytes end.
#[tactic(auto, unfolding(crate::specs::Aarch64::Instruction::instruction_at, framehop_cfi::specs::Numbers::u32_at))]
pub fn read_instruction(code: &[u8], at: usize) -> Option<Effect>
    ensures exact { result ≡ instruction_at code.now at }
    ensures machine { AreAsMachine code.now at result }
    ensures sized { IfSome result (λ effect. (0 < effect.size) × (at + effect.size ≤ length code.now)) }
{
    match read_u32(code, at) {
        Ok((word, _)) => Some(effect_of(word)),
        Err(_) => None,
    }
}

/// Returns the effect of an instruction, by its word.
#[tactic(auto, unfolding(crate::specs::Aarch64::Instruction::effect_of))]
pub(crate) fn effect_of(word: u32) -> Effect
    ensures exact { result ≡ effect_of word }
    ensures size { result.size ≡ 4 }
{
    effect_of_class(word, class_of(word))
}

/// Returns the effect of an instruction, by its class.
fn effect_of_class(word: u32, class: Class) -> Effect
    ensures exact { result ≡ effect_of_class word class }
    ensures size { result.size ≡ 4 }
{
    let next = plain(SIZE);
    let rd = bits(word, 0, 5);
    match class {
        Class::Keep => next,
        Class::Padding => leading(Flow::Padding),
        Class::Stop => leading(Flow::Leaves),
        Class::Jump => leading(Flow::Jump(distance(bits(word, 0, 26), 0x200_0000))),
        Class::Call => leading(Flow::Call),
        Class::Branch => leading(Flow::Branch(distance(bits(word, 5, 19), 0x4_0000))),
        Class::TestBranch => leading(Flow::Branch(distance(bits(word, 5, 14), 0x2000))),
        Class::BranchRegister => leading(register_flow(word)),
        Class::WriteRd => writing(next, rd),
        Class::SetRd => setting(next, rd, Change::Unknown),
        Class::AddImmediate => setting(next, rd, added(word)),
        Class::WriteRt2 => writing_pair(next, word),
        Class::Exclusive => exclusive(word),
        Class::ComparePair => compare_pair(word),
        Class::MemoryCopy => memory_copy(word),
        _ => written_back(word, class),
    }
}

/// Returns an instruction that only leads somewhere.
fn leading(flow: Flow) -> Effect
    ensures exact { result ≡ leading flow }
    ensures size { result.size ≡ 4 }
{
    Effect {
        flow,
        ..plain(SIZE)
    }
}

/// Returns how far a jump leads from the next instruction, in bytes, by its distance in words from this one and the value
/// of that field's highest bit.
pub(crate) fn distance(words: u32, highest: u32) -> i64
    ensures { result ≡ distance words highest }
{
    signed(words, highest) * 4 - 4
}

/// Returns where BR, BLR, RET and their kin lead, by opc: BLR is 1, RET is 2; 9 is BLRAA with a modifier.
fn register_flow(word: u32) -> Flow
    ensures { result ≡ register_flow word }
{
    match bits(word, 21, 4) {
        1 | 9 => Flow::Call,
        2 => Flow::Return,
        _ => Flow::Leaves,
    }
}

/// Returns what ADD and SUB (immediate) make of Rd.
fn added(word: u32) -> Change
    ensures { result ≡ added word }
{
    let unit = if bits(word, 22, 1) == 1 { 4096 } else { 1 };
    let bytes = i64::from(bits(word, 10, 12)) * unit;
    match numbered(bits(word, 5, 5)) {
        Some(base) => Change::Sum {
            base,
            offset: if bits(word, 30, 1) == 1 {
                0 - bytes
            } else {
                bytes
            },
        },
        None => Change::Unknown,
    }
}

/// Returns the effect of an exclusive or ordered access, or CAS: Rs is written, and by a load (L is 1) Rt and Rt2.
fn exclusive(word: u32) -> Effect
    ensures exact { result ≡ exclusive word }
    ensures size { result.size ≡ 4 }
{
    let effect = writing(plain(SIZE), bits(word, 16, 5));
    if bits(word, 22, 1) == 1 {
        writing_pair(effect, word)
    } else {
        effect
    }
}

/// Returns the effect of CASP: Rs is an even number.
fn compare_pair(word: u32) -> Effect
    ensures exact { result ≡ compare_pair word }
    ensures size { result.size ≡ 4 }
{
    if bits(word, 17, 4) == 14 {
        writing(plain(SIZE), 29)
    } else {
        plain(SIZE)
    }
}

/// Returns the effect of CPY and SET.
fn memory_copy(word: u32) -> Effect
    ensures exact { result ≡ memory_copy word }
    ensures size { result.size ≡ 4 }
{
    let effect = writing(plain(SIZE), bits(word, 0, 5));
    writing(writing(effect, bits(word, 5, 5)), bits(word, 16, 5))
}

/// Returns the effect of an access that changes its base register. A register that is loaded and is the base too has any value.
fn written_back(word: u32, class: Class) -> Effect
    ensures exact { result ≡ written_back word class }
    ensures size { result.size ≡ 4 }
{
    let next = plain(SIZE);
    match class {
        Class::Indexed => moving(next, word, Some(imm9(word))),
        Class::LoadIndexed => writing(moving(next, word, Some(imm9(word))), bits(word, 0, 5)),
        Class::TagIndexed => moving(next, word, Some(imm9(word) * 16)),
        Class::PairIndexed | Class::VectorPairIndexed => moving_by_pair(next, word, class),
        Class::LoadPairIndexed => writing_pair(moving_by_pair(next, word, class), word),
        Class::WriteRtAndBack => moving(writing(next, bits(word, 0, 5)), word, None),
        _ => moving(next, word, None),
    }
}

/// Returns imm9, in bytes.
pub(crate) fn imm9(word: u32) -> i64
    ensures exact { result ≡ imm9 word }
    ensures least { negsuc 8589934591 ≤ℤ result }
    ensures most { result ≤ℤ pos 8589934592 }
{
    signed(bits(word, 12, 9), 0x100)
}

/// Returns the effect with the base register moved by imm7, in the unit of a pair.
fn moving_by_pair(effect: Effect, word: u32, class: Class) -> Effect
    ensures exact { result ≡ moving_by_pair effect word class }
    ensures size { result.size ≡ effect.size }
{
    moving(effect, word, Some(pair_offset(word, class)))
}

/// Returns the effect with so many bytes added to the base register Rn, or with any value in it.
fn moving(effect: Effect, word: u32, bytes: Option<i64>) -> Effect
    ensures exact { result ≡ moving effect word bytes }
    ensures size { result.size ≡ effect.size }
{
    let number = bits(word, 5, 5);
    match (numbered(number), bytes) {
        (Some(base), Some(offset)) => setting(effect, number, Change::Sum { base, offset }),
        (Some(_), None) => setting(effect, number, Change::Unknown),
        (None, _) => effect,
    }
}

/// Returns imm7 of a pair, in bytes: it counts 4, 8 or 16 bytes by opc. Of general registers 1 is LDPSW, or STGP.
fn pair_offset(word: u32, class: Class) -> i64
    ensures { result ≡ pair_offset word class }
{
    let units = signed(bits(word, 15, 7), 0x40);
    match (class, bits(word, 30, 2)) {
        (_, 0) => units * 4,
        (Class::VectorPairIndexed, 1) => units * 8,
        (Class::VectorPairIndexed, _) => units * 16,
        (Class::LoadPairIndexed, 1) => units * 4,
        (_, 1) => units * 16,
        (_, _) => units * 8,
    }
}

/// Returns a number with the sign that its highest bit is, by that bit's value.
pub(crate) fn signed(number: u32, highest: u32) -> i64
    ensures exact { result ≡ signed number highest }
    ensures least { negsuc 8589934591 ≤ℤ result }
    ensures most { result ≤ℤ pos 8589934592 }
{
    let number = i64::from(number);
    let highest = i64::from(highest);
    if number < highest {
        number
    } else {
        number - 2 * highest
    }
}

/// Returns the effect with Rt and Rt2 overwritten.
fn writing_pair(effect: Effect, word: u32) -> Effect
    ensures exact { result ≡ writing_pair effect word }
    ensures size { result.size ≡ effect.size }
{
    writing(writing(effect, bits(word, 0, 5)), bits(word, 10, 5))
}

/// Returns the effect with a register overwritten by any value, of which 31 is no register.
fn writing(effect: Effect, number: u32) -> Effect
    ensures exact { result ≡ writing effect number }
    ensures size { result.size ≡ effect.size }
{
    if number == 29 {
        setting(effect, 29, Change::Unknown)
    } else {
        effect
    }
}

/// Returns the effect with a register changed, of which 31 is `sp`.
fn setting(effect: Effect, number: u32, change: Change) -> Effect
    ensures exact { result ≡ setting effect number change }
    ensures size { result.size ≡ effect.size }
{
    with_register(effect, numbered(number), change)
}

/// Returns which of the two registers a number names: 31 is `sp`.
fn numbered(number: u32) -> Option<Base>
    ensures { result ≡ numbered number }
{
    match number {
        31 => Some(Base::Sp),
        29 => Some(Base::Fp),
        _ => None,
    }
}

/// Returns so many bits of a word, from a lowest one on.
pub(crate) fn bits(word: u32, low: u32, count: u32) -> u32
    requires low { low < 32 }
    requires count { count < 32 }
    ensures { result ≡ bits_at word low count }
{
    (word >> low) % (1 << count)
}
