//! What an x86_64 instruction does to `rsp` and `rbp`, and where it leads, by its parts (Intel 64 and IA-32 Architectures
//! Software Developer's Manual, volume 2, "Instruction Set Reference", and appendix A.4, "Opcode extensions").
ghost use Rattle.std.specs.Prelude.{◌≡◌};
ghost use Rattle.framehop_code.specs.X86_64.Operation.{base_of, reg_of, reg_register, rm_register, opcode_register, vvvv_register, address_of, overwriting, written, written_if, byte_written, moving_stack, leading, added, group1, copied, loaded_address, group5, framed, exchanged_or_nop, jumping, grouped, effect_of};

use super::instruction::{Address, Opcode, Parts};
use super::opcode::{Operand, Operation};
use crate::effect::{Base, Change, Effect, Flow, plain, with_register};

/// Returns the effect of an instruction, by its parts.
#[tactic(auto, unfolding(crate::specs::X86_64::Operation::effect_of))]
pub(crate) fn effect_of(parts: Parts) -> Effect
    ensures exact { result ≡ effect_of parts }
    ensures size { result.size ≡ parts.size }
{
    let repeated = parts.opcode.prefixes.repeated;
    match parts.opcode.operation {
        Operation::Keep => plain(parts.size),
        Operation::Write(operand) => written(parts, operand),
        Operation::WriteByte(operand) => byte_written(parts, operand),
        Operation::WriteIfRepeated(operand) => written_if(parts, operand, repeated),
        Operation::WriteIfPrefixed(operand) => {
            let has_prefix = repeated || parts.opcode.prefixes.operand_size;
            written_if(parts, operand, has_prefix)
        }
        Operation::WriteUnlessRepeated(operand) => written_if(parts, operand, !repeated),
        Operation::Push => moving_stack(parts, -8),
        Operation::Pop(operand) => overwriting(parts, operand, moving_stack(parts, 8)),
        Operation::Branch => jumping(parts, true),
        Operation::Jump => jumping(parts, false),
        Operation::Call => leading(parts, Flow::Call),
        Operation::Return => leading(parts, Flow::Return),
        Operation::Stop => leading(parts, Flow::Leaves),
        Operation::Nop => leading(parts, Flow::Padding),
        Operation::ExchangeOrNop => exchanged_or_nop(parts),
        Operation::MoveToRm => copied(parts, reg_register(parts), Operand::Rm, rm_register(parts)),
        Operation::MoveToReg => copied(
            parts,
            rm_register(parts),
            Operand::Reg,
            reg_register(parts),
        ),
        Operation::LoadAddress => loaded_address(parts),
        Operation::Enter => framed(parts, false),
        Operation::Leave => framed(parts, true),
        Operation::Group1 => group1(parts),
        Operation::Group5 => group5(parts),
        _ => grouped(parts),
    }
}

/// Returns the effect of a jump, or of a branch if a condition is tested.
fn jumping(parts: Parts, tests: bool) -> Effect
    ensures exact { result ≡ jumping parts tests }
    ensures size { result.size ≡ parts.size }
{
    let distance = i64::from(parts.immediate);
    if tests {
        leading(parts, Flow::Branch(distance))
    } else {
        leading(parts, Flow::Jump(distance))
    }
}

/// Returns the effect of 90: XCHG of r8 and rax with REX.B, else NOP.
fn exchanged_or_nop(parts: Parts) -> Effect
    ensures exact { result ≡ exchanged_or_nop parts }
    ensures size { result.size ≡ parts.size }
{
    if parts.opcode.prefixes.rex.b {
        plain(parts.size)
    } else {
        leading(parts, Flow::Padding)
    }
}

/// Returns the effect of a move of a register: of all 64 bits, from one register to another.
fn copied(parts: Parts, from: Option<Base>, to: Operand, destination: Option<Base>) -> Effect
    ensures exact { result ≡ copied parts from to destination }
    ensures size { result.size ≡ parts.size }
{
    match from {
        Some(base) if parts.opcode.prefixes.rex.w && parts.address.modrm / 64 == 3 => {
            let same = Change::Sum { base, offset: 0 };
            with_register(plain(parts.size), destination, same)
        }
        _ => written(parts, to),
    }
}

/// Returns the effect of LEA.
fn loaded_address(parts: Parts) -> Effect
    ensures exact { result ≡ loaded_address parts }
    ensures size { result.size ≡ parts.size }
{
    if parts.opcode.prefixes.rex.w {
        with_register(plain(parts.size), reg_register(parts), address_of(parts))
    } else {
        written(parts, Operand::Reg)
    }
}

/// Returns the address of a memory operand, where it is one of the two registers plus a displacement.
fn address_of(parts: Parts) -> Change
    ensures { result ≡ address_of parts }
{
    let Address {
        modrm,
        sib,
        displacement,
    } = parts.address;
    let rex = parts.opcode.prefixes.rex;
    let has_sib = modrm % 8 == 4;
    let base = if has_sib { sib % 8 } else { modrm % 8 };
    let is_indexed = has_sib && (sib / 8 % 8 != 4 || rex.x);
    let has_no_base = base == 5 && modrm / 64 == 0;
    if modrm / 64 == 3 || parts.opcode.prefixes.address_size || is_indexed || has_no_base {
        return Change::Unknown;
    }
    match base_of(base, rex.b) {
        Some(base) => Change::Sum {
            base,
            offset: i64::from(displacement),
        },
        None => Change::Unknown,
    }
}

/// Returns the effect of ENTER, which is not told, and of LEAVE, which is `mov rsp, rbp` and `pop rbp`.
fn framed(parts: Parts, leaves: bool) -> Effect
    ensures exact { result ≡ framed parts leaves }
    ensures size { result.size ≡ parts.size }
{
    let sp = if leaves && !parts.opcode.prefixes.operand_size {
        Change::Sum {
            base: Base::Fp,
            offset: 8,
        }
    } else {
        Change::Unknown
    };
    Effect {
        sp,
        fp: Change::Unknown,
        ..plain(parts.size)
    }
}

/// Returns the effect of group 1: ADD is 0, SUB is 5 and CMP is 7.
fn group1(parts: Parts) -> Effect
    ensures exact { result ≡ group1 parts }
    ensures size { result.size ≡ parts.size }
{
    let immediate = i64::from(parts.immediate);
    let is_wide = parts.opcode.prefixes.rex.w;
    match reg_of(parts.address) {
        0 if is_wide => added(parts, immediate),
        5 if is_wide => added(parts, 0 - immediate),
        7 => plain(parts.size),
        _ => written(parts, Operand::Rm),
    }
}

/// Returns the effect of an addition of a number to the register of r/m.
fn added(parts: Parts, bytes: i64) -> Effect
    ensures exact { result ≡ added parts bytes }
    ensures size { result.size ≡ parts.size }
{
    let effect = plain(parts.size);
    match rm_register(parts) {
        Some(base) => {
            let sum = Change::Sum {
                base,
                offset: bytes,
            };
            with_register(effect, Some(base), sum)
        }
        None => effect,
    }
}

/// Returns the effect of group 5: CALL is 2 and 3, JMP is 4 and 5, PUSH is 6.
fn group5(parts: Parts) -> Effect
    ensures exact { result ≡ group5 parts }
    ensures size { result.size ≡ parts.size }
{
    match reg_of(parts.address) {
        2 | 3 => leading(parts, Flow::Call),
        4 | 5 => leading(parts, Flow::Leaves),
        6 => moving_stack(parts, -8),
        _ => written(parts, Operand::Rm),
    }
}

/// Returns the effect of an instruction that only leads somewhere.
fn leading(parts: Parts, flow: Flow) -> Effect
    ensures exact { result ≡ leading parts flow }
    ensures size { result.size ≡ parts.size }
{
    Effect {
        flow,
        ..plain(parts.size)
    }
}

/// Returns the effect of an instruction that moves the stack pointer by so many bytes; the operand has 64 bits unless a
/// prefix says 16.
fn moving_stack(parts: Parts, bytes: i64) -> Effect
    ensures exact { result ≡ moving_stack parts bytes }
    ensures size { result.size ≡ parts.size }
{
    let effect = plain(parts.size);
    if parts.opcode.prefixes.operand_size {
        return Effect {
            sp: Change::Unknown,
            ..effect
        };
    }
    let moved = Change::Sum {
        base: Base::Sp,
        offset: bytes,
    };
    Effect {
        sp: moved,
        ..effect
    }
}

/// Returns the effect of an instruction of a group of which some members write the register of r/m.
fn grouped(parts: Parts) -> Effect
    ensures exact { result ≡ grouped parts }
    ensures size { result.size ≡ parts.size }
{
    let reg = reg_of(parts.address);
    let repeated = parts.opcode.prefixes.repeated;
    match parts.opcode.operation {
        // all but CMP
        Operation::Group1Byte if reg != 7 => byte_written(parts, Operand::Rm),
        // NOT and NEG
        Operation::Group3 => written_if(parts, Operand::Rm, reg == 2 || reg == 3),
        Operation::Group3Byte if reg == 2 || reg == 3 => byte_written(parts, Operand::Rm),
        // SLDT and STR
        Operation::Group6 => written_if(parts, Operand::Rm, reg < 2),
        // SMSW
        Operation::Group7 => written_if(parts, Operand::Rm, reg == 4),
        // all but BT
        Operation::Group8 => written_if(parts, Operand::Rm, reg != 4),
        // RDFSBASE and RDGSBASE
        Operation::Group15 => written_if(parts, Operand::Rm, repeated && reg < 2),
        // RDSSP
        Operation::ReadShadowStack => written_if(parts, Operand::Rm, repeated && reg == 1),
        _ => plain(parts.size),
    }
}

/// Returns the effect of an instruction that overwrites 8 bits of registers: without REX the numbers 4 to 7 are AH, CH, DH
/// and BH.
fn byte_written(parts: Parts, operand: Operand) -> Effect
    ensures exact { result ≡ byte_written parts operand }
    ensures size { result.size ≡ parts.size }
{
    written_if(parts, operand, parts.opcode.prefixes.rex.present)
}

/// Returns the effect of an instruction that overwrites the registers of an operand if a condition holds.
fn written_if(parts: Parts, operand: Operand, condition: bool) -> Effect
    ensures exact { result ≡ written_if parts operand condition }
    ensures size { result.size ≡ parts.size }
{
    if condition {
        written(parts, operand)
    } else {
        plain(parts.size)
    }
}

/// Returns the effect of an instruction that overwrites the registers of an operand.
fn written(parts: Parts, operand: Operand) -> Effect
    ensures exact { result ≡ written parts operand }
    ensures size { result.size ≡ parts.size }
{
    overwriting(parts, operand, plain(parts.size))
}

/// Returns the effect with the registers of an operand overwritten by any value.
fn overwriting(parts: Parts, operand: Operand, effect: Effect) -> Effect
    ensures exact { result ≡ overwriting parts operand effect }
    ensures size { result.size ≡ effect.size }
{
    match operand {
        Operand::Nothing => effect,
        Operand::Rm => with_register(effect, rm_register(parts), Change::Unknown),
        Operand::Reg => with_register(effect, reg_register(parts), Change::Unknown),
        Operand::RmAndReg => {
            let effect = with_register(effect, rm_register(parts), Change::Unknown);
            with_register(effect, reg_register(parts), Change::Unknown)
        }
        Operand::OpcodeRegister => {
            with_register(effect, opcode_register(parts.opcode), Change::Unknown)
        }
        Operand::Vvvv => with_register(effect, vvvv_register(parts.opcode), Change::Unknown),
        Operand::RegAndVvvv => {
            let effect = with_register(effect, vvvv_register(parts.opcode), Change::Unknown);
            with_register(effect, reg_register(parts), Change::Unknown)
        }
    }
}

/// Returns the register of the ModRM byte's r/m, where that is a register.
fn rm_register(parts: Parts) -> Option<Base>
    ensures { result ≡ rm_register parts }
{
    if parts.address.modrm / 64 != 3 {
        return None;
    }
    base_of(parts.address.modrm, parts.opcode.prefixes.rex.b)
}

/// Returns the register of the ModRM byte's reg.
fn reg_register(parts: Parts) -> Option<Base>
    ensures { result ≡ reg_register parts }
{
    base_of(reg_of(parts.address), parts.opcode.prefixes.rex.r)
}

/// Returns the ModRM byte's reg, without its fourth bit.
fn reg_of(address: Address) -> u8
    ensures { result ≡ reg_of address }
{
    address.modrm / 8 % 8
}

/// Returns the register of the opcode's low three bits.
fn opcode_register(opcode: Opcode) -> Option<Base>
    ensures { result ≡ opcode_register opcode }
{
    base_of(opcode.byte, opcode.prefixes.rex.b)
}

/// Returns the register of VEX.vvvv.
fn vvvv_register(opcode: Opcode) -> Option<Base>
    ensures { result ≡ vvvv_register opcode }
{
    base_of(opcode.vvvv, opcode.vvvv >= 8)
}

/// Returns which of the two registers a number names, by its low three bits and whether its fourth bit is set.
fn base_of(number: u8, high: bool) -> Option<Base>
    ensures { result ≡ base_of number high }
{
    match number % 8 {
        4 if !high => Some(Base::Sp),
        5 if !high => Some(Base::Fp),
        _ => None,
    }
}
