//! What an instruction of x86_64 does to general registers and to memory, and where it leads (Intel 64 and IA-32
//! Architectures Software Developer's Manual, volume 2, "Instruction Set Reference").
//!
//! What is followed has an action of its own. Of every other instruction the action says which registers and which
//! bytes of memory it may change. Flags and vector registers are not described.
ghost use Rattle.std.specs.Prelude.{◌≡◌, ◌+◌, ◌<◌, ◌≤◌, length, IfSome};
ghost use Rattle.framehop_code.specs.X86_64.MachineActions.{IsActionAsMachine};
ghost use Rattle.framehop_code.specs.X86_64.Action.{action_at, instruction_of, action_of, is_described, described, leading, branch, pushed, pushed_source, popped, framed, leaving, stack_forgotten, loaded_address, group5, group7, registers_forgotten, moving, one_byte, arithmetic, combined, clears, computed, computed_by, computation_of, sign_extended, immediate_moved, moved, overwritten};

use super::instruction::{Map, Parts, longest_at, read_parts};
use super::opcode;
use super::opcode::Operation;
use super::operand::{
    address_of, extended, is_register, is_word, opcode_register, operand_size, reg_of,
    reg_register, rm_operand, rm_register, target_of, width_of,
};
use super::written::{Amount, amount_of, forgotten, registers_of, set_of};
use crate::action::{
    Action, Computation, Instruction, Operand, Place, Registers, Source, Stored, Width,
};
use framehop_cfi::rule::Register;
use framehop_cfi::x86_64::{RBP, RSP};

const RAX: Register = Register(0);

/// Returns the instruction at an offset of code, or `None` where the bytes end, where none is recognised, and where its
/// action is not described: a far call or jump, a trap, a software interrupt and what is privileged.
#[tactic(auto, unfolding(crate::specs::X86_64::Action::action_at))]
pub fn action_at(code: &[u8], at: usize) -> Option<Instruction>
    ensures exact { result ≡ action_at code.now at }
    ensures machine { IsActionAsMachine code.now at result }
    ensures sized { IfSome result (λ i. (0 < i.size) × (at + i.size ≤ length code.now)) }
{
    match read_parts(longest_at(code, at)?) {
        Ok(parts) => instruction_of(parts),
        Err(_) => None,
    }
}

/// Returns an instruction by its parts.
fn instruction_of(parts: Parts) -> Option<Instruction>
    ensures exact { result ≡ instruction_of parts }
    ensures size { IfSome result (λ i. i.size ≡ parts.size) }
{
    match action_of(parts) {
        Some(action) => Some(Instruction {
            size: parts.size,
            action,
        }),
        None => None,
    }
}

/// Returns the action of an instruction, if it is described.
fn action_of(parts: Parts) -> Option<Action>
    ensures { result ≡ action_of parts }
{
    if is_described(parts) {
        described(parts)
    } else {
        None
    }
}

/// Returns whether an instruction is none of those that no action describes, by the rows and by the prefix EVEX.
fn is_described(parts: Parts) -> bool
    ensures { result ≡ is_described parts }
{
    if let Map::Vector(fields) = parts.opcode.map {
        if fields.is_extended {
            return false;
        }
    }
    match amount_of(parts) {
        Amount::Undescribed => false,
        _ => true,
    }
}

/// Returns the action of an instruction, by its operation.
#[tactic(auto, unfolding(crate::specs::X86_64::Action::described))]
fn described(parts: Parts) -> Option<Action>
    ensures { result ≡ described parts }
{
    match parts.opcode.operation {
        Operation::Stop => None,
        Operation::Branch | Operation::Jump | Operation::Call | Operation::Return => {
            leading(parts)
        }
        Operation::Push => Some(pushed(parts, pushed_source(parts))),
        Operation::Pop(operand) => Some(popped(parts, operand)),
        Operation::Enter => Some(framed()),
        Operation::Leave => Some(leaving(parts)),
        Operation::LoadAddress => loaded_address(parts),
        Operation::Group5 => group5(parts),
        Operation::Group7 if is_register(parts) => group7(parts),
        _ => Some(moving(parts)),
    }
}

/// Returns the action of a direct jump or call, or of a return. One of 16 bits has no action.
fn leading(parts: Parts) -> Option<Action>
    ensures { result ≡ leading parts }
{
    if is_word(parts.opcode.prefixes) {
        return None;
    }
    match parts.opcode.operation {
        Operation::Branch => branch(parts),
        Operation::Jump => Some(Action::Jump(Source::Address(target_of(parts)))),
        Operation::Call => Some(Action::Call(Source::Address(target_of(parts)))),
        _ => Some(Action::Return(extended(parts.immediate) % 0x1_0000)),
    }
}

/// Returns the action of a conditional jump. E0 to E2 are LOOP and its kin, which have no action with a counter of 32
/// bits.
fn branch(parts: Parts) -> Option<Action>
    ensures { result ≡ branch parts }
{
    match parts.opcode.byte {
        0xe0..=0xe2 if parts.opcode.prefixes.address_size => None,
        0xe0..=0xe2 => Some(Action::Loop(target_of(parts))),
        _ => Some(Action::Branch(target_of(parts))),
    }
}

/// Returns the action of PUSH of a value. One of 16 bits is not followed.
fn pushed(parts: Parts, from: Source) -> Action
    ensures { result ≡ pushed parts from }
{
    if is_word(parts.opcode.prefixes) {
        stack_forgotten(set_of(RSP))
    } else {
        Action::Push(from)
    }
}

/// Returns the value that PUSH has by its opcode: a register, an immediate operand, or flags and segment registers.
fn pushed_source(parts: Parts) -> Source
    ensures { result ≡ pushed_source parts }
{
    match parts.opcode.byte {
        0x50..=0x57 => Source::Operand(Operand::Register(opcode_register(parts.opcode))),
        0x68 | 0x6a => Source::Immediate(extended(parts.immediate)),
        _ => Source::Unknown,
    }
}

/// Returns the action of POP. One of 16 bits is not followed; one of flags or a segment register only moves the stack
/// pointer.
fn popped(parts: Parts, operand: opcode::Operand) -> Action
    ensures { result ≡ popped parts operand }
{
    if is_word(parts.opcode.prefixes) {
        return stack_forgotten(set_of(RSP) | registers_of(parts, operand, false));
    }
    match operand {
        opcode::Operand::OpcodeRegister => {
            Action::Pop(Operand::Register(opcode_register(parts.opcode)))
        }
        opcode::Operand::Rm => Action::Pop(rm_operand(parts)),
        _ => Action::Compute {
            computation: Computation::Add,
            to: Operand::Register(RSP),
            from: Source::Immediate(8),
            width: Width::Eight,
        },
    }
}

/// Returns the action of ENTER, which is not followed.
fn framed() -> Action
    ensures { result ≡ framed }
{
    stack_forgotten(set_of(RSP) | set_of(RBP))
}

/// Returns the action of LEAVE. One of 16 bits is not followed.
fn leaving(parts: Parts) -> Action
    ensures { result ≡ leaving parts }
{
    if is_word(parts.opcode.prefixes) {
        framed()
    } else {
        Action::Leave
    }
}

/// Returns the action of an instruction that writes registers, and memory by the stack pointer.
fn stack_forgotten(registers: u16) -> Action
    ensures { result ≡ stack_forgotten registers }
{
    Action::Forget {
        registers: Registers(u32::from(registers)),
        memory: Some(Stored {
            at: Place::Elsewhere,
            bytes: 0,
        }),
    }
}

/// Returns the action of LEA. It has none for a register, and is not followed with addresses of 32 bits.
fn loaded_address(parts: Parts) -> Option<Action>
    ensures { result ≡ loaded_address parts }
{
    let to = Operand::Register(reg_register(parts));
    if is_register(parts) {
        None
    } else if parts.opcode.prefixes.address_size {
        Some(overwritten(parts, to))
    } else {
        Some(moved(parts, to, Source::Address(address_of(parts))))
    }
}

/// Returns the action of group 5: INC is 0, DEC 1, CALL 2, JMP 4 and PUSH 6.
fn group5(parts: Parts) -> Option<Action>
    ensures { result ≡ group5 parts }
{
    let operand = rm_operand(parts);
    match reg_of(parts) {
        0 => Some(computed(parts, 0, operand, Source::Immediate(1))),
        1 => Some(computed(parts, 5, operand, Source::Immediate(1))),
        2 if !is_word(parts.opcode.prefixes) => Some(Action::Call(Source::Operand(operand))),
        4 if !is_word(parts.opcode.prefixes) => Some(Action::Jump(Source::Operand(operand))),
        6 => Some(pushed(parts, Source::Operand(operand))),
        _ => None,
    }
}

/// Returns the action of those members of group 7 that have no memory operand: XGETBV, RDPKRU, RDTSCP, CLAC, STAC,
/// XEND, XTEST, WRPKRU and SMSW.
fn group7(parts: Parts) -> Option<Action>
    ensures { result ≡ group7 parts }
{
    match parts.address.modrm {
        0xd0 | 0xee => Some(registers_forgotten(0x0003)),
        0xf9 => Some(registers_forgotten(0x0007)),
        0xca | 0xcb | 0xd5 | 0xd6 | 0xef => Some(registers_forgotten(0)),
        0xe0..=0xe7 => Some(forgotten(parts)),
        _ => None,
    }
}

/// Returns the action of an instruction that writes registers only.
fn registers_forgotten(registers: u16) -> Action
    ensures { result ≡ registers_forgotten registers }
{
    Action::Forget {
        registers: Registers(u32::from(registers)),
        memory: None,
    }
}

/// Returns the action of an instruction that leads to the next one and leaves the stack pointer, unless that is an
/// operand.
fn moving(parts: Parts) -> Action
    ensures { result ≡ moving parts }
{
    let reg = Operand::Register(reg_register(parts));
    match parts.opcode.operation {
        Operation::MoveToRm => moved(parts, rm_operand(parts), Source::Operand(reg)),
        Operation::MoveToReg => moved(parts, reg, Source::Operand(rm_operand(parts))),
        Operation::Group1 => {
            let immediate = Source::Immediate(extended(parts.immediate));
            computed(parts, reg_of(parts), rm_operand(parts), immediate)
        }
        _ => match parts.opcode.map {
            Map::OneByte => one_byte(parts),
            _ => forgotten(parts),
        },
    }
}

/// Returns the action of an opcode of one byte.
#[tactic(auto, unfolding(crate::specs::X86_64::Action::one_byte))]
fn one_byte(parts: Parts) -> Action
    ensures { result ≡ one_byte parts }
{
    let immediate = Source::Immediate(extended(parts.immediate));
    match parts.opcode.byte {
        0..=0x3f => arithmetic(parts),
        0x63 => sign_extended(parts),
        0xb8..=0xbf => immediate_moved(parts),
        0xc7 => moved(parts, rm_operand(parts), immediate),
        _ => forgotten(parts),
    }
}

/// Returns the action of ADD, OR, ADC, SBB, AND, SUB, XOR or CMP, by the opcode's low three bits: 1 is of reg to r/m, 3
/// of r/m to reg, 5 of an immediate operand to rax. The others have 8 bits.
fn arithmetic(parts: Parts) -> Action
    ensures { result ≡ arithmetic parts }
{
    let number = parts.opcode.byte / 8;
    let reg = Operand::Register(reg_register(parts));
    match parts.opcode.byte % 8 {
        1 => combined(parts, number, rm_operand(parts), reg),
        3 => combined(parts, number, reg, rm_operand(parts)),
        5 => {
            let immediate = Source::Immediate(extended(parts.immediate));
            computed(parts, number, Operand::Register(RAX), immediate)
        }
        _ => forgotten(parts),
    }
}

/// Returns the action of an arithmetic instruction of two operands. SUB and XOR of a register with itself are moves of
/// 0.
fn combined(parts: Parts, number: u8, to: Operand, from: Operand) -> Action
    ensures { result ≡ combined parts number to from }
{
    if clears(parts, number) {
        moved(parts, to, Source::Immediate(0))
    } else {
        computed(parts, number, to, Source::Operand(from))
    }
}

/// Returns whether an instruction is SUB or XOR of a register with itself.
fn clears(parts: Parts, number: u8) -> bool
    ensures { result ≡ clears parts number }
{
    let is_same = rm_register(parts).0 == reg_register(parts).0;
    (number == 5 || number == 6) && is_register(parts) && is_same
}

/// Returns the action of an arithmetic instruction, by its number in group 1. CMP, which is 7, only changes flags; ADC,
/// SBB and those of 16 bits are not followed.
fn computed(parts: Parts, number: u8, to: Operand, from: Source) -> Action
    ensures { result ≡ computed parts number to from }
{
    if number == 7 {
        return registers_forgotten(0);
    }
    match computation_of(number) {
        Some(computation) => computed_by(parts, computation, to, from),
        None => overwritten(parts, to),
    }
}

/// Returns the action of an instruction that computes.
fn computed_by(parts: Parts, computation: Computation, to: Operand, from: Source) -> Action
    ensures { result ≡ computed_by parts computation to from }
{
    match width_of(parts.opcode.prefixes) {
        Some(width) => Action::Compute {
            computation,
            to,
            from,
            width,
        },
        None => overwritten(parts, to),
    }
}

/// Returns what an arithmetic instruction computes, by its number in group 1, if that is followed.
fn computation_of(number: u8) -> Option<Computation>
    ensures { result ≡ computation_of number }
{
    match number {
        0 => Some(Computation::Add),
        1 => Some(Computation::Or),
        4 => Some(Computation::And),
        5 => Some(Computation::Subtract),
        6 => Some(Computation::ExclusiveOr),
        _ => None,
    }
}

/// Returns the action of MOVSXD: without REX.W it is a move.
fn sign_extended(parts: Parts) -> Action
    ensures { result ≡ sign_extended parts }
{
    let to = Operand::Register(reg_register(parts));
    let from = rm_operand(parts);
    if parts.opcode.prefixes.rex.w {
        moved(parts, to, Source::SignExtended(from))
    } else {
        moved(parts, to, Source::Operand(from))
    }
}

/// Returns the action of MOV of an immediate operand to the opcode's register. One of eight bytes is not kept.
fn immediate_moved(parts: Parts) -> Action
    ensures { result ≡ immediate_moved parts }
{
    let to = Operand::Register(opcode_register(parts.opcode));
    if parts.opcode.prefixes.rex.w {
        overwritten(parts, to)
    } else {
        moved(parts, to, Source::Immediate(extended(parts.immediate)))
    }
}

/// Returns the action of a move. One of 16 bits is not followed.
fn moved(parts: Parts, to: Operand, from: Source) -> Action
    ensures { result ≡ moved parts to from }
{
    match width_of(parts.opcode.prefixes) {
        Some(width) => Action::Move { to, from, width },
        None => overwritten(parts, to),
    }
}

/// Returns the action of an instruction that writes an operand and is not followed.
fn overwritten(parts: Parts, to: Operand) -> Action
    ensures { result ≡ overwritten parts to }
{
    match to {
        Operand::Register(register) => registers_forgotten(set_of(register)),
        Operand::Memory(at) => {
            let bytes = operand_size(parts.opcode.prefixes);
            Action::Forget {
                registers: Registers(0),
                memory: Some(Stored { at, bytes }),
            }
        }
    }
}
