//! What an instruction of aarch64 does to general registers and to memory, and where it leads (Arm Architecture Reference
//! Manual for A-profile, "A64 base instruction descriptions").
//!
//! What is followed has an action of its own. Of every other instruction the action says which registers and which
//! bytes of memory it may change. Flags, vector registers and memory tags are not described, and neither are pointer
//! authentication codes: a register counts as unchanged where an instruction signs or authenticates it in place, as
//! PACIASP does.
ghost use Rattle.std.specs.Prelude.{◌≡◌, pos, ◌≤ℤ◌};
ghost use Rattle.framehop_code.specs.Aarch64.Access.{nothing, forgetting, moved, moved_general, alone};
ghost use Rattle.framehop_code.specs.Aarch64.MachineActions.{AreActionsAsMachine};
ghost use Rattle.framehop_code.specs.Aarch64.Action.{written_set, written_memory, forgotten, imm12, sum, shifted_sum, wide, adr, leading, returning, action_of, actions_of, actions_at};

use super::access::{accessed, index_of, literal, tagged};
use super::field::{
    above, ahead, general_set, is_set, named, pair_size, rd, rm, rn, rt2, set_of, size_of,
    value_of, width_of,
};
use super::form::{Bytes, Form, Written, form_of};
use super::instruction::{bits, distance, imm9, signed};
use super::pair::pair;
use super::structure::{structure, structures};
use crate::action::{Action, Address, Operand, Place, Registers, Source, Stored, Width};
use framehop_cfi::aarch64::X30;
use framehop_cfi::numbers::read_u32;
use framehop_cfi::rule::Register;

/// What an instruction of aarch64 does: up to three actions, one after another. All but the last are moves, or forget
/// something.
#[derive(Clone, Copy)]
pub struct Actions {
    pub first: Action,
    pub second: Option<Action>,
    pub third: Option<Action>,
}

/// Returns what the instruction at an offset of code does, or `None` where the bytes end, and where it is not described:
/// where none is recognised, and of a trap or an exception.
#[tactic(auto, unfolding(crate::specs::Aarch64::Action::actions_at, framehop_cfi::specs::Numbers::u32_at))]
pub fn actions_at(code: &[u8], at: usize) -> Option<Actions>
    ensures exact { result ≡ actions_at code.now at }
    ensures machine { AreActionsAsMachine code.now at result }
{
    match read_u32(code, at) {
        Ok((word, _)) => actions_of(word, form_of(word)),
        Err(_) => None,
    }
}

/// Returns what an instruction does, by its form.
fn actions_of(word: u32, form: Form) -> Option<Actions>
    ensures { result ≡ actions_of word form }
{
    match form {
        Form::Access(addressing) => accessed(word, addressing),
        Form::Pair(addressing) => Some(pair(word, addressing)),
        Form::Structures(addressing) => structures(word, addressing),
        Form::Structure(addressing) => structure(word, addressing),
        Form::Tag(addressing) => Some(tagged(word, addressing)),
        Form::Literal => Some(literal(word)),
        _ => match action_of(word, form) {
            Some(action) => Some(alone(action)),
            None => None,
        },
    }
}

/// Returns one action.
pub(crate) fn alone(action: Action) -> Actions
    ensures { result ≡ alone action }
{
    Actions {
        first: action,
        second: None,
        third: None,
    }
}

/// Returns the action of an instruction that has one, by its form.
fn action_of(word: u32, form: Form) -> Option<Action>
    ensures { result ≡ action_of word form }
{
    let width = width_of(word);
    match form {
        Form::Forget(written, bytes) => Some(forgotten(word, written, bytes)),
        Form::AddImmediate => Some(moved(rd(word), sum(word), width)),
        Form::AddsImmediate => Some(moved_general(rd(word), sum(word), width)),
        Form::AddShifted => Some(moved_general(rd(word), shifted_sum(word), width)),
        Form::MoveRegister => Some(moved_general(rd(word), value_of(rm(word)), width)),
        Form::MoveWide => Some(moved_general(rd(word), Source::Immediate(wide(word)), width)),
        Form::MoveInverted => {
            let number = u64::MAX - wide(word);
            Some(moved_general(rd(word), Source::Immediate(number), width))
        }
        Form::Adr => Some(moved_general(rd(word), adr(word), Width::Eight)),
        _ => leading(word, form),
    }
}

/// Returns the action of an instruction that leads elsewhere, by its form.
fn leading(word: u32, form: Form) -> Option<Action>
    ensures { result ≡ leading word form }
{
    match form {
        Form::Jump => {
            let to = ahead(distance(bits(word, 0, 26), 0x200_0000));
            Some(Action::Jump(Source::Address(to)))
        }
        Form::Call => {
            let to = ahead(distance(bits(word, 0, 26), 0x200_0000));
            Some(Action::BranchWithLink(Source::Address(to)))
        }
        Form::Branch => Some(Action::Branch(ahead(distance(bits(word, 5, 19), 0x4_0000)))),
        Form::TestBranch => Some(Action::Branch(ahead(distance(bits(word, 5, 14), 0x2000)))),
        Form::JumpRegister => Some(Action::Jump(value_of(rn(word)))),
        Form::CallRegister => Some(Action::BranchWithLink(value_of(rn(word)))),
        Form::Return => returning(rn(word)),
        Form::ReturnByLink => Some(Action::ReturnTo(X30)),
        _ => None,
    }
}

/// Returns the action of RET. One to the zero register is not described.
fn returning(register: Register) -> Option<Action>
    ensures { result ≡ returning register }
{
    match register.0 {
        31 => None,
        _ => Some(Action::ReturnTo(register)),
    }
}

// ---- what is forgotten

/// Returns the action of an instruction that does nothing.
pub(crate) fn nothing() -> Action
    ensures { result ≡ nothing }
{
    forgetting(0, None)
}

/// Returns the action that leaves any value in a set of registers and in memory.
pub(crate) fn forgetting(registers: u32, memory: Option<Stored>) -> Action
    ensures { result ≡ forgetting registers memory }
{
    Action::Forget {
        registers: Registers(registers),
        memory,
    }
}

/// Returns the action of an instruction that is not followed, by what it writes.
fn forgotten(word: u32, written: Written, bytes: Bytes) -> Action
    ensures { result ≡ forgotten word written bytes }
{
    forgetting(written_set(word, written), written_memory(word, bytes))
}

/// Returns the registers that an instruction writes.
fn written_set(word: u32, written: Written) -> u32
    ensures { result ≡ written_set word written }
{
    match written {
        Written::Nothing => 0,
        Written::Rd => general_set(rd(word)),
        Written::RdOrSp => set_of(rd(word)),
        Written::RdAndRt2 => general_set(rd(word)) | general_set(rt2(word)),
        Written::RdAndRn => general_set(rd(word)) | set_of(rn(word)),
        Written::RdRnAndRs => {
            general_set(rd(word)) | general_set(rn(word)) | general_set(rm(word))
        }
        Written::Rs => general_set(rm(word)),
        Written::RsPair => {
            let even = rm(word).0 / 2 * 2;
            general_set(Register(even)) | general_set(Register(even + 1))
        }
        Written::X16 => 0x1_0000,
    }
}

/// Returns the memory that an instruction writes.
fn written_memory(word: u32, bytes: Bytes) -> Option<Stored>
    ensures { result ≡ written_memory word bytes }
{
    let size = u64::from(size_of(word));
    let at = Place::At(above(rn(word), 0));
    match bytes {
        Bytes::Zero => None,
        Bytes::AtBase => Some(Stored { at, bytes: size }),
        Bytes::PairAtBase => Some(Stored {
            at,
            bytes: pair_size(word),
        }),
        Bytes::AtOffset => Some(Stored {
            at: Place::At(above(rn(word), imm9(word))),
            bytes: size,
        }),
        Bytes::Elsewhere => Some(Stored {
            at: Place::Elsewhere,
            bytes: 0,
        }),
    }
}

// ---- what is moved

/// Returns the action that moves a value to a register, of which 31 is `sp`.
pub(crate) fn moved(register: Register, from: Source, width: Width) -> Action
    ensures { result ≡ moved register from width }
{
    Action::Move {
        to: Operand::Register(register),
        from,
        width,
    }
}

/// Returns the action that moves a value to a register, of which 31 is the zero register.
pub(crate) fn moved_general(register: Register, from: Source, width: Width) -> Action
    ensures { result ≡ moved_general register from width }
{
    match register.0 {
        31 => nothing(),
        _ => moved(register, from, width),
    }
}

/// Returns the sum of ADD or SUB (immediate).
fn sum(word: u32) -> Source
    ensures { result ≡ sum word }
{
    let bytes = imm12(word);
    let bytes = if is_set(word, 30) { 0 - bytes } else { bytes };
    Source::Address(above(rn(word), bytes))
}

/// Returns imm12, which is shifted by 12 where sh is 1.
fn imm12(word: u32) -> i64
    ensures exact { result ≡ imm12 word }
    ensures least { pos 0 ≤ℤ result }
    ensures most { result ≤ℤ pos 16777216 }
{
    let unit = if is_set(word, 22) { 4096 } else { 1 };
    i64::from(bits(word, 10, 12)) * unit
}

/// Returns the sum of ADD (shifted register): Rm is shifted by imm6, of which only the low two bits are not 0.
fn shifted_sum(word: u32) -> Source
    ensures { result ≡ shifted_sum word }
{
    let scale = match bits(word, 10, 2) {
        0 => 1,
        1 => 2,
        2 => 4,
        _ => 8,
    };
    Source::Address(Address {
        base: named(rn(word)),
        index: index_of(rm(word), scale),
        displacement: 0,
        from_next: false,
    })
}

/// Returns imm16, which is shifted by 16, 32 or 48 by hw.
fn wide(word: u32) -> u64
    ensures { result ≡ wide word }
{
    let unit = match bits(word, 21, 2) {
        0 => 1,
        1 => 0x1_0000,
        2 => 0x1_0000_0000,
        _ => 0x1_0000_0000_0000,
    };
    u64::from(bits(word, 5, 16)) * unit
}

/// Returns the address of ADR, by immhi and immlo.
fn adr(word: u32) -> Source
    ensures { result ≡ adr word }
{
    let bytes = signed(bits(word, 5, 19) * 4 + bits(word, 29, 2), 0x10_0000);
    Source::Address(ahead(bytes - 4))
}
