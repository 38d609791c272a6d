//! What the loads and stores of one register do to general registers and memory, and those of memory tags (Arm
//! Architecture Reference Manual for A-profile, "A64 base instruction descriptions").
//!
//! A base register is moved last. Where an instruction is unpredictable, since it accesses the register that it moves, what
//! it writes has any value.
ghost use Rattle.std.specs.Prelude.{◌≡◌};
ghost use Rattle.framehop_code.specs.Aarch64.Access.{is_indexed, displacement, base_moved, with_base, transfer_of, general_transfer, vector_transfer, stored, transferred, accessed, transfer_by, overlaps, access_bytes, access_place, indexed_place, index_scale, index_of, literal, tagged_bytes, tagged_place, tagged, tagged_memory};

use super::action::{Actions, alone, forgetting, moved, moved_general, nothing};
use super::field::{
    above, access_size, ahead, general_set, is_quad, is_set, named, rd, rm, rn, set_of, size_of,
    value_of,
};
use super::form::Addressing;
use super::instruction::{bits, distance, imm9};
use crate::action::{Action, Address, Index, Operand, Place, Source, Stored, Width};
use framehop_cfi::rule::Register;

/// What an access does with a register.
#[derive(Clone, Copy)]
pub(crate) enum Transfer {
    Load(Width),
    /// Four bytes, with their sign extended to eight.
    LoadSigned,
    /// One or two bytes, which are not followed.
    LoadPart,
    /// To a vector register.
    LoadVector,
    Store(Width),
    /// So many bytes that are not followed: one or two, or those of a vector register.
    StorePart(u64),
}

// ---- base registers

/// Returns whether the base register is moved.
pub(crate) fn is_indexed(addressing: Addressing) -> bool
    ensures { result ≡ is_indexed addressing }
{
    match addressing {
        Addressing::PostIndexed | Addressing::PreIndexed => true,
        _ => false,
    }
}

/// Returns how far above the base register is accessed, by the offset.
pub(crate) fn displacement(addressing: Addressing, bytes: i64) -> i64
    ensures { result ≡ displacement addressing bytes }
{
    match addressing {
        Addressing::PostIndexed => 0,
        _ => bytes,
    }
}

/// Returns how the base register is moved, if it is.
pub(crate) fn base_moved(word: u32, addressing: Addressing, bytes: i64) -> Option<Action>
    ensures { result ≡ base_moved word addressing bytes }
{
    if is_indexed(addressing) {
        let to = Source::Address(above(rn(word), bytes));
        Some(moved(rn(word), to, Width::Eight))
    } else {
        None
    }
}

/// Returns an access and how the base register is moved after it.
pub(crate) fn with_base(access: Action, base: Option<Action>) -> Actions
    ensures { result ≡ with_base access base }
{
    Actions {
        first: access,
        second: base,
        third: None,
    }
}

// ---- one register

/// Returns what an access to one register does, by V, size and opc, or `None` where there is none.
fn transfer_of(word: u32) -> Option<Transfer>
    ensures { result ≡ transfer_of word }
{
    if is_set(word, 26) {
        vector_transfer(word)
    } else {
        general_transfer(word)
    }
}

/// Returns what an access to a general register does, by size and opc.
fn general_transfer(word: u32) -> Option<Transfer>
    ensures { result ≡ general_transfer word }
{
    match bits(word, 30, 2) * 4 + bits(word, 22, 2) {
        0 => Some(Transfer::StorePart(1)),
        4 => Some(Transfer::StorePart(2)),
        8 => Some(Transfer::Store(Width::Four)),
        9 => Some(Transfer::Load(Width::Four)),
        10 => Some(Transfer::LoadSigned),
        12 => Some(Transfer::Store(Width::Eight)),
        13 => Some(Transfer::Load(Width::Eight)),
        11 | 14 | 15 => None,
        _ => Some(Transfer::LoadPart),
    }
}

/// Returns what an access to a vector register does, by size and opc: its high bit says 16 bytes.
fn vector_transfer(word: u32) -> Option<Transfer>
    ensures { result ≡ vector_transfer word }
{
    match bits(word, 30, 2) * 4 + bits(word, 22, 2) {
        0 => Some(Transfer::StorePart(1)),
        4 => Some(Transfer::StorePart(2)),
        8 => Some(Transfer::StorePart(4)),
        12 => Some(Transfer::StorePart(8)),
        2 => Some(Transfer::StorePart(16)),
        1 | 3 | 5 | 9 | 13 => Some(Transfer::LoadVector),
        _ => None,
    }
}

/// Returns the memory that an access writes.
fn stored(transfer: Transfer, at: Place) -> Option<Stored>
    ensures { result ≡ stored transfer at }
{
    match transfer {
        Transfer::Store(Width::Four) => Some(Stored { at, bytes: 4 }),
        Transfer::Store(Width::Eight) => Some(Stored { at, bytes: 8 }),
        Transfer::StorePart(bytes) => Some(Stored { at, bytes }),
        _ => None,
    }
}

/// Returns what an access does to a register or to memory.
pub(crate) fn transferred(transfer: Transfer, register: Register, at: Place) -> Action
    ensures { result ≡ transferred transfer register at }
{
    let memory = Operand::Memory(at);
    match transfer {
        Transfer::Load(width) => moved_general(register, Source::Operand(memory), width),
        Transfer::LoadSigned => {
            moved_general(register, Source::SignExtended(memory), Width::Eight)
        }
        Transfer::LoadPart => forgetting(general_set(register), None),
        Transfer::LoadVector => nothing(),
        Transfer::Store(width) => Action::Move {
            to: memory,
            from: value_of(register),
            width,
        },
        Transfer::StorePart(_) => forgetting(0, stored(transfer, at)),
    }
}

/// Returns what a load or store of one register does.
pub(crate) fn accessed(word: u32, addressing: Addressing) -> Option<Actions>
    ensures { result ≡ accessed word addressing }
{
    match transfer_of(word) {
        Some(transfer) => Some(transfer_by(word, addressing, transfer)),
        None => None,
    }
}

/// Returns what an access to one register does.
fn transfer_by(word: u32, addressing: Addressing, transfer: Transfer) -> Actions
    ensures { result ≡ transfer_by word addressing transfer }
{
    let at = access_place(word, addressing);
    if is_indexed(addressing) && overlaps(word, rd(word)) {
        alone(forgetting(set_of(rn(word)), stored(transfer, at)))
    } else {
        let base = base_moved(word, addressing, imm9(word));
        with_base(transferred(transfer, rd(word), at), base)
    }
}

/// Returns whether a register that is accessed is the base too. 31 is the zero register and `sp`.
pub(crate) fn overlaps(word: u32, register: Register) -> bool
    ensures { result ≡ overlaps word register }
{
    !is_set(word, 26) && register.0 != 31 && register.0 == rn(word).0
}

/// Returns the offset of an access to one register: imm12 in units of what is accessed, or imm9.
fn access_bytes(word: u32, addressing: Addressing) -> i64
    ensures { result ≡ access_bytes word addressing }
{
    match addressing {
        Addressing::Offset => i64::from(bits(word, 10, 12)) * i64::from(access_size(word)),
        _ => imm9(word),
    }
}

/// Returns where one register is loaded from or stored.
fn access_place(word: u32, addressing: Addressing) -> Place
    ensures { result ≡ access_place word addressing }
{
    match addressing {
        Addressing::Indexed => indexed_place(word),
        _ => {
            let bytes = access_bytes(word, addressing);
            Place::At(above(rn(word), displacement(addressing, bytes)))
        }
    }
}

/// Returns the sum of the base and a register. One of 32 bits, which option says, is not described, and neither is a
/// multiple by 16.
fn indexed_place(word: u32) -> Place
    ensures { result ≡ indexed_place word }
{
    if bits(word, 13, 3) != 3 || (is_set(word, 12) && is_quad(word)) {
        Place::Elsewhere
    } else {
        Place::At(Address {
            base: Some(rn(word)),
            index: index_of(rm(word), index_scale(word)),
            displacement: 0,
            from_next: false,
        })
    }
}

/// Returns what the index register is multiplied by: by S the size, or nothing.
fn index_scale(word: u32) -> u8
    ensures { result ≡ index_scale word }
{
    if is_set(word, 12) { size_of(word) } else { 1 }
}

/// Returns an index, of which 31 is the zero register.
pub(crate) fn index_of(register: Register, scale: u8) -> Option<Index>
    ensures { result ≡ index_of register scale }
{
    match named(register) {
        Some(register) => Some(Index { register, scale }),
        None => None,
    }
}

/// Returns what LDR and LDRSW (literal) do, by opc.
pub(crate) fn literal(word: u32) -> Actions
    ensures { result ≡ literal word }
{
    let at = Place::At(ahead(distance(bits(word, 5, 19), 0x4_0000)));
    let transfer = match bits(word, 30, 2) {
        0 => Transfer::Load(Width::Four),
        1 => Transfer::Load(Width::Eight),
        _ => Transfer::LoadSigned,
    };
    alone(transferred(transfer, rd(word), at))
}

// ---- memory tags

/// Returns the offset of STG and its kin: imm9 in units of 16 bytes.
fn tagged_bytes(word: u32) -> i64
    ensures { result ≡ tagged_bytes word }
{
    imm9(word) * 16
}

/// Returns where they write.
fn tagged_place(word: u32, addressing: Addressing) -> Place
    ensures { result ≡ tagged_place word addressing }
{
    let bytes = displacement(addressing, tagged_bytes(word));
    Place::At(above(rn(word), bytes))
}

/// Returns what STG, STZG, ST2G and STZ2G do.
pub(crate) fn tagged(word: u32, addressing: Addressing) -> Actions
    ensures { result ≡ tagged word addressing }
{
    let memory = tagged_memory(word, tagged_place(word, addressing));
    let base = base_moved(word, addressing, tagged_bytes(word));
    with_base(forgetting(0, memory), base)
}

/// Returns the memory that they write: those with Z units of 16 bytes, and the others only tags.
fn tagged_memory(word: u32, at: Place) -> Option<Stored>
    ensures { result ≡ tagged_memory word at }
{
    match bits(word, 22, 2) {
        1 => Some(Stored { at, bytes: 16 }),
        3 => Some(Stored { at, bytes: 32 }),
        _ => None,
    }
}
