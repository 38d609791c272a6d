//! What the loads and stores of a pair of registers do to general registers and memory (Arm Architecture Reference Manual
//! for A-profile, "A64 base instruction descriptions").
//!
//! A base register is moved last. Where an instruction is unpredictable, since it loads a register twice or accesses one
//! that it moves, what it writes has any value.
ghost use Rattle.std.specs.Prelude.{◌≡◌, negsuc, pos, ◌≤ℤ◌, ◌≤◌};
ghost use Rattle.framehop_code.specs.Aarch64.Pair.{pair_unit, pair_bytes, pair_at, pair, pair_stored, vector_pair, pair_overlaps, pair_forgotten, pair_transfer, general_pair, pair_next, ordered, pair_member};

use super::access::{Transfer, base_moved, is_indexed, overlaps, transferred, with_base};
use super::action::{Actions, alone, forgetting};
use super::field::{above, general_set, is_set, rd, rn, rt2, set_of};
use super::form::Addressing;
use super::instruction::{bits, signed};
use crate::action::{Action, Place, Stored, Width};
use framehop_cfi::rule::Register;

/// Returns how many bytes each register of a pair has, by V and opc. Of general registers 1 is LDPSW, or STGP.
fn pair_unit(word: u32) -> u8
    ensures exact { result ≡ pair_unit word }
    ensures most { result ≤ 16 }
{
    match bits(word, 30, 2) {
        0 => 4,
        1 if !is_set(word, 26) && is_set(word, 22) => 4,
        1 => 8,
        _ if is_set(word, 26) => 16,
        _ => 8,
    }
}

/// Returns imm7 of a pair, in bytes: it counts what a register has; of STGP it counts 16 bytes.
fn pair_bytes(word: u32) -> i64
    ensures exact { result ≡ pair_bytes word }
    ensures least { negsuc 137438953471 ≤ℤ result }
    ensures most { result ≤ℤ pos 137438953472 }
{
    let units = signed(bits(word, 15, 7), 0x40);
    match (is_set(word, 26) || is_set(word, 22), bits(word, 30, 2)) {
        (false, 1) => units * 16,
        (_, _) => units * i64::from(pair_unit(word)),
    }
}

/// Returns how far above the base register a pair is.
fn pair_at(word: u32, addressing: Addressing) -> i64
    ensures exact { result ≡ pair_at word addressing }
    ensures least { negsuc 137438953471 ≤ℤ result }
    ensures most { result ≤ℤ pos 137438953472 }
{
    match addressing {
        Addressing::PostIndexed => 0,
        _ => pair_bytes(word),
    }
}

/// Returns what a load or store of a pair does.
pub(crate) fn pair(word: u32, addressing: Addressing) -> Actions
    ensures { result ≡ pair word addressing }
{
    if is_set(word, 26) {
        let base = base_moved(word, addressing, pair_bytes(word));
        with_base(vector_pair(word, addressing), base)
    } else if pair_overlaps(word, addressing) {
        alone(pair_forgotten(word, addressing))
    } else {
        general_pair(word, addressing)
    }
}

/// Returns the memory that a pair writes.
fn pair_stored(word: u32, addressing: Addressing) -> Option<Stored>
    ensures { result ≡ pair_stored word addressing }
{
    if is_set(word, 22) {
        None
    } else {
        Some(Stored {
            at: Place::At(above(rn(word), pair_at(word, addressing))),
            bytes: u64::from(pair_unit(word)) * 2,
        })
    }
}

/// Returns what an access to two vector registers does.
fn vector_pair(word: u32, addressing: Addressing) -> Action
    ensures { result ≡ vector_pair word addressing }
{
    forgetting(0, pair_stored(word, addressing))
}

/// Returns whether a pair is unpredictable: a register is loaded twice, or is the base that is moved.
fn pair_overlaps(word: u32, addressing: Addressing) -> bool
    ensures { result ≡ pair_overlaps word addressing }
{
    let is_twice = is_set(word, 22) && rd(word).0 == rt2(word).0;
    let is_base = overlaps(word, rd(word)) || overlaps(word, rt2(word));
    is_twice || (is_indexed(addressing) && is_base)
}

/// Returns what a pair may do that is unpredictable.
fn pair_forgotten(word: u32, addressing: Addressing) -> Action
    ensures { result ≡ pair_forgotten word addressing }
{
    let registers = general_set(rd(word)) | general_set(rt2(word)) | set_of(rn(word));
    forgetting(registers, pair_stored(word, addressing))
}

/// Returns what each access of a pair does, by opc and L.
fn pair_transfer(word: u32) -> Transfer
    ensures { result ≡ pair_transfer word }
{
    match (is_set(word, 22), bits(word, 30, 2)) {
        (true, 0) => Transfer::Load(Width::Four),
        (true, 1) => Transfer::LoadSigned,
        (true, _) => Transfer::Load(Width::Eight),
        (false, 0) => Transfer::Store(Width::Four),
        (false, _) => Transfer::Store(Width::Eight),
    }
}

/// Returns what an access to two general registers does.
fn general_pair(word: u32, addressing: Addressing) -> Actions
    ensures { result ≡ general_pair word addressing }
{
    let base = base_moved(word, addressing, pair_bytes(word));
    let first = pair_member(word, rd(word), pair_at(word, addressing));
    let second = pair_member(word, rt2(word), pair_next(word, addressing));
    ordered(word, first, second, base)
}

/// Returns how far above the base register the second register of a pair is.
fn pair_next(word: u32, addressing: Addressing) -> i64
    ensures { result ≡ pair_next word addressing }
{
    pair_at(word, addressing) + i64::from(pair_unit(word))
}

/// Returns two accesses, and how the base register is moved after them. Where the first one loads the base, the second
/// comes before it.
fn ordered(word: u32, first: Action, second: Action, base: Option<Action>) -> Actions
    ensures { result ≡ ordered word first second base }
{
    if overlaps(word, rd(word)) {
        Actions {
            first: second,
            second: Some(first),
            third: base,
        }
    } else {
        Actions {
            first,
            second: Some(second),
            third: base,
        }
    }
}

/// Returns what an access to one of two general registers does, by how far above the base register that is.
fn pair_member(word: u32, register: Register, at: i64) -> Action
    ensures { result ≡ pair_member word register at }
{
    transferred(
        pair_transfer(word),
        register,
        Place::At(above(rn(word), at)),
    )
}
