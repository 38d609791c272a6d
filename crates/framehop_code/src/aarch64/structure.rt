//! What the loads and stores of vectors of structures do to general registers and memory (Arm Architecture Reference Manual
//! for A-profile, "A64 SIMD and Floating-point Instruction Descriptions").
ghost use Rattle.std.specs.Prelude.{◌≡◌};
ghost use Rattle.framehop_code.specs.Aarch64.Structure.{structure_count, structures, element_size, replicated_size, element_count, structure, with_vectors, vectors_moved};

use super::access::{index_of, with_base};
use super::action::{Actions, forgetting, moved, nothing};
use super::field::{above, is_set, pair_size, rm, rn};
use super::form::Addressing;
use super::instruction::bits;
use crate::action::{Action, Address, Place, Source, Stored, Width};

/// Returns how many registers LD1 to LD4 and ST1 to ST4 (multiple structures) access, by opcode.
fn structure_count(word: u32) -> Option<u8>
    ensures { result ≡ structure_count word }
{
    match bits(word, 12, 4) {
        0 | 2 => Some(4),
        4 | 6 => Some(3),
        7 => Some(1),
        8 | 10 => Some(2),
        _ => None,
    }
}

/// Returns what LD1 to LD4 and ST1 to ST4 (multiple structures) do: a register has 8 bytes, or 16 by Q.
pub(crate) fn structures(word: u32, addressing: Addressing) -> Option<Actions>
    ensures { result ≡ structures word addressing }
{
    match structure_count(word) {
        Some(count) => {
            let bytes = u64::from(count) * pair_size(word);
            Some(with_vectors(word, addressing, bytes))
        }
        None => None,
    }
}

/// Returns how many bytes an element of a single structure has, by the high bits of opcode and by size. LD1R to LD4R have
/// 3 in those bits, and no store has.
fn element_size(word: u32) -> Option<u8>
    ensures { result ≡ element_size word }
{
    match bits(word, 14, 2) {
        0 => Some(1),
        1 => Some(2),
        2 if is_set(word, 10) => Some(8),
        2 => Some(4),
        _ => replicated_size(word),
    }
}

/// Returns how many bytes an element of LD1R to LD4R has, by size.
fn replicated_size(word: u32) -> Option<u8>
    ensures { result ≡ replicated_size word }
{
    if !is_set(word, 22) {
        return None;
    }
    match bits(word, 10, 2) {
        0 => Some(1),
        1 => Some(2),
        2 => Some(4),
        _ => Some(8),
    }
}

/// Returns how many elements a single structure has: 1 to 4, by R and the low bit of opcode.
fn element_count(word: u32) -> u8
    ensures { result ≡ element_count word }
{
    match (is_set(word, 13), is_set(word, 21)) {
        (false, false) => 1,
        (false, true) => 2,
        (true, false) => 3,
        (true, true) => 4,
    }
}

/// Returns what LD1 to LD4, ST1 to ST4 (single structure) and LD1R to LD4R do.
pub(crate) fn structure(word: u32, addressing: Addressing) -> Option<Actions>
    ensures { result ≡ structure word addressing }
{
    match element_size(word) {
        Some(size) => {
            let bytes = u64::from(element_count(word)) * u64::from(size);
            Some(with_vectors(word, addressing, bytes))
        }
        None => None,
    }
}

/// Returns an access to so many bytes at the base and how that is moved.
fn with_vectors(word: u32, addressing: Addressing, bytes: u64) -> Actions
    ensures { result ≡ with_vectors word addressing bytes }
{
    let base = match addressing {
        Addressing::PostIndexed => Some(vectors_moved(word, bytes)),
        _ => None,
    };
    if is_set(word, 22) {
        with_base(nothing(), base)
    } else {
        let at = Place::At(above(rn(word), 0));
        with_base(forgetting(0, Some(Stored { at, bytes })), base)
    }
}

/// Returns how an access to vectors moves the base: by Rm, of which 31 says so many bytes.
fn vectors_moved(word: u32, bytes: u64) -> Action
    ensures { result ≡ vectors_moved word bytes }
{
    let index = index_of(rm(word), 1);
    let to = Address {
        base: Some(rn(word)),
        index,
        displacement: if index.is_none() { bytes } else { 0 },
        from_next: false,
    };
    moved(rn(word), Source::Address(to), Width::Eight)
}
