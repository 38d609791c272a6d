//! The numbers of lists of registers.
use arrayvec::ArrayVec;
use framehop_core::x86_64::Reg;
use framehop_core::x86_64::register_ordering::{decode, encode, is_ordering};

const ENCODE_REGISTERS: [Reg; 8] = [
    Reg::RBX,
    Reg::RBP,
    Reg::RDI,
    Reg::RSI,
    Reg::R12,
    Reg::R13,
    Reg::R14,
    Reg::R15,
];

/// The list of eight registers with the highest number.
const LAST: [Reg; 8] = [
    Reg::R15,
    Reg::RBX,
    Reg::RBP,
    Reg::RDI,
    Reg::RSI,
    Reg::R12,
    Reg::R13,
    Reg::R14,
];

/// Lists, and the length and the number of each.
const LISTS: [(&[Reg], Option<(u8, u16)>); 8] = [
    (&[Reg::RAX], None),
    (&[Reg::RSI, Reg::RSI], None),
    (&[], Some((0, 0))),
    (&[Reg::RBX], Some((1, 0))),
    (&[Reg::RBP], Some((1, 1))),
    (&[Reg::R15], Some((1, 7))),
    (&[Reg::R15, Reg::RBX], Some((2, 55))),
    (&LAST, Some((8, 40319))),
];

#[test]
fn numbers_lists_of_registers(rt: HostRuntime) {
    for (registers, want) in &LISTS {
        assert!(rt; encode(registers) == *want);
    }
    assert!(rt; is_ordering(8, 40319) && !is_ordering(8, 40320) && !is_ordering(9, 0));
}

/// The first of the lists of `count` distinct registers of the eight that its number does not give again, by its rank.
fn wrong_list(count: u8, ranks: u32) -> Option<u32> {
    for rank in 0..ranks {
        let list = list_of_rank(count, rank);
        match encode(list.as_slice()) {
            Some((length, encoded)) if decode(length, encoded).as_slice() == list.as_slice() => {}
            _ => return Some(rank),
        }
    }
    None
}

/// The list of this rank: each register is taken out of those that are left.
fn list_of_rank(count: u8, rank: u32) -> ArrayVec<Reg, 8> {
    let mut pool = ArrayVec::from(ENCODE_REGISTERS);
    let mut list = ArrayVec::new();
    let mut rest = rank as usize;
    for _ in 0..count {
        let left = pool.len();
        if left == 0 {
            return list;
        }
        if let Some(register) = pool.pop_at(rest % left) {
            let _room = list.try_push(register);
        }
        rest /= left;
    }
    list
}

/// The length of lists, and how many there are.
const RANKS: [(u8, u32); 9] = [
    (0, 1),
    (1, 8),
    (2, 56),
    (3, 336),
    (4, 1680),
    (5, 6720),
    (6, 20160),
    (7, 40320),
    (8, 40320),
];

#[test]
fn decodes_each_list(rt: HostRuntime) {
    for (count, ranks) in &RANKS {
        assert!(rt; wrong_list(*count, *ranks).is_none(), "{count}");
    }
}
