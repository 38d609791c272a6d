//! The registers that a frameless function has saved (Apple, mach-o/compact_unwind_encoding.h).
ghost use Rattle.std.specs.Prelude.{◌≡◌, ◌≤◌, ◌<◌, MatchOption, IfSome, length, Some, None};
ghost use Rattle.framehop_macho.specs.SavedRegisters.{list_count, saved_registers, bp_position};

use arrayvec::ArrayVec;

/// A register that a frameless function can save.
#[derive(Clone, Copy, Default, PartialEq, Eq)]
pub(crate) enum RegisterNameX86_64 {
    #[default]
    Rbx,
    R12,
    R13,
    R14,
    R15,
    Rbp,
}

const SAVED_REGISTERS: [RegisterNameX86_64; 6] = [
    RegisterNameX86_64::Rbx,
    RegisterNameX86_64::R12,
    RegisterNameX86_64::R13,
    RegisterNameX86_64::R14,
    RegisterNameX86_64::R15,
    RegisterNameX86_64::Rbp,
];

/// Returns the list of so many distinct registers that has this rank, from 0, in lexicographic
/// order, or `None` where there is no such list.
pub(crate) fn saved_registers(count: usize, rank: usize) -> Option<ArrayVec<RegisterNameX86_64, 6>>
    ensures exact { MatchOption result
        (saved_registers count rank ≡ None)
        (λ saved. saved_registers count rank ≡ Some saved.items) }
    ensures few { IfSome result (λ saved. length saved.items ≤ 6) }
{
    if count > 6 {
        return None;
    }
    let mut pool = ArrayVec::from(SAVED_REGISTERS);
    let mut saved = ArrayVec::new();
    let mut rest = rank;
    for place in 0..count {
        let block = list_count(count - place - 1, 5 - place);
        saved.push(pool.pop_at(rest / block)?);
        rest %= block;
    }
    if rest == 0 { Some(saved) } else { None }
}

/// Returns how many lists of so many distinct members of a list there are.
fn list_count(count: usize, members: usize) -> usize
    requires few { members ≤ 6 }
    requires within { count ≤ members }
    ensures exact { result ≡ list_count count members }
    ensures some { 0 < result }
    ensures fits { result ≤ 720 }
{
    if count == 0 {
        return 1;
    }
    members * list_count(count - 1, members - 1)
}

/// Returns the place of rbp, counted from the end of a list, where the last one has place 0.
pub(crate) fn bp_position(saved: &[RegisterNameX86_64]) -> Option<usize>
    ensures exact { result ≡ bp_position saved.now }
    ensures within { IfSome result (λ place. place < length saved.now) }
{
    saved
        .iter()
        .rev()
        .position(|register| *register == RegisterNameX86_64::Rbp)
}
