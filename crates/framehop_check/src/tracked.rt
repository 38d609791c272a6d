//! What is known between two instructions, and what contradicts it.
ghost use Rattle.std.specs.Prelude.{◌≡◌};
ghost use Rattle.framehop_check.specs.Tracked.{beginning, arriving, is_stale, fault_at, came_after, step, fault_of_return, fault_of_jump, is_passed};

use crate::claim::Claim;
use crate::known::{Known, after, agreed, known_of, nothing};
use framehop_code::effect::{Base, Change, Code, Effect, Flow};

/// How an instruction is come to.
#[derive(Clone, Copy, PartialEq, Eq)]
pub enum Came {
    /// From the instruction before.
    Next,
    /// From the instruction before, a call that may not return.
    Returned,
    /// Not from the instruction before.
    Elsewhere,
}

/// What is known between two instructions.
#[derive(Clone, Copy)]
pub struct Tracked {
    pub known: Known,
    /// What the row of the instruction before says.
    pub claim: Claim,
    pub came: Came,
    /// Whether the instruction before has given the stack pointer a value that is not told.
    pub sp_lost: bool,
    /// Whether it has given the frame pointer one.
    pub fp_lost: bool,
}

/// What contradicts what.
#[derive(Clone, Copy)]
pub enum Fault {
    /// The row says that the CFA is `row` bytes above the register, the code that it is `code` bytes.
    Differs {
        base: Base,
        row: i64,
        code: i64,
    },
    /// The row still says what the row before said of a register that the instruction before overwrites.
    Overwritten {
        base: Base,
        row: i64,
    },
    /// The function returns where the CFA is so many bytes above the stack pointer.
    Returns {
        code: i64,
    },
    /// The instruction jumps to an address (SVMA) whose row differs.
    Jumps {
        target: u64,
        base: Base,
        row: i64,
        code: i64,
    },
}

/// Returns what is known where a function begins: nothing, so that the first row is believed. Padding before its first
/// instruction is passed over.
pub fn beginning() -> Tracked
    ensures { result ≡ beginning }
{
    Tracked {
        known: nothing(),
        claim: Claim::Other,
        came: Came::Elsewhere,
        sp_lost: false,
        fp_lost: false,
    }
}

/// Returns whether an instruction is padding that is come to from nowhere. Its row is not looked at.
pub(crate) fn is_passed(tracked: Tracked, effect: Effect) -> bool
    ensures { result ≡ is_passed tracked effect }
{
    match (tracked.came, effect.flow) {
        (Came::Elsewhere, Flow::Padding) => true,
        _ => false,
    }
}

/// Returns what contradicts a row at an instruction, if anything does.
pub(crate) fn fault_at(tracked: Tracked, claim: Claim) -> Option<Fault>
    ensures { result ≡ fault_at tracked claim }
{
    let Claim::Above { base, offset } = claim else {
        return None;
    };
    match known_of(arriving(tracked, claim), base) {
        Some(code) if code != offset => Some(Fault::Differs {
            base,
            row: offset,
            code,
        }),
        None if is_stale(tracked, claim) => Some(Fault::Overwritten { base, row: offset }),
        _ => None,
    }
}

/// Returns whether a row still says what the row before said of a register that the instruction before overwrites.
fn is_stale(tracked: Tracked, claim: Claim) -> bool
    ensures { result ≡ is_stale tracked claim }
{
    if tracked.came != Came::Next || tracked.claim != claim {
        return false;
    }
    match claim {
        Claim::Above { base: Base::Sp, .. } => tracked.sp_lost,
        Claim::Above { base: Base::Fp, .. } => tracked.fp_lost,
        Claim::Other => false,
    }
}

/// Returns what is known after an instruction with a row.
pub fn step(tracked: Tracked, claim: Claim, effect: Effect) -> Tracked
    ensures { result ≡ step tracked claim effect }
{
    Tracked {
        known: after(agreed(arriving(tracked, claim), claim), effect),
        claim,
        came: came_after(tracked.came, effect.flow),
        sp_lost: effect.sp == Change::Unknown,
        fp_lost: effect.fp == Change::Unknown,
    }
}

/// Returns what is known at an instruction before its row is read, by how it is come to.
pub(crate) fn arriving(tracked: Tracked, claim: Claim) -> Known
    ensures { result ≡ arriving tracked claim }
{
    match tracked.came {
        Came::Next => tracked.known,
        Came::Returned if tracked.claim == claim => tracked.known,
        _ => nothing(),
    }
}

/// Returns how the instruction after one is come to. After a call padding may follow, where the call does not return.
fn came_after(came: Came, flow: Flow) -> Came
    ensures { result ≡ came_after came flow }
{
    match flow {
        Flow::Next | Flow::Branch(_) => Came::Next,
        Flow::Padding if came == Came::Returned => Came::Returned,
        Flow::Padding => Came::Next,
        Flow::Call => Came::Returned,
        Flow::Jump(_) | Flow::Return | Flow::Leaves => Came::Elsewhere,
    }
}

/// Returns what contradicts a return: the stack pointer is not where it was at the function's entry.
pub(crate) fn fault_of_return<C: Code>(known: Known, flow: Flow) -> Option<Fault>
    ensures { result ≡ fault_of_return C.entry known flow }
{
    match (flow, known.sp) {
        (Flow::Return, Some(code)) if code != C::entry_offset() => Some(Fault::Returns { code }),
        _ => None,
    }
}

/// Returns what contradicts the row of a jump's target, an SVMA, by what is known after the jump.
pub(crate) fn fault_of_jump(known: Known, target: u64, claim: Claim) -> Option<Fault>
    ensures { result ≡ fault_of_jump known target claim }
{
    let Claim::Above { base, offset } = claim else {
        return None;
    };
    match known_of(known, base) {
        Some(code) if code != offset => Some(Fault::Jumps {
            target,
            base,
            row: offset,
            code,
        }),
        _ => None,
    }
}
