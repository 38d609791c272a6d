//! How far the CFA is above the stack pointer and above the frame pointer, as far as the code tells.
ghost use Rattle.std.specs.Prelude.{◌≡◌};
ghost use Rattle.framehop_check.specs.Known.{nothing, known_of, with, after_change, after, agreed};

use crate::claim::Claim;
use framehop_code::effect::{Base, Change, Effect};

/// How far the CFA is above the two registers, in bytes, where that is known.
#[derive(Clone, Copy, PartialEq, Eq)]
pub struct Known {
    pub sp: Option<i64>,
    pub fp: Option<i64>,
}

/// Returns what is known after an instruction.
pub fn after(known: Known, effect: Effect) -> Known
    ensures { result ≡ after known effect }
{
    Known {
        sp: after_change(known, effect.sp),
        fp: after_change(known, effect.fp),
    }
}

/// Returns how far the CFA is above a register after a change of it.
fn after_change(known: Known, change: Change) -> Option<i64>
    ensures { result ≡ after_change known change }
{
    match change {
        Change::Sum { base, offset } => known_of(known, base)?.checked_sub(offset),
        Change::Unknown => None,
    }
}

/// Returns what is known at an instruction once its row is read: what the code tells, and what the row says of its register
/// where the code tells nothing. Of what no row says anything, as where the CFA counts from a third register, a loop can
/// make something else, so that nothing is known there.
pub(crate) fn agreed(known: Known, claim: Claim) -> Known
    ensures { result ≡ agreed known claim }
{
    match claim {
        Claim::Above { base, offset } => match known_of(known, base) {
            Some(_) => known,
            None => with(known, base, offset),
        },
        Claim::Other => nothing(),
    }
}

/// Returns how far the CFA is above a register.
pub(crate) fn known_of(known: Known, base: Base) -> Option<i64>
    ensures { result ≡ known_of known base }
{
    match base {
        Base::Sp => known.sp,
        Base::Fp => known.fp,
    }
}

/// Returns what is known, with the distance of one register replaced.
pub fn with(known: Known, base: Base, offset: i64) -> Known
    ensures { result ≡ with known base offset }
{
    match base {
        Base::Sp => Known {
            sp: Some(offset),
            ..known
        },
        Base::Fp => Known {
            fp: Some(offset),
            ..known
        },
    }
}

/// Nothing is known.
pub fn nothing() -> Known
    ensures { result ≡ nothing }
{
    Known { sp: None, fp: None }
}
