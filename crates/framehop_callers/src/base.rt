//! What a canonical frame address (CFA) counts from.
ghost use Rattle.std.specs.Prelude.{◌≡◌};
ghost use Rattle.framehop_callers.specs.Base.{base_by, base_at, base_of};
ghost use Rattle.framehop_dwarf.specs.Operation.{operation_at};

use crate::load::{Width, read_load};
use framehop_cfi::rule::{CfaRule, Register};
use framehop_dwarf::operation::{Operation, read_operation};

/// What the CFA of a row counts from.
#[derive(Clone, Copy, PartialEq, Eq)]
pub enum CfaBase {
    /// A register.
    Register(Register),
    /// The word at so many bytes from a register.
    Word { register: Register, offset: i64 },
}

/// Returns what a CFA counts from: the register of its rule, or that of the first operation of its expression, or the word
/// that the second one reads there. `None` of an expression that begins with anything but a register. `section` is the
/// bytes in which expressions lie.
///
/// Source: DWARF 5 section 2.5.1, `DW_OP_breg0` to `DW_OP_bregx`, `DW_OP_deref` and `DW_OP_deref_size`.
pub fn base_of(section: &[u8], rule: CfaRule) -> Option<CfaBase>
    ensures { result ≡ base_of section.now rule }
{
    match rule {
        CfaRule::RegisterAndOffset { register, .. } => Some(CfaBase::Register(register)),
        CfaRule::Expression(expression) => match section.get(expression.start..expression.end) {
            Some(code) => base_at(code),
            None => None,
        },
    }
}

/// Returns what a CFA counts from by the bytes of its expression.
fn base_at(code: &[u8]) -> Option<CfaBase>
    ensures { result ≡ base_at code.now (operation_at code.now 0) }
{
    match read_operation(code, 0) {
        Ok((Operation::RegisterOffset { register, offset }, next)) => {
            Some(base_by(register, offset, read_load(code, next)))
        }
        Ok(_) => None,
        Err(_) => None,
    }
}

/// Returns a register, or the word at so many bytes from it if one is read there.
fn base_by(register: Register, offset: i64, load: Option<(Width, usize)>) -> CfaBase
    ensures { result ≡ base_by register offset load }
{
    match load {
        Some(_) => CfaBase::Word { register, offset },
        None => CfaBase::Register(register),
    }
}
