//! The instructions of aarch64.
ghost use Rattle.std.specs.Prelude.{◌≡◌, ◌+◌, ◌<◌, ◌≤◌, pos, length, IfSome};
ghost use Rattle.framehop_code.specs.Aarch64.Instruction.{instruction_at, base_numbered, base_name};
ghost use Rattle.framehop_cfi.specs.Aarch64 as columns;

pub mod access;
pub mod action;
pub mod encoding;
pub mod field;
pub mod form;
pub mod instruction;
pub mod pair;
pub mod structure;

use crate::effect::{Base, Code, Effect};
use framehop_cfi::aarch64::{SP, X29, X30};
use framehop_cfi::rule::Register;
use instruction::read_instruction;

/// The instructions of aarch64.
#[derive(Clone, Copy)]
pub struct CodeAarch64;

impl Code for CodeAarch64 {
    ghost instruction = { instruction_at };

    ghost numbered = { base_numbered };

    ghost entry = { pos 0 };

    ghost return_column = { columns.X30 };

    ghost named = { base_name };

    fn effect_at(code: &[u8], at: usize) -> Option<Effect> {
        read_instruction(code, at)
    }

    fn base_of(register: u16) -> Option<Base> {
        match Register(register) {
            SP => Some(Base::Sp),
            X29 => Some(Base::Fp),
            _ => None,
        }
    }

    /// The return address is in `x30`.
    fn entry_offset() -> i64 {
        0
    }

    fn return_address() -> u16 {
        X30.0
    }

    fn name_of(base: Base) -> &'static str {
        match base {
            Base::Sp => "sp",
            Base::Fp => "x29",
        }
    }
}
