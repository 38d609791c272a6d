//! The instructions of x86_64.
ghost use Rattle.std.specs.Prelude.{◌≡◌, ◌+◌, ◌<◌, ◌≤◌, pos, length, IfSome};
ghost use Rattle.framehop_code.specs.X86_64.Instruction.{instruction_at, base_numbered, base_name};
ghost use Rattle.framehop_cfi.specs.X86_64 as columns;

pub mod action;
pub mod instruction;
pub mod kept;
pub mod opcode;
pub mod operand;
pub mod operation;
pub mod written;

use crate::effect::{Base, Code, Effect};
use framehop_cfi::rule::Register;
use framehop_cfi::x86_64::{RA, RBP, RSP};
use instruction::read_instruction;

/// The instructions of x86_64, in 64-bit mode.
#[derive(Clone, Copy)]
pub struct CodeX86_64;

impl Code for CodeX86_64 {
    ghost instruction = { instruction_at };

    ghost numbered = { base_numbered };

    ghost entry = { pos 8 };

    ghost return_column = { columns.RA };

    ghost named = { base_name };

    fn effect_at(code: &[u8], at: usize) -> Option<Effect> {
        read_instruction(code, at)
    }

    fn base_of(register: u16) -> Option<Base> {
        match Register(register) {
            RSP => Some(Base::Sp),
            RBP => Some(Base::Fp),
            _ => None,
        }
    }

    /// The return address is on the stack.
    fn entry_offset() -> i64 {
        8
    }

    fn return_address() -> u16 {
        RA.0
    }

    fn name_of(base: Base) -> &'static str {
        match base {
            Base::Sp => "rsp",
            Base::Fp => "rbp",
        }
    }
}
