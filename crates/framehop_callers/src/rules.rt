//! The values that the rules of a row give (DWARF 5 section 6.4.1).
ghost use Rattle.std.specs.Prelude.{◌≡◌, option_and_then};
ghost use Rattle.framehop_callers.specs.Rules.{sum_of, cfa_of, value_by, by_convention};

use crate::convention::Convention;
use crate::evaluation::evaluate;
use crate::memory::WordMemory;
use crate::register_file::RegisterFile;
use framehop_cfi::rule::{CfaRule, Register, RegisterRule};
use std::alloc::Global;

/// Returns the canonical frame address (AVMA) that a rule gives. `section` is the bytes in which expressions lie.
pub fn cfa_of<M: WordMemory>(
    alloc: Global,
    section: &[u8],
    rule: CfaRule,
    regs: &RegisterFile,
    memory: &M,
) -> Option<u64>
    ensures { result ≡ cfa_of (record { bytes = section.now; words = regs.now; memory = M.memory memory.now }) rule }
{
    match rule {
        CfaRule::RegisterAndOffset { register, offset } => match regs.get(register) {
            Some(base) => sum_of(base, offset),
            None => None,
        },
        CfaRule::Expression(expression) => {
            evaluate(alloc, section, expression, regs, memory, None)
        }
    }
}

/// Returns the value of a register that a row doesn't name: the stack pointer is the CFA, a register that functions keep
/// has its own value, and of others nothing is known.
pub(crate) fn by_convention(
    convention: Convention,
    register: Register,
    cfa: u64,
    own: Option<u64>,
) -> Option<u64>
    ensures { result ≡ by_convention convention register.0 cfa own }
{
    if register == convention.stack_pointer() {
        return Some(cfa);
    }
    if convention.keeps(register) {
        own
    } else {
        None
    }
}

/// Returns the value that a rule gives to a register of the caller. `own` is what the register has now.
pub fn value_by<M: WordMemory>(
    alloc: Global,
    section: &[u8],
    rule: RegisterRule,
    cfa: u64,
    own: Option<u64>,
    regs: &RegisterFile,
    memory: &M,
) -> Option<u64>
    ensures { result ≡ value_by (record { bytes = section.now; words = regs.now; memory = M.memory memory.now }) cfa own rule }
{
    match rule {
        RegisterRule::Undefined => None,
        RegisterRule::SameValue => own,
        RegisterRule::Offset(offset) => word_at(memory, sum_of(cfa, offset)),
        RegisterRule::ValOffset(offset) => sum_of(cfa, offset),
        RegisterRule::Register(register) => regs.get(register),
        RegisterRule::Expression(expression) => {
            let address = evaluate(alloc, section, expression, regs, memory, Some(cfa));
            word_at(memory, address)
        }
        RegisterRule::ValExpression(expression) => {
            evaluate(alloc, section, expression, regs, memory, Some(cfa))
        }
    }
}

/// Returns the word at an address, if there is an address and the word can be read.
fn word_at<M: WordMemory>(memory: &M, address: Option<u64>) -> Option<u64>
    ensures { result ≡ option_and_then (M.memory memory.now) address }
{
    match address {
        Some(address) => memory.word(address),
        None => None,
    }
}

/// Returns an address plus a number of bytes, or `None` where the sum is not an address of 64 bits.
fn sum_of(base: u64, offset: i64) -> Option<u64>
    ensures { result ≡ sum_of base offset }
{
    let sum = i128::from(base) + i128::from(offset);
    u64::try_from(sum).ok()
}
