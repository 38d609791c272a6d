//! The caller's registers by a row.
ghost use Rattle.std.specs.Prelude.{◌≡◌, Ok, Err, IfOk, MatchResult, length};
ghost use Rattle.framehop_callers.specs.Caller.{is_end, is_stuck, is_same, HasColumns, caller_column, step_of};
ghost use Rattle.framehop_callers.specs.RegisterFile.{word_of};
ghost use Rattle.framehop_callers.specs.Rules.{by_convention};

use crate::convention::Convention;
use crate::memory::WordMemory;
use crate::register_file::RegisterFile;
use crate::rules::{by_convention, cfa_of, value_by};
use framehop_cfi::row::UnwindTableRow;
use framehop_cfi::rule::{Register, RegisterRule};
use framehop_cfi::storage::UnwindContextStorage;
use std::alloc::Global;

/// The caller's frame.
#[derive(Clone, Copy)]
pub struct Caller {
    /// Its registers, each known or not. The program counter is the return address.
    pub regs: RegisterFile,
    /// The canonical frame address (CFA) of the frame that is left, an AVMA.
    pub cfa: u64,
    /// The return address, an AVMA, with its pointer authentication bits.
    pub return_address: u64,
}

/// Why a row gives no caller.
#[derive(Clone, Copy, PartialEq, Eq)]
pub enum RowRefusal {
    /// The return address is undefined: the frame is the outermost one.
    Outermost,
    /// The CFA needs a register that isn't known or a word that can't be read, or its expression has no value.
    CfaUnknown,
    /// The same holds of the return address.
    ReturnAddressUnknown,
    /// The caller would have the stack pointer and the program counter of the frame itself.
    DidNotAdvance,
}

/// Returns the caller's frame by a row of a call frame section over the registers of a frame and the memory: every
/// column by its rule, or where the row doesn't name it by the calling convention. `section` is the section's bytes, in
/// which the row's expressions lie. The allocator is not used.
///
/// # Errors
///
/// The first of `RowRefusal`, in their order.
///
/// Source: DWARF 5 section 6.4.3, "Call Frame Information Usage".
pub fn caller_by_row<M: WordMemory, S: UnwindContextStorage>(
    alloc: Global,
    convention: Convention,
    section: &[u8],
    row: &UnwindTableRow<S>,
    regs: &RegisterFile,
    memory: &M,
) -> Result<Caller, RowRefusal>
    ensures step { MatchResult result
        (λ caller. step_of convention (record { bytes = section.now; words = regs.now; memory = M.memory memory.now }) row.now ≡ Ok (caller.cfa, caller.return_address))
        (λ error. step_of convention (record { bytes = section.now; words = regs.now; memory = M.memory memory.now }) row.now ≡ Err error) }
    ensures registers { IfOk result (λ caller.
        HasColumns (caller_column convention (record { bytes = section.now; words = regs.now; memory = M.memory memory.now }) row.now caller.cfa) caller.regs) }
    ensures whole { IfOk result (λ caller. length caller.regs ≡ 33) }
{
    if is_end(convention, row.register(convention.return_address())) {
        return Err(RowRefusal::Outermost);
    }
    let Some(cfa) = cfa_of(alloc, section, *row.cfa(), regs, memory) else {
        return Err(RowRefusal::CfaUnknown);
    };
    let caller = caller_registers(alloc, convention, section, row, cfa, regs, memory);
    let Some(return_address) = caller.get(convention.program_counter()) else {
        return Err(RowRefusal::ReturnAddressUnknown);
    };
    let stack_pointer = caller.get(convention.stack_pointer());
    if is_stuck(convention, regs, stack_pointer, return_address) {
        return Err(RowRefusal::DidNotAdvance);
    }
    Ok(Caller {
        regs: caller,
        cfa,
        return_address,
    })
}

/// Returns whether a row says that there is no caller, by its rule for the return address.
fn is_end(convention: Convention, rule: Option<RegisterRule>) -> bool
    ensures { result ≡ is_end convention rule }
{
    match rule {
        Some(RegisterRule::Undefined) => true,
        Some(_) => false,
        None => !convention.keeps(convention.return_address()),
    }
}

/// Returns whether a frame has this stack pointer and this program counter itself.
fn is_stuck(
    convention: Convention,
    regs: &RegisterFile,
    stack_pointer: Option<u64>,
    address: u64,
) -> bool
    ensures { result ≡ is_stuck convention regs.now stack_pointer address }
{
    let own_stack_pointer = regs.get(convention.stack_pointer());
    let own_program_counter = regs.get(convention.program_counter());
    is_same(own_stack_pointer, stack_pointer) && is_same(own_program_counter, Some(address))
}

/// Returns whether two words are known and equal.
fn is_same(word: Option<u64>, other: Option<u64>) -> bool
    ensures { result ≡ is_same word other }
{
    match (word, other) {
        (Some(word), Some(other)) => word == other,
        _ => false,
    }
}

/// Returns the registers of the caller, by a row. The program counter is the return address.
fn caller_registers<M: WordMemory, S: UnwindContextStorage>(
    alloc: Global,
    convention: Convention,
    section: &[u8],
    row: &UnwindTableRow<S>,
    cfa: u64,
    regs: &RegisterFile,
    memory: &M,
) -> RegisterFile
    ensures columns { HasColumns (caller_column convention (record { bytes = section.now; words = regs.now; memory = M.memory memory.now }) row.now cfa) result }
    ensures whole { length result ≡ 33 }
{
    let mut caller = unnamed_registers(convention, cfa, regs);
    let rules = row.registers();
    // From the last on, since of two rules of a register the first is its rule.
    let mut left = rules.len();
    while left > 0 {
        left -= 1;
        let named = rules[left];
        let own = regs.get(named.0);
        let word = value_by(alloc, section, named.1, cfa, own, regs, memory);
        caller.set(named.0, word);
    }
    let return_address = caller.get(convention.return_address());
    caller.set(convention.program_counter(), return_address);
    caller
}

/// Returns the registers of the caller by the calling convention, as if a row named none of them.
fn unnamed_registers(convention: Convention, cfa: u64, regs: &RegisterFile) -> RegisterFile
    ensures columns { HasColumns (λ column. by_convention convention column cfa (word_of regs.now (record { 0 = column }))) result }
    ensures whole { length result ≡ 33 }
{
    let mut caller = RegisterFile::new();
    let mut column = 0u16;
    while column < 33 {
        let register = Register(column);
        let word = by_convention(convention, register, cfa, regs.get(register));
        caller.set(register, word);
        column += 1;
    }
    caller
}
