//! Registers of x86_64 that a function has restored before it returns.
ghost use Rattle.std.specs.Prelude.{◌≡◌};
ghost use Rattle.framehop_callers.specs.Caller.{is_same};
ghost use Rattle.framehop_callers.specs.RegisterFile.{word_of, with_word};
ghost use Rattle.framehop_backtrace.specs.Columns.{column};
ghost use Rattle.framehop_backtrace.specs.Restored.{known_first, knows_kept, comes_to, restored_by, restored_in, with_restored, completed_by, completed_in, with_completed};

use framehop_callers::register_file::RegisterFile;
use framehop_callers::run::{RunCaller, caller_by_runs};
use framehop_callers::step::RunMemory;
use framehop_cfi::rule::Register;
use framehop_cfi::x86_64::{R12, R15, RA, RBP, RBX, RSP};

const R13: Register = Register(13);

const R14: Register = Register(14);

/// Returns the caller's registers by a row, with those that the row leaves unknown although a function restores them: as
/// the frame's code, run from an address (AVMA) on over its registers, leaves them at its return.
///
/// After a `pop` a row still has the register in the word below the stack pointer, where an input may have no memory.
pub(crate) fn with_restored<M: RunMemory>(
    memory: &M,
    address: u64,
    registers: &RegisterFile,
    caller: &RegisterFile,
) -> RegisterFile
    ensures { result ≡ with_restored (record { convention = M.convention memory.now; memory = M.WordMemory.memory memory.now; code = M.code memory.now; is_covered = M.covers memory.now })
        address registers.now caller.now }
{
    if knows_kept(caller) {
        return *caller;
    }
    restored_in(caller, caller_by_runs(memory, address, registers))
}

/// Returns whether the registers are known that a function restores.
fn knows_kept(columns: &RegisterFile) -> bool
    ensures { result ≡ knows_kept columns.now }
{
    columns.get(RBX).is_some()
        && columns.get(RBP).is_some()
        && columns.get(R12).is_some()
        && columns.get(R13).is_some()
        && columns.get(R14).is_some()
        && columns.get(R15).is_some()
}

/// Returns the caller's registers with what a run knows of those that a function restores, where it comes to that caller.
fn restored_in(caller: &RegisterFile, run: Option<RunCaller>) -> RegisterFile
    ensures { result ≡ restored_in caller.now run }
{
    match run {
        Some(run) => {
            if comes_to(caller, &run.registers) {
                restored_by(caller, &run.registers)
            } else {
                *caller
            }
        }
        None => *caller,
    }
}

/// Returns whether a run comes to the return address and the stack pointer of a caller.
fn comes_to(caller: &RegisterFile, run: &RegisterFile) -> bool
    ensures { result ≡ comes_to caller.now run.now }
{
    is_same(caller.get(RA), run.get(RA)) && is_same(caller.get(RSP), run.get(RSP))
}

/// Returns whether two words are known and equal.
fn is_same(word: Option<u64>, other: Option<u64>) -> bool
    ensures { result ≡ is_same word other }
{
    match (word, other) {
        (Some(word), Some(other)) => word == other,
        _ => false,
    }
}

/// Returns the caller's registers with what a run knows of those that a function restores.
fn restored_by(caller: &RegisterFile, run: &RegisterFile) -> RegisterFile
    ensures { result ≡ restored_by run.now caller.now }
{
    let mut restored = *caller;
    restore(&mut restored, RBX, run);
    restore(&mut restored, RBP, run);
    restore(&mut restored, R12, run);
    restore(&mut restored, R13, run);
    restore(&mut restored, R14, run);
    restore(&mut restored, R15, run);
    restored
}

/// Sets a register that isn't known to what a run knows of it.
fn restore(columns: &mut RegisterFile, register: Register, run: &RegisterFile)
    ensures { columns.new ≡ with_word columns.old register
        (known_first (word_of columns.old register) (word_of run.now register)) }
{
    let word = known_first(columns.get(register), run.get(register));
    columns.set(register, word);
}

/// Returns the first of two words that is known.
fn known_first(word: Option<u64>, other: Option<u64>) -> Option<u64>
    ensures { result ≡ known_first word other }
{
    match word {
        Some(word) => Some(word),
        None => other,
    }
}

/// Returns the caller's registers, with all that is known of them where the frame's code, run from an address (AVMA) on
/// over its registers, comes to this caller.
pub(crate) fn with_completed<M: RunMemory>(
    memory: &M,
    address: u64,
    registers: &RegisterFile,
    caller: &RegisterFile,
) -> RegisterFile
    ensures { result ≡ with_completed (record { convention = M.convention memory.now; memory = M.WordMemory.memory memory.now; code = M.code memory.now; is_covered = M.covers memory.now })
        address registers.now caller.now }
{
    completed_in(caller, caller_by_runs(memory, address, registers))
}

/// Returns the caller's registers with what a run knows of them, where it comes to that caller.
fn completed_in(caller: &RegisterFile, run: Option<RunCaller>) -> RegisterFile
    ensures { result ≡ completed_in caller.now run }
{
    match run {
        Some(run) => {
            if comes_to(caller, &run.registers) {
                completed_by(caller, &run.registers)
            } else {
                *caller
            }
        }
        None => *caller,
    }
}

/// Returns the caller's registers with what a run knows of the general registers but rsp.
fn completed_by(caller: &RegisterFile, run: &RegisterFile) -> RegisterFile
    ensures { result ≡ completed_by run.now caller.now }
{
    let mut completed = restored_by(caller, run);
    restore(&mut completed, Register(0), run);
    restore(&mut completed, Register(1), run);
    restore(&mut completed, Register(2), run);
    restore(&mut completed, Register(4), run);
    restore(&mut completed, Register(5), run);
    restore(&mut completed, Register(8), run);
    restore(&mut completed, Register(9), run);
    restore(&mut completed, Register(10), run);
    restore(&mut completed, Register(11), run);
    completed
}
