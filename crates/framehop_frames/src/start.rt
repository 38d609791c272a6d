//! The registers with which a walk begins.
ghost use Rattle.std.specs.Prelude.{◌≡◌, ◌≤◌, length};
ghost use Rattle.framehop_frames.specs.Start.{x86_64_start, aarch64_start, with_words, with_general};
ghost use Rattle.framehop_backtrace.specs.Machine.{columns_aarch64};

use crate::machine::Start;
use framehop_backtrace::x86_64::all_columns;
use framehop_bytes::bytes::u64_at;
use framehop_callers::register_file::RegisterFile;
use framehop_cfi::aarch64::{PC, SP, X29, X30};
use framehop_cfi::rule::Register;
use framehop_core::aarch64::UnwindRegsAarch64;
use framehop_core::x86_64::UnwindRegsX86_64;

/// How many bytes `x0` to `x28` have.
const GENERAL_SIZE: usize = 232;

/// Returns the start of a walk by the registers of x86_64.
pub fn x86_64_start(regs: UnwindRegsX86_64) -> Start<UnwindRegsX86_64>
    ensures { result ≡ x86_64_start regs }
{
    Start {
        pc: regs.ip(),
        sp: regs.sp(),
        regs,
        columns: all_columns(&regs),
    }
}

/// Returns the start of a walk by registers of aarch64, pc (AVMA) among them, and by `x0` to `x28`: little-endian words at the
/// front of `general`, or not known where that has fewer.
pub fn aarch64_start(pc: u64, regs: UnwindRegsAarch64, general: &[u8]) -> Start<UnwindRegsAarch64>
    ensures { result ≡ aarch64_start general.now (pc, regs) }
{
    let mut columns = columns_aarch64(pc, &regs);
    set_general(&mut columns, general);
    Start {
        pc,
        sp: regs.sp(),
        regs,
        columns,
    }
}

/// Returns pc, sp, fp and lr by their columns.
fn columns_aarch64(pc: u64, regs: &UnwindRegsAarch64) -> RegisterFile
    ensures { result ≡ columns_aarch64 pc regs.now }
{
    let mut columns = RegisterFile::new();
    columns.set(PC, Some(pc));
    columns.set(SP, Some(regs.sp()));
    columns.set(X29, Some(regs.fp()));
    columns.set(X30, Some(regs.lr()));
    columns
}

/// Sets `x0` to `x28` to the words at the front of bytes, if there are as many.
fn set_general(columns: &mut RegisterFile, general: &[u8])
    ensures { columns.new ≡ with_general general.now columns.old }
{
    if general.len() >= GENERAL_SIZE {
        set_words(columns, general);
    }
}

/// Sets `x0` to `x28` to the words at the front of bytes.
fn set_words(columns: &mut RegisterFile, general: &[u8])
    requires { 232 ≤ length general.now }
    ensures { columns.new ≡ with_words general.now 29 columns.old }
{
    let mut left = 29u16;
    while left > 0 {
        left -= 1;
        let word = u64_at(general, usize::from(left) * 8);
        columns.set(Register(left), Some(word));
    }
}
