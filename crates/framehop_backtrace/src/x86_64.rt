//! Backtraces of x86_64.
ghost use Rattle.std.specs.Prelude.{◌≡◌, unwrap_or};
ghost use Rattle.framehop_core.specs.X86_64.Registers.{register as register_of, with_register};
ghost use Rattle.framehop_backtrace.specs.Columns.{column};
ghost use Rattle.framehop_backtrace.specs.Machine.{all_columns, column_of, merged_x86_64};

use crate::call::{call_target_x86_64, has_set_x86_64, is_after_call_x86_64};
use crate::covers::is_covered;
use crate::info::is_by_info;
use crate::machine::{BacktraceUnwinder, known_or};
use crate::memory::CodeMemory;
use crate::restored::{with_completed, with_restored};
use crate::rows::{RowFinding, Rows};
use crate::signal::{FRAME_SIZE_X86_64, interrupted_x86_64};
use crate::step::{follow_frame_pointer, step_at_start};
use framehop::AllocationPolicy;
use framehop::x86_64::UnwinderX86_64;
use framehop_bytes::section::SectionBytes;
use framehop_callers::convention::Convention;
use framehop_callers::memory::WordMemory;
use framehop_callers::register_file::RegisterFile;
use framehop_callers::run::{RunCaller, caller_by_runs};
use framehop_callers::step::RunMemory;
use framehop_cfi::context::UnwindContext;
use framehop_cfi::rule::Register;
use framehop_cfi::storage::UnwindContextStorage;
use framehop_cfi::x86_64;
use framehop_core::x86_64::{Reg, UnwindRegsX86_64, UnwindRuleX86_64};
use framehop_core::{Error, FrameAddress};
use std::alloc::AllocError;

impl<D: SectionBytes + Drop, P: AllocationPolicy> BacktraceUnwinder for UnwinderX86_64<D, P> {
    ghost use Rattle.framehop.specs.X86_64.{x86_64_readers};
    ghost use Rattle.std.specs.Prelude.{refl};
    ghost use Rattle.framehop_backtrace.specs.Info.{is_by_info};
    ghost use Rattle.framehop_backtrace.specs.Machine.{machine_x86_64};

    ghost machine = { machine_x86_64 };

    ghost is_by_info = { λ unwinder location regs memory. is_by_info x86_64_readers regs memory unwinder.modules location };

    ghost steps_on = { λ address regs. refl };

    fn convention() -> Convention {
        Convention::X86_64
    }

    fn strip(_regs: &UnwindRegsX86_64, address: u64) -> u64 {
        address
    }

    fn columns(address: u64, regs: &UnwindRegsX86_64) -> RegisterFile {
        let mut columns = RegisterFile::new();
        columns.set(x86_64::RA, Some(address));
        columns.set(x86_64::RSP, Some(regs.sp()));
        columns.set(x86_64::RBP, Some(regs.bp()));
        columns
    }

    fn merged(regs: UnwindRegsX86_64, columns: &RegisterFile) -> UnwindRegsX86_64 {
        merged(regs, columns)
    }

    fn can_step(columns: &RegisterFile) -> bool {
        columns.get(x86_64::RSP).is_some() && columns.get(x86_64::RBP).is_some()
    }

    fn frame_size() -> u64 {
        FRAME_SIZE_X86_64
    }

    fn saved(frame: &[u8]) -> Option<(u64, RegisterFile)> {
        match interrupted_x86_64(frame) {
            Some(regs) => Some((regs.ip(), all_columns(&regs))),
            None => None,
        }
    }

    fn is_after_call<M: CodeMemory>(memory: &M, address: u64) -> bool {
        is_after_call_x86_64(memory, address)
    }

    fn call_target<M: CodeMemory>(memory: &M, address: u64) -> Option<u64> {
        call_target_x86_64(memory, address)
    }

    fn has_set<M: CodeMemory>(memory: &M, start: u64, address: u64) -> bool {
        has_set_x86_64(memory, start, address)
    }

    fn frame_pointer() -> Register {
        x86_64::RBP
    }

    fn follow_frame_pointer<M: WordMemory>(
        memory: &M,
        is_first_frame: bool,
        regs: &mut UnwindRegsX86_64,
    ) -> Result<Option<u64>, Error> {
        follow_frame_pointer::<UnwindRuleX86_64, M>(memory, is_first_frame, regs)
    }

    fn step_at_start<M: WordMemory>(
        memory: &M,
        regs: &mut UnwindRegsX86_64,
    ) -> Result<Option<u64>, Error> {
        step_at_start::<UnwindRuleX86_64, M>(memory, regs)
    }

    fn caller_by_runs<M: RunMemory>(
        memory: &M,
        address: u64,
        columns: &RegisterFile,
    ) -> Option<RunCaller> {
        caller_by_runs(memory, address, columns)
    }

    fn with_restored<M: RunMemory>(
        memory: &M,
        address: u64,
        registers: &RegisterFile,
        caller: &RegisterFile,
    ) -> RegisterFile {
        with_restored(memory, address, registers, caller)
    }

    fn with_completed<M: RunMemory>(
        memory: &M,
        address: u64,
        registers: &RegisterFile,
        caller: &RegisterFile,
    ) -> RegisterFile {
        with_completed(memory, address, registers, caller)
    }

    fn is_by_info<M: WordMemory>(
        &self,
        address: FrameAddress,
        regs: UnwindRegsX86_64,
        memory: &M,
    ) -> bool {
        is_by_info(self.inner(), address, regs, memory)
    }

    fn covers(&self, address: u64) -> bool {
        is_covered(self.inner(), address)
    }
}

impl<D: SectionBytes + Drop, P: AllocationPolicy> Rows for UnwinderX86_64<D, P> {
    ghost use Rattle.framehop.specs.X86_64.{x86_64_readers};
    ghost use Rattle.framehop_backtrace.specs.Rows.{rows_of};

    ghost rows = { λ unwinder limits location. rows_of x86_64_readers.compact limits unwinder.modules location };

    fn row_at<S: UnwindContextStorage>(
        &self,
        unwind_context: &mut UnwindContext<S>,
        address: FrameAddress,
    ) -> Result<RowFinding<'_>, AllocError> {
        self.inner().row_at(unwind_context, address)
    }
}

/// Returns all registers by their columns.
#[tactic(auto, unfolding(crate::specs::Columns::columns_by))]
pub fn all_columns(regs: &UnwindRegsX86_64) -> RegisterFile
    ensures { result ≡ all_columns regs.now }
{
    let mut columns = RegisterFile::new();
    columns.set(column_of(Reg::RAX), Some(regs.get(Reg::RAX)));
    columns.set(column_of(Reg::RDX), Some(regs.get(Reg::RDX)));
    columns.set(column_of(Reg::RCX), Some(regs.get(Reg::RCX)));
    columns.set(column_of(Reg::RBX), Some(regs.get(Reg::RBX)));
    columns.set(column_of(Reg::RSI), Some(regs.get(Reg::RSI)));
    columns.set(column_of(Reg::RDI), Some(regs.get(Reg::RDI)));
    columns.set(column_of(Reg::RBP), Some(regs.get(Reg::RBP)));
    columns.set(column_of(Reg::RSP), Some(regs.get(Reg::RSP)));
    columns.set(column_of(Reg::R8), Some(regs.get(Reg::R8)));
    columns.set(column_of(Reg::R9), Some(regs.get(Reg::R9)));
    columns.set(column_of(Reg::R10), Some(regs.get(Reg::R10)));
    columns.set(column_of(Reg::R11), Some(regs.get(Reg::R11)));
    columns.set(column_of(Reg::R12), Some(regs.get(Reg::R12)));
    columns.set(column_of(Reg::R13), Some(regs.get(Reg::R13)));
    columns.set(column_of(Reg::R14), Some(regs.get(Reg::R14)));
    columns.set(column_of(Reg::R15), Some(regs.get(Reg::R15)));
    columns.set(x86_64::RA, Some(regs.ip()));
    columns
}

/// Returns registers with the values of the columns that are known.
#[tactic(auto, unfolding(crate::specs::Machine::merged_x86_64))]
fn merged(regs: UnwindRegsX86_64, columns: &RegisterFile) -> UnwindRegsX86_64
    ensures { result ≡ merged_x86_64 regs columns.now }
{
    let mut merged = regs;
    merged.set_ip(known_or(columns, x86_64::RA, regs.ip()));
    set_known(&mut merged, Reg::RAX, columns);
    set_known(&mut merged, Reg::RDX, columns);
    set_known(&mut merged, Reg::RCX, columns);
    set_known(&mut merged, Reg::RBX, columns);
    set_known(&mut merged, Reg::RSI, columns);
    set_known(&mut merged, Reg::RDI, columns);
    set_known(&mut merged, Reg::RBP, columns);
    set_known(&mut merged, Reg::RSP, columns);
    set_known(&mut merged, Reg::R8, columns);
    set_known(&mut merged, Reg::R9, columns);
    set_known(&mut merged, Reg::R10, columns);
    set_known(&mut merged, Reg::R11, columns);
    set_known(&mut merged, Reg::R12, columns);
    set_known(&mut merged, Reg::R13, columns);
    set_known(&mut merged, Reg::R14, columns);
    set_known(&mut merged, Reg::R15, columns);
    merged
}

/// Sets a general register to the value of its column, if that is known.
fn set_known(regs: &mut UnwindRegsX86_64, register: Reg, columns: &RegisterFile)
    ensures { regs.new ≡ with_register regs.old register
        (unwrap_or (column columns.now (column_of register)) (register_of regs.old register)) }
{
    let value = known_or(columns, column_of(register), regs.get(register));
    regs.set(register, value);
}

/// Returns the column of a general register: `Reg` has them in the order of their columns.
fn column_of(register: Reg) -> Register
    ensures { result ≡ record { 0 = column_of register } }
{
    Register(register as u16)
}
