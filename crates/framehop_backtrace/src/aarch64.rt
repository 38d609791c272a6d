//! Backtraces of aarch64.
use crate::call::{call_target_aarch64, has_set_aarch64, is_after_call_aarch64};
use crate::covers::is_covered;
use crate::info::is_by_info;
use crate::machine::{BacktraceUnwinder, known_or};
use crate::memory::CodeMemory;
use crate::rows::{RowFinding, Rows};
use crate::signal::{FRAME_SIZE_AARCH64, interrupted_aarch64};
use crate::step::{follow_frame_pointer, step_at_start};
use framehop::AllocationPolicy;
use framehop::aarch64::UnwinderAarch64;
use framehop_bytes::section::SectionBytes;
use framehop_callers::convention::Convention;
use framehop_callers::memory::WordMemory;
use framehop_callers::register_file::RegisterFile;
use framehop_callers::run::{RunCaller, caller_by_runs};
use framehop_callers::step::RunMemory;
use framehop_cfi::aarch64;
use framehop_cfi::context::UnwindContext;
use framehop_cfi::rule::Register;
use framehop_cfi::storage::UnwindContextStorage;
use framehop_core::aarch64::{UnwindRegsAarch64, UnwindRuleAarch64};
use framehop_core::{Error, FrameAddress};
use std::alloc::AllocError;

impl<D: SectionBytes + Drop, P: AllocationPolicy> BacktraceUnwinder for UnwinderAarch64<D, P> {
    ghost use Rattle.framehop.specs.Aarch64.{aarch64_readers};
    ghost use Rattle.std.specs.Prelude.{refl};
    ghost use Rattle.framehop_backtrace.specs.Info.{is_by_info};
    ghost use Rattle.framehop_backtrace.specs.Machine.{machine_aarch64};

    ghost machine = { machine_aarch64 };

    ghost is_by_info = { λ unwinder location regs memory. is_by_info aarch64_readers regs memory unwinder.modules location };

    ghost steps_on = { λ address regs. refl };

    fn convention() -> Convention {
        Convention::Aarch64
    }

    fn strip(regs: &UnwindRegsAarch64, address: u64) -> u64 {
        regs.lr_mask().strip_ptr_auth(address)
    }

    fn columns(address: u64, regs: &UnwindRegsAarch64) -> RegisterFile {
        let mut columns = RegisterFile::new();
        columns.set(aarch64::PC, Some(address));
        columns.set(aarch64::SP, Some(regs.sp()));
        columns.set(aarch64::X29, Some(regs.fp()));
        columns.set(aarch64::X30, Some(regs.lr()));
        columns
    }

    fn merged(regs: UnwindRegsAarch64, columns: &RegisterFile) -> UnwindRegsAarch64 {
        let lr = known_or(columns, aarch64::X30, regs.lr());
        let sp = known_or(columns, aarch64::SP, regs.sp());
        let fp = known_or(columns, aarch64::X29, regs.fp());
        UnwindRegsAarch64::new_with_ptr_auth_mask(regs.lr_mask(), lr, sp, fp)
    }

    fn can_step(columns: &RegisterFile) -> bool {
        columns.get(aarch64::SP).is_some()
            && columns.get(aarch64::X29).is_some()
            && columns.get(aarch64::X30).is_some()
    }

    fn frame_size() -> u64 {
        FRAME_SIZE_AARCH64
    }

    fn saved(frame: &[u8]) -> Option<(u64, RegisterFile)> {
        interrupted_aarch64(frame)
    }

    fn is_after_call<M: CodeMemory>(memory: &M, address: u64) -> bool {
        is_after_call_aarch64(memory, address)
    }

    fn call_target<M: CodeMemory>(memory: &M, address: u64) -> Option<u64> {
        call_target_aarch64(memory, address)
    }

    fn has_set<M: CodeMemory>(memory: &M, start: u64, address: u64) -> bool {
        has_set_aarch64(memory, start, address)
    }

    fn frame_pointer() -> Register {
        aarch64::X29
    }

    fn follow_frame_pointer<M: WordMemory>(
        memory: &M,
        is_first_frame: bool,
        regs: &mut UnwindRegsAarch64,
    ) -> Result<Option<u64>, Error> {
        follow_frame_pointer::<UnwindRuleAarch64, M>(memory, is_first_frame, regs)
    }

    fn step_at_start<M: WordMemory>(
        memory: &M,
        regs: &mut UnwindRegsAarch64,
    ) -> Result<Option<u64>, Error> {
        step_at_start::<UnwindRuleAarch64, M>(memory, regs)
    }

    fn caller_by_runs<M: RunMemory>(
        memory: &M,
        address: u64,
        columns: &RegisterFile,
    ) -> Option<RunCaller> {
        caller_by_runs(memory, address, columns)
    }

    fn with_restored<M: RunMemory>(
        _memory: &M,
        _address: u64,
        _registers: &RegisterFile,
        caller: &RegisterFile,
    ) -> RegisterFile {
        *caller
    }

    fn with_completed<M: RunMemory>(
        _memory: &M,
        _address: u64,
        _registers: &RegisterFile,
        caller: &RegisterFile,
    ) -> RegisterFile {
        *caller
    }

    fn is_by_info<M: WordMemory>(
        &self,
        address: FrameAddress,
        regs: UnwindRegsAarch64,
        memory: &M,
    ) -> bool {
        is_by_info(self.inner(), address, regs, memory)
    }

    fn covers(&self, address: u64) -> bool {
        is_covered(self.inner(), address)
    }
}

impl<D: SectionBytes + Drop, P: AllocationPolicy> Rows for UnwinderAarch64<D, P> {
    ghost use Rattle.framehop.specs.Aarch64.{aarch64_readers};
    ghost use Rattle.framehop_backtrace.specs.Rows.{rows_of};

    ghost rows = { λ unwinder limits location. rows_of aarch64_readers.compact limits unwinder.modules location };

    fn row_at<S: UnwindContextStorage>(
        &self,
        unwind_context: &mut UnwindContext<S>,
        address: FrameAddress,
    ) -> Result<RowFinding<'_>, AllocError> {
        self.inner().row_at(unwind_context, address)
    }
}
