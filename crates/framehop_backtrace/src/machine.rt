//! What a backtrace needs of an unwinder.
ghost use Rattle.std.specs.Prelude.{◌≡◌, ℕ, Bool, true, unwrap_or};
ghost use Rattle.framehop_core.specs.CodeAddress.{FrameLocation, location_of};
ghost use Rattle.framehop_core.specs.Memory.{Memory};
ghost use Rattle.framehop_core.specs.Outcome.{HasDone};
ghost use Rattle.framehop_backtrace.specs.Columns.{column};
ghost use Rattle.framehop_backtrace.specs.Covers.{is_covered};
ghost use Rattle.framehop_backtrace.specs.Machine.{Machine};

use crate::memory::CodeMemory;
use framehop::Unwinder;
use framehop_callers::convention::Convention;
use framehop_callers::memory::WordMemory;
use framehop_callers::register_file::RegisterFile;
use framehop_callers::run::RunCaller;
use framehop_callers::step::RunMemory;
use framehop_cfi::rule::Register;
use framehop_core::{Error, FrameAddress};

/// An unwinder of an architecture whose calls, registers and signal frames are known.
pub trait BacktraceUnwinder: Unwinder {
    ghost machine: { Machine Self.UnwindRegs };

    // PE or compact unwind info unwinds a frame
    ghost is_by_info: { Self → FrameLocation → Self.UnwindRegs → Memory → Bool };

    // after a step of the library another one can be taken
    ghost steps_on: { (address : ℕ) (regs : Self.UnwindRegs)
        → machine.can_step (machine.columns address regs) ≡ true };

    /// Returns the calling convention.
    fn convention() -> Convention
        ensures { result ≡ machine.convention };

    /// Returns a pointer to code (AVMA) without its pointer authentication bits.
    fn strip(regs: &Self::UnwindRegs, address: u64) -> u64
        ensures { result ≡ machine.strip regs.now address };

    /// Returns the columns that the library's step to an address (AVMA) leaves exactly: pc, sp and fp, and lr of aarch64.
    fn columns(address: u64, regs: &Self::UnwindRegs) -> RegisterFile
        ensures { result ≡ machine.columns address regs.now };

    /// Returns registers with the values of the columns that are known.
    fn merged(regs: Self::UnwindRegs, columns: &RegisterFile) -> Self::UnwindRegs
        ensures { result ≡ machine.merged regs columns.now };

    /// Returns whether the registers are known that each step of the library may need: sp and fp, and lr of aarch64.
    fn can_step(columns: &RegisterFile) -> bool
        ensures { result ≡ machine.can_step columns.now };

    /// Returns how much of a signal frame is read, in bytes.
    fn frame_size() -> u64
        ensures { result ≡ machine.frame_size };

    /// Returns the interrupted instruction pointer (AVMA) and all registers, by the bytes of a signal frame, or `None`
    /// where these are too few.
    fn saved(frame: &[u8]) -> Option<(u64, RegisterFile)>
        ensures { result ≡ machine.saved frame.now };

    /// Returns whether an address (AVMA) lies right after a call.
    fn is_after_call<M: CodeMemory>(memory: &M, address: u64) -> bool
        ensures { result ≡ machine.is_after_call (M.code memory.now).bytes address };

    /// Returns where the call right before an address (AVMA) leads, if it is a direct one.
    fn call_target<M: CodeMemory>(memory: &M, address: u64) -> Option<u64>
        ensures { result ≡ machine.call_target (M.code memory.now).bytes address };

    /// Returns whether a function that begins at an address (AVMA) has set its frame pointer before another, by its first
    /// instructions.
    fn has_set<M: CodeMemory>(memory: &M, start: u64, address: u64) -> bool
        ensures { result ≡ machine.has_set (M.code memory.now).bytes start address };

    /// Returns the column of the frame pointer.
    fn frame_pointer() -> Register
        ensures { result ≡ record { 0 = machine.frame_pointer } };

    /// Unwinds a frame by the frame pointer, and returns as [`Unwinder::unwind_frame`] does.
    fn follow_frame_pointer<M: WordMemory>(
        memory: &M,
        is_first_frame: bool,
        regs: &mut Self::UnwindRegs,
    ) -> Result<Option<u64>, Error>
        ensures { HasDone (machine.fallback is_first_frame regs.old (M.memory memory.now)) result regs.old regs.new };

    /// Unwinds a frame at the first instruction of a function, and returns as [`Unwinder::unwind_frame`] does.
    fn step_at_start<M: WordMemory>(
        memory: &M,
        regs: &mut Self::UnwindRegs,
    ) -> Result<Option<u64>, Error>
        ensures { HasDone (machine.start regs.old (M.memory memory.now)) result regs.old regs.new };

    /// Returns the caller of a frame by running its code from an address (AVMA) on, over its registers.
    fn caller_by_runs<M: RunMemory>(
        memory: &M,
        address: u64,
        columns: &RegisterFile,
    ) -> Option<RunCaller>
        ensures { result ≡ machine.run (record { convention = M.convention memory.now; memory = M.WordMemory.memory memory.now; code = M.code memory.now; is_covered = M.covers memory.now })
            address columns.now };

    /// Returns the caller's registers by a row, with those that the row leaves unknown although a function restores them, by
    /// running the frame's code from an address (AVMA) on, over its registers. Of aarch64 they are as they were.
    fn with_restored<M: RunMemory>(
        memory: &M,
        address: u64,
        registers: &RegisterFile,
        caller: &RegisterFile,
    ) -> RegisterFile
        ensures { result ≡ machine.restored (record { convention = M.convention memory.now; memory = M.WordMemory.memory memory.now; code = M.code memory.now; is_covered = M.covers memory.now })
            address registers.now caller.now };

    /// Returns the caller's registers, with all that is known of them where the frame's code, run from an address (AVMA) on
    /// over its registers, comes to this caller. Of aarch64 they are as they were.
    fn with_completed<M: RunMemory>(
        memory: &M,
        address: u64,
        registers: &RegisterFile,
        caller: &RegisterFile,
    ) -> RegisterFile
        ensures { result ≡ machine.completed (record { convention = M.convention memory.now; memory = M.WordMemory.memory memory.now; code = M.code memory.now; is_covered = M.covers memory.now })
            address registers.now caller.now };

    /// Returns whether PE or compact unwind info unwinds a frame.
    fn is_by_info<M: WordMemory>(
        &self,
        address: FrameAddress,
        regs: Self::UnwindRegs,
        memory: &M,
    ) -> bool
        ensures { result ≡ is_by_info self.now (location_of address) regs (M.memory memory.now) };

    /// Returns whether unwind data of the modules covers the function at an address (AVMA).
    fn covers(&self, address: u64) -> bool
        ensures { result ≡ is_covered (Self.unwinder_view self.now).modules address };
}

/// Returns the value of a register, or another one where it isn't known.
pub(crate) fn known_or(columns: &RegisterFile, register: Register, other: u64) -> u64
    ensures { result ≡ unwrap_or (column columns.now register.0) other }
{
    match columns.get(register) {
        Some(value) => value,
        None => other,
    }
}
