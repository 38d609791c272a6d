//! The caller of a frame by running its code.
ghost use Rattle.std.specs.Prelude.{◌≡◌, option_map};
ghost use Rattle.framehop_backtrace.specs.Covers.{is_covered};
ghost use Rattle.framehop_backtrace.specs.Backtrace.{frame_view, run_source, by_run, accepted, accepted_at};

use crate::frame::{FoundBy, Frame};
use crate::guess::{Evidence, evidence_at};
use crate::machine::BacktraceUnwinder;
use crate::memory::CodeMemory;
use crate::next::return_to;
use framehop_callers::convention::Convention;
use framehop_callers::memory::WordMemory;
use framehop_callers::register_file::RegisterFile;
use framehop_callers::run::RunCaller;
use framehop_callers::step::RunMemory;
use framehop_code::action::Instruction;
use framehop_core::FrameAddress;

/// What a run reads of a process: its memory and code, and which functions unwind data covers.
#[derive(Clone, Copy, Drop)]
pub(crate) struct ProcessCode<'a, U, M> {
    pub(crate) unwinder: &'a U,
    pub(crate) memory: &'a M,
}

impl<U: BacktraceUnwinder, M: CodeMemory> WordMemory for ProcessCode<'_, U, M> {
    ghost use Rattle.framehop_backtrace.specs.Backtrace.{words_of};

    ghost memory = { λ process. words_of (M.memory process.memory.now) (M.code process.memory.now) };

    fn word(&self, address: u64) -> Option<u64> {
        match self.memory.word(address) {
            Some(word) => Some(word),
            None => self.memory.constant_at(address),
        }
    }
}

impl<U: BacktraceUnwinder, M: CodeMemory> RunMemory for ProcessCode<'_, U, M> {
    ghost use Rattle.framehop_backtrace.specs.Covers.{is_covered};

    ghost convention = { λ process. U.machine.convention };

    ghost code = { λ process. (M.code process.memory.now).instruction };

    ghost covers = { λ process. is_covered (U.unwinder_view process.unwinder.now).modules };

    fn convention(&self) -> Convention {
        U::convention()
    }

    fn code_at(&self, address: u64) -> &[u8] {
        self.memory.code_at(address)
    }

    fn instruction_at(&self, address: u64) -> Option<Instruction> {
        self.memory.instruction_of(self.memory.code_at(address))
    }

    fn is_covered(&self, address: u64) -> bool {
        self.unwinder.covers(address)
    }
}

/// Returns the caller of a frame by running its code, if that comes to an address that may be after a call.
pub(crate) fn by_run<U: BacktraceUnwinder, M: CodeMemory>(
    unwinder: &U,
    memory: &M,
    frame: &Frame<U::UnwindRegs>,
) -> Option<Frame<U::UnwindRegs>>
    ensures { option_map frame_view result ≡ by_run U.machine (M.code memory.now) (frame_view frame.now)
        (run_source U.machine.convention (M.memory memory.now) (M.code memory.now) (is_covered (U.unwinder_view unwinder.now).modules)) }
{
    let process = ProcessCode { unwinder, memory };
    let caller = U::caller_by_runs(&process, frame.address.address(), &frame.columns)?;
    accepted::<U, M>(memory, frame, caller)
}

/// Returns the frame of a caller that a run has found, if its address may be after a call.
fn accepted<U: BacktraceUnwinder, M: CodeMemory>(
    memory: &M,
    frame: &Frame<U::UnwindRegs>,
    caller: RunCaller,
) -> Option<Frame<U::UnwindRegs>>
    ensures { option_map frame_view result ≡ accepted U.machine (M.code memory.now) (frame_view frame.now) caller }
{
    let address = U::strip(&frame.regs, caller.return_address);
    accepted_at::<U, M>(memory, frame, address, caller.registers)
}

/// Returns the frame of a caller by its stripped return address (AVMA) and its columns, if that may be after a call.
fn accepted_at<U: BacktraceUnwinder, M: CodeMemory>(
    memory: &M,
    frame: &Frame<U::UnwindRegs>,
    address: u64,
    columns: RegisterFile,
) -> Option<Frame<U::UnwindRegs>>
    ensures { option_map frame_view result ≡ accepted_at U.machine (M.code memory.now) (frame_view frame.now) address columns }
{
    let location = FrameAddress::from_return_address(address)?;
    let start = memory.function_start(frame.address.address());
    let evidence = evidence_at::<U, M>(memory, start, address);
    if !evidence.is_better(Evidence::NoCall) {
        return None;
    }
    let mut columns = columns;
    return_to::<U>(&frame.regs, address, &mut columns);
    Some(Frame {
        address: location,
        regs: U::merged(frame.regs, &columns),
        columns,
        found: FoundBy::Run,
    })
}
