//! Operations undone one by one (Microsoft, "x64 exception handling", "Unwind procedure").
ghost use Rattle.std.specs.Prelude.{◌≡◌, Ok, Err, Some, None, MatchOption, MatchResult, IfErr, IfNone};
ghost use Rattle.framehop_core.specs.Memory.{Answering};
ghost use Rattle.framehop_pe.specs.Operations.{left_operations};
ghost use Rattle.framehop_pe.specs.Answer.{IsMissingStackData};
ghost use Rattle.framehop_pe.specs.Resolve.{base_of, restored_sp, saves_base, machine_frame_at, popped_register, undone_machine_frame, undone, resolved};
ghost use Rattle.framehop_core.specs.X86_64.Registers.{with_register};

use super::chain::{FrameBase, FramedOperation, UnwindOperations};
use super::info::FrameRegister;
use super::operation::UnwindOperation;
use super::state::{UnwindState, pop_word};
use crate::pe::PeUnwinderError;
use framehop_bytes::section::SectionBytes;
use framehop_core::x86_64::Reg;
use std::ops::ControlFlow;

/// Undoes an operation: the registers are those before the code's instruction ran. Returns the
/// return address (AVMA) where the operation ends the list, and `None`, with the registers as they
/// are, where a stack word can't be read or an address does not fit 64 bits.
pub(crate) fn resolve_operation<S: UnwindState>(
    framed: FramedOperation,
    state: &mut S,
) -> Option<ControlFlow<u64>>
    requires { S.can_read state.old }
    ensures callable { S.can_read state.new }
    ensures same_loan { S.loan state.new ≡ S.loan state.old }
    ensures kept { IfNone result (S.registers state.new ≡ S.registers state.old) }
    ensures answers { Answering S.calls (S.callback state.old) (S.callback state.new) (λ memory. MatchOption result
        (undone memory framed.operation framed.base (S.registers state.old) ≡ None)
        (λ flow. undone memory framed.operation framed.base (S.registers state.old)
        ≡ Some (flow, S.registers state.new))) }
{
    match framed.operation {
        UnwindOperation::UnStackAlloc(size) => {
            let sp = state.read_register(Reg::RSP).checked_add(u64::from(size))?;
            Some(set_register(Reg::RSP, sp, state))
        }
        UnwindOperation::PopNonVolatile(register) => pop_register(register, state),
        UnwindOperation::RestoreSp => {
            let sp = restored_sp(framed.base, state)?;
            Some(set_register(Reg::RSP, sp, state))
        }
        UnwindOperation::Read(register, offset) => {
            let base = saves_base(framed.base, state)?;
            let word = state.read_stack(base.checked_add(u64::from(offset))?)?;
            Some(set_register(register, word, state))
        }
        UnwindOperation::Skip => Some(ControlFlow::Continue(())),
        UnwindOperation::MachineFrame(has_error_code) => {
            resolve_machine_frame(has_error_code, state)
        }
    }
}

/// Sets a register. The list of operations goes on.
fn set_register<S: UnwindState>(reg: Reg, value: u64, state: &mut S) -> ControlFlow<u64>
    ensures goes_on { result ≡ ControlFlow.Continue tt }
    ensures written { S.registers state.new ≡ with_register (S.registers state.old) reg value }
    ensures callable { S.can_read state.old → S.can_read state.new }
    ensures same_loan { S.loan state.new ≡ S.loan state.old }
    ensures unread { S.callback state.new ≡ S.callback state.old }
{
    state.write_register(reg, value);
    ControlFlow::Continue(())
}

/// Pops a register.
fn pop_register<S: UnwindState>(reg: Reg, state: &mut S) -> Option<ControlFlow<u64>>
    requires { S.can_read state.old }
    ensures callable { S.can_read state.new }
    ensures same_loan { S.loan state.new ≡ S.loan state.old }
    ensures kept { IfNone result (S.registers state.new ≡ S.registers state.old) }
    ensures answers { Answering S.calls (S.callback state.old) (S.callback state.new) (λ memory. MatchOption result
        (popped_register memory reg (S.registers state.old) ≡ None)
        (λ flow. popped_register memory reg (S.registers state.old) ≡ Some (flow, S.registers state.new))) }
{
    let sp = state.read_register(Reg::RSP);
    let word = state.read_stack(sp)?;
    let sp = sp.checked_add(8)?;
    state.write_register(reg, word);
    Some(set_register(Reg::RSP, sp, state))
}

/// Returns the base of a frame (AVMA): its frame register less the offset.
fn base_of<S: UnwindState>(frame: FrameRegister, state: &S) -> Option<u64>
    ensures { result ≡ base_of frame (S.registers state.now) }
{
    state
        .read_register(frame.register)
        .checked_sub(u64::from(frame.offset))
}

/// Returns what the frame register says of rsp (AVMA).
fn restored_sp<S: UnwindState>(base: FrameBase, state: &S) -> Option<u64>
    ensures { result ≡ restored_sp base.frame_register (S.registers state.now) }
{
    base_of(base.frame_register?, state)
}

/// Returns what saved registers are counted from (AVMA): the frame's base where it is established,
/// else rsp.
fn saves_base<S: UnwindState>(base: FrameBase, state: &S) -> Option<u64>
    ensures { result ≡ saves_base base.frame_register base.is_established (S.registers state.now) }
{
    match base.frame_register {
        Some(frame) if base.is_established => base_of(frame, state),
        _ => Some(state.read_register(Reg::RSP)),
    }
}

/// Returns where a machine frame lies (AVMA): above its error code, if it has one.
fn machine_frame_at<S: UnwindState>(has_error_code: bool, state: &S) -> Option<u64>
    ensures { result ≡ machine_frame_at has_error_code (S.registers state.now) }
{
    let sp = state.read_register(Reg::RSP);
    if has_error_code {
        sp.checked_add(8)
    } else {
        Some(sp)
    }
}

/// Undoes a machine frame, and returns the return address (AVMA) that it holds.
fn resolve_machine_frame<S: UnwindState>(
    has_error_code: bool,
    state: &mut S,
) -> Option<ControlFlow<u64>>
    requires { S.can_read state.old }
    ensures callable { S.can_read state.new }
    ensures same_loan { S.loan state.new ≡ S.loan state.old }
    ensures kept { IfNone result (S.registers state.new ≡ S.registers state.old) }
    ensures answers { Answering S.calls (S.callback state.old) (S.callback state.new) (λ memory. MatchOption result
        (undone_machine_frame memory has_error_code (S.registers state.old) ≡ None)
        (λ flow. undone_machine_frame memory has_error_code (S.registers state.old)
        ≡ Some (flow, S.registers state.new))) }
{
    let address = machine_frame_at(has_error_code, state)?;
    let return_address = state.read_stack(address)?;
    let sp = state.read_stack(address.checked_add(24)?)?;
    state.write_register(Reg::RSP, sp);
    Some(ControlFlow::Break(return_address))
}

/// Undoes operations in their order. Returns the return address (AVMA); the registers are the
/// caller's but for ip. `MissingStackData` where a word can't be read or an address does not fit.
pub(crate) fn resolve_operations<S: UnwindState, D: SectionBytes>(
    operations: UnwindOperations<'_, '_, D>,
    state: &mut S,
) -> Result<u64, PeUnwinderError>
    requires { S.can_read state.old }
    ensures callable { S.can_read state.new }
    ensures same_loan { S.loan state.new ≡ S.loan state.old }
    ensures stack { IfErr result IsMissingStackData }
    ensures answers { Answering S.calls (S.callback state.old) (S.callback state.new) (λ memory. MatchResult result
        (λ address. resolved memory (left_operations D.contents operations.entry) (S.registers state.old)
        ≡ Ok (address, S.registers state.new))
        (λ error. resolved memory (left_operations D.contents operations.entry) (S.registers state.old)
        ≡ Err error)) }
{
    for framed in operations {
        match resolve_operation(framed, state) {
            Some(ControlFlow::Continue(())) => {}
            Some(ControlFlow::Break(return_address)) => return Ok(return_address),
            None => return Err(PeUnwinderError::MissingStackData(None)),
        }
    }
    pop_word(state)
}
