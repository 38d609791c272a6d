//! The word for want of which a walk ended.
ghost use Rattle.std.specs.Prelude.{◌≡◌, IfOk, None, map, option_map, option_and_then};
ghost use Rattle.framehop_backtrace.specs.Backtrace.{frame_view, trace_view};
ghost use Rattle.framehop_backtrace.specs.Rows.{finding_of, by_row};
ghost use Rattle.framehop_backtrace.specs.declared.frame.BacktraceEnd.TheVariants.{CfaUnknown, ReturnAddressUnknown};
ghost use Rattle.framehop_callers.specs.RegisterFile.{word_of};
ghost use Rattle.framehop_callers.specs.Rules.{sum_of};
ghost use Rattle.framehop_callers.specs.Convention.{stack_pointer_of};
ghost use Rattle.framehop_core.specs.CodeAddress.{location_of};
ghost use Rattle.framehop_frames.specs.Missing.{unread_at, place_by, is_own, missing_after, missing_in_caller, missing_over, missing_in_last, missing_base, last_of, base_in, first_unknown, unread_in, missing_at, missing_word, end_for, end_of_walk};
ghost use Rattle.framehop_frames.specs.Walker.{row_limits};

use framehop::{Error, FrameAddress};
use framehop_backtrace::{BacktraceEnd, BacktraceUnwinder, Frame, RowFinding, Rows, StackTrace};
use framehop_callers::base::{CfaBase, base_of};
use framehop_callers::convention::Convention;
use framehop_callers::memory::WordMemory;
use framehop_callers::register_file::RegisterFile;
use framehop_callers::rules::cfa_of;
use framehop_cfi::context::UnwindContext;
use framehop_cfi::row::UnwindTableRow;
use framehop_cfi::rule::{Register, RegisterRule};
use framehop_cfi::storage::StoreOnStack;
use std::alloc::{AllocError, Global};

/// Returns how a walk ended: at a word that can't be read (AVMA), where its frames tell that this is why no caller was
/// found.
///
/// # Errors
///
/// An allocation failed.
#[tactic(auto, unfolding(crate::specs::Missing::end_of_walk))]
pub(crate) fn end_of_walk<U: BacktraceUnwinder, W: Rows, M: WordMemory>(
    alloc: Global,
    rows: &W,
    memory: &M,
    found: &StackTrace<U::UnwindRegs>,
) -> Result<BacktraceEnd, AllocError>
    ensures { IfOk result (λ end. end ≡ end_of_walk U.machine (W.rows rows.now row_limits) (M.memory memory.now) (trace_view found.now)) }
{
    let frames = found.frames.as_slice();
    let missing = missing_word::<U, W, M>(alloc, rows, memory, frames, found.end)?;
    Ok(end_for(found.end, missing))
}

/// Returns the end of a walk for which a word may be missing.
fn end_for(end: BacktraceEnd, missing: Option<u64>) -> BacktraceEnd
    ensures { result ≡ end_for end missing }
{
    match missing {
        Some(address) => BacktraceEnd::Refused(Error::CouldNotReadStack(address)),
        None => end,
    }
}

/// Returns the address (AVMA) of the word for want of which a walk ended, if its frames tell that.
fn missing_word<U: BacktraceUnwinder, W: Rows, M: WordMemory>(
    alloc: Global,
    rows: &W,
    memory: &M,
    frames: &[Frame<U::UnwindRegs>],
    end: BacktraceEnd,
) -> Result<Option<u64>, AllocError>
    ensures { IfOk result (λ missing. missing ≡ missing_word U.machine (W.rows rows.now row_limits) (M.memory memory.now) (map frame_view frames.now) end) }
{
    let Some(last) = last_of(frames) else {
        return Ok(None);
    };
    match end {
        BacktraceEnd::SignalFrameUnread => Ok(missing_in_signal::<U, M>(memory, &last.columns)),
        BacktraceEnd::ReturnAddressUnknown => {
            missing_return_address::<U, W, M>(alloc, rows, memory, frames, last)
        }
        BacktraceEnd::CfaUnknown => missing_base::<U, W, M>(alloc, rows, memory, frames, last),
        BacktraceEnd::RegistersUnknown => {
            let register = first_unknown::<U>(&last.columns);
            let convention = U::convention();
            missing_in_last(alloc, convention, rows, memory, register, frames)
        }
        _ => Ok(None),
    }
}

/// Returns the last of frames.
#[tactic(auto, using(crate::proofs::MissingLemmas::last_of_views), unfolding(crate::specs::Missing::last_of))]
fn last_of<R: Copy>(frames: &[Frame<R>]) -> Option<&Frame<R>>
    ensures { option_map (λ frame. frame_view frame.now) result ≡ last_of (map frame_view frames.entry.now) }
{
    frames.last()
}

/// Returns the address (AVMA) of a word that is missing of a signal frame, which is at the stack pointer.
fn missing_in_signal<U: BacktraceUnwinder, M: WordMemory>(
    memory: &M,
    columns: &RegisterFile,
) -> Option<u64>
    ensures { result ≡ option_and_then (unread_in (M.memory memory.now) U.machine.frame_size)
        (word_of columns.now (record { 0 = stack_pointer_of U.machine.convention })) }
{
    let sp = columns.get(U::convention().stack_pointer())?;
    unread_in(memory, U::frame_size(), sp)
}

/// Returns the first or else the last word (AVMA) of a signal frame at the stack pointer, if it can't be read.
fn unread_in<M: WordMemory>(memory: &M, size: u64, sp: u64) -> Option<u64>
    ensures { result ≡ unread_in (M.memory memory.now) size sp }
{
    let last = sp.saturating_add(size.saturating_sub(8));
    unread_at(memory, sp).or(unread_at(memory, last))
}

/// Returns an address (AVMA) at which no word can be read, if it is one.
fn unread_at<M: WordMemory>(memory: &M, address: u64) -> Option<u64>
    ensures { result ≡ unread_at (M.memory memory.now) address }
{
    match memory.word(address) {
        Some(_) => None,
        None => Some(address),
    }
}

/// Returns the address (AVMA) of the word for want of which the last frame's row tells no return address.
fn missing_return_address<U: BacktraceUnwinder, W: Rows, M: WordMemory>(
    alloc: Global,
    rows: &W,
    memory: &M,
    frames: &[Frame<U::UnwindRegs>],
    last: &Frame<U::UnwindRegs>,
) -> Result<Option<u64>, AllocError>
    ensures { IfOk result (λ missing. missing ≡ missing_at U.machine (W.rows rows.now row_limits) (M.memory memory.now)
        (map frame_view frames.now) (frame_view last.now) ReturnAddressUnknown) }
{
    let convention = U::convention();
    let register = convention.return_address();
    let missing = missing_in_last(alloc, convention, rows, memory, register, frames)?;
    let mut context = UnwindContext::new_in(alloc)?;
    missing_after(
        alloc,
        convention,
        rows,
        &mut context,
        memory,
        register,
        last,
        missing,
    )
}

/// Returns the address (AVMA) of the word for want of which that isn't known from which the last frame's CFA counts.
fn missing_base<U: BacktraceUnwinder, W: Rows, M: WordMemory>(
    alloc: Global,
    rows: &W,
    memory: &M,
    frames: &[Frame<U::UnwindRegs>],
    last: &Frame<U::UnwindRegs>,
) -> Result<Option<u64>, AllocError>
    ensures { IfOk result (λ missing. missing ≡ missing_at U.machine (W.rows rows.now row_limits) (M.memory memory.now)
        (map frame_view frames.now) (frame_view last.now) CfaUnknown) }
{
    let convention = U::convention();
    match base_in(alloc, rows, last.address)? {
        Some(CfaBase::Register(register)) => {
            missing_in_last(alloc, convention, rows, memory, register, frames)
        }
        Some(CfaBase::Word { register, offset }) => match last.columns.get(register) {
            Some(base) => Ok(unread_at(memory, base.wrapping_add(offset.cast_unsigned()))),
            None => missing_in_last(alloc, convention, rows, memory, register, frames),
        },
        None => Ok(None),
    }
}

/// Returns what the CFA counts from in the row of a frame, if that begins to tell it.
fn base_in<W: Rows>(
    alloc: Global,
    rows: &W,
    address: FrameAddress,
) -> Result<Option<CfaBase>, AllocError>
    ensures { IfOk result (λ base. base ≡ base_in (W.rows rows.now row_limits (location_of address))) }
{
    let mut context: UnwindContext<StoreOnStack> = UnwindContext::new_in(alloc)?;
    match rows.row_at(&mut context, address)? {
        RowFinding::Row(section) => Ok(base_of(section, *context.row().cfa())),
        RowFinding::Uncovered | RowFinding::NoRow => Ok(None),
    }
}

/// Returns the first register that is not known, of those that a step of the library needs: the stack pointer, the frame
/// pointer, and that of the return address.
fn first_unknown<U: BacktraceUnwinder>(columns: &RegisterFile) -> Register
    ensures { result ≡ first_unknown U.machine columns.now }
{
    let convention = U::convention();
    if columns.get(convention.stack_pointer()).is_none() {
        return convention.stack_pointer();
    }
    if columns.get(U::frame_pointer()).is_none() {
        return U::frame_pointer();
    }
    convention.return_address()
}

/// Returns the address (AVMA) of the word for want of which a register isn't known in the last of frames, by their rows.
fn missing_in_last<R: Copy, W: Rows, M: WordMemory>(
    alloc: Global,
    convention: Convention,
    rows: &W,
    memory: &M,
    register: Register,
    frames: &[Frame<R>],
) -> Result<Option<u64>, AllocError>
    ensures { IfOk result (λ missing. missing
        ≡ missing_in_last convention (M.memory memory.now) (W.rows rows.now row_limits) register (map frame_view frames.now)) }
{
    let Some((first, callers)) = frames.split_first() else {
        return Ok(None);
    };
    missing_over(alloc, convention, rows, memory, register, first, callers)
}

/// Returns the same in the last of callers after a first frame.
fn missing_over<R: Copy, W: Rows, M: WordMemory>(
    alloc: Global,
    convention: Convention,
    rows: &W,
    memory: &M,
    register: Register,
    first: &Frame<R>,
    callers: &[Frame<R>],
) -> Result<Option<u64>, AllocError>
    ensures { IfOk result (λ missing. missing
        ≡ missing_over convention (M.memory memory.now) (W.rows rows.now row_limits) register None (frame_view first.now) (map frame_view callers.now)) }
{
    let mut context = UnwindContext::new_in(alloc)?;
    let mut missing = None;
    let mut frame = *first;
    for caller in callers {
        missing = missing_in_caller(
            alloc,
            convention,
            rows,
            &mut context,
            memory,
            register,
            &frame,
            caller,
            missing,
        )?;
        frame = *caller;
    }
    Ok(missing)
}

/// Returns the same of the caller of a frame, by that of the frame: none where the caller knows the register.
fn missing_in_caller<R: Copy, W: Rows, M: WordMemory>(
    alloc: Global,
    convention: Convention,
    rows: &W,
    context: &mut UnwindContext<StoreOnStack>,
    memory: &M,
    register: Register,
    frame: &Frame<R>,
    caller: &Frame<R>,
    missing: Option<u64>,
) -> Result<Option<u64>, AllocError>
    ensures { IfOk result (λ found. found
        ≡ missing_in_caller convention (M.memory memory.now) (W.rows rows.now row_limits) register (frame_view frame.now) (frame_view caller.now) missing) }
{
    if caller.columns.get(register).is_some() {
        return Ok(None);
    }
    missing_after(
        alloc, convention, rows, context, memory, register, frame, missing,
    )
}

/// Returns the address (AVMA) of the word for want of which a register isn't known in the caller of a frame, by that for
/// want of which it isn't known in the frame.
fn missing_after<R: Copy, W: Rows, M: WordMemory>(
    alloc: Global,
    convention: Convention,
    rows: &W,
    context: &mut UnwindContext<StoreOnStack>,
    memory: &M,
    register: Register,
    frame: &Frame<R>,
    missing: Option<u64>,
) -> Result<Option<u64>, AllocError>
    ensures { IfOk result (λ found. found ≡ missing_after convention (M.memory memory.now) register frame.now.columns
        (W.rows rows.now row_limits (location_of frame.now.address)) missing) }
{
    match rows.row_at(context, frame.address)? {
        RowFinding::Row(section) => {
            let row = context.row();
            let columns = &frame.columns;
            Ok(missing_by_row(
                alloc, convention, section, row, memory, register, columns, missing,
            ))
        }
        RowFinding::Uncovered | RowFinding::NoRow => Ok(None),
    }
}

/// Returns the same by the frame's row.
fn missing_by_row<M: WordMemory>(
    alloc: Global,
    convention: Convention,
    section: &[u8],
    row: &UnwindTableRow<StoreOnStack>,
    memory: &M,
    register: Register,
    columns: &RegisterFile,
    missing: Option<u64>,
) -> Option<u64>
    ensures { result ≡ missing_after convention (M.memory memory.now) register columns.now (by_row section.now row.now) missing }
{
    let rule = row.register(register);
    if is_own(convention, register, rule) {
        return missing;
    }
    let cfa = cfa_of(alloc, section, *row.cfa(), columns, memory)?;
    let place = place_by(cfa, rule?)?;
    unread_at(memory, place)
}

/// Returns whether the caller's register is the frame's own.
fn is_own(convention: Convention, register: Register, rule: Option<RegisterRule>) -> bool
    ensures { result ≡ is_own convention register rule }
{
    match rule {
        Some(RegisterRule::SameValue) => true,
        Some(_) => false,
        None => convention.keeps(register),
    }
}

/// Returns where a register with a rule is saved (AVMA), by the CFA.
fn place_by(cfa: u64, rule: RegisterRule) -> Option<u64>
    ensures { result ≡ place_by cfa rule }
{
    match rule {
        RegisterRule::Offset(offset) => sum_of(cfa, offset),
        _ => None,
    }
}

/// Returns an address plus a number of bytes, or `None` where the sum is not an address of 64 bits.
fn sum_of(base: u64, offset: i64) -> Option<u64>
    ensures { result ≡ sum_of base offset }
{
    let sum = i128::from(base) + i128::from(offset);
    u64::try_from(sum).ok()
}
