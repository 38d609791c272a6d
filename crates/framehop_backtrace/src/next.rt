//! The caller of a frame.
ghost use Rattle.std.specs.Prelude.{◌≡◌, ◌≢◌, ◌⊎◌, None, option_map, IfOk, IfErr, OnErr, Err, MatchBool, true, length};
ghost use Rattle.framehop_cfi.specs.Row.{rule_of};
ghost use Rattle.framehop_callers.specs.Convention.{return_address_of};
ghost use Rattle.framehop_core.specs.CodeAddress.{FrameLocation, location_of, is_first_frame};
ghost use Rattle.framehop_core.specs.Outcome.{HasDone};
ghost use Rattle.framehop.specs.Modules.{UnwinderView};
ghost use Rattle.framehop.specs.Soundness.{AreApart};
ghost use Rattle.framehop_backtrace.specs.Code.{is_in_trampoline};
ghost use Rattle.framehop_backtrace.specs.Rows.{Finding, IsRow, finding_of};
ghost use Rattle.framehop_backtrace.specs.Kept.{AreFound, kept_rows};
ghost use Rattle.framehop_backtrace.specs.Columns.{returned_to};
ghost use Rattle.framehop_backtrace.specs.Covers.{is_covered};
ghost use Rattle.framehop_backtrace.specs.Backtrace.{frame_view, moved_to, by_signal, by_row_of, restored_columns, returned_as, stepped, is_by_frame_pointer, has_no_frame_pointer, end_of_error, end_without_caller, guessed, by_library, by_guess, by_start, without_row, run_source, by_run, caller_or, completed, is_stored, row_or, by_finding, end_at_entry, at_entry, has_set_from, stack_of, next_of};

use crate::frame::{BacktraceEnd, FoundBy, Frame, end_of_refusal, is_stored, is_unknown, root_of};
use crate::guess::{Evidence, evidence_of, prefers_frame_pointer};
use crate::kept::{FoundRow, RowRoom};
use crate::machine::{BacktraceUnwinder, known_or};
use crate::memory::{CodeMemory, is_in_code, is_in_trampoline, is_outside_code};
use crate::rows::{RowFinding, Rows};
use crate::run::{ProcessCode, by_run};
use crate::step::step;
use framehop_callers::caller::caller_by_row;
use framehop_callers::register_file::RegisterFile;
use framehop_cfi::context::UnwindContext;
use framehop_cfi::row::UnwindTableRow;
use framehop_cfi::storage::UnwindContextStorage;
use framehop_core::{Error, FrameAddress};
use std::alloc::{AllocError, Global};

/// Makes a frame its caller, or returns how the stack ends there. At an end the frame is as it was.
///
/// 1. A frame in a trampoline, to which the handler of a signal returns, has the interrupted code as its caller.
/// 2. A frame for which the modules have a row has its caller by that, over all registers that are known. What the row
///    leaves unknown of the registers that the function restores, since a word can't be read, is taken from running its
///    code, where that comes to the same return address and stack pointer: after a `pop` the word is below the stack
///    pointer.
/// 3. A frame that call frames of its module do not cover, or whose row needs a register or a word that isn't known, but
///    for the word in which the return address is stored, has its caller by running its code, if that returns to an
///    address right after a call, or after code that nobody has. A run knows the words of the memory, and where that has
///    none those that the mapped files have in constant data. In a walk the row is first tried over the registers that a
///    run of the callee's code knows.
/// 4. Else the library's step is taken, over the registers that it has. The rule of a function's start is a guess: its
///    return address is compared with that of the frame pointer, and taken unless that is likelier, or as likely in a
///    function that has set its frame pointer. Either must lie right
///    after a call, or after code that nobody has; a direct call of another function is less likely than other calls, and
///    one of the frame's function likelier. Where an instruction pointer lies in no code, a call has just led there: this
///    guess is made, too.
///
/// A return address of 2, 3 and 4 must lie in executable memory. Only 4 looks at the cache. Where a process begins a frame
/// pointer of 0 is a root.
///
/// # Errors
///
/// An allocation failed, and the frame is as it was. That may be only where the context's rows have no limits, or where
/// the library's step may take memory.
pub fn next_frame<U: BacktraceUnwinder, W: Rows, M: CodeMemory, S: UnwindContextStorage>(
    alloc: Global,
    unwinder: &U,
    rows: &W,
    unwind_context: &mut UnwindContext<S>,
    cache: &mut U::Cache,
    memory: &M,
    frame: &mut Frame<U::UnwindRegs>,
) -> Result<Result<(), BacktraceEnd>, AllocError>
    ensures stays_sound { (other : UnwinderView) → AreApart (U.unwinder_view unwinder.now) other
        → U.is_sound other cache.old → U.is_sound other cache.new }
    ensures kept_in_trampolines { is_in_trampoline (M.code memory.now) (location_of frame.old.address) ≡ true → cache.new ≡ cache.old }
    ensures kept_by_rows { IsRow (W.rows rows.now S.limits (location_of frame.old.address)) → cache.new ≡ cache.old }
    ensures refused { IfErr result (λ _. (S.limits ≡ None) ⊎ U.may_run_out unwinder.now cache.old (location_of frame.old.address)) }
    ensures exact { U.is_sound (U.unwinder_view unwinder.now) cache.old → IfOk result (λ moved. moved_to moved frame.new
        ≡ next_of (stack_of U.machine (U.step unwinder.now) (U.is_by_info unwinder.now) (W.rows rows.now S.limits) (is_covered (U.unwinder_view unwinder.now).modules)
        (M.memory memory.now) (M.code memory.now)) None (frame_view frame.old)) }
    ensures unmoved { OnErr result (frame.new ≡ frame.old) }
    ensures ended { IfOk result (λ moved. OnErr moved (frame.new ≡ frame.old)) }
{
    if is_in_trampoline(memory, frame.address) {
        return Ok(by_signal::<U, M>(memory, frame));
    }
    let finding = rows.row_at(unwind_context, frame.address)?;
    let row = unwind_context.row();
    by_finding(alloc, unwinder, finding, row, cache, memory, None, frame)
}

/// Makes a frame its caller as [`next_frame`] does, in a walk that keeps what it finds and knows the frame's callee.
///
/// # Errors
///
/// Those of [`next_frame`].
pub(crate) fn next_kept_frame<'a, U, W, M, S>(
    alloc: Global,
    unwinder: &U,
    rows: &'a W,
    room: &mut RowRoom<S>,
    found: &mut [Option<FoundRow<'a>>],
    cache: &mut U::Cache,
    memory: &M,
    callee: Option<Frame<U::UnwindRegs>>,
    frame: &mut Frame<U::UnwindRegs>,
) -> Result<Result<(), BacktraceEnd>, AllocError>
where
    U: BacktraceUnwinder,
    W: Rows,
    M: CodeMemory,
    S: UnwindContextStorage,
    requires { length found.old ≡ kept_rows }
    ensures size { length found.new ≡ kept_rows }
    ensures kept { AreFound (W.rows rows.entry.now S.limits) found.old room.old
        → AreFound (W.rows rows.entry.now S.limits) found.new room.new }
    ensures stays_sound { (other : UnwinderView) → AreApart (U.unwinder_view unwinder.now) other
        → U.is_sound other cache.old → U.is_sound other cache.new }
    ensures refused { IfErr result (λ _. (S.limits ≡ None) ⊎ U.may_run_out unwinder.now cache.old (location_of frame.old.address)) }
    ensures exact { AreFound (W.rows rows.entry.now S.limits) found.old room.old
        → U.is_sound (U.unwinder_view unwinder.now) cache.old → IfOk result (λ moved. moved_to moved frame.new
        ≡ next_of (stack_of U.machine (U.step unwinder.now) (U.is_by_info unwinder.now) (W.rows rows.entry.now S.limits) (is_covered (U.unwinder_view unwinder.now).modules)
        (M.memory memory.now) (M.code memory.now)) (option_map frame_view callee) (frame_view frame.old)) }
{
    if is_in_trampoline(memory, frame.address) {
        return Ok(by_signal::<U, M>(memory, frame));
    }
    let (place, finding) = room.row_at(rows, found, frame.address)?;
    let row = room.row(place);
    by_finding(alloc, unwinder, finding, row, cache, memory, callee, frame)
}

/// Makes a frame its caller by what was found for it, with the row that it has if it is one.
fn by_finding<U: BacktraceUnwinder, M: CodeMemory, S: UnwindContextStorage>(
    alloc: Global,
    unwinder: &U,
    finding: RowFinding<'_>,
    row: &UnwindTableRow<S>,
    cache: &mut U::Cache,
    memory: &M,
    callee: Option<Frame<U::UnwindRegs>>,
    frame: &mut Frame<U::UnwindRegs>,
) -> Result<Result<(), BacktraceEnd>, AllocError>
    ensures stays_sound { (other : UnwinderView) → AreApart (U.unwinder_view unwinder.now) other
        → U.is_sound other cache.old → U.is_sound other cache.new }
    ensures kept_by_rows { IsRow (finding_of finding.entry row.now) → cache.new ≡ cache.old }
    ensures refused { IfErr result (λ _. U.may_run_out unwinder.now cache.old (location_of frame.old.address)) }
    ensures exact { (rows : FrameLocation → Finding) → U.is_sound (U.unwinder_view unwinder.now) cache.old
        → IfOk result (λ moved. moved_to moved frame.new
        ≡ by_finding (stack_of U.machine (U.step unwinder.now) (U.is_by_info unwinder.now) rows (is_covered (U.unwinder_view unwinder.now).modules)
        (M.memory memory.now) (M.code memory.now)) (option_map frame_view callee) (frame_view frame.old) (finding_of finding.entry row.now)) }
    ensures unmoved { OnErr result (frame.new ≡ frame.old) }
    ensures ended { IfOk result (λ moved. OnErr moved (frame.new ≡ frame.old)) }
{
    match finding {
        RowFinding::Row(section) => Ok(by_row_or_run(
            alloc, unwinder, section, row, memory, callee, frame,
        )),
        RowFinding::Uncovered => {
            let address = frame.address.address_for_lookup();
            let moved = by_run_or_start(unwinder, cache, memory, frame)?;
            Ok(at_entry(memory, address, moved))
        }
        RowFinding::NoRow => {
            let address = frame.address.address_for_lookup();
            let moved = without_row(unwinder, cache, memory, frame)?;
            Ok(at_entry(memory, address, moved))
        }
    }
}

/// Returns whether a frame at an address (AVMA) was made its caller, or the end there: a frame pointer of 0 is a root where
/// a process begins.
fn at_entry<M: CodeMemory>(
    memory: &M,
    address: u64,
    moved: Result<(), BacktraceEnd>,
) -> Result<(), BacktraceEnd>
    ensures some { (moved ≡ Ok tt) → result ≡ Ok tt }
    ensures none { (end : BacktraceEnd) → moved ≡ Err end → result ≡ Err (end_at_entry ((M.code memory.now).is_entry address) end) }
{
    match moved {
        Ok(()) => Ok(()),
        Err(end) => Err(end_at_entry(memory.is_at_entry(address), end)),
    }
}

/// Returns the end of a stack at a place where a process begins, or elsewhere.
fn end_at_entry(is_entry: bool, end: BacktraceEnd) -> BacktraceEnd
    ensures { result ≡ end_at_entry is_entry end }
{
    match end {
        BacktraceEnd::FramePointerZero if is_entry => BacktraceEnd::Root,
        end => end,
    }
}

/// Makes a frame the code that a signal interrupted, by the signal frame at the stack pointer of a trampoline.
fn by_signal<U: BacktraceUnwinder, M: CodeMemory>(
    memory: &M,
    frame: &mut Frame<U::UnwindRegs>,
) -> Result<(), BacktraceEnd>
    ensures moved { moved_to result frame.new ≡ by_signal U.machine (M.code memory.now) (frame_view frame.old) }
    ensures ended { OnErr result (frame.new ≡ frame.old) }
{
    let Some(sp) = frame.columns.get(U::convention().stack_pointer()) else {
        return Err(BacktraceEnd::SignalFrameUnread);
    };
    let Some(bytes) = memory.bytes_at(sp, U::frame_size()) else {
        return Err(BacktraceEnd::SignalFrameUnread);
    };
    let Some((pc, columns)) = U::saved(bytes) else {
        return Err(BacktraceEnd::SignalFrameUnread);
    };
    frame.address = FrameAddress::from_instruction_pointer(pc);
    frame.regs = U::merged(frame.regs, &columns);
    frame.columns = columns;
    frame.found = FoundBy::Signal;
    Ok(())
}

/// Makes a frame its caller by a row. Where what that needs isn't known, but for the word in which the return address is
/// stored: by the row over what a run of the callee's code knows, or else by running the frame's code.
fn by_row_or_run<U: BacktraceUnwinder, M: CodeMemory, S: UnwindContextStorage>(
    alloc: Global,
    unwinder: &U,
    section: &[u8],
    row: &UnwindTableRow<S>,
    memory: &M,
    callee: Option<Frame<U::UnwindRegs>>,
    frame: &mut Frame<U::UnwindRegs>,
) -> Result<(), BacktraceEnd>
    ensures moved { moved_to result frame.new ≡ row_or
        (is_stored (rule_of row.now.rules (record { 0 = return_address_of U.machine.convention })))
        (by_row_of U.machine (M.code memory.now) (M.memory memory.now) (is_covered (U.unwinder_view unwinder.now).modules)
        (completed U.machine (run_source U.machine.convention (M.memory memory.now) (M.code memory.now) (is_covered (U.unwinder_view unwinder.now).modules))
        (option_map frame_view callee) (frame_view frame.old)) section.now row.now)
        (by_run U.machine (M.code memory.now) (frame_view frame.old)
        (run_source U.machine.convention (M.memory memory.now) (M.code memory.now) (is_covered (U.unwinder_view unwinder.now).modules)))
        (by_row_of U.machine (M.code memory.now) (M.memory memory.now) (is_covered (U.unwinder_view unwinder.now).modules)
        (frame_view frame.old) section.now row.now) }
    ensures ended { OnErr result (frame.new ≡ frame.old) }
{
    match by_row::<U, M, S>(alloc, unwinder, section, row, memory, frame) {
        Ok(()) => Ok(()),
        Err(end) => by_row_again(alloc, unwinder, section, row, memory, callee, frame, end),
    }
}

/// Makes a frame whose row has no caller its caller by that row over what a run of the callee's code knows, or else by
/// running the frame's code. Returns the end if neither has one, or the row needs nothing that isn't known.
fn by_row_again<U: BacktraceUnwinder, M: CodeMemory, S: UnwindContextStorage>(
    alloc: Global,
    unwinder: &U,
    section: &[u8],
    row: &UnwindTableRow<S>,
    memory: &M,
    callee: Option<Frame<U::UnwindRegs>>,
    frame: &mut Frame<U::UnwindRegs>,
    end: BacktraceEnd,
) -> Result<(), BacktraceEnd>
    ensures moved { moved_to result frame.new ≡ row_or
        (is_stored (rule_of row.now.rules (record { 0 = return_address_of U.machine.convention })))
        (by_row_of U.machine (M.code memory.now) (M.memory memory.now) (is_covered (U.unwinder_view unwinder.now).modules)
        (completed U.machine (run_source U.machine.convention (M.memory memory.now) (M.code memory.now) (is_covered (U.unwinder_view unwinder.now).modules))
        (option_map frame_view callee) (frame_view frame.old)) section.now row.now)
        (by_run U.machine (M.code memory.now) (frame_view frame.old)
        (run_source U.machine.convention (M.memory memory.now) (M.code memory.now) (is_covered (U.unwinder_view unwinder.now).modules)))
        (Err end) }
    ensures ended { OnErr result (frame.new ≡ frame.old) }
{
    let is_stored = is_stored(row.register(U::convention().return_address()));
    if !is_unknown(is_stored, end) {
        return Err(end);
    }
    let mut again = completed(unwinder, memory, callee, frame);
    match by_row::<U, M, S>(alloc, unwinder, section, row, memory, &mut again) {
        Ok(()) => {
            *frame = again;
            Ok(())
        }
        Err(_) => by_run_or_end(unwinder, memory, frame, end),
    }
}

/// Returns a frame with the registers that a run of its callee's code knows, where that comes to the frame.
fn completed<U: BacktraceUnwinder, M: CodeMemory>(
    unwinder: &U,
    memory: &M,
    callee: Option<Frame<U::UnwindRegs>>,
    frame: &Frame<U::UnwindRegs>,
) -> Frame<U::UnwindRegs>
    ensures { frame_view result ≡ completed U.machine (run_source U.machine.convention (M.memory memory.now) (M.code memory.now) (is_covered (U.unwinder_view unwinder.now).modules))
        (option_map frame_view callee) (frame_view frame.now) }
{
    match callee {
        Some(callee) => {
            let process = ProcessCode { unwinder, memory };
            let address = callee.address.address();
            let columns = U::with_completed(&process, address, &callee.columns, &frame.columns);
            Frame { columns, ..*frame }
        }
        None => *frame,
    }
}

/// Makes a frame its caller by running its code, or returns an end if that comes to none.
fn by_run_or_end<U: BacktraceUnwinder, M: CodeMemory>(
    unwinder: &U,
    memory: &M,
    frame: &mut Frame<U::UnwindRegs>,
    end: BacktraceEnd,
) -> Result<(), BacktraceEnd>
    ensures moved { moved_to result frame.new ≡ caller_or
        (by_run U.machine (M.code memory.now) (frame_view frame.old)
        (run_source U.machine.convention (M.memory memory.now) (M.code memory.now) (is_covered (U.unwinder_view unwinder.now).modules)))
        (Err end) }
    ensures ended { OnErr result (frame.new ≡ frame.old) }
{
    match by_run::<U, M>(unwinder, memory, frame) {
        Some(caller) => {
            *frame = caller;
            Ok(())
        }
        None => Err(end),
    }
}

/// Makes a frame its caller by a row.
fn by_row<U: BacktraceUnwinder, M: CodeMemory, S: UnwindContextStorage>(
    alloc: Global,
    unwinder: &U,
    section: &[u8],
    row: &UnwindTableRow<S>,
    memory: &M,
    frame: &mut Frame<U::UnwindRegs>,
) -> Result<(), BacktraceEnd>
    ensures moved { moved_to result frame.new
        ≡ by_row_of U.machine (M.code memory.now) (M.memory memory.now) (is_covered (U.unwinder_view unwinder.now).modules)
        (frame_view frame.old) section.now row.now }
    ensures ended { OnErr result (frame.new ≡ frame.old) }
{
    let convention = U::convention();
    match caller_by_row(alloc, convention, section, row, &frame.columns, memory) {
        Ok(caller) => {
            let address = U::strip(&frame.regs, caller.return_address);
            let mut columns = restored_columns::<U, M>(unwinder, memory, frame, &caller.regs);
            return_to::<U>(&frame.regs, address, &mut columns);
            returned_as::<U, M>(memory, frame, address, &columns)
        }
        Err(refusal) => Err(end_of_refusal(refusal)),
    }
}

/// Returns the columns of a caller by a row: of a frame that is no caller itself with the registers that it has restored.
fn restored_columns<U: BacktraceUnwinder, M: CodeMemory>(
    unwinder: &U,
    memory: &M,
    frame: &Frame<U::UnwindRegs>,
    columns: &RegisterFile,
) -> RegisterFile
    ensures { result ≡ restored_columns U.machine
        (run_source U.machine.convention (M.memory memory.now) (M.code memory.now) (is_covered (U.unwinder_view unwinder.now).modules))
        (frame_view frame.now) columns.now }
{
    if frame.address.is_return_address() {
        return *columns;
    }
    let process = ProcessCode { unwinder, memory };
    U::with_restored(&process, frame.address.address(), &frame.columns, columns)
}

/// Makes a frame its caller at a stripped return address (AVMA), with these columns.
fn returned_as<U: BacktraceUnwinder, M: CodeMemory>(
    memory: &M,
    frame: &mut Frame<U::UnwindRegs>,
    address: u64,
    columns: &RegisterFile,
) -> Result<(), BacktraceEnd>
    ensures moved { moved_to result frame.new ≡ returned_as U.machine (M.code memory.now) (frame_view frame.old) address columns.now }
    ensures ended { OnErr result (frame.new ≡ frame.old) }
{
    let Some(location) = FrameAddress::from_return_address(address) else {
        return Err(BacktraceEnd::Refused(Error::ReturnAddressIsNull));
    };
    if !is_in_code(memory, address) {
        return Err(BacktraceEnd::NotCode(address));
    }
    frame.address = location;
    frame.regs = U::merged(frame.regs, columns);
    frame.columns = *columns;
    frame.found = FoundBy::Cfi;
    Ok(())
}

/// Makes a stripped return address (AVMA) the program counter of a caller's columns, and strips the return address' own
/// column.
pub(crate) fn return_to<U: BacktraceUnwinder>(
    regs: &U::UnwindRegs,
    address: u64,
    columns: &mut RegisterFile,
)
    ensures { columns.new ≡ returned_to U.machine.convention (U.machine.strip regs.now) address columns.old }
{
    let convention = U::convention();
    let register = convention.return_address();
    let link = match columns.get(register) {
        Some(link) => Some(U::strip(regs, link)),
        None => None,
    };
    columns.set(register, link);
    columns.set(convention.program_counter(), Some(address));
}

/// Makes a frame its caller, where call frames of its module do not cover it: by running its code, or else by a step.
fn by_run_or_start<U: BacktraceUnwinder, M: CodeMemory>(
    unwinder: &U,
    cache: &mut U::Cache,
    memory: &M,
    frame: &mut Frame<U::UnwindRegs>,
) -> Result<Result<(), BacktraceEnd>, AllocError>
    ensures stays_sound { (other : UnwinderView) → AreApart (U.unwinder_view unwinder.now) other
        → U.is_sound other cache.old → U.is_sound other cache.new }
    ensures refused { IfErr result (λ _. U.may_run_out unwinder.now cache.old (location_of frame.old.address)) }
    ensures exact { U.is_sound (U.unwinder_view unwinder.now) cache.old → IfOk result (λ moved. moved_to moved frame.new
        ≡ caller_or (by_run U.machine (M.code memory.now) (frame_view frame.old)
        (run_source U.machine.convention (M.memory memory.now) (M.code memory.now) (is_covered (U.unwinder_view unwinder.now).modules)))
        (by_start U.machine (M.code memory.now) (frame_view frame.old)
        (U.step unwinder.now (location_of frame.old.address) frame.old.regs (M.memory memory.now))
        (U.machine.fallback (is_first_frame (location_of frame.old.address)) frame.old.regs (M.memory memory.now)))) }
    ensures unmoved { OnErr result (frame.new ≡ frame.old) }
    ensures ended { IfOk result (λ moved. OnErr moved (frame.new ≡ frame.old)) }
{
    match by_run::<U, M>(unwinder, memory, frame) {
        Some(caller) => {
            *frame = caller;
            Ok(Ok(()))
        }
        None => by_start(unwinder, cache, memory, frame),
    }
}

/// Makes a frame its caller by a step, where call frames of its module do not cover it.
fn by_start<U: BacktraceUnwinder, M: CodeMemory>(
    unwinder: &U,
    cache: &mut U::Cache,
    memory: &M,
    frame: &mut Frame<U::UnwindRegs>,
) -> Result<Result<(), BacktraceEnd>, AllocError>
    ensures stays_sound { (other : UnwinderView) → AreApart (U.unwinder_view unwinder.now) other
        → U.is_sound other cache.old → U.is_sound other cache.new }
    ensures refused { IfErr result (λ _. U.may_run_out unwinder.now cache.old (location_of frame.old.address)) }
    ensures exact { U.is_sound (U.unwinder_view unwinder.now) cache.old → IfOk result (λ moved. moved_to moved frame.new
        ≡ by_start U.machine (M.code memory.now) (frame_view frame.old)
        (U.step unwinder.now (location_of frame.old.address) frame.old.regs (M.memory memory.now))
        (U.machine.fallback (is_first_frame (location_of frame.old.address)) frame.old.regs (M.memory memory.now))) }
    ensures unmoved { OnErr result (frame.new ≡ frame.old) }
    ensures ended { IfOk result (λ moved. OnErr moved (frame.new ≡ frame.old)) }
{
    if frame.address.is_return_address() {
        return by_library(unwinder, cache, memory, frame, FoundBy::FramePointer);
    }
    by_guess(unwinder, cache, memory, frame)
}

/// Makes a frame without a row its caller: by PE or compact unwind info, by the frame pointer, or, outside of code, by
/// the call that has led there.
fn without_row<U: BacktraceUnwinder, M: CodeMemory>(
    unwinder: &U,
    cache: &mut U::Cache,
    memory: &M,
    frame: &mut Frame<U::UnwindRegs>,
) -> Result<Result<(), BacktraceEnd>, AllocError>
    ensures stays_sound { (other : UnwinderView) → AreApart (U.unwinder_view unwinder.now) other
        → U.is_sound other cache.old → U.is_sound other cache.new }
    ensures refused { IfErr result (λ _. U.may_run_out unwinder.now cache.old (location_of frame.old.address)) }
    ensures exact { U.is_sound (U.unwinder_view unwinder.now) cache.old → IfOk result (λ moved. moved_to moved frame.new
        ≡ without_row U.machine (M.code memory.now) (frame_view frame.old)
        (U.is_by_info unwinder.now (location_of frame.old.address) frame.old.regs (M.memory memory.now))
        (U.step unwinder.now (location_of frame.old.address) frame.old.regs (M.memory memory.now))
        (U.machine.start frame.old.regs (M.memory memory.now))
        (U.machine.fallback (is_first_frame (location_of frame.old.address)) frame.old.regs (M.memory memory.now))) }
    ensures unmoved { OnErr result (frame.new ≡ frame.old) }
    ensures ended { IfOk result (λ moved. OnErr moved (frame.new ≡ frame.old)) }
{
    if is_outside_code(memory, frame.address) {
        return Ok(by_call::<U, M>(memory, frame));
    }
    let found = if unwinder.is_by_info(frame.address, frame.regs, memory) {
        FoundBy::Cfi
    } else {
        FoundBy::FramePointer
    };
    by_library(unwinder, cache, memory, frame, found)
}

/// Makes a frame outside of code its caller, as if it were at the first instruction of a function.
fn by_call<U: BacktraceUnwinder, M: CodeMemory>(
    memory: &M,
    frame: &mut Frame<U::UnwindRegs>,
) -> Result<(), BacktraceEnd>
    ensures moved { moved_to result frame.new ≡ by_guess U.machine (M.code memory.now) (frame_view frame.old)
        (U.machine.start frame.old.regs (M.memory memory.now))
        (U.machine.fallback (is_first_frame (location_of frame.old.address)) frame.old.regs (M.memory memory.now)) }
    ensures ended { OnErr result (frame.new ≡ frame.old) }
{
    if !U::can_step(&frame.columns) {
        return Err(BacktraceEnd::RegistersUnknown);
    }
    let mut regs = frame.regs;
    let answer = U::step_at_start(memory, &mut regs);
    guessed::<U, M>(memory, frame, answer, regs)
}

/// Makes a frame its caller by the library's step.
fn by_library<U: BacktraceUnwinder, M: CodeMemory>(
    unwinder: &U,
    cache: &mut U::Cache,
    memory: &M,
    frame: &mut Frame<U::UnwindRegs>,
    found: FoundBy,
) -> Result<Result<(), BacktraceEnd>, AllocError>
    ensures stays_sound { (other : UnwinderView) → AreApart (U.unwinder_view unwinder.now) other
        → U.is_sound other cache.old → U.is_sound other cache.new }
    ensures refused { IfErr result (λ _. U.may_run_out unwinder.now cache.old (location_of frame.old.address)) }
    ensures exact { U.is_sound (U.unwinder_view unwinder.now) cache.old → IfOk result (λ moved. moved_to moved frame.new
        ≡ by_library U.machine (M.code memory.now) (frame_view frame.old) found
        (U.step unwinder.now (location_of frame.old.address) frame.old.regs (M.memory memory.now))) }
    ensures unmoved { OnErr result (frame.new ≡ frame.old) }
    ensures ended { IfOk result (λ moved. OnErr moved (frame.new ≡ frame.old)) }
{
    if !U::can_step(&frame.columns) {
        return Ok(Err(BacktraceEnd::RegistersUnknown));
    }
    let mut regs = frame.regs;
    let answer = step(unwinder, cache, memory, frame.address, &mut regs);
    if is_out_of_memory(answer) {
        return Err(AllocError);
    }
    Ok(stepped::<U, M>(memory, frame, found, answer, regs))
}

/// Makes a frame its caller by the rule of a function's start, or by the frame pointer.
fn by_guess<U: BacktraceUnwinder, M: CodeMemory>(
    unwinder: &U,
    cache: &mut U::Cache,
    memory: &M,
    frame: &mut Frame<U::UnwindRegs>,
) -> Result<Result<(), BacktraceEnd>, AllocError>
    ensures stays_sound { (other : UnwinderView) → AreApart (U.unwinder_view unwinder.now) other
        → U.is_sound other cache.old → U.is_sound other cache.new }
    ensures refused { IfErr result (λ _. U.may_run_out unwinder.now cache.old (location_of frame.old.address)) }
    ensures exact { U.is_sound (U.unwinder_view unwinder.now) cache.old → IfOk result (λ moved. moved_to moved frame.new
        ≡ by_guess U.machine (M.code memory.now) (frame_view frame.old)
        (U.step unwinder.now (location_of frame.old.address) frame.old.regs (M.memory memory.now))
        (U.machine.fallback (is_first_frame (location_of frame.old.address)) frame.old.regs (M.memory memory.now))) }
    ensures unmoved { OnErr result (frame.new ≡ frame.old) }
    ensures ended { IfOk result (λ moved. OnErr moved (frame.new ≡ frame.old)) }
{
    if !U::can_step(&frame.columns) {
        return Ok(Err(BacktraceEnd::RegistersUnknown));
    }
    let mut regs = frame.regs;
    let answer = step(unwinder, cache, memory, frame.address, &mut regs);
    if is_out_of_memory(answer) {
        return Err(AllocError);
    }
    Ok(guessed::<U, M>(memory, frame, answer, regs))
}

/// Makes a frame its caller by the likelier of two addresses: that by the rule of a function's start, which is a guess, and
/// that of the frame pointer.
fn guessed<U: BacktraceUnwinder, M: CodeMemory>(
    memory: &M,
    frame: &mut Frame<U::UnwindRegs>,
    answer: Result<Option<u64>, Error>,
    regs: U::UnwindRegs,
) -> Result<(), BacktraceEnd>
    ensures moved { moved_to result frame.new ≡ guessed U.machine (M.code memory.now) (frame_view frame.old) answer regs
        (U.machine.fallback (is_first_frame (location_of frame.old.address)) frame.old.regs (M.memory memory.now)) }
    ensures ended { OnErr result (frame.new ≡ frame.old) }
{
    let is_first_frame = !frame.address.is_return_address();
    let mut followed = frame.regs;
    let fallback = U::follow_frame_pointer(memory, is_first_frame, &mut followed);
    let start = memory.function_start(frame.address.address());
    let evidence = evidence_of::<U, M>(memory, start, answer);
    let followed_evidence = evidence_of::<U, M>(memory, start, fallback);
    let is_set = has_set_from::<U, M>(memory, start, frame.address.address());
    if prefers_frame_pointer(is_set, followed_evidence, evidence) {
        return stepped::<U, M>(memory, frame, FoundBy::FramePointer, fallback, followed);
    }
    if evidence.is_better(Evidence::NoCall) {
        return stepped::<U, M>(memory, frame, FoundBy::Guess, answer, regs);
    }
    Err(end_without_caller::<U>(&frame.columns, fallback))
}

/// Returns whether the function that has an address (AVMA) has set its frame pointer before it, if the function's start (AVMA)
/// is known.
fn has_set_from<U: BacktraceUnwinder, M: CodeMemory>(
    memory: &M,
    start: Option<u64>,
    address: u64,
) -> bool
    ensures { result ≡ has_set_from U.machine (M.code memory.now) address start }
{
    match start {
        Some(start) => U::has_set(memory, start, address),
        None => false,
    }
}

/// Returns the end of a stack where neither a guess nor the frame pointer leads to a caller, by what the frame pointer's step
/// returns.
fn end_without_caller<U: BacktraceUnwinder>(
    columns: &RegisterFile,
    fallback: Result<Option<u64>, Error>,
) -> BacktraceEnd
    ensures { result ≡ end_without_caller U.machine columns.now fallback }
{
    match fallback {
        Ok(None) => BacktraceEnd::FramePointerZero,
        Ok(Some(_)) => BacktraceEnd::NoCaller,
        Err(_) => {
            if has_no_frame_pointer::<U>(columns) {
                BacktraceEnd::FramePointerZero
            } else {
                BacktraceEnd::NoCaller
            }
        }
    }
}

/// Makes a frame its caller by what a step of the library returns, and the registers after it.
fn stepped<U: BacktraceUnwinder, M: CodeMemory>(
    memory: &M,
    frame: &mut Frame<U::UnwindRegs>,
    found: FoundBy,
    answer: Result<Option<u64>, Error>,
    regs: U::UnwindRegs,
) -> Result<(), BacktraceEnd>
    ensures moved { moved_to result frame.new ≡ stepped U.machine (M.code memory.now) found frame.old.columns answer regs }
    ensures ended { OnErr result (frame.new ≡ frame.old) }
{
    let address = match answer {
        Ok(Some(address)) => address,
        Ok(None) => return Err(root_of(found)),
        Err(error) => return Err(end_of_error::<U>(found, &frame.columns, error)),
    };
    let Some(location) = FrameAddress::from_return_address(address) else {
        return Err(BacktraceEnd::Refused(Error::ReturnAddressIsNull));
    };
    if !is_in_code(memory, address) {
        return Err(BacktraceEnd::NotCode(address));
    }
    frame.address = location;
    frame.columns = U::columns(address, &regs);
    frame.regs = regs;
    frame.found = found;
    Ok(())
}

/// Returns the end of a stack at a step that is refused.
fn end_of_error<U: BacktraceUnwinder>(
    found: FoundBy,
    columns: &RegisterFile,
    error: Error,
) -> BacktraceEnd
    ensures { result ≡ end_of_error U.machine found columns.now error }
{
    if is_by_frame_pointer(found) && has_no_frame_pointer::<U>(columns) {
        return BacktraceEnd::FramePointerZero;
    }
    BacktraceEnd::Refused(error)
}

/// Returns whether a step follows the frame pointer.
fn is_by_frame_pointer(found: FoundBy) -> bool
    ensures { result ≡ is_by_frame_pointer found }
{
    match found {
        FoundBy::FramePointer => true,
        FoundBy::Guess | FoundBy::Run | FoundBy::First | FoundBy::Cfi | FoundBy::Signal => false,
    }
}

/// Returns whether a frame pointer is 0, and so leads to no frame.
fn has_no_frame_pointer<U: BacktraceUnwinder>(columns: &RegisterFile) -> bool
    ensures { result ≡ has_no_frame_pointer U.machine columns.now }
{
    known_or(columns, U::frame_pointer(), 1) == 0
}

/// Returns whether an allocation failed.
fn is_out_of_memory(answer: Result<Option<u64>, Error>) -> bool
    ensures { MatchBool result (answer ≡ Err Error.OutOfMemory) (answer ≢ Err Error.OutOfMemory) }
{
    match answer {
        Err(Error::OutOfMemory) => true,
        _ => false,
    }
}
