//! The note of a frame: what its caller was found by.
ghost use Rattle.std.specs.Prelude.{◌≡◌, option_map, string_bytes, IfOk};
ghost use Rattle.framehop_core.specs.CodeAddress.{location_of, address_of};
ghost use Rattle.framehop_explain.specs.Found.{explaining_by, finding_of};
ghost use Rattle.framehop_frames.specs.Taken.{is_by_row, is_by_run, is_by_frame_pointer, data_of, taken_by, taken_outside};
ghost use Rattle.framehop_frames.specs.TakenText.{row_text, debug_frame_text, run_text, fallback_text, taken_text, outside_text, taken_for, line_for, IsNoteOf};

use framehop::unwinder::UnwinderInternal;
use framehop::walk::Words;
use framehop::{AllocationPolicy, FrameAddress, Module};
use framehop_backtrace::{BacktraceEnd, FoundBy};
use framehop_bytes::section::SectionBytes;
use framehop_core::unwind_rule::UnwindRule;
use framehop_explain::pe::Sources;
use framehop_explain::{
    DescribeRule, Described, Explanation, Finding, Note, RowSource, Source, Told, explain_over,
    frame_text,
};
use std::alloc::{AllocError, Global};

/// What a walk took for the caller of a frame.
#[derive(Clone, Copy)]
enum Taken {
    /// The library's step.
    Step,
    /// A row over all registers that are known, where the library has no rule for it.
    Row,
    /// A row of `.debug_frame`, where the module's other unwind data has none.
    DebugFrame,
    /// The stack as it is right after a call, since a call led to no code.
    Call,
    /// The return to which the code of the frame's function leads, where no unwind data covers it.
    Run,
    /// The frame pointer, since what a function's start would return to lies after no call.
    FramePointer,
}

/// What the module of a frame has for it.
#[derive(Clone, Copy)]
pub enum Data {
    /// A row of call frame information, of which the library has a rule or the return address.
    Row,
    /// A row for which it has none.
    RefusedRow,
    /// PE or compact unwind info.
    Info,
    /// No row, and the library has the rule of a function's start.
    Start,
    /// Nothing.
    Nothing,
}

/// Returns the note of a frame that is in no trampoline, over words. `caller` is how its caller was found, or how the
/// walk ended there.
///
/// # Errors
///
/// An allocation failed.
pub(crate) fn frame_note<D: SectionBytes + Drop, A: Sources, P: AllocationPolicy, M: Words>(
    alloc: Global,
    unwinder: &UnwinderInternal<D, A, P>,
    address: FrameAddress,
    regs: A::UnwindRegs,
    caller: Result<FoundBy, BacktraceEnd>,
    words: &M,
) -> Result<Note, AllocError>
where
    A::UnwindRule: DescribeRule,
    ensures { IfOk result (λ note. IsNoteOf
        (record { text = A.UnwindRule.rule_text; fallback = A.UnwindRule.fallback; start = A.UnwindRule.function_start_rule })
        (explaining_by A.readers A.pe_source
        (record { by_code = A.by_code; prologue = A.prologue_rule; epilogue = A.epilogue_rule })
        A.UnwindRule.rule_text A.UnwindRule.fallback P.policy) unwinder.now.modules (M.memory words.now) (location_of address) regs caller note) }
{
    let explanation = explain_over(alloc, unwinder, address, regs, words)?;
    let line = line_for::<D, A>(alloc, unwinder.modules(), address, &explanation, caller)?;
    Note::new(alloc).with_line(line.as_str())
}

/// Returns the line of a frame: what the walk took for its caller, or else what the library's step has for it.
fn line_for<D: SectionBytes + Drop, A: Sources>(
    alloc: Global,
    modules: &[Module<D>],
    address: FrameAddress,
    explanation: &Explanation<'_, D, A>,
    caller: Result<FoundBy, BacktraceEnd>,
) -> Result<String, AllocError>
where
    A::UnwindRule: DescribeRule,
    ensures { IfOk result (λ line. string_bytes line ≡ line_for
        (record { text = A.UnwindRule.rule_text; fallback = A.UnwindRule.fallback; start = A.UnwindRule.function_start_rule })
        modules.now (location_of address) caller (option_map finding_of explanation.now.finding)) }
{
    match taken_for::<D, A>(alloc, address, explanation, caller)? {
        Some(line) => Ok(line),
        None => frame_text::<D, A>(alloc, modules, address, explanation),
    }
}

/// Returns what a walk took for the caller of a frame, or `None` for the library's step.
fn taken_for<D: SectionBytes, A: Sources>(
    alloc: Global,
    address: FrameAddress,
    explanation: &Explanation<'_, D, A>,
    caller: Result<FoundBy, BacktraceEnd>,
) -> Result<Option<String>, AllocError>
where
    A::UnwindRule: DescribeRule,
    ensures { IfOk result (λ text. option_map string_bytes text ≡ taken_for
        (record { text = A.UnwindRule.rule_text; fallback = A.UnwindRule.fallback; start = A.UnwindRule.function_start_rule })
        (location_of address) caller (option_map finding_of explanation.now.finding)) }
{
    match &explanation.finding {
        Some(finding) => taken_text::<D, A::UnwindRule>(alloc, finding, caller),
        None => taken_outside_text::<A::UnwindRule>(alloc, address, caller),
    }
}

/// Returns what a walk took for the caller of a frame in a module, or `None` for the library's step.
fn taken_text<D: SectionBytes, R: DescribeRule>(
    alloc: Global,
    finding: &Finding<'_, D, R>,
    caller: Result<FoundBy, BacktraceEnd>,
) -> Result<Option<String>, AllocError>
    ensures { IfOk result (λ text. option_map string_bytes text ≡ taken_text (R.rule_text R.fallback) (finding_of finding.now)
        (taken_by (data_of finding.now.source finding.now.told) caller)) }
{
    let address = finding.relative_address;
    let source = finding.source;
    match taken_by(data_of(source, finding.told), caller) {
        Taken::Row => Ok(Some(row_text(alloc, address, source)?)),
        Taken::DebugFrame => Ok(Some(debug_frame_text(alloc, address, source)?)),
        Taken::Run => Ok(Some(run_text(alloc, address, source)?)),
        Taken::FramePointer => Ok(Some(fallback_text::<R>(alloc, address, source)?)),
        Taken::Step | Taken::Call => Ok(None),
    }
}

/// Returns the text of a row over all registers.
fn row_text(alloc: Global, address: u32, source: Source) -> Result<String, AllocError>
    ensures { IfOk result (λ text. string_bytes text ≡ row_text address source) }
{
    Ok(format!(in alloc; "0x{address:x}: {source}: over all registers")?)
}

/// Returns the text of a row of `.debug_frame`.
fn debug_frame_text(alloc: Global, address: u32, source: Source) -> Result<String, AllocError>
    ensures { IfOk result (λ text. string_bytes text ≡ debug_frame_text address source) }
{
    Ok(format!(in alloc; "0x{address:x}: {source}; row of .debug_frame: over all registers")?)
}

/// Returns the text of code that was run forward to its return.
fn run_text(alloc: Global, address: u32, source: Source) -> Result<String, AllocError>
    ensures { IfOk result (λ text. string_bytes text ≡ run_text address source) }
{
    Ok(format!(in alloc; "0x{address:x}: {source}: by its code, up to its return")?)
}

/// Returns the text of a frame pointer that is followed after a guess.
fn fallback_text<R: DescribeRule>(
    alloc: Global,
    address: u32,
    source: Source,
) -> Result<String, AllocError>
    ensures { IfOk result (λ text. string_bytes text ≡ fallback_text address source (R.rule_text R.fallback)) }
{
    let rule = Described(R::fallback_rule());
    Ok(format!(in alloc; "0x{address:x}: {source}: no likelier call: fallback: {rule}")?)
}

/// Returns what a walk took for the caller of a frame in no module, or `None` for the library's step.
fn taken_outside_text<R: DescribeRule>(
    alloc: Global,
    address: FrameAddress,
    caller: Result<FoundBy, BacktraceEnd>,
) -> Result<Option<String>, AllocError>
    ensures { IfOk result (λ text. option_map string_bytes text ≡ outside_text (R.rule_text R.function_start_rule)
        (address_of (location_of address)) (taken_outside caller)) }
{
    match taken_outside(caller) {
        Taken::Call => {
            let address = address.address();
            let rule = Described(R::rule_for_function_start());
            let text = format!(in alloc; "0x{address:x}: no code, a call led there: {rule}")?;
            Ok(Some(text))
        }
        _ => Ok(None),
    }
}

/// Returns what a walk took for the caller of a frame in a module, by what the module has for the frame.
fn taken_by(data: Data, caller: Result<FoundBy, BacktraceEnd>) -> Taken
    ensures { result ≡ taken_by «data» caller }
{
    match data {
        Data::Row | Data::Info => Taken::Step,
        Data::RefusedRow => Taken::Row,
        Data::Start if is_by_row(caller) => Taken::DebugFrame,
        Data::Start if is_by_run(caller) => Taken::Run,
        Data::Start if is_by_frame_pointer(caller) => Taken::FramePointer,
        Data::Nothing if is_by_row(caller) => Taken::DebugFrame,
        Data::Nothing if is_by_run(caller) => Taken::Run,
        Data::Start | Data::Nothing => Taken::Step,
    }
}

/// Returns what a walk took for the caller of a frame in no module.
fn taken_outside(caller: Result<FoundBy, BacktraceEnd>) -> Taken
    ensures { result ≡ taken_outside caller }
{
    match caller {
        Ok(FoundBy::Guess) => Taken::Call,
        _ => Taken::Step,
    }
}

/// Returns whether a caller was found by unwind data, or unwind data ended the walk.
fn is_by_row(caller: Result<FoundBy, BacktraceEnd>) -> bool
    ensures { result ≡ is_by_row caller }
{
    match caller {
        Ok(FoundBy::Cfi)
        | Err(
            BacktraceEnd::Root
            | BacktraceEnd::CfaUnknown
            | BacktraceEnd::ReturnAddressUnknown
            | BacktraceEnd::DidNotAdvance,
        ) => true,
        _ => false,
    }
}

/// Returns whether a caller was found by the code.
fn is_by_run(caller: Result<FoundBy, BacktraceEnd>) -> bool
    ensures { result ≡ is_by_run caller }
{
    match caller {
        Ok(FoundBy::Run) => true,
        _ => false,
    }
}

/// Returns whether a caller was looked for by the frame pointer after a guess.
fn is_by_frame_pointer(caller: Result<FoundBy, BacktraceEnd>) -> bool
    ensures { result ≡ is_by_frame_pointer caller }
{
    match caller {
        Ok(FoundBy::FramePointer) | Err(BacktraceEnd::FramePointerZero | BacktraceEnd::NoCaller) =>
            true,
        _ => false,
    }
}

/// Returns what the module of a frame has for it, by where that is and what it tells.
fn data_of<R: Copy>(source: Source, told: Told<R>) -> Data
    ensures { result ≡ data_of source told }
{
    match (source, told) {
        (
            Source::Fde {
                row: RowSource::Row,
                ..
            }
            | Source::CompactFde {
                row: RowSource::Row,
                ..
            },
            Told::Refused(_),
        ) => Data::RefusedRow,
        (
            Source::Fde {
                row: RowSource::Row,
                ..
            }
            | Source::CompactFde {
                row: RowSource::Row,
                ..
            },
            _,
        ) => Data::Row,
        (Source::Pe(_) | Source::Compact(_), _) => Data::Info,
        (_, Told::Refused(_)) => Data::Nothing,
        _ => Data::Start,
    }
}
