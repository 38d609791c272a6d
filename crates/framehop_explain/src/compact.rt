//! Where compact unwind info tells how to unwind from an address, and what.
ghost use Rattle.std.specs.Prelude.{◌≡◌, ◌≤◌, length, IfOk};
ghost use Rattle.framehop_core.specs.Memory.{Answering};
ghost use Rattle.framehop_macho.specs.Unwinder.{unwound};
ghost use Rattle.framehop_macho.specs.UnwindInfo.{Covers};
ghost use Rattle.framehop.specs.Lookup.{compact_entry};
ghost use Rattle.framehop_explain.specs.CompactSource.{IsPlaceByCode, IsPlaceIn, IsPlace, IsCompactSource, named_source};
ghost use Rattle.framehop_explain.specs.Explain.{entry_told};

use crate::frames::explain_by_fde;
use crate::pe::Sources;
use crate::source::{CompactSource, RowSource, Source};
use crate::told::Told;
use framehop::lookup::Lookup;
use framehop::unwind_data::CompactInfo;
use framehop::{AllocationPolicy, UnwinderError};
use framehop_bytes::section::SectionBytes;
use framehop_cfi::context::UnwindContext;
use framehop_macho::macho::{CuiUnwindResult, TextBytes, code_of_function, find_function, is_in};
use framehop_macho::unwind_info::info::Function;
use std::alloc::{AllocError, Global};

/// Explains a frame by compact unwind info.
///
/// # Errors
///
/// An allocation failed.
pub(crate) fn explain_by_info<D: SectionBytes, A: Sources, P: AllocationPolicy, F>(
    info: &CompactInfo<D>,
    alloc: Global,
    unwind_context: &mut UnwindContext<P::GimliUnwindContextStorage>,
    lookup: Lookup,
    regs: A::UnwindRegs,
    read_stack: &mut F,
) -> Result<(Source, Told<A::UnwindRule>), AllocError>
where
    F: FnMut(u64) -> Result<u64, ()>,
    requires { F.IsAlwaysCallable read_stack.old }
    ensures callable { F.IsAlwaysCallable read_stack.new }
    ensures source { IfOk result (λ found. IsCompactSource
        (record { by_code = A.by_code; prologue = A.prologue_rule; epilogue = A.epilogue_rule })
        A.readers.compact P.GimliUnwindContextStorage.limits info.now lookup.relative_address lookup.is_first_frame found.0) }
    ensures answers { Answering F.FnMut read_stack.old read_stack.new (λ memory.
        IfOk result (λ found. found.1 ≡ entry_told (record {
          translated = A.translated;
          uncovered = A.uncovered;
          direct = λ bytes row. A.direct bytes P.GimliEvaluationStorage.Stack.limit memory row lookup.is_first_frame regs;
          found = A.found;
          computed = λ sections relative first. A.computed sections relative first memory regs;
          compact = A.readers.compact;
        }) P.GimliUnwindContextStorage.limits lookup.relative_address lookup.is_first_frame (compact_entry info.now.frames
        (unwound A.readers.compact info.now.info lookup.relative_address lookup.is_first_frame)))) }
{
    let place = place_of::<D, A>(info, lookup.relative_address, lookup.is_first_frame);
    match info.rule_or_fde_offset::<A>(lookup) {
        Ok(CuiUnwindResult::ExecRule(rule)) => Ok((Source::Compact(place), Told::Rule(rule))),
        Ok(CuiUnwindResult::NeedDwarf(offset)) => {
            let Some(fde) = info.fde(offset) else {
                let refusal = Told::Refused(UnwinderError::NoDwarfData);
                return Ok((Source::Compact(place), refusal));
            };
            let (row, told) = explain_by_fde::<A, P, F>(
                fde,
                alloc,
                unwind_context,
                lookup,
                regs,
                read_stack,
            )?;
            Ok((named_source(place, offset, row), told))
        }
        Err(error) => Ok((
            Source::Compact(place),
            Told::Refused(UnwinderError::CompactUnwindInfo(error)),
        )),
    }
}

/// Returns where compact unwind info tells how to unwind from a relative address.
fn place_of<D: SectionBytes, A: Sources>(
    info: &CompactInfo<D>,
    address: u32,
    is_first_frame: bool,
) -> CompactSource
    ensures { IsPlace (record { by_code = A.by_code; prologue = A.prologue_rule; epilogue = A.epilogue_rule })
        info.now.info address is_first_frame result }
{
    if is_in(info.stubs, address) {
        return CompactSource::Stub;
    }
    if is_in(info.stub_helper, address) {
        return CompactSource::StubHelper;
    }
    match find_function(info.unwind_info.bytes(), address) {
        Ok(Some(function)) => place_in_function::<D, A>(info, function, address, is_first_frame),
        Ok(None) => CompactSource::Outside,
        Err(error) => CompactSource::Unread(error),
    }
}

/// Returns the place in a function of an address in it (relative).
fn place_in_function<D: SectionBytes, A: Sources>(
    info: &CompactInfo<D>,
    function: Function,
    address: u32,
    is_first_frame: bool,
) -> CompactSource
    requires { Covers address function }
    ensures { IsPlaceIn (record { by_code = A.by_code; prologue = A.prologue_rule; epilogue = A.epilogue_rule })
        info.now.info.text address is_first_frame function result }
{
    if !is_first_frame {
        return CompactSource::Opcode(function);
    }
    if address == function.start_address {
        return CompactSource::Start(function);
    }
    let text = match &info.text {
        Some(text) => Some(TextBytes::new(text.offset_from_base, text.bytes.bytes())),
        None => None,
    };
    match code_of_function(text, function) {
        Some(code) => {
            place_by_code::<A>(function, code, (address - function.start_address) as usize)
        }
        None => CompactSource::Opcode(function),
    }
}

/// Returns the place at an offset of a function's code, in bytes, in a first frame.
fn place_by_code<A: Sources>(function: Function, code: &[u8], offset: usize) -> CompactSource
    requires { offset ≤ length code.now }
    ensures { IsPlaceByCode (record { by_code = A.by_code; prologue = A.prologue_rule; epilogue = A.epilogue_rule })
        function code.now offset (A.by_code function code.now offset) result }
{
    if !A::is_analysed(function.opcode) {
        return CompactSource::Opcode(function);
    }
    if A::rule_from_prologue_analysis(code, offset).is_some() {
        return CompactSource::Prologue(function);
    }
    if A::rule_from_epilogue_analysis(code, offset).is_some() {
        return CompactSource::Epilogue(function);
    }
    CompactSource::Opcode(function)
}

/// Returns the source of a frame by the FDE at an offset, which the opcode of a function names.
fn named_source(place: CompactSource, offset: u32, row: RowSource) -> Source
    ensures { result ≡ named_source offset row place }
{
    match place {
        CompactSource::Opcode(function) => Source::CompactFde {
            function,
            offset,
            row,
        },
        _ => Source::Compact(place),
    }
}
