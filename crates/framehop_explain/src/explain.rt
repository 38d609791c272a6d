//! Where a frame came from: the covering module, the source of its rule, and the outcome.
ghost use Rattle.std.specs.Prelude.{◌≡◌, ◌≢◌, ◌-◌, option_map, MatchBool, Err, IfOk, IfSome, MatchOption, Some, None, ℕ, List};
ghost use Rattle.framehop_core.specs.Memory.{Memory, AnswersAs, Answering};
ghost use Rattle.framehop_core.specs.Outcome.{answer_of, registers_after};
ghost use Rattle.framehop_core.specs.CodeAddress.{location_of, lookup_address, is_first_frame};
ghost use Rattle.framehop_pe.specs.Sections.{sections_of};
ghost use Rattle.framehop.specs.Fresh.{step};
ghost use Rattle.framehop.specs.Modules.{covering};
ghost use Rattle.framehop_explain.specs.Decided.{IsDecidedBy};
ghost use Rattle.framehop_explain.specs.Explain.{IsSource, IsTold};
ghost use Rattle.framehop_explain.specs.Source.{no_source};

use crate::compact::explain_by_info;
use crate::frames::explain_by_fde;
use crate::kind::UnwindDataKind;
use crate::pe::{Sources, told_by_sections};
use crate::source::Source;
use crate::told::Told;
use framehop::lookup::{Lookup, UnwindDataAt};
use framehop::unwind_data::IndexRefusal;
use framehop::unwinder::UnwinderInternal;
use framehop::{AllocationPolicy, Error, FrameAddress, Module};
use framehop_bytes::section::SectionBytes;
use framehop_cfi::context::UnwindContext;
use framehop_core::arch::Arch;
use std::alloc::{AllocError, Global};

/// What the module that covers a frame tells for it.
#[derive(Drop)]
pub struct Finding<'a, D: SectionBytes, R> {
    pub module: &'a Module<D>,
    pub relative_address: u32,
    pub source: Source,
    pub told: Told<R>,
}

/// Where a frame came from, and what became of it.
#[derive(Drop)]
pub struct Explanation<'a, D: SectionBytes, A: Arch> {
    /// What the covering module tells. Without one the fallback rule unwinds the frame.
    pub finding: Option<Finding<'a, D, A::UnwindRule>>,
    /// What unwinding the frame with an empty cache returns.
    pub outcome: Result<Option<u64>, Error>,
    /// The registers after it.
    pub regs: A::UnwindRegs,
}

/// Explains a frame: where its rule comes from, and what unwinding it with an empty cache returns.
///
/// # Errors
///
/// An allocation failed.
pub(crate) fn explain_frame<'a, D: SectionBytes + Drop, A: Sources, P: AllocationPolicy, F>(
    unwinder: &'a UnwinderInternal<D, A, P>,
    alloc: Global,
    address: FrameAddress,
    regs: A::UnwindRegs,
    read_stack: &mut F,
) -> Result<Explanation<'a, D, A>, AllocError>
where
    F: FnMut(u64) -> Result<u64, ()>,
    requires { F.IsAlwaysCallable read_stack.old }
    ensures callable { F.IsAlwaysCallable read_stack.new }
    ensures finding { IfOk result (λ explanation. MatchOption explanation.finding
        (covering unwinder.entry.now.modules (lookup_address (location_of address)) ≡ None)
        (λ found. (covering unwinder.entry.now.modules (lookup_address (location_of address)) ≡ Some found.«module».now)
        × (found.relative_address ≡ lookup_address (location_of address) - found.«module».now.base_avma)
        × IsSource (record {
          pe = A.pe_source;
          code = record { by_code = A.by_code; prologue = A.prologue_rule; epilogue = A.epilogue_rule };
          compact = A.readers.compact;
        }) P.GimliUnwindContextStorage.limits found.«module».now.unwind_data found.relative_address (is_first_frame (location_of address)) found.source)) }
    ensures answers { Answering F.FnMut read_stack.old read_stack.new (λ memory.
        IfOk result (λ explanation. IfSome explanation.finding (λ found. IsTold (record {
          translated = A.translated;
          uncovered = A.uncovered;
          direct = λ bytes row. A.direct bytes P.GimliEvaluationStorage.Stack.limit memory row (is_first_frame (location_of address)) regs;
          found = A.found;
          computed = λ sections relative first. A.computed sections relative first memory regs;
          compact = A.readers.compact;
        }) P.GimliUnwindContextStorage.limits found.«module».now.unwind_data found.relative_address (is_first_frame (location_of address)) found.told))) }
    ensures outcome { (memory : Memory) → AnswersAs F.FnMut read_stack.old memory
        → IfOk result (λ explanation.
        (explanation.outcome ≡ answer_of (step (A.unwinding P.policy) unwinder.entry.now.modules (location_of address) regs memory))
        × (explanation.regs ≡ registers_after regs (step (A.unwinding P.policy) unwinder.entry.now.modules (location_of address) regs memory))) }
    ensures decided { (memory : Memory) → AnswersAs F.FnMut read_stack.old memory
        → IfOk result (λ explanation. IsDecidedBy A.UnwindRule.outcome A.UnwindRule.fallback (is_first_frame (location_of address)) regs memory
        (option_map (λ found. found.told) explanation.finding) explanation.outcome explanation.regs) }
{
    let mut unwind_context = UnwindContext::new_in(alloc)?;
    let finding = explain_address(
        unwinder,
        alloc,
        &mut unwind_context,
        address.address_for_lookup(),
        !address.is_return_address(),
        regs,
        read_stack,
    )?;
    let mut caller = regs;
    let outcome = unwinder.step_fresh(&mut unwind_context, address, &mut caller, read_stack);
    if is_out_of_memory(&outcome) {
        return Err(AllocError);
    }
    Ok(Explanation {
        finding,
        outcome,
        regs: caller,
    })
}

/// Explains a frame by the module that covers a lookup address (AVMA), if there is one.
fn explain_address<'a, D: SectionBytes + Drop, A: Sources, P: AllocationPolicy, F>(
    unwinder: &'a UnwinderInternal<D, A, P>,
    alloc: Global,
    unwind_context: &mut UnwindContext<P::GimliUnwindContextStorage>,
    address: u64,
    is_first_frame: bool,
    regs: A::UnwindRegs,
    read_stack: &mut F,
) -> Result<Option<Finding<'a, D, A::UnwindRule>>, AllocError>
where
    F: FnMut(u64) -> Result<u64, ()>,
    requires { F.IsAlwaysCallable read_stack.old }
    ensures callable { F.IsAlwaysCallable read_stack.new }
    ensures finding { IfOk result (λ finding. MatchOption finding
        (covering unwinder.entry.now.modules address ≡ None)
        (λ found. (covering unwinder.entry.now.modules address ≡ Some found.«module».now)
        × (found.relative_address ≡ address - found.«module».now.base_avma)
        × IsSource (record {
          pe = A.pe_source;
          code = record { by_code = A.by_code; prologue = A.prologue_rule; epilogue = A.epilogue_rule };
          compact = A.readers.compact;
        }) P.GimliUnwindContextStorage.limits found.«module».now.unwind_data found.relative_address is_first_frame found.source)) }
    ensures answers { Answering F.FnMut read_stack.old read_stack.new (λ memory.
        IfOk result (λ finding. IfSome finding (λ found. IsTold (record {
          translated = A.translated;
          uncovered = A.uncovered;
          direct = λ bytes row. A.direct bytes P.GimliEvaluationStorage.Stack.limit memory row is_first_frame regs;
          found = A.found;
          computed = λ sections relative first. A.computed sections relative first memory regs;
          compact = A.readers.compact;
        }) P.GimliUnwindContextStorage.limits found.«module».now.unwind_data found.relative_address is_first_frame found.told))) }
{
    let Some((module, relative_address)) = unwinder.find_module_for_address(address) else {
        return Ok(None);
    };
    let (source, told) = explain_module::<D, A, P, F>(
        module,
        alloc,
        unwind_context,
        Lookup {
            relative_address,
            is_first_frame,
        },
        regs,
        read_stack,
    )?;
    Ok(Some(Finding {
        module,
        relative_address,
        source,
        told,
    }))
}

/// Explains a frame by the unwind data of the module that covers it.
pub fn explain_module<D: SectionBytes + Drop, A: Sources, P: AllocationPolicy, F>(
    module: &Module<D>,
    alloc: Global,
    unwind_context: &mut UnwindContext<P::GimliUnwindContextStorage>,
    lookup: Lookup,
    regs: A::UnwindRegs,
    read_stack: &mut F,
) -> Result<(Source, Told<A::UnwindRule>), AllocError>
where
    F: FnMut(u64) -> Result<u64, ()>,
    requires { F.IsAlwaysCallable read_stack.old }
    ensures callable { F.IsAlwaysCallable read_stack.new }
    ensures source { IfOk result (λ found.
        IsSource (record {
          pe = A.pe_source;
          code = record { by_code = A.by_code; prologue = A.prologue_rule; epilogue = A.epilogue_rule };
          compact = A.readers.compact;
        }) P.GimliUnwindContextStorage.limits module.now.unwind_data lookup.relative_address lookup.is_first_frame found.0) }
    ensures answers { Answering F.FnMut read_stack.old read_stack.new (λ memory.
        IfOk result (λ found. IsTold (record {
          translated = A.translated;
          uncovered = A.uncovered;
          direct = λ bytes row. A.direct bytes P.GimliEvaluationStorage.Stack.limit memory row lookup.is_first_frame regs;
          found = A.found;
          computed = λ sections relative first. A.computed sections relative first memory regs;
          compact = A.readers.compact;
        }) P.GimliUnwindContextStorage.limits module.now.unwind_data lookup.relative_address lookup.is_first_frame found.1)) }
{
    match module.unwind_data_at(lookup.relative_address) {
        Ok(UnwindDataAt::Fde(fde)) => {
            let (section_type, offset) = (fde.section.section_type, fde.offset);
            let (row, told) = explain_by_fde::<A, P, F>(
                fde,
                alloc,
                unwind_context,
                lookup,
                regs,
                read_stack,
            )?;
            let source = Source::Fde {
                section_type,
                offset,
                row,
            };
            Ok((source, told))
        }
        Ok(UnwindDataAt::Compact(info)) => {
            explain_by_info::<D, A, P, F>(info, alloc, unwind_context, lookup, regs, read_stack)
        }
        Ok(UnwindDataAt::Pe(info)) => {
            let sections = info.sections();
            let source = A::pe_source(sections, lookup.relative_address, lookup.is_first_frame);
            let told = told_by_sections::<D, A, F>(sections, lookup, regs, read_stack);
            Ok((Source::Pe(source), told))
        }
        Err(error) => Ok((no_source(UnwindDataKind::of(module)), Told::Refused(error))),
    }
}

/// Returns the source of a frame where unwind data of this kind has nothing for it.
fn no_source(kind: UnwindDataKind) -> Source
    ensures { result ≡ no_source kind }
{
    match kind {
        UnwindDataKind::IndexRefused {
            section_type,
            error,
        } => Source::NoUnwindData(Some(IndexRefusal {
            section_type,
            error,
        })),
        UnwindDataKind::EhFrameWithHeader => Source::NotInHeader,
        UnwindDataKind::Indexed { section_type } => Source::NotInIndex(section_type),
        UnwindDataKind::None | UnwindDataKind::Pe | UnwindDataKind::Compact { .. } => {
            Source::NoUnwindData(None)
        }
    }
}

/// Returns whether an allocation failed.
fn is_out_of_memory(outcome: &Result<Option<u64>, Error>) -> bool
    ensures { MatchBool result (outcome.now ≡ Err Error.OutOfMemory) (outcome.now ≢ Err Error.OutOfMemory) }
{
    match outcome {
        Err(Error::OutOfMemory) => true,
        _ => false,
    }
}
