//! What an FDE has for a frame, and what it tells.
ghost use Rattle.std.specs.Prelude.{◌≡◌, ◌+◌, IfOk};
ghost use Rattle.framehop_core.specs.Memory.{Answering};
ghost use Rattle.framehop_dwarf.specs.Unwinder.{reading_of};
ghost use Rattle.framehop_explain.specs.Told.{dwarf_told, fde_told};
ghost use Rattle.framehop_explain.specs.Source.{row_source, fde_row};

use crate::source::RowSource;
use crate::told::{Told, told_by_dwarf};
use framehop::lookup::{Lookup, SectionFde};
use framehop::{AllocationPolicy, Unwinding};
use framehop_cfi::context::UnwindContext;
use framehop_cfi::entry::UnwindSection;
use framehop_cfi::storage::UnwindContextStorage;
use framehop_dwarf::dwarf::DwarfUnwinderError;
use framehop_dwarf::unwinder::{DwarfUnwinder, find_row};
use std::alloc::{AllocError, Global};

/// Returns what an FDE has for a frame, and what it tells.
pub(crate) fn explain_by_fde<A: Unwinding, P: AllocationPolicy, F>(
    fde: SectionFde<'_>,
    alloc: Global,
    unwind_context: &mut UnwindContext<P::GimliUnwindContextStorage>,
    lookup: Lookup,
    regs: A::UnwindRegs,
    read_stack: &mut F,
) -> Result<(RowSource, Told<A::UnwindRule>), AllocError>
where
    F: FnMut(u64) -> Result<u64, ()>,
    requires { F.IsAlwaysCallable read_stack.old }
    ensures callable { F.IsAlwaysCallable read_stack.new }
    ensures row { IfOk result (λ found. found.0
        ≡ fde_row P.GimliUnwindContextStorage.limits lookup.relative_address fde.entry) }
    ensures answers { Answering F.FnMut read_stack.old read_stack.new (λ memory.
        IfOk result (λ found. found.1 ≡ fde_told A.translated A.uncovered
        (λ row. A.direct fde.entry.section.bytes P.GimliEvaluationStorage.Stack.limit memory row lookup.is_first_frame regs)
        P.GimliUnwindContextStorage.limits lookup.relative_address fde.entry)) }
{
    let fde_offset = fde.offset;
    let row = row_of(
        &fde.section,
        fde.base_svma,
        lookup.relative_address,
        fde_offset,
        unwind_context,
    )?;
    let mut unwinder = fde.unwinder::<A, P::GimliUnwindContextStorage>(unwind_context);
    let told = told_by_fde::<A, P, F>(&mut unwinder, alloc, lookup, fde_offset, regs, read_stack)?;
    Ok((row, told))
}

/// Returns what the FDE at an offset has for an address.
pub fn row_of<S: UnwindContextStorage>(
    section: &UnwindSection,
    base_svma: u64,
    relative_address: u32,
    fde_offset: u32,
    unwind_context: &mut UnwindContext<S>,
) -> Result<RowSource, AllocError>
    ensures { IfOk result (λ row. row ≡ row_source (reading_of S.limits section.now (base_svma + relative_address) fde_offset)) }
{
    match find_row(
        section,
        base_svma,
        relative_address,
        fde_offset,
        unwind_context,
    ) {
        Ok(true) => Ok(RowSource::Row),
        Ok(false) => Ok(RowSource::NoRow),
        Err(DwarfUnwinderError::FdeFromOffsetFailed(error)) => Ok(RowSource::Unread(error)),
        Err(_) => Err(AllocError),
    }
}

/// Returns what the FDE at an offset tells for a frame.
fn told_by_fde<A: Unwinding, P: AllocationPolicy, F>(
    unwinder: &mut DwarfUnwinder<'_, A, P::GimliUnwindContextStorage>,
    alloc: Global,
    lookup: Lookup,
    fde_offset: u32,
    regs: A::UnwindRegs,
    read_stack: &mut F,
) -> Result<Told<A::UnwindRule>, AllocError>
where
    F: FnMut(u64) -> Result<u64, ()>,
    requires { F.IsAlwaysCallable read_stack.old }
    ensures callable { F.IsAlwaysCallable read_stack.new }
    ensures answers { Answering F.FnMut read_stack.old read_stack.new (λ memory.
        IfOk result (λ told. told ≡ dwarf_told A.translated A.uncovered
        (λ row. A.direct unwinder.old.section.bytes P.GimliEvaluationStorage.Stack.limit memory row lookup.is_first_frame regs)
        (reading_of P.GimliUnwindContextStorage.limits unwinder.old.section (unwinder.old.base_svma + lookup.relative_address) fde_offset))) }
{
    let mut caller = regs;
    told_by_dwarf(unwinder.unwind_frame_with_fde::<P::GimliEvaluationStorage, F>(
        alloc,
        &mut caller,
        lookup.is_first_frame,
        lookup.relative_address,
        fde_offset,
        read_stack,
    ))
}
