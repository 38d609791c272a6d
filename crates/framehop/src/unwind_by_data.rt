//! Unwinding by a module's unwind data.
//!
//! Each kind of data has one function, and all have one contract: `UnwindsBy` the answer that the data gives. A
//! rule is returned, so that it can be stored before it is run; values that are computed are written to the
//! registers at once.
ghost use Rattle.std.specs.Prelude.{◌≡◌, ◌≢◌, ◌+◌, true, IsTrue, option_map, ℕ, List, Err};
ghost use Rattle.framehop_core.specs.Step.{IfRule, WritesWithAddress};
ghost use Rattle.framehop.specs.Unwinding.{Unwinding, entry_answer, entry_may_take_memory, answer_by, may_take_memory_by};
ghost use Rattle.framehop.specs.CallFrames.{header_frames, fde_answer};
ghost use Rattle.framehop.specs.Lookup.{compact_entry, entry_at};
ghost use Rattle.framehop.specs.Modules.{call_frames};
ghost use Rattle.framehop_macho.specs.Unwinder.{unwound};
ghost use Rattle.framehop_dwarf.specs.MayTakeMemory.{may_take_memory};
ghost use Rattle.framehop.specs.PlacedData.{placed_data};
ghost use Rattle.framehop.specs.Answer.{fresh_of};
ghost use Rattle.framehop_pe.specs.Sections.{sections_of, placed_of};
ghost use Rattle.framehop.specs.Told.{out_of_memory, UnwindsBy};

use crate::cache::AllocationPolicy;
use crate::lookup::{Lookup, SectionFde};
use crate::modules::{Module, UnwinderError};
use crate::unwind_data::{
    CompactInfo, HeaderFrames, IndexedFrames, ModuleUnwindDataInternal, PeInfo,
};
use crate::unwinder::Unwinding;
use framehop_bytes::section::SectionBytes;
use framehop_cfi::context::UnwindContext;
use framehop_core::unwind_result::UnwindResult;
use framehop_dwarf::unwinder::DwarfUnwinder;
use framehop_macho::macho::CuiUnwindResult;
use framehop_pe::pe::{DataAtRvaRange, PeSections, PeUnwinding};
use std::alloc::Global;

/// Unwinds a frame by the FDE at an offset.
#[tactic(auto, unfolding(crate::specs::CallFrames::fde_answer))]
fn unwind_by_fde<A: Unwinding, P: AllocationPolicy, F>(
    unwinder: &mut DwarfUnwinder<'_, A, P::GimliUnwindContextStorage>,
    alloc: Global,
    lookup: Lookup,
    fde_offset: u32,
    regs: &mut A::UnwindRegs,
    read_stack: &mut F,
) -> Result<UnwindResult<A::UnwindRule>, UnwinderError>
where
    F: FnMut(u64) -> Result<u64, ()>,
    requires { F.IsAlwaysCallable read_stack.old }
    ensures callable { F.IsAlwaysCallable read_stack.new }
    ensures written { WritesWithAddress (A.step_advances lookup.is_first_frame) result regs.old regs.new }
    ensures executable { IfRule result (λ rule. IsTrue (A.UnwindRule.executable rule)) }
    ensures memory { result ≡ Err out_of_memory → may_take_memory
        P.policy.rows P.policy.values unwinder.old.section (unwinder.old.base_svma + lookup.relative_address) fde_offset
        ≡ true }
    ensures unwound { UnwindsBy
        (fde_answer A.readers.rows P.policy unwinder.old.section
        (unwinder.old.base_svma + lookup.relative_address) lookup.is_first_frame fde_offset)
        regs.old result regs.new F.FnMut read_stack.old read_stack.new }
{
    match unwinder.unwind_frame_with_fde::<P::GimliEvaluationStorage, F>(
        alloc,
        regs,
        lookup.is_first_frame,
        lookup.relative_address,
        fde_offset,
        read_stack,
    ) {
        Ok(found) => Ok(found),
        Err(error) => Err(UnwinderError::Dwarf(error)),
    }
}

impl SectionFde<'_> {
    /// Unwinds a frame by the FDE.
    #[inline(always)]
    fn unwind<A: Unwinding, P: AllocationPolicy, F>(
        self,
        alloc: Global,
        unwind_context: &mut UnwindContext<P::GimliUnwindContextStorage>,
        lookup: Lookup,
        regs: &mut A::UnwindRegs,
        read_stack: &mut F,
    ) -> Result<UnwindResult<A::UnwindRule>, UnwinderError>
    where
        F: FnMut(u64) -> Result<u64, ()>,
        requires { F.IsAlwaysCallable read_stack.old }
        ensures callable { F.IsAlwaysCallable read_stack.new }
        ensures written { WritesWithAddress (A.step_advances lookup.is_first_frame) result regs.old regs.new }
        ensures executable { IfRule result (λ rule. IsTrue (A.UnwindRule.executable rule)) }
        ensures memory { result ≡ Err out_of_memory → may_take_memory
            P.policy.rows P.policy.values self.entry.section (self.entry.base_svma + lookup.relative_address)
            self.entry.offset ≡ true }
        ensures unwound { UnwindsBy
            (fde_answer A.readers.rows P.policy self.entry.section
            (self.entry.base_svma + lookup.relative_address) lookup.is_first_frame self.entry.offset)
            regs.old result regs.new F.FnMut read_stack.old read_stack.new }
    {
        let fde_offset = self.offset;
        let mut unwinder = self.unwinder(unwind_context);
        unwind_by_fde::<A, P, F>(&mut unwinder, alloc, lookup, fde_offset, regs, read_stack)
    }
}

impl<D: SectionBytes> HeaderFrames<D> {
    /// Unwinds a frame by the section.
    fn unwind_by_header<A: Unwinding, P: AllocationPolicy, F>(
        &self,
        alloc: Global,
        unwind_context: &mut UnwindContext<P::GimliUnwindContextStorage>,
        lookup: Lookup,
        regs: &mut A::UnwindRegs,
        read_stack: &mut F,
    ) -> Result<UnwindResult<A::UnwindRule>, UnwinderError>
    where
        F: FnMut(u64) -> Result<u64, ()>,
        requires { F.IsAlwaysCallable read_stack.old }
        ensures callable { F.IsAlwaysCallable read_stack.new }
        ensures written { WritesWithAddress (A.step_advances lookup.is_first_frame) result regs.old regs.new }
        ensures executable { IfRule result (λ rule. IsTrue (A.UnwindRule.executable rule)) }
        ensures memory { result ≡ Err out_of_memory → entry_may_take_memory P.policy lookup.relative_address
            (entry_at A.readers.compact (call_frames (header_frames self.now)) lookup.relative_address lookup.is_first_frame) ≡ true }
        ensures unwound { UnwindsBy
            (entry_answer A.readers P.policy lookup.relative_address lookup.is_first_frame
            (entry_at A.readers.compact (call_frames (header_frames self.now)) lookup.relative_address lookup.is_first_frame))
            regs.old result regs.new F.FnMut read_stack.old read_stack.new }
    {
        match self.fde(lookup.relative_address) {
            Some(fde) => fde.unwind::<A, P, F>(alloc, unwind_context, lookup, regs, read_stack),
            None => Err(UnwinderError::EhFrameHdrCouldNotFindAddress),
        }
    }
}

impl<D: SectionBytes> IndexedFrames<D> {
    /// Unwinds a frame by the section.
    fn unwind_by_index<A: Unwinding, P: AllocationPolicy, F>(
        &self,
        alloc: Global,
        unwind_context: &mut UnwindContext<P::GimliUnwindContextStorage>,
        lookup: Lookup,
        regs: &mut A::UnwindRegs,
        read_stack: &mut F,
    ) -> Result<UnwindResult<A::UnwindRule>, UnwinderError>
    where
        F: FnMut(u64) -> Result<u64, ()>,
        requires { F.IsAlwaysCallable read_stack.old }
        ensures callable { F.IsAlwaysCallable read_stack.new }
        ensures written { WritesWithAddress (A.step_advances lookup.is_first_frame) result regs.old regs.new }
        ensures executable { IfRule result (λ rule. IsTrue (A.UnwindRule.executable rule)) }
        ensures memory { result ≡ Err out_of_memory → entry_may_take_memory P.policy lookup.relative_address
            (entry_at A.readers.compact (call_frames self.now) lookup.relative_address lookup.is_first_frame) ≡ true }
        ensures unwound { UnwindsBy
            (entry_answer A.readers P.policy lookup.relative_address lookup.is_first_frame
            (entry_at A.readers.compact (call_frames self.now) lookup.relative_address lookup.is_first_frame))
            regs.old result regs.new F.FnMut read_stack.old read_stack.new }
    {
        match self.fde(lookup.relative_address) {
            Some(fde) => fde.unwind::<A, P, F>(alloc, unwind_context, lookup, regs, read_stack),
            None => Err(UnwinderError::DwarfCfiIndexCouldNotFindAddress),
        }
    }
}

impl<D: SectionBytes> CompactInfo<D> {
    /// Unwinds a frame by the info.
    fn unwind_by_info<A: Unwinding, P: AllocationPolicy, F>(
        &self,
        alloc: Global,
        unwind_context: &mut UnwindContext<P::GimliUnwindContextStorage>,
        lookup: Lookup,
        regs: &mut A::UnwindRegs,
        read_stack: &mut F,
    ) -> Result<UnwindResult<A::UnwindRule>, UnwinderError>
    where
        F: FnMut(u64) -> Result<u64, ()>,
        requires { F.IsAlwaysCallable read_stack.old }
        ensures callable { F.IsAlwaysCallable read_stack.new }
        ensures written { WritesWithAddress (A.step_advances lookup.is_first_frame) result regs.old regs.new }
        ensures executable { IfRule result (λ rule. IsTrue (A.UnwindRule.executable rule)) }
        ensures memory { result ≡ Err out_of_memory → entry_may_take_memory P.policy lookup.relative_address
            (compact_entry self.now.frames
            (unwound A.readers.compact self.now.info lookup.relative_address lookup.is_first_frame)) ≡ true }
        ensures unwound { UnwindsBy
            (entry_answer A.readers P.policy lookup.relative_address lookup.is_first_frame
            (compact_entry self.now.frames
            (unwound A.readers.compact self.now.info lookup.relative_address lookup.is_first_frame)))
            regs.old result regs.new F.FnMut read_stack.old read_stack.new }
    {
        match self.rule_or_fde_offset::<A>(lookup) {
            Ok(CuiUnwindResult::ExecRule(rule)) => Ok(UnwindResult::ExecRule(rule)),
            Ok(CuiUnwindResult::NeedDwarf(offset)) => match self.fde(offset) {
                Some(fde) => fde.unwind::<A, P, F>(alloc, unwind_context, lookup, regs, read_stack),
                None => Err(UnwinderError::NoDwarfData),
            },
            Err(error) => Err(UnwinderError::CompactUnwindInfo(error)),
        }
    }
}

impl<D: SectionBytes> PeInfo<D> {
    /// Returns the sections, lent.
    pub fn sections(&self) -> PeSections<'_, D>
        ensures { sections_of D.contents result ≡ self.now }
    {
        PeSections {
            pdata: &self.pdata,
            rdata: lent(&self.rdata),
            xdata: lent(&self.xdata),
            text: lent(&self.text),
        }
    }

    /// Unwinds a frame by the info.
    fn unwind_by_pe<A: Unwinding, F>(
        &self,
        lookup: Lookup,
        regs: &mut A::UnwindRegs,
        read_stack: &mut F,
    ) -> Result<UnwindResult<A::UnwindRule>, UnwinderError>
    where
        F: FnMut(u64) -> Result<u64, ()>,
        requires { F.IsAlwaysCallable read_stack.old }
        ensures callable { F.IsAlwaysCallable read_stack.new }
        ensures written { WritesWithAddress (A.step_advances lookup.is_first_frame) result regs.old regs.new }
        ensures executable { IfRule result (λ rule. IsTrue (A.UnwindRule.executable rule)) }
        ensures memory { result ≢ Err out_of_memory }
        ensures unwound { UnwindsBy
            (fresh_of (A.found (self.now) lookup.relative_address lookup.is_first_frame)
            (λ old memory. A.computed (self.now)
            lookup.relative_address lookup.is_first_frame memory old))
            regs.old result regs.new F.FnMut read_stack.old read_stack.new }
    {
        match <A as PeUnwinding>::unwind_frame(
            self.sections(),
            lookup.relative_address,
            regs,
            lookup.is_first_frame,
            read_stack,
        ) {
            Ok(found) => Ok(found),
            Err(error) => Err(UnwinderError::Pe(error)),
        }
    }
}

/// Returns the data of a section that a module may not have, lent.
fn lent<D>(section: &Option<DataAtRvaRange<D>>) -> Option<&DataAtRvaRange<D>>
    ensures { (contents : D → List ℕ) → placed_of contents result ≡ option_map (placed_data contents) section.now }
{
    match section {
        Some(section) => Some(section),
        None => None,
    }
}

impl<D: SectionBytes + Drop> Module<D> {
    /// Unwinds a frame at a relative address by the module's unwind data. It is a call of its own, so that the way
    /// of a hit is short.
    #[tactic(auto, unfolding(crate::specs::Unwinding::answer_by, crate::specs::Unwinding::may_take_memory_by))]
    #[inline(never)]
    pub(crate) fn unwind_by_data<A: Unwinding, P: AllocationPolicy, F>(
        &self,
        alloc: Global,
        unwind_context: &mut UnwindContext<P::GimliUnwindContextStorage>,
        lookup: Lookup,
        regs: &mut A::UnwindRegs,
        read_stack: &mut F,
    ) -> Result<UnwindResult<A::UnwindRule>, UnwinderError>
    where
        F: FnMut(u64) -> Result<u64, ()>,
        requires { F.IsAlwaysCallable read_stack.old }
        ensures callable { F.IsAlwaysCallable read_stack.new }
        ensures written { WritesWithAddress (A.step_advances lookup.is_first_frame) result regs.old regs.new }
        ensures executable { IfRule result (λ rule. IsTrue (A.UnwindRule.executable rule)) }
        ensures memory { result ≡ Err out_of_memory → may_take_memory_by
            A.readers P.policy self.now lookup.relative_address lookup.is_first_frame ≡ true }
        ensures unwound { UnwindsBy
            (answer_by A.readers P.policy self.now lookup.relative_address lookup.is_first_frame)
            regs.old result regs.new F.FnMut read_stack.old read_stack.new }
    {
        match self.unwind_data() {
            ModuleUnwindDataInternal::EhFrameHdrAndEhFrame(frames) => {
                frames.unwind_by_header::<A, P, F>(alloc, unwind_context, lookup, regs, read_stack)
            }
            ModuleUnwindDataInternal::CompactUnwindInfoAndEhFrame(info) => {
                info.unwind_by_info::<A, P, F>(alloc, unwind_context, lookup, regs, read_stack)
            }
            ModuleUnwindDataInternal::DwarfCfiIndexAndFrames(frames) => {
                frames.unwind_by_index::<A, P, F>(alloc, unwind_context, lookup, regs, read_stack)
            }
            ModuleUnwindDataInternal::PeUnwindInfo(info) => {
                info.unwind_by_pe::<A, F>(lookup, regs, read_stack)
            }
            ModuleUnwindDataInternal::None(_) => Err(UnwinderError::NoModuleUnwindData),
        }
    }
}
