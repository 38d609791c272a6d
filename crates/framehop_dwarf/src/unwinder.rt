//! What unwinds by the call frame information of a module.
ghost use Rattle.std.specs.Prelude.{IfErr, ◌≡◌, ◌≢◌, ◌+◌, ℕ, Bool, true, IsTrue, MatchOption, IfSome, Option, None, Err};
ghost use Rattle.framehop_cfi.specs.Section.{section_of};
ghost use Rattle.framehop_cfi.specs.Header.{IsOfRowFor, fde_offset_in};
ghost use Rattle.framehop_cfi.specs.Entry.{fde_at};
ghost use Rattle.framehop_dwarf.specs.MayTakeMemory.{needs_room_by, may_take_memory};
ghost use Rattle.framehop_dwarf.specs.Unwinder.{header_bases, HasHeader, fde_offset_for, reading_of, IsReading, HasFound, found_by, direct_by, OfRow};
ghost use Rattle.framehop_core.specs.Memory.{Memory, Answering};
ghost use Rattle.framehop_core.specs.Outcome.{answered};
ghost use Rattle.framehop_core.specs.Step.{IfRule, IfAddress, WritesWithAddress, TellsFound};
ghost use Rattle.framehop_dwarf.specs.Told.{out_of_memory, IsOfValues, NeedsNoStack, TellsDirect};

use crate::dwarf::{DwarfUnwinderError, DwarfUnwinding};
use crate::evaluation::EvaluationStorage;
use framehop_cfi::context::UnwindContext;
use framehop_cfi::entry::{UnwindSection, UnwindSectionType};
use framehop_cfi::header::EhFrameHdr;
use framehop_cfi::pointer::{BaseAddresses, SectionBaseAddresses};
use framehop_cfi::read_error::ReadError;
use framehop_cfi::storage::UnwindContextStorage;
use framehop_core::unwind_result::UnwindResult;
use std::alloc::Global;
use std::marker::PhantomData;

/// Returns what a header's pointers count from.
pub fn header_bases(bases: &BaseAddresses) -> SectionBaseAddresses
    ensures { result ≡ header_bases bases.now }
{
    SectionBaseAddresses {
        section: bases.eh_frame_hdr,
        text: bases.text,
        data: bases.eh_frame_hdr,
    }
}

/// Returns the offset in `.eh_frame` of the FDE that the table of `.eh_frame_hdr` names for an address relative to the
/// module's base. The FDE may not cover the address. A table that can't be read names none.
#[inline(always)]
#[tactic(auto, unfolding(framehop_cfi::specs::Header::fde_offset_in))]
pub fn fde_offset_by_table(
    eh_frame_hdr: &[u8],
    bases: &BaseAddresses,
    base_svma: u64,
    relative_address: u32,
) -> Option<u32>
    ensures { result ≡ fde_offset_in (record { bases = header_bases bases.now; bytes = eh_frame_hdr.now })
        (base_svma + relative_address) }
{
    let header = EhFrameHdr::parse(eh_frame_hdr, header_bases(bases))?;
    offset_by_header(&header, base_svma, relative_address)
}

/// Returns the offset of the FDE that a table names for a relative address.
#[inline(always)]
fn offset_by_header(header: &EhFrameHdr, base_svma: u64, relative_address: u32) -> Option<u32>
    ensures exact { result ≡ fde_offset_in header.now (base_svma + relative_address) }
    ensures law { IsOfRowFor header.now (base_svma + relative_address) result }
{
    let address = base_svma.saturating_add(u64::from(relative_address));
    header.fde_offset_for_address(address)
}

/// Finds FDEs and makes rows for the addresses of one module.
#[derive(Drop)]
pub struct DwarfUnwinder<'a, A, S: UnwindContextStorage> {
    /// The module's call frame section.
    pub section: UnwindSection<'a>,
    /// Its table, if it has one that can be read.
    pub eh_frame_hdr: Option<EhFrameHdr<'a>>,
    /// The room for rows.
    pub unwind_context: &'a mut UnwindContext<S>,
    /// The module's base, an SVMA.
    pub base_svma: u64,
    arch: PhantomData<A>,
}

impl<'a, A, S: UnwindContextStorage> DwarfUnwinder<'a, A, S> {
    /// Returns an unwinder over a module's sections.
    pub fn new(
        unwind_section_data: &'a [u8],
        unwind_section_type: UnwindSectionType,
        eh_frame_hdr_data: Option<&'a [u8]>,
        unwind_context: &'a mut UnwindContext<S>,
        bases: BaseAddresses,
        base_svma: u64,
    ) -> Self
        ensures section { result.section ≡ section_of unwind_section_type bases unwind_section_data.now }
        ensures base { result.base_svma ≡ base_svma }
        ensures header { MatchOption eh_frame_hdr_data.entry (result.eh_frame_hdr ≡ None) (λ bytes. HasHeader (header_bases bases) bytes.now result.eh_frame_hdr) }
    {
        let section = UnwindSection::new(unwind_section_data, unwind_section_type, &bases);
        let eh_frame_hdr = match eh_frame_hdr_data {
            Some(bytes) => EhFrameHdr::parse(bytes, header_bases(&bases)),
            None => None,
        };
        DwarfUnwinder {
            section,
            eh_frame_hdr,
            unwind_context,
            base_svma,
            arch: PhantomData,
        }
    }

    /// Returns an unwinder over a call frame section, without its table.
    #[inline(always)]
    pub fn over_section(
        section: UnwindSection<'a>,
        unwind_context: &'a mut UnwindContext<S>,
        base_svma: u64,
    ) -> Self
        ensures section { result.section ≡ section.entry }
        ensures base { result.base_svma ≡ base_svma }
        ensures header { result.eh_frame_hdr ≡ None }
    {
        DwarfUnwinder {
            section,
            eh_frame_hdr: None,
            unwind_context,
            base_svma,
            arch: PhantomData,
        }
    }

    /// Returns the offset in `.eh_frame` of the FDE that the table names for a relative address. The FDE may not
    /// cover the address. Without a table there is none.
    pub fn get_fde_offset_for_relative_address(&self, rel_lookup_address: u32) -> Option<u32>
        ensures exact { result ≡ fde_offset_for self.now.eh_frame_hdr (self.now.base_svma + rel_lookup_address) }
        ensures law { IfSome self.now.eh_frame_hdr (λ header. IsOfRowFor header (self.now.base_svma + rel_lookup_address) result) }
    {
        match &self.eh_frame_hdr {
            Some(header) => offset_by_header(header, self.base_svma, rel_lookup_address),
            None => None,
        }
    }
}

/// Makes the row of an address, by the FDE at an offset: whether there is one. Without an FDE it is an
/// error.
#[tactic(auto, unfolding(crate::specs::Unwinder::reading_of))]
pub fn find_row<S: UnwindContextStorage>(
    section: &UnwindSection,
    base_svma: u64,
    rel_lookup_address: u32,
    fde_offset: u32,
    unwind_context: &mut UnwindContext<S>,
) -> Result<bool, DwarfUnwinderError>
    ensures found { HasFound result unwind_context.new.row (reading_of S.limits section.now (base_svma + rel_lookup_address) fde_offset) }
    ensures memory { result ≡ Err out_of_memory → (S.limits ≡ None) × (needs_room_by section.now (base_svma + rel_lookup_address) (fde_at section.now fde_offset) ≡ true) }
{
    let fde = match section.fde_from_offset(fde_offset as usize) {
        Ok(fde) => fde,
        Err(error) => return Err(DwarfUnwinderError::FdeFromOffsetFailed(error)),
    };
    let address = match base_svma.checked_add(u64::from(rel_lookup_address)) {
        Some(address) => address,
        None => return Ok(false),
    };
    match unwind_context.row_for_address(section, &fde, address) {
        Ok(()) => Ok(true),
        Err(error) => {
            if error == ReadError::OutOfMemory {
                return Err(DwarfUnwinderError::UnwindInfoForAddressFailed(error));
            }
            Ok(false)
        }
    }
}

impl<'a, A: DwarfUnwinding, S: UnwindContextStorage> DwarfUnwinder<'a, A, S> {
    /// Unwinds a frame at an address relative to the module's base, by the FDE at an offset of the section:
    /// tells the rule of the address, where its row is translated to one, or else computes the return address
    /// (AVMA) and writes the caller's registers. An address without a row has a rule of its own.
    ///
    /// # Errors
    ///
    /// The registers are unchanged. `FdeFromOffsetFailed` says that no FDE is at the offset, and
    /// `UnwindInfoForAddressFailed` that an allocation failed. That may be only where the storage has no limits, and
    /// an instruction before the address gives a register a rule or remembers the row, or the row has an expression.
    pub fn unwind_frame_with_fde<E: EvaluationStorage, F>(
        &mut self,
        alloc: Global,
        regs: &mut A::UnwindRegs,
        is_first_frame: bool,
        rel_lookup_address: u32,
        fde_offset: u32,
        read_stack: &mut F,
    ) -> Result<UnwindResult<A::UnwindRule>, DwarfUnwinderError>
    where
        F: FnMut(u64) -> Result<u64, ()>,
        requires { F.IsAlwaysCallable read_stack.old }
        ensures callable { F.IsAlwaysCallable read_stack.new }
        ensures section { self.new.section ≡ self.old.section }
        ensures header { self.new.eh_frame_hdr ≡ self.old.eh_frame_hdr }
        ensures base { self.new.base_svma ≡ self.old.base_svma }
        ensures written { WritesWithAddress (A.ascends is_first_frame) result regs.old regs.new }
        ensures unread { IfRule result (λ rule. read_stack.new ≡ read_stack.old) }
        ensures unread_refused { IfErr result (λ error. NeedsNoStack error → read_stack.new ≡ read_stack.old) }
        ensures reading { IsReading S.limits self.old.section (self.old.base_svma + rel_lookup_address) fde_offset
            (reading_of S.limits self.old.section (self.old.base_svma + rel_lookup_address) fde_offset) }
        ensures found { result ≢ Err out_of_memory → TellsFound IsOfValues (found_by A.translated A.uncovered
            (reading_of S.limits self.old.section (self.old.base_svma + rel_lookup_address) fde_offset)) result }
        ensures executable { IfRule result (λ rule. IsTrue (A.UnwindRule.executable rule)) }
        ensures memory { result ≡ Err out_of_memory → may_take_memory S.limits E.Stack.limit self.old.section
            (self.old.base_svma + rel_lookup_address) fde_offset ≡ true }
        ensures means { OfRow (λ row. IfRule result (λ rule.
            (first : Bool) (old new : A.UnwindRegs) (memory : Memory) (address : ℕ)
            → A.UnwindRule.outcome rule first old memory ≡ answered address new
            → A.row_means self.old.section.bytes memory row first old address new))
            (reading_of S.limits self.old.section (self.old.base_svma + rel_lookup_address) fde_offset) }
        ensures answers { Answering F.FnMut read_stack.old read_stack.new (λ memory.
            TellsDirect (direct_by
            (λ row. A.direct self.old.section.bytes E.Stack.limit memory row is_first_frame regs.old)
            (reading_of S.limits self.old.section (self.old.base_svma + rel_lookup_address) fde_offset)) result regs.new
            × OfRow (λ row. IfAddress result (λ address.
            A.columns_mean self.old.section.bytes E.Stack.limit memory row is_first_frame regs.old address regs.new))
            (reading_of S.limits self.old.section (self.old.base_svma + rel_lookup_address) fde_offset)) }
    {
        let found = find_row(
            &self.section,
            self.base_svma,
            rel_lookup_address,
            fde_offset,
            self.unwind_context,
        )?;
        if !found {
            return Ok(UnwindResult::ExecRule(A::rule_if_uncovered_by_fde()));
        }
        let section = self.section.bytes();
        let row = self.unwind_context.row();
        A::unwind_frame::<S, E, F>(alloc, section, row, regs, is_first_frame, read_stack)
    }
}
