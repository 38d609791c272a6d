//! Which unwind data of a module answers an address, and what a frame there is unwound by.
//!
//! Rows, explanations and names of functions are made by what these calls return. `Module::unwind_by_data` is proved by
//! the same definition, `entry_at`, and looks FDEs up by the same calls, which are inlined.
ghost use Rattle.std.specs.Prelude.{◌≡◌, None, IfOk, IsTrue, option_map};
ghost use Rattle.framehop_cfi.specs.RowAt.{covers};
ghost use Rattle.framehop_macho.specs.Answer.{IfRule as IfCompactRule};
ghost use Rattle.framehop_macho.specs.Unwinder.{unwound};
ghost use Rattle.framehop.specs.CallFrames.{header_frames, fde_offset_of};
ghost use Rattle.framehop.specs.Found.{found_data, found_entry, HasRule};
ghost use Rattle.framehop.specs.Lookup.{fde_of, named_fde, covering_fde, data_at, compact_entry, entry_at};
ghost use Rattle.framehop.specs.Parts.{is_unwind_data, frames_in, pe_in};

use crate::modules::{Module, UnwinderError};
use crate::unwind_data::{
    CompactInfo, HeaderFrames, IndexedFrames, ModuleUnwindDataInternal, PeInfo,
};
use crate::unwinder::Unwinding;
use framehop_bytes::section::SectionBytes;
use framehop_cfi::context::UnwindContext;
use framehop_cfi::entry::{FrameDescriptionEntry, UnwindSection, UnwindSectionType};
use framehop_cfi::storage::UnwindContextStorage;
use framehop_dwarf::unwinder::{DwarfUnwinder, fde_offset_by_table};
use framehop_macho::macho::{
    CompactUnwindInfoUnwinder, CompactUnwindInfoUnwinderError, CuiUnwindResult, TextBytes,
};

/// What a frame is looked up by.
#[derive(Clone, Copy)]
pub struct Lookup {
    /// The lookup address, relative to the module's base.
    pub relative_address: u32,
    /// Whether the frame's address is an instruction pointer, and no return address.
    pub is_first_frame: bool,
}

/// The FDE that a call frame section has for an address, which it may not cover.
#[derive(Drop)]
pub struct SectionFde<'a> {
    /// The section.
    pub section: UnwindSection<'a>,
    /// The module's base, an SVMA.
    pub base_svma: u64,
    /// The offset of the FDE in the section, in bytes.
    pub offset: u32,
}

/// The unwind data that answers an address.
#[derive(Drop)]
pub enum UnwindDataAt<'a, D: SectionBytes> {
    /// An FDE, by `.eh_frame_hdr` or an index.
    Fde(SectionFde<'a>),
    /// Compact unwind info.
    Compact(&'a CompactInfo<D>),
    /// The unwind info of a PE module.
    Pe(&'a PeInfo<D>),
}

/// What a frame is unwound by.
#[derive(Drop)]
pub enum UnwindEntry<'a, D: SectionBytes, R> {
    /// An FDE, by `.eh_frame_hdr`, an index or compact unwind info.
    Fde(SectionFde<'a>),
    /// A rule, by compact unwind info.
    Rule(R),
    /// The unwind info of a PE module.
    Pe(&'a PeInfo<D>),
}

impl<D: SectionBytes + Drop> Module<D> {
    /// Returns the unwind data that answers an address relative to the module's base.
    ///
    /// # Errors
    ///
    /// `NoModuleUnwindData` where the module has none, and `EhFrameHdrCouldNotFindAddress` or
    /// `DwarfCfiIndexCouldNotFindAddress` where `.eh_frame_hdr` or the index has no FDE.
    #[inline(always)]
    pub fn unwind_data_at(
        &self,
        relative_address: u32,
    ) -> Result<UnwindDataAt<'_, D>, UnwinderError>
        ensures { found_data result ≡ data_at self.entry.now.unwind_data relative_address }
    {
        match self.unwind_data() {
            ModuleUnwindDataInternal::EhFrameHdrAndEhFrame(frames) => {
                match frames.fde(relative_address) {
                    Some(fde) => Ok(UnwindDataAt::Fde(fde)),
                    None => Err(UnwinderError::EhFrameHdrCouldNotFindAddress),
                }
            }
            ModuleUnwindDataInternal::DwarfCfiIndexAndFrames(frames) => {
                match frames.fde(relative_address) {
                    Some(fde) => Ok(UnwindDataAt::Fde(fde)),
                    None => Err(UnwinderError::DwarfCfiIndexCouldNotFindAddress),
                }
            }
            ModuleUnwindDataInternal::CompactUnwindInfoAndEhFrame(info) => {
                Ok(UnwindDataAt::Compact(info))
            }
            ModuleUnwindDataInternal::PeUnwindInfo(info) => Ok(UnwindDataAt::Pe(info)),
            ModuleUnwindDataInternal::None(_) => Err(UnwinderError::NoModuleUnwindData),
        }
    }

    /// Returns what a frame is unwound by.
    ///
    /// # Errors
    ///
    /// Those of `unwind_data_at`, `CompactUnwindInfo` where compact unwind info refuses the frame, and `NoDwarfData`
    /// where it names an FDE and the module has no `__eh_frame`.
    #[inline(always)]
    pub fn unwind_entry<A: Unwinding>(
        &self,
        lookup: Lookup,
    ) -> Result<UnwindEntry<'_, D, A::UnwindRule>, UnwinderError>
        ensures found { found_entry result
            ≡ entry_at A.readers.compact self.entry.now.unwind_data lookup.relative_address lookup.is_first_frame }
        ensures executable { IfOk result (HasRule (λ rule. IsTrue (A.UnwindRule.executable rule))) }
    {
        match self.unwind_data_at(lookup.relative_address) {
            Ok(UnwindDataAt::Fde(fde)) => Ok(UnwindEntry::Fde(fde)),
            Ok(UnwindDataAt::Compact(info)) => info.entry::<A>(lookup),
            Ok(UnwindDataAt::Pe(info)) => Ok(UnwindEntry::Pe(info)),
            Err(error) => Err(error),
        }
    }

    /// Returns whether the module has unwind data that can be used.
    pub fn has_unwind_data(&self) -> bool
        ensures { result ≡ is_unwind_data self.now.unwind_data }
    {
        match self.unwind_data() {
            ModuleUnwindDataInternal::None(_) => false,
            _ => true,
        }
    }

    /// Returns the call frame section that the module unwinds by, if it does.
    pub fn frame_section(&self) -> Option<UnwindSection<'_>>
        ensures { result ≡ frames_in self.entry.now.unwind_data }
    {
        match self.unwind_data() {
            ModuleUnwindDataInternal::EhFrameHdrAndEhFrame(frames) => Some(frames.section()),
            ModuleUnwindDataInternal::DwarfCfiIndexAndFrames(frames) => Some(frames.section()),
            _ => None,
        }
    }

    /// Returns the unwind info of a PE module, if the module unwinds by that.
    pub fn pe_info(&self) -> Option<&PeInfo<D>>
        ensures { option_map (λ info. info.now) result ≡ pe_in self.now.unwind_data }
    {
        match self.unwind_data() {
            ModuleUnwindDataInternal::PeUnwindInfo(info) => Some(info),
            _ => None,
        }
    }
}

impl<'a> SectionFde<'a> {
    /// Returns the FDE, if it can be read and covers an address relative to the module's base.
    pub fn covering(&self, relative_address: u32) -> Option<FrameDescriptionEntry>
        ensures { result ≡ covering_fde self.now relative_address }
    {
        let fde = self.section.fde_from_offset(self.offset as usize).ok()?;
        let address = self.base_svma.checked_add(u64::from(relative_address))?;
        if covers(&fde, address) {
            Some(fde)
        } else {
            None
        }
    }

    /// Returns an unwinder over the section, whose rows are made in the context.
    #[inline(always)]
    pub fn unwinder<A, S: UnwindContextStorage>(
        self,
        unwind_context: &'a mut UnwindContext<S>,
    ) -> DwarfUnwinder<'a, A, S>
        ensures section { result.section ≡ self.entry.section }
        ensures base { result.base_svma ≡ self.entry.base_svma }
    {
        DwarfUnwinder::over_section(self.section, unwind_context, self.base_svma)
    }
}

/// Returns whether an FDE covers an address, an SVMA.
fn covers(fde: &FrameDescriptionEntry, address: u64) -> bool
    ensures { result ≡ covers fde.now address }
{
    fde.initial_address <= address && address - fde.initial_address < fde.address_range
}

impl<D: SectionBytes> HeaderFrames<D> {
    /// Returns `.eh_frame`.
    #[inline(always)]
    fn section(&self) -> UnwindSection<'_>
        ensures { result ≡ (header_frames self.entry.now).section }
    {
        let bytes = self.eh_frame.bytes();
        UnwindSection::new(bytes, UnwindSectionType::EhFrame, &self.base_addresses)
    }

    /// Returns the FDE that the table names for a relative address, if it names one.
    #[inline(always)]
    #[tactic(auto, unfolding(crate::specs::CallFrames::fde_offset_of))]
    pub(crate) fn fde(&self, relative_address: u32) -> Option<SectionFde<'_>>
        ensures { result ≡ fde_of (header_frames self.entry.now) relative_address }
    {
        let offset = fde_offset_by_table(
            self.eh_frame_hdr.bytes(),
            &self.base_addresses,
            self.base_svma,
            relative_address,
        )?;
        Some(SectionFde {
            section: self.section(),
            base_svma: self.base_svma,
            offset,
        })
    }
}

impl<D: SectionBytes> IndexedFrames<D> {
    /// Returns the section.
    #[inline(always)]
    fn section(&self) -> UnwindSection<'_>
        ensures { result ≡ self.entry.now.section }
    {
        let bytes = self.section_data.bytes();
        UnwindSection::new(bytes, self.section_type, &self.base_addresses)
    }

    /// Returns the FDE that the index has for a relative address, if it has one.
    #[inline(always)]
    pub(crate) fn fde(&self, relative_address: u32) -> Option<SectionFde<'_>>
        ensures found { result ≡ fde_of self.entry.now relative_address }
        ensures by_index { self.entry.now.header ≡ None }
    {
        Some(SectionFde {
            section: self.section(),
            base_svma: self.base_svma,
            offset: self.fde_offset(relative_address)?,
        })
    }

    /// Returns the offset of the FDE for a relative address, if there is one.
    #[inline(always)]
    fn fde_offset(&self, relative_address: u32) -> Option<u32>
        ensures { result ≡ fde_offset_of self.now relative_address }
    {
        self.index.fde_offset_for_relative_address(relative_address)
    }
}

impl<D: SectionBytes> CompactInfo<D> {
    /// Returns what the info unwinds a frame by.
    fn entry<A: Unwinding>(
        &self,
        lookup: Lookup,
    ) -> Result<UnwindEntry<'_, D, A::UnwindRule>, UnwinderError>
        ensures found { found_entry result ≡ compact_entry self.entry.now.frames
            (unwound A.readers.compact self.entry.now.info lookup.relative_address lookup.is_first_frame) }
        ensures executable { IfOk result (HasRule (λ rule. IsTrue (A.UnwindRule.executable rule))) }
    {
        match self.rule_or_fde_offset::<A>(lookup) {
            Ok(CuiUnwindResult::ExecRule(rule)) => Ok(UnwindEntry::Rule(rule)),
            Ok(CuiUnwindResult::NeedDwarf(offset)) => match self.fde(offset) {
                Some(fde) => Ok(UnwindEntry::Fde(fde)),
                None => Err(UnwinderError::NoDwarfData),
            },
            Err(error) => Err(UnwinderError::CompactUnwindInfo(error)),
        }
    }

    /// Returns the FDE at an offset of `__eh_frame`, if the module has that.
    #[inline(always)]
    pub fn fde(&self, offset: u32) -> Option<SectionFde<'_>>
        ensures { result ≡ named_fde self.entry.now.frames offset }
    {
        let Some(eh_frame) = &self.eh_frame else {
            return None;
        };
        let kind = UnwindSectionType::EhFrame;
        Some(SectionFde {
            section: UnwindSection::new(eh_frame.bytes(), kind, &self.base_addresses),
            base_svma: self.base_svma,
            offset,
        })
    }

    /// Returns what the info gives: a rule, or the offset of an FDE.
    pub fn rule_or_fde_offset<A: Unwinding>(
        &self,
        lookup: Lookup,
    ) -> Result<CuiUnwindResult<A::UnwindRule>, CompactUnwindInfoUnwinderError>
        ensures says { result ≡ unwound A.readers.compact self.now.info lookup.relative_address lookup.is_first_frame }
        ensures executable { IfCompactRule result (λ rule. IsTrue (A.UnwindRule.executable rule)) }
    {
        let text = match &self.text {
            Some(text) => Some(TextBytes::new(text.offset_from_base, text.bytes.bytes())),
            None => None,
        };
        let unwinder: CompactUnwindInfoUnwinder<'_, A> = CompactUnwindInfoUnwinder::new(
            self.unwind_info.bytes(),
            text,
            self.stubs,
            self.stub_helper,
        );
        unwinder.unwind_frame(lookup.relative_address, lookup.is_first_frame)
    }
}
