//! Modules that are loaded in a process.
ghost use Rattle.std.specs.Prelude.{◌≡◌, ◌+◌, ◌-◌, ◌<◌, true, IfOk, IfErr, SomeIff, Ok, Err, None, string_bytes, Option};
ghost use Rattle.framehop.specs.UnwindData.{unwind_data_of};
ghost use Rattle.framehop.specs.ModuleData.{unwind_data_in};
ghost use Rattle.framehop.specs.Modules.{ModuleView, covers};

use crate::unwind_data::ModuleUnwindDataInternal;
use framehop_bytes::section::{ModuleSectionInfo, SectionBytes};
use framehop_dwarf::dwarf::DwarfUnwinderError;
use framehop_macho::macho::CompactUnwindInfoUnwinderError;
use framehop_pe::pe::PeUnwinderError;
use std::alloc::{AllocError, Global};
use std::marker::Model;
use std::ops::Range;
use std::rc::Rc;

/// Why a module could not be made, or the list of an unwinder's modules not be changed.
#[derive(Clone, Copy, Debug, PartialEq, Eq, thiserror::Error)]
pub enum ModuleListError {
    /// An allocation failed.
    #[error("Out of memory")]
    OutOfMemory,

    /// The counter of generations is at its end.
    #[error("Generations exhausted")]
    GenerationsExhausted,
}

/// Why the unwind data of a module gives no rule and no return address for a frame.
#[derive(Clone, Copy, Debug, PartialEq, Eq, thiserror::Error)]
pub enum UnwinderError {
    /// The compact unwind info gives none.
    #[error("CompactUnwindInfo")]
    CompactUnwindInfo(CompactUnwindInfoUnwinderError),

    /// The call frame information gives none.
    #[error("Dwarf")]
    Dwarf(#[from] DwarfUnwinderError),

    /// The unwind info of a PE module gives none.
    #[error("Pe")]
    Pe(#[from] PeUnwinderError),

    /// The compact unwind info names an FDE, and the module has no `__eh_frame`.
    #[error("NoDwarfData")]
    NoDwarfData,

    /// The module has no unwind data.
    #[error("NoModuleUnwindData")]
    NoModuleUnwindData,

    /// `.eh_frame_hdr` has no FDE for the address.
    #[error("EhFrameHdrCouldNotFindAddress")]
    EhFrameHdrCouldNotFindAddress,

    /// The index has no FDE for the address.
    #[error("DwarfCfiIndexCouldNotFindAddress")]
    DwarfCfiIndexCouldNotFindAddress,
}

impl From<CompactUnwindInfoUnwinderError> for UnwinderError {
    ghost use Rattle.std.specs.Prelude.{◌≡◌};
    ghost use Rattle.framehop.specs.Compact.{refusal_of};

    ghost from_gives = { λ value error. error ≡ refusal_of value };

    fn from(value: CompactUnwindInfoUnwinderError) -> Self {
        match value {
            CompactUnwindInfoUnwinderError::BadDwarfUnwinding(error) => UnwinderError::Dwarf(error),
            error => UnwinderError::CompactUnwindInfo(error),
        }
    }
}

/// An executable or library that a process has mapped: where it lies, and its unwind data. A clone
/// shares them.
#[derive(Drop)]
pub struct Module<D: SectionBytes> {
    fields: Rc<ModuleFields<D>>,
}

/// The fields of a module, which is a pointer to them: an unwinder moves modules when one comes or goes.
#[derive(Drop)]
struct ModuleFields<D: SectionBytes> {
    name: String,
    avma_range: Range<u64>,
    base_avma: u64,
    unwind_data: Rc<ModuleUnwindDataInternal<D>>,
}

impl<D: SectionBytes> Model for Module<D> {
    ghost use Rattle.std.specs.Prelude.{string_bytes};
    ghost use Rattle.framehop.specs.Modules.{ModuleView};

    ghost Value = { ModuleView };

    ghost use Rattle.framehop.specs.UnwindData.{unwind_data_of};

    ghost view = { λ m. record {
      name = string_bytes m.fields.value.name;
      start = m.fields.value.avma_range.start;
      end = m.fields.value.avma_range.end;
      base_avma = m.fields.value.base_avma;
      unwind_data = unwind_data_of D.contents m.fields.value.unwind_data.value;
    } };
}

impl<D: SectionBytes + Drop> Clone for Module<D> {
    ghost is_clone = { λ m copy. copy ≡ m };

    fn clone(&self) -> Result<Self, AllocError> {
        Ok(Module {
            fields: self.fields.clone()?,
        })
    }
}

impl<D: SectionBytes + Drop> Module<D> {
    /// Returns a module of the name that is loaded at the addresses (AVMAs) from `avma_range.start`
    /// to below `avma_range.end`. Its relative address 0 is `base_avma`. The sections are asked for
    /// the unwind data.
    ///
    /// # Errors
    ///
    /// `OutOfMemory` where an allocation fails.
    ///
    /// # Examples
    ///
    /// ```
    /// let name = String::from_str(alloc, "libexample.so")?;
    /// let module = Module::new(
    ///     alloc,
    ///     name,
    ///     0x7f0000001000..0x7f0000003000,
    ///     0x7f0000000000,
    ///     sections,
    /// )?;
    /// ```
    pub fn new<I: ModuleSectionInfo<D> + Drop>(
        alloc: Global,
        name: String,
        avma_range: Range<u64>,
        base_avma: u64,
        mut section_info: I,
    ) -> Result<Self, ModuleListError>
        ensures made { IfOk result (λ made. made ≡ record {
          name = string_bytes name;
          start = avma_range.start;
          end = avma_range.end;
          base_avma = base_avma;
          unwind_data = unwind_data_in D.contents (I.table section_info);
        }) }
        ensures refused { IfErr result (λ error. error ≡ ModuleListError.OutOfMemory) }
    {
        let unwind_data = ModuleUnwindDataInternal::new(alloc, &mut section_info)?;
        let Ok(unwind_data) = Rc::new(alloc, unwind_data) else {
            return Err(ModuleListError::OutOfMemory);
        };
        let fields = ModuleFields {
            name,
            avma_range,
            base_avma,
            unwind_data,
        };
        match Rc::new(alloc, fields) {
            Ok(fields) => Ok(Module { fields }),
            Err(_) => Err(ModuleListError::OutOfMemory),
        }
    }

    /// Returns the same module at other addresses (AVMAs), from `avma_range.start` to below `avma_range.end`,
    /// with its relative address 0 at `base_avma`. It shares the unwind data, and no index is made
    /// anew.
    pub fn placed_at(&self, avma_range: Range<u64>, base_avma: u64) -> Result<Self, AllocError>
        ensures { IfOk result (λ made. made ≡ record {
          name = self.now.name;
          start = avma_range.start;
          end = avma_range.end;
          base_avma = base_avma;
          unwind_data = self.now.unwind_data;
        }) }
    {
        let fields = ModuleFields {
            name: self.fields.name.clone()?,
            avma_range,
            base_avma,
            unwind_data: self.fields.unwind_data.clone()?,
        };
        Ok(Module {
            fields: Rc::new(*self.fields.name.allocator(), fields)?,
        })
    }

    /// Returns the module's addresses (AVMAs).
    pub fn avma_range(&self) -> Range<u64>
        ensures start { result.start ≡ self.now.start }
        ensures end { result.end ≡ self.now.end }
    {
        self.fields.avma_range.start..self.fields.avma_range.end
    }

    /// Returns the address (AVMA) of the module's relative address 0.
    pub fn base_avma(&self) -> u64
        ensures { result ≡ self.now.base_avma }
    {
        self.fields.base_avma
    }

    /// Returns the module's name.
    pub fn name(&self) -> &str
        ensures { result.now ≡ self.now.name }
    {
        self.fields.name.as_str()
    }

    /// Returns the module's unwind data.
    pub fn unwind_data(&self) -> &ModuleUnwindDataInternal<D>
        ensures { unwind_data_of D.contents result.now ≡ self.now.unwind_data }
    {
        &*self.fields.unwind_data
    }

    // the start (AVMA)
    pub(crate) fn start(&self) -> u64
        ensures { result ≡ self.now.start }
    {
        self.fields.avma_range.start
    }

    // the end (AVMA)
    pub(crate) fn end(&self) -> u64
        ensures { result ≡ self.now.end }
    {
        self.fields.avma_range.end
    }

    // the relative address of an address (AVMA) that the module covers
    pub(crate) fn relative_address(&self, address: u64) -> Option<u32>
        ensures { SomeIff result (covers address self.now ≡ true) (address - self.now.base_avma) }
    {
        if address != self.start() && self.end() <= address {
            return None;
        }
        u32::try_from(address.checked_sub(self.fields.base_avma)?).ok()
    }
}
