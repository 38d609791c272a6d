//! How a module lends the bytes of its sections, and tells where they lie.
ghost use Rattle.std.specs.Prelude.{◌≡◌, ℕ, List, [], ◌∷◌, Option, nat_eq, IfOk, IsOk};
ghost use Rattle.std.specs.Box.{boxed_slice_items};
ghost use Rattle.std.specs.Rc.{rc_slice_items};
ghost use Rattle.std.specs.List.{list_any};
ghost use Rattle.std.specs.Cmp.Lexicographic.{pointwise};
ghost use Rattle.framehop_bytes.specs.SectionTable.{SectionTable, range_of, data_of, without_data};
ghost use Rattle.framehop_bytes.specs.ExplicitSections.{table_of, ClonesEqual, IsCloneBy, IsDataCloneBy};

use std::alloc::AllocError;
use std::boxed::BoxedSlice;
use std::ops::Range;
use std::rc::{Rc, RcSlice};

/// The bytes of a section, as they lie in the file. They are lent, never copied.
///
/// The bytes are a function of the value, so each lending gives the same ones.
pub trait SectionBytes {
    ghost contents: { Self → List ℕ };

    /// Returns the section's bytes.
    fn bytes(&self) -> &[u8]
        ensures { result.now ≡ contents self.now };
}

impl SectionBytes for Vec<u8> {
    ghost contents = { λ v. v.items };

    fn bytes(&self) -> &[u8] {
        self.as_slice()
    }
}

impl SectionBytes for &[u8] {
    ghost contents = { λ bytes. bytes.now };

    fn bytes(&self) -> &[u8] {
        *self
    }
}

impl SectionBytes for BoxedSlice<u8> {
    ghost contents = { boxed_slice_items };

    fn bytes(&self) -> &[u8] {
        BoxedSlice::as_slice(self)
    }
}

impl SectionBytes for RcSlice<u8> {
    ghost contents = { rc_slice_items };

    fn bytes(&self) -> &[u8] {
        RcSlice::as_slice(self)
    }
}

impl SectionBytes for Rc<Vec<u8>> {
    ghost contents = { λ shared. shared.value.items };

    fn bytes(&self) -> &[u8] {
        let bytes: &Vec<u8> = self;
        bytes.as_slice()
    }
}

/// The sections and segments of a module, by name: where they lie, as stated virtual memory
/// addresses (SVMA), and their data.
///
/// This is a finite table. Data is taken out when it is asked for: once given it is gone, also
/// under the other name of its pair (as `__text` and `.text`), while ranges stay.
pub trait ModuleSectionInfo<D> {
    ghost table: { Self → SectionTable D };

    /// Returns the base of the module, an SVMA.
    fn base_svma(&self) -> u64
        ensures { result ≡ (table self.now).base_svma };

    /// Returns where the section of that name lies, as SVMAs.
    fn section_svma_range(&mut self, name: &[u8]) -> Option<Range<u64>>
        ensures answer { result ≡ range_of name.now (table self.old).sections }
        ensures kept { table self.new ≡ table self.old };

    /// Returns the data of the section of that name, which is gone then.
    fn section_data(&mut self, name: &[u8]) -> Option<D>
        ensures answer { result ≡ data_of name.now (table self.old).sections }
        ensures taken { table self.new ≡ record (table self.old) { sections = without_data name.now (table self.old).sections } };

    /// Returns where the segment of that name lies, as SVMAs.
    fn segment_svma_range(&mut self, name: &[u8]) -> Option<Range<u64>>
        ensures answer { result ≡ range_of name.now (table self.old).segments }
        ensures kept { table self.new ≡ table self.old };

    /// Returns the data of the segment of that name, which is gone then.
    fn segment_data(&mut self, name: &[u8]) -> Option<D>
        ensures answer { result ≡ data_of name.now (table self.old).segments }
        ensures taken { table self.new ≡ record (table self.old) { segments = without_data name.now (table self.old).segments } };
}

/// The sections of a module, each in a field of its own: a [`ModuleSectionInfo`] that needs no code.
///
/// An address of the file is an SVMA, and one of the running process an AVMA. All ranges here are
/// SVMAs, as the file's section headers have them; none is moved to where the module was loaded.
/// Unwind data names code by SVMAs, by distances from a section's start, or by distances from
/// `base_svma`, so a section needs its range as well as its bytes.
///
/// Of an ELF file `base_svma`, `text_svma`, `eh_frame_svma`, `eh_frame`, `eh_frame_hdr_svma`,
/// `eh_frame_hdr`, `got_svma` and `debug_frame` matter. Of a Mach-O file those of `__eh_frame` do,
/// `unwind_info`, the stubs, and `text_segment` or `text`. The sections of a PE file have no field.
///
/// A field is left empty by the call that takes its data.
#[derive(Debug, PartialEq, Eq, Drop)]
#[derive_where(Default)]
pub struct ExplicitModuleSectionInfo<D> {
    /// The SVMA that relative addresses count from: 0 for ELF, for Mach-O the `vmaddr` of `__TEXT`.
    ///
    /// With a wrong one each address of the module is looked up at a wrong place.
    pub base_svma: u64,
    /// Where `.text` (ELF) or `__text` (Mach-O) lies.
    ///
    /// Its start places the bytes of `text`, which are not used without it, and is the zero of
    /// text-relative pointers (`DW_EH_PE_textrel`), which else count from 0.
    pub text_svma: Option<Range<u64>>,
    /// The bytes of `__text` (Mach-O), for a module with `unwind_info` whose `text_segment` has no
    /// bytes or no range. That of an ELF file is not read.
    ///
    /// Opcodes do not describe prologues and epilogues, so in a first frame instructions come before
    /// them; and an x86_64 opcode can leave the stack size to an instruction. Without code the first
    /// frame gets the rule of the function's body, and an opcode of the other kind is refused.
    pub text: Option<D>,
    /// Where `__stubs` (Mach-O) lies: jumps to imported functions, none of which has an entry in
    /// `__unwind_info`.
    ///
    /// Without it a pc in a stub can get the opcode of the function whose entry comes before.
    pub stubs_svma: Option<Range<u64>>,
    /// Where `__stub_helper` (Mach-O) lies: what a stub jumps to until its function is bound. It has
    /// no entry either, and pushes words, so its rule depends on the offset in it.
    ///
    /// Without it a pc there can get the opcode of the function whose entry comes before.
    pub stub_helper_svma: Option<Range<u64>>,
    /// Where `.got` (ELF) or `__got` (Mach-O) lies, the global offset table. It has no bytes here:
    /// its start is the zero of the data-relative pointers (`DW_EH_PE_datarel`) of `eh_frame`.
    ///
    /// Without it these count from 0.
    pub got_svma: Option<Range<u64>>,
    /// The bytes of `__unwind_info` (Mach-O): a table of functions, with an opcode for each.
    ///
    /// It is used before all other data. Without it the module is unwound by its call frame
    /// information only.
    pub unwind_info: Option<D>,
    /// Where `.eh_frame` (ELF) or `__eh_frame` (Mach-O) lies.
    ///
    /// Linkers write the start of a function as its distance from the field that has it
    /// (`DW_EH_PE_pcrel`): without this range no address finds its FDE.
    pub eh_frame_svma: Option<Range<u64>>,
    /// The bytes of `.eh_frame` (ELF) or `__eh_frame` (Mach-O): DWARF call frame information.
    ///
    /// It is what most ELF files are unwound by; in a Mach-O file it has the functions that no opcode
    /// can describe. Without it `debug_frame` is used; a Mach-O function that needs its FDE takes the
    /// fallback.
    pub eh_frame: Option<D>,
    /// Where `.eh_frame_hdr` (ELF) lies: the addresses of its table count from its start.
    ///
    /// Where `eh_frame_hdr` is given without it, no address finds its FDE.
    pub eh_frame_hdr_svma: Option<Range<u64>>,
    /// The bytes of `.eh_frame_hdr` (ELF): the FDEs of `eh_frame` in the order of their functions.
    ///
    /// Without it an index of the FDEs is made with the module, which takes time and memory.
    pub eh_frame_hdr: Option<D>,
    /// The bytes of `.debug_frame` (ELF): call frame information for debuggers, read where there is
    /// no other unwind data. An index of it is made with the module.
    ///
    /// It needs no range, since its addresses are SVMAs.
    pub debug_frame: Option<D>,
    /// Where the segment `__TEXT` (Mach-O) lies: it places the bytes of `text_segment`, which are not
    /// used without it.
    pub text_segment_svma: Option<Range<u64>>,
    /// The bytes of the segment `__TEXT` (Mach-O), which has `__text` in it. They serve as `text` does,
    /// and are used in its place.
    pub text_segment: Option<D>,
}

impl<D: Clone> ExplicitModuleSectionInfo<D> {
    /// Returns a clone: the same addresses, and clones of the data. Where clones of the data equal
    /// them, it equals its original.
    pub fn clone(&self) -> Result<Self, AllocError>
        ensures clone { IfOk result (IsCloneBy D.is_clone self.now) }
        ensures equal { ClonesEqual D.is_clone → IfOk result (λ copy. copy ≡ self.now) }
        ensures succeeds { ((contents : D) → D.is_infallible contents) → IsOk result }
    {
        Ok(ExplicitModuleSectionInfo {
            base_svma: self.base_svma,
            text_svma: copy_of(&self.text_svma),
            text: clone_of(&self.text)?,
            stubs_svma: copy_of(&self.stubs_svma),
            stub_helper_svma: copy_of(&self.stub_helper_svma),
            got_svma: copy_of(&self.got_svma),
            unwind_info: clone_of(&self.unwind_info)?,
            eh_frame_svma: copy_of(&self.eh_frame_svma),
            eh_frame: clone_of(&self.eh_frame)?,
            eh_frame_hdr_svma: copy_of(&self.eh_frame_hdr_svma),
            eh_frame_hdr: clone_of(&self.eh_frame_hdr)?,
            debug_frame: clone_of(&self.debug_frame)?,
            text_segment_svma: copy_of(&self.text_segment_svma),
            text_segment: clone_of(&self.text_segment)?,
        })
    }
}

impl<D> ModuleSectionInfo<D> for ExplicitModuleSectionInfo<D> {
    ghost table = { table_of };

    fn base_svma(&self) -> u64 {
        self.base_svma
    }

    fn section_svma_range(&mut self, name: &[u8]) -> Option<Range<u64>> {
        if is_either(name, b"__text", b".text") {
            copy_of(&self.text_svma)
        } else if name == b"__stubs".as_slice() {
            copy_of(&self.stubs_svma)
        } else if name == b"__stub_helper".as_slice() {
            copy_of(&self.stub_helper_svma)
        } else if is_either(name, b"__got", b".got") {
            copy_of(&self.got_svma)
        } else if is_either(name, b"__eh_frame", b".eh_frame") {
            copy_of(&self.eh_frame_svma)
        } else if is_either(name, b"__eh_frame_hdr", b".eh_frame_hdr") {
            copy_of(&self.eh_frame_hdr_svma)
        } else {
            None
        }
    }

    fn section_data(&mut self, name: &[u8]) -> Option<D> {
        if is_either(name, b"__text", b".text") {
            self.text.take()
        } else if name == b"__unwind_info".as_slice() {
            self.unwind_info.take()
        } else if is_either(name, b"__eh_frame", b".eh_frame") {
            self.eh_frame.take()
        } else if is_either(name, b"__eh_frame_hdr", b".eh_frame_hdr") {
            self.eh_frame_hdr.take()
        } else if is_either(name, b"__debug_frame", b".debug_frame") {
            self.debug_frame.take()
        } else {
            None
        }
    }

    fn segment_svma_range(&mut self, name: &[u8]) -> Option<Range<u64>> {
        if name == b"__TEXT".as_slice() {
            copy_of(&self.text_segment_svma)
        } else {
            None
        }
    }

    fn segment_data(&mut self, name: &[u8]) -> Option<D> {
        if name == b"__TEXT".as_slice() {
            self.text_segment.take()
        } else {
            None
        }
    }
}

/// Returns whether a name is one of the two that a section goes by.
fn is_either(name: &[u8], first: &[u8], second: &[u8]) -> bool
    ensures { result ≡ list_any (pointwise nat_eq name.now) (first.now ∷ second.now ∷ []) }
{
    name == first || name == second
}

/// Returns a copy of a range.
fn copy_of(range: &Option<Range<u64>>) -> Option<Range<u64>>
    ensures { result ≡ range.now }
{
    match range {
        Some(range) => Some(range.start..range.end),
        None => None,
    }
}

/// Returns a clone of data, where there are data.
fn clone_of<D: Clone>(contents: &Option<D>) -> Result<Option<D>, AllocError>
    ensures clone { IfOk result (IsDataCloneBy D.is_clone contents.now) }
    ensures equal { ClonesEqual D.is_clone → IfOk result (λ copy. copy ≡ contents.now) }
    ensures succeeds { ((contents : D) → D.is_infallible contents) → IsOk result }
{
    match contents {
        Some(contents) => Ok(Some(contents.clone()?)),
        None => Ok(None),
    }
}
