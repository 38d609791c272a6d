//! The unwind data of a module: which of its sections are taken, and what is kept of them.
//!
//! The kinds are tried in a fixed order. A section is asked for when its turn comes and not before, since its data
//! is taken out of the caller's hands. An index is made here, once for a module and all its clones.
ghost use Rattle.std.specs.Prelude.{◌≡◌, IfOk, IfErr, codes, option_map, ℕ, Ok, Err, None, Option};
ghost use Rattle.framehop.specs.PlacedData.{placed_data};
ghost use Rattle.framehop.specs.UnwindData.{unwind_data_of};
ghost use Rattle.framehop.specs.TextData.{text_data};
ghost use Rattle.framehop.specs.Modules.{compact_info};
ghost use Rattle.framehop_bytes.specs.SectionTable.{range_of};
ghost use Rattle.framehop_dwarf.specs.Bases.{base_addresses_of};
ghost use Rattle.framehop.specs.ModuleData.{ask_either, with_eh_frame, with_index, by_eh_frame, call_frame_data, pdata_data, ask, placed_in, relative_range, range_or_empty, text_or, text_in, with_unwind_info, unwind_data_in};
ghost use Rattle.framehop_cfi.specs.Section.{section_of};
ghost use Rattle.framehop_dwarf.specs.Bases.{section_in};

use crate::modules::ModuleListError;
use framehop_bytes::section::{ModuleSectionInfo, SectionBytes};
use framehop_cfi::entry::UnwindSectionType;
use framehop_cfi::pointer::BaseAddresses;
use framehop_cfi::read_error::ReadError;
use framehop_dwarf::bases::{base_addresses_for_ranges, base_addresses_for_sections, range_under};
use framehop_dwarf::index::{DwarfCfiIndex, DwarfCfiIndexError};
use framehop_pe::pe::DataAtRvaRange;
use std::alloc::Global;
use std::marker::Model;
use std::ops::Range;

/// What unwind data a module has. Clones of a module share it.
#[derive(Drop)]
pub enum ModuleUnwindDataInternal<D: SectionBytes> {
    /// `__unwind_info`, `__eh_frame`, the code and the stubs.
    CompactUnwindInfoAndEhFrame(CompactInfo<D>),
    /// `.eh_frame`, and its table of FDEs.
    EhFrameHdrAndEhFrame(HeaderFrames<D>),
    /// `.eh_frame` or `.debug_frame`, and an index of its FDEs.
    DwarfCfiIndexAndFrames(IndexedFrames<D>),
    /// `.pdata`, and the sections with unwind info and code.
    PeUnwindInfo(PeInfo<D>),
    /// None that can be used, or an index of the FDEs that was refused.
    None(Option<IndexRefusal>),
}

/// A call frame section whose index was refused, and why.
#[derive(Clone, Copy, Debug, PartialEq, Eq)]
pub struct IndexRefusal {
    pub section_type: UnwindSectionType,
    pub error: DwarfCfiIndexError,
}

/// The compact unwind info of a module, with what it needs.
#[derive(Drop)]
pub struct CompactInfo<D: SectionBytes> {
    pub unwind_info: D,
    pub eh_frame: Option<D>,
    pub text: Option<TextByteData<D>>,
    /// Where `__stubs` and `__stub_helper` lie, as relative addresses.
    pub stubs: (u32, u32),
    pub stub_helper: (u32, u32),
    pub base_addresses: BaseAddresses,
    /// The module's base, an SVMA.
    pub base_svma: u64,
}

impl<D: SectionBytes> Model for CompactInfo<D> {
    ghost use Rattle.std.specs.Prelude.{option_map};
    ghost use Rattle.framehop.specs.Compact.{CompactData};
    ghost use Rattle.framehop.specs.CallFrames.{frames_without_header};
    ghost use Rattle.framehop.specs.TextData.{text_data};

    ghost Value = { CompactData };

    ghost view = { λ c. record {
      info = record {
        unwind_info = D.contents c.unwind_info;
        text = option_map (text_data D.contents) c.text;
        stubs = c.stubs;
        stub_helper = c.stub_helper;
      };
      frames = option_map (λ bytes. frames_without_header (D.contents bytes) c.base_addresses c.base_svma) c.eh_frame;
    } };
}

/// The code of a module, and the relative address where it begins.
#[derive(Drop)]
pub struct TextByteData<D> {
    pub bytes: D,
    pub offset_from_base: u32,
}

/// `.eh_frame`, and the table of its FDEs in `.eh_frame_hdr`.
#[derive(Drop)]
pub struct HeaderFrames<D: SectionBytes> {
    pub eh_frame_hdr: D,
    pub eh_frame: D,
    pub base_addresses: BaseAddresses,
    /// The module's base, an SVMA.
    pub base_svma: u64,
}

impl<D: SectionBytes> Model for HeaderFrames<D> {
    ghost use Rattle.framehop.specs.CallFrames.{HeaderData};

    ghost Value = { HeaderData };

    ghost view = { λ f. record {
      eh_frame_hdr = D.contents f.eh_frame_hdr;
      eh_frame = D.contents f.eh_frame;
      base_addresses = f.base_addresses;
      base_svma = f.base_svma;
    } };
}

/// A call frame section, and an index of its FDEs.
#[derive(Drop)]
pub struct IndexedFrames<D: SectionBytes> {
    pub index: DwarfCfiIndex,
    pub section_data: D,
    pub section_type: UnwindSectionType,
    pub base_addresses: BaseAddresses,
    /// The module's base, an SVMA.
    pub base_svma: u64,
}

impl<D: SectionBytes> Model for IndexedFrames<D> {
    ghost use Rattle.std.specs.Prelude.{None};
    ghost use Rattle.framehop_cfi.specs.Section.{section_of};
    ghost use Rattle.framehop_dwarf.specs.Index.{IsIndexOfAll};
    ghost use Rattle.framehop.specs.CallFrames.{CallFrames};

    ghost Value = { CallFrames };

    ghost view = { λ f. record {
      section = section_of f.section_type f.base_addresses (D.contents f.section_data);
      header = None;
      base_svma = f.base_svma;
    } };

    ghost invariant = { λ f.
        IsIndexOfAll (section_of f.section_type f.base_addresses (D.contents f.section_data)) f.base_svma f.index };
}

/// The function table of a PE module, and the sections with unwind info and code.
#[derive(Drop)]
pub struct PeInfo<D: SectionBytes> {
    pub pdata: D,
    pub rdata: Option<DataAtRvaRange<D>>,
    pub xdata: Option<DataAtRvaRange<D>>,
    pub text: Option<DataAtRvaRange<D>>,
}

impl<D: SectionBytes> Model for PeInfo<D> {
    ghost use Rattle.std.specs.Prelude.{option_map};
    ghost use Rattle.framehop_pe.specs.Sections.{Sections};
    ghost use Rattle.framehop.specs.PlacedData.{placed_data};

    ghost Value = { Sections };

    ghost view = { λ p. record {
      pdata = D.contents p.pdata;
      rdata = option_map (placed_data D.contents) p.rdata;
      xdata = option_map (placed_data D.contents) p.xdata;
      text = option_map (placed_data D.contents) p.text;
    } };
}

impl<D: SectionBytes + Drop> ModuleUnwindDataInternal<D> {
    /// Returns the unwind data of a module with these sections: the first that there is. Each name is asked
    /// at most once, and its data is taken out. Fails only with `OutOfMemory`.
    #[tactic(auto, unfolding(crate::specs::ModuleData::unwind_data_in))]
    pub(crate) fn new<I: ModuleSectionInfo<D>>(
        alloc: Global,
        section_info: &mut I,
    ) -> Result<Self, ModuleListError>
        ensures made { IfOk result (λ made. unwind_data_of D.contents made
            ≡ unwind_data_in D.contents (I.table section_info.old)) }
        ensures refused { IfErr result (λ error. error ≡ ModuleListError.OutOfMemory) }
    {
        match section_info.section_data(b"__unwind_info") {
            Some(unwind_info) => Ok(ModuleUnwindDataInternal::CompactUnwindInfoAndEhFrame(
                CompactInfo::new(unwind_info, section_info),
            )),
            None => Self::by_pdata_or_call_frames(alloc, section_info),
        }
    }

    // the unwind data of a module without `__unwind_info`
    fn by_pdata_or_call_frames<I: ModuleSectionInfo<D>>(
        alloc: Global,
        section_info: &mut I,
    ) -> Result<Self, ModuleListError>
        ensures made { IfOk result (λ made. unwind_data_of D.contents made
            ≡ pdata_data D.contents (I.table section_info.old)) }
        ensures refused { IfErr result (λ error. error ≡ ModuleListError.OutOfMemory) }
    {
        match section_info.section_data(b".pdata") {
            Some(pdata) => Ok(ModuleUnwindDataInternal::PeUnwindInfo(PeInfo {
                pdata,
                rdata: data_at_rva_range(section_info, b".rdata"),
                xdata: data_at_rva_range(section_info, b".xdata"),
                text: data_at_rva_range(section_info, b".text"),
            })),
            None => Self::by_call_frames(alloc, section_info),
        }
    }

    // the unwind data of a module by its call frame sections
    fn by_call_frames<I: ModuleSectionInfo<D>>(
        alloc: Global,
        section_info: &mut I,
    ) -> Result<Self, ModuleListError>
        ensures made { IfOk result (λ made. unwind_data_of D.contents made
            ≡ call_frame_data D.contents (I.table section_info.old)) }
        ensures refused { IfErr result (λ error. error ≡ ModuleListError.OutOfMemory) }
    {
        match data_under(section_info, b".eh_frame", b"__eh_frame") {
            Some(eh_frame) => Self::by_eh_frame(alloc, eh_frame, section_info),
            None => Self::by_debug_frame(alloc, section_info),
        }
    }

    // `.debug_frame` with an index, if there is one
    fn by_debug_frame<I: ModuleSectionInfo<D>>(
        alloc: Global,
        section_info: &mut I,
    ) -> Result<Self, ModuleListError>
        ensures made { IfOk result (λ made. unwind_data_of D.contents made
            ≡ by_eh_frame D.contents None (I.table section_info.old)) }
        ensures refused { IfErr result (λ error. error ≡ ModuleListError.OutOfMemory) }
    {
        match section_info.section_data(b".debug_frame") {
            Some(debug_frame) => {
                Self::by_index(
                    alloc,
                    debug_frame,
                    UnwindSectionType::DebugFrame,
                    section_info,
                )
            }
            None => Ok(ModuleUnwindDataInternal::None(None)),
        }
    }

    // `.eh_frame` with its table of FDEs or, where there is none, with an index
    fn by_eh_frame<I: ModuleSectionInfo<D>>(
        alloc: Global,
        eh_frame: D,
        section_info: &mut I,
    ) -> Result<Self, ModuleListError>
        ensures made { IfOk result (λ made. unwind_data_of D.contents made
            ≡ with_eh_frame D.contents eh_frame (I.table section_info.old)) }
        ensures refused { IfErr result (λ error. error ≡ ModuleListError.OutOfMemory) }
    {
        match data_under(section_info, b".eh_frame_hdr", b"__eh_frame_hdr") {
            Some(eh_frame_hdr) => {
                Ok(ModuleUnwindDataInternal::EhFrameHdrAndEhFrame(HeaderFrames {
                    eh_frame_hdr,
                    eh_frame,
                    base_addresses: base_addresses_for_sections(section_info),
                    base_svma: section_info.base_svma(),
                }))
            }
            None => Self::by_index(alloc, eh_frame, UnwindSectionType::EhFrame, section_info),
        }
    }

    // a call frame section with an index of its FDEs, if it has one
    fn by_index<I: ModuleSectionInfo<D>>(
        alloc: Global,
        section_data: D,
        section_type: UnwindSectionType,
        section_info: &mut I,
    ) -> Result<Self, ModuleListError>
        ensures made { IfOk result (λ made. unwind_data_of D.contents made
            ≡ with_index (section_in section_type (I.table section_info.old) (D.contents section_data))
            (I.table section_info.old).base_svma) }
        ensures refused { IfErr result (λ error. error ≡ ModuleListError.OutOfMemory) }
    {
        let base_addresses = base_addresses_for_sections(section_info);
        let base_svma = section_info.base_svma();
        match DwarfCfiIndex::try_new(
            alloc,
            section_data.bytes(),
            section_type,
            base_addresses,
            base_svma,
        ) {
            Ok(index) => Ok(ModuleUnwindDataInternal::DwarfCfiIndexAndFrames(IndexedFrames {
                index,
                section_data,
                section_type,
                base_addresses,
                base_svma,
            })),
            Err(error) => {
                if error == DwarfCfiIndexError::Gimli(ReadError::OutOfMemory) {
                    return Err(ModuleListError::OutOfMemory);
                }
                Ok(ModuleUnwindDataInternal::None(Some(IndexRefusal {
                    section_type,
                    error,
                })))
            }
        }
    }
}

impl<D: SectionBytes + Drop> CompactInfo<D> {
    // the info with what the module's sections have for it
    fn new<I: ModuleSectionInfo<D>>(unwind_info: D, section_info: &mut I) -> Self
        ensures { compact_info result ≡ with_unwind_info D.contents unwind_info (I.table section_info.old) }
    {
        let base_svma = section_info.base_svma();
        let text_range = section_info.section_svma_range(b"__text");
        let base_addresses = base_addresses_beside_text(section_info, &text_range);
        let stubs = range_or_empty(base_svma, section_info.section_svma_range(b"__stubs"));
        let stub_helper = range_or_empty(
            base_svma,
            section_info.section_svma_range(b"__stub_helper"),
        );
        let eh_frame = section_info.section_data(b"__eh_frame");
        let text = text_data(section_info, text_range);
        CompactInfo {
            unwind_info,
            eh_frame,
            text,
            stubs,
            stub_helper,
            base_addresses,
            base_svma,
        }
    }
}

// the base addresses of a module whose section `__text` has this range
fn base_addresses_beside_text<D, I: ModuleSectionInfo<D>>(
    section_info: &mut I,
    text_range: &Option<Range<u64>>,
) -> BaseAddresses
    requires { text_range.now ≡ range_of (codes "__text") (I.table section_info.old).sections }
    ensures bases { result ≡ base_addresses_of (I.table section_info.old).sections }
    ensures kept { I.table section_info.new ≡ I.table section_info.old }
{
    let eh_frame = range_under(section_info, b"__eh_frame", b".eh_frame");
    let eh_frame_hdr = range_under(section_info, b"__eh_frame_hdr", b".eh_frame_hdr");
    let got = range_under(section_info, b"__got", b".got");
    match text_range {
        Some(_) => base_addresses_for_ranges(&eh_frame, &eh_frame_hdr, text_range, &got),
        None => {
            let text = section_info.section_svma_range(b".text");
            base_addresses_for_ranges(&eh_frame, &eh_frame_hdr, &text, &got)
        }
    }
}

// a range relative to a base, or an empty one
fn range_or_empty(base: u64, range: Option<Range<u64>>) -> (u32, u32)
    ensures { result ≡ range_or_empty base range }
{
    let Some(range) = range else {
        return (0, 0);
    };
    match relative_range(base, &range) {
        Some(range) => (range.start, range.end),
        None => (0, 0),
    }
}

// code that lies at a range, if the range fits
fn text_at<D>(base: u64, range: Range<u64>, bytes: D) -> Option<TextByteData<D>>
where
    D: SectionBytes + Drop,
    ensures { option_map (text_data D.contents) result ≡ text_or D.contents base (Some range) (Some bytes) None }
{
    match relative_range(base, &range) {
        Some(range) => Some(TextByteData {
            bytes,
            offset_from_base: range.start,
        }),
        None => None,
    }
}

// the code of the segment `__TEXT`, else that of the section `__text`, which has this range
fn text_data<D: SectionBytes + Drop, I: ModuleSectionInfo<D>>(
    section_info: &mut I,
    text_range: Option<Range<u64>>,
) -> Option<TextByteData<D>>
    ensures { option_map (text_data D.contents) result ≡ text_in D.contents text_range (I.table section_info.old) }
{
    let base_svma = section_info.base_svma();
    let segment_range = section_info.segment_svma_range(b"__TEXT");
    let segment = section_info.segment_data(b"__TEXT");
    if let Some(range) = segment_range
        && let Some(bytes) = segment
    {
        return text_at(base_svma, range, bytes);
    }
    let Some(range) = text_range else {
        return None;
    };
    let Some(bytes) = section_info.section_data(b"__text") else {
        return None;
    };
    text_at(base_svma, range, bytes)
}

// a range relative to a base, if both its ends fit 32 bits
fn relative_range(base: u64, range: &Range<u64>) -> Option<Range<u32>>
    ensures { option_map (λ (r : Range ℕ). (r.start, r.end)) result ≡ relative_range base range.now }
{
    let (Some(start), Some(end)) = (range.start.checked_sub(base), range.end.checked_sub(base))
    else {
        return None;
    };
    let (Ok(start), Ok(end)) = (u32::try_from(start), u32::try_from(end)) else {
        return None;
    };
    Some(start..end)
}

// the data under a name with its range, where both are there and the range fits
fn data_at_rva_range<D: SectionBytes + Drop, I: ModuleSectionInfo<D>>(
    section_info: &mut I,
    name: &[u8],
) -> Option<DataAtRvaRange<D>>
    ensures found { option_map (placed_data D.contents) result
        ≡ placed_in D.contents name.now (I.table section_info.old) }
    ensures left { I.table section_info.new ≡ (ask name.now (I.table section_info.old)).left }
{
    let range = section_info.section_svma_range(name);
    let bytes = section_info.section_data(name);
    let base_svma = section_info.base_svma();
    let Some(range) = range else {
        return None;
    };
    let Some(bytes) = bytes else {
        return None;
    };
    match relative_range(base_svma, &range) {
        Some(rva_range) => Some(DataAtRvaRange { bytes, rva_range }),
        None => None,
    }
}

// the data under the first name, or else under the second
fn data_under<D, I: ModuleSectionInfo<D>>(
    section_info: &mut I,
    first: &[u8],
    second: &[u8],
) -> Option<D>
    ensures found { result ≡ (ask_either first.now second.now (I.table section_info.old)).found }
    ensures left { I.table section_info.new ≡ (ask_either first.now second.now (I.table section_info.old)).left }
{
    match section_info.section_data(first) {
        Some(found) => Some(found),
        None => section_info.section_data(second),
    }
}
