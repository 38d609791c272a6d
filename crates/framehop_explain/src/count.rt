//! How much unwind data a module has.
ghost use Rattle.std.specs.Prelude.{◌≡◌, codes, Some};
ghost use Rattle.std.specs.Fmt.{WritesOnOk};
ghost use Rattle.framehop_cfi.specs.Header.{layout_of};
ghost use Rattle.framehop_dwarf.specs.Unwinder.{header_bases};
ghost use Rattle.framehop_macho.specs.UnwindInfo.{shared_lists_of};
ghost use Rattle.framehop_explain.specs.DataText.{count_text, counted_text};
ghost use Rattle.framehop_explain.specs.Count.{rows_in, pages_in, IsFramesCount, IsCountOf};

use crate::reason::{CompactReadReason, ReadReason};
use framehop::Module;
use framehop::unwind_data::{IndexedFrames, ModuleUnwindDataInternal};
use framehop_bytes::section::SectionBytes;
use framehop_cfi::header::TableLayout;
use framehop_cfi::pointer::BaseAddresses;
use framehop_cfi::read_error::ReadError;
use framehop_dwarf::unwinder::header_bases;
use framehop_macho::unwind_info::error::CompactReadError;
use framehop_macho::unwind_info::info::UnwindInfo;
use std::fmt;

/// The size of an entry of the index of `__unwind_info`, in bytes (Apple, mach-o/compact_unwind_encoding.h, struct
/// unwind_info_section_header_index_entry).
const INDEX_ENTRY: usize = 12;

/// The size of an entry of `.pdata`, in bytes (Microsoft, "x64 exception handling", struct RUNTIME_FUNCTION).
const RUNTIME_FUNCTION: usize = 12;

/// How much unwind data a module has.
#[derive(Clone, Copy)]
pub(crate) enum UnwindDataCount {
    /// None that can be used.
    None,
    /// The FDEs of an index.
    Fdes(usize),
    /// The rows of the table of `.eh_frame_hdr`.
    Rows(usize),
    /// The table of `.eh_frame_hdr` can't be read.
    NoRows(ReadError),
    /// The functions of `.pdata`.
    Functions(usize),
    /// The pages of `__unwind_info`.
    Pages(usize),
    /// The index of `__unwind_info` can't be read.
    NoPages(CompactReadError),
}

impl UnwindDataCount {
    /// Returns how much unwind data a loaded module has.
    pub fn of<D: SectionBytes + Drop>(loaded: &Module<D>) -> Self
        ensures { IsCountOf loaded.now.unwind_data result }
    {
        match loaded.unwind_data() {
            ModuleUnwindDataInternal::None(_) => UnwindDataCount::None,
            ModuleUnwindDataInternal::EhFrameHdrAndEhFrame(frames) => {
                count_rows(frames.eh_frame_hdr.bytes(), &frames.base_addresses)
            }
            ModuleUnwindDataInternal::DwarfCfiIndexAndFrames(frames) => count_fdes(frames),
            ModuleUnwindDataInternal::PeUnwindInfo(info) => {
                UnwindDataCount::Functions(info.pdata.bytes().len() / RUNTIME_FUNCTION)
            }
            ModuleUnwindDataInternal::CompactUnwindInfoAndEhFrame(info) => {
                count_pages(info.unwind_info.bytes())
            }
        }
    }
}

/// Counts the rows of the table of `.eh_frame_hdr`.
fn count_rows(eh_frame_hdr: &[u8], base_addresses: &BaseAddresses) -> UnwindDataCount
    ensures { result ≡ rows_in (layout_of (header_bases base_addresses.now) eh_frame_hdr.now) }
{
    match TableLayout::parse(eh_frame_hdr, &header_bases(base_addresses)) {
        Ok(layout) => UnwindDataCount::Rows(layout.count()),
        Err(error) => UnwindDataCount::NoRows(error),
    }
}

/// Counts the FDEs of an index.
fn count_fdes<D: SectionBytes>(frames: &IndexedFrames<D>) -> UnwindDataCount
    ensures { IsFramesCount frames.now frames.now.header result }
{
    UnwindDataCount::Fdes(frames.index.len())
}

/// Counts the pages of `__unwind_info`: the last entry of its index is a sentinel.
fn count_pages(unwind_info: &[u8]) -> UnwindDataCount
    ensures { result ≡ pages_in (shared_lists_of unwind_info.now) }
{
    match UnwindInfo::parse(unwind_info) {
        Ok(info) => UnwindDataCount::Pages((info.index.len() / INDEX_ENTRY).saturating_sub(1)),
        Err(error) => UnwindDataCount::NoPages(error),
    }
}

impl fmt::Display for UnwindDataCount {
    ghost output = { λ count. Some (count_text count) };

    #[tactic(auto, unfolding(crate::specs::DataText::count_text))]
    fn fmt<W: fmt::Write>(&self, f: &mut fmt::Formatter<W>) -> fmt::Result {
        match *self {
            UnwindDataCount::None => write!(f, "none"),
            UnwindDataCount::Fdes(count) => write_counted(count, "FDE", f),
            UnwindDataCount::Rows(count) => write_counted(count, "row", f),
            UnwindDataCount::NoRows(error) => {
                let reason = ReadReason(error);
                write!(f, "whose table can't be read ({reason})")
            }
            UnwindDataCount::Functions(count) => write_counted(count, "function", f),
            UnwindDataCount::Pages(count) => write_counted(count, "page", f),
            UnwindDataCount::NoPages(error) => {
                let reason = CompactReadReason(error);
                write!(f, "whose index can't be read ({reason})")
            }
        }
    }
}

/// Writes how many things of a name there are.
#[tactic(auto, unfolding(crate::specs::DataText::counted_text))]
fn write_counted<W: fmt::Write>(count: usize, name: &str, f: &mut fmt::Formatter<W>) -> fmt::Result
    ensures { WritesOnOk W.write_str_gives f.old result (counted_text name.now count) f.new }
{
    if count == 1 {
        write!(f, "{count} {name}")
    } else {
        write!(f, "{count} {name}s")
    }
}
