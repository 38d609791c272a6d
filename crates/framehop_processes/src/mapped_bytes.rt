//! The bytes of the unwind sections of mapped files: copies of those of a file that was read, or lent by the memory of a
//! process.
ghost use Rattle.std.specs.Prelude.{◌≡◌, ℕ};
ghost use Rattle.std.specs.Global.{Global};
ghost use Rattle.std.specs.declared.vec.Vec.{Vec};
ghost use Rattle.framehop_object.specs.Elf.UnwindSections.{bytes_in, sections_view};
ghost use Rattle.framehop_object.specs.Pe.UnwindSections.{sections_view as pe_sections_view};
ghost use Rattle.framehop_processes.specs.MappedBytes.{contents_of, contents_in, mapped_sections_view};

use framehop_bytes::section::{ExplicitModuleSectionInfo, SectionBytes};
use framehop_object::pe::unwind_sections::PeUnwindSections;

/// The bytes of a section of a mapped file.
#[derive(Drop)]
pub enum MappedBytes<'m> {
    /// A copy of those of a file that was read.
    Kept(Vec<u8>),
    /// Those of a file that was not read, as the memory of the process has them.
    Lent(&'m [u8]),
}

impl SectionBytes for MappedBytes<'_> {
    ghost use Rattle.framehop_processes.specs.MappedBytes.{contents_of};

    ghost contents = { contents_of };

    fn bytes(&self) -> &[u8] {
        match self {
            MappedBytes::Kept(bytes) => bytes.as_slice(),
            MappedBytes::Lent(bytes) => *bytes,
        }
    }
}

/// Returns the sections of an ELF file, which are kept.
pub(crate) fn kept_sections<'m>(
    info: ExplicitModuleSectionInfo<Vec<u8>>,
) -> ExplicitModuleSectionInfo<MappedBytes<'m>>
    ensures { mapped_sections_view result ≡ sections_view info }
{
    ExplicitModuleSectionInfo {
        base_svma: info.base_svma,
        text_svma: info.text_svma,
        text: kept(info.text),
        stubs_svma: info.stubs_svma,
        stub_helper_svma: info.stub_helper_svma,
        got_svma: info.got_svma,
        unwind_info: kept(info.unwind_info),
        eh_frame_svma: info.eh_frame_svma,
        eh_frame: kept(info.eh_frame),
        eh_frame_hdr_svma: info.eh_frame_hdr_svma,
        eh_frame_hdr: kept(info.eh_frame_hdr),
        debug_frame: kept(info.debug_frame),
        text_segment_svma: info.text_segment_svma,
        text_segment: kept(info.text_segment),
    }
}

/// Returns the sections of a PE file, which are kept.
pub(crate) fn kept_pe_sections<'m>(
    info: PeUnwindSections<Vec<u8>>,
) -> PeUnwindSections<MappedBytes<'m>>
    ensures { pe_sections_view contents_of result ≡ pe_sections_view (λ (bytes : Vec ℕ Global). bytes.items) info }
{
    PeUnwindSections {
        base_svma: info.base_svma,
        pdata_svma: info.pdata_svma,
        pdata: kept(info.pdata),
        rdata_svma: info.rdata_svma,
        rdata: kept(info.rdata),
        xdata_svma: info.xdata_svma,
        xdata: kept(info.xdata),
        text_svma: info.text_svma,
        text: kept(info.text),
    }
}

/// Returns bytes that are kept, if there are some.
fn kept<'m>(bytes: Option<Vec<u8>>) -> Option<MappedBytes<'m>>
    ensures { contents_in result ≡ bytes_in bytes }
{
    match bytes {
        Some(bytes) => Some(MappedBytes::Kept(bytes)),
        None => None,
    }
}
