//! The sections of a module, as C passes them.
ghost use Rattle.std.specs.Prelude.{◌≡◌};
ghost use Rattle.framehop_c.specs.Sections.{range_in, bytes_in, table_in};
ghost use Rattle.framehop_c.specs.NamedSections.{named_table};

use framehop::{ExplicitModuleSectionInfo, ModuleSectionInfo};
use std::ops::Range;

/// Where a section or a segment lies, from `svma_start` to below `svma_end`, if that is known, and
/// its bytes, if they are at hand.
#[repr(C)]
#[derive(Clone, Copy)]
pub struct FramehopSection {
    pub svma_start: u64,
    pub svma_end: u64,
    pub bytes: &'static [u8],
    pub has_range: bool,
    pub has_bytes: bool,
}

impl FramehopSection {
    /// Returns the addresses (SVMAs), if they are known.
    fn range(&self) -> Option<Range<u64>>
        ensures { result ≡ range_in self.now }
    {
        if self.has_range {
            Some(self.svma_start..self.svma_end)
        } else {
            None
        }
    }

    /// Returns the bytes, if they are at hand.
    fn bytes(&self) -> Option<&'static [u8]>
        ensures { result ≡ bytes_in self.now }
    {
        if self.has_bytes {
            Some(self.bytes)
        } else {
            None
        }
    }
}

/// The sections and segments of a module, in an ELF, a Mach-O or a PE file.
#[repr(C)]
pub struct FramehopSections {
    pub base_svma: u64,
    pub text: FramehopSection,
    pub stubs: FramehopSection,
    pub stub_helper: FramehopSection,
    pub got: FramehopSection,
    pub unwind_info: FramehopSection,
    pub eh_frame: FramehopSection,
    pub eh_frame_hdr: FramehopSection,
    pub debug_frame: FramehopSection,
    pub text_segment: FramehopSection,
    pub pdata: FramehopSection,
    pub rdata: FramehopSection,
    pub xdata: FramehopSection,
}

/// The sections of a module by name, those of PE files among them. Bytes that are asked for are
/// taken out.
#[derive(Drop)]
pub struct NamedSections {
    others: ExplicitModuleSectionInfo<&'static [u8]>,
    pdata: Option<&'static [u8]>,
    rdata_svma: Option<Range<u64>>,
    rdata: Option<&'static [u8]>,
    xdata_svma: Option<Range<u64>>,
    xdata: Option<&'static [u8]>,
}

/// Returns a copy of a range.
fn copy_of(range: &Option<Range<u64>>) -> Option<Range<u64>>
    ensures { result ≡ range.now }
{
    match range {
        Some(range) => Some(range.start..range.end),
        None => None,
    }
}

impl ModuleSectionInfo<&'static [u8]> for NamedSections {
    ghost table = { named_table };

    fn base_svma(&self) -> u64 {
        self.others.base_svma
    }

    fn section_svma_range(&mut self, name: &[u8]) -> Option<Range<u64>> {
        if name == b".pdata".as_slice() {
            None
        } else if name == b".rdata".as_slice() {
            copy_of(&self.rdata_svma)
        } else if name == b".xdata".as_slice() {
            copy_of(&self.xdata_svma)
        } else {
            self.others.section_svma_range(name)
        }
    }

    fn section_data(&mut self, name: &[u8]) -> Option<&'static [u8]> {
        if name == b".pdata".as_slice() {
            self.pdata.take()
        } else if name == b".rdata".as_slice() {
            self.rdata.take()
        } else if name == b".xdata".as_slice() {
            self.xdata.take()
        } else {
            self.others.section_data(name)
        }
    }

    fn segment_svma_range(&mut self, name: &[u8]) -> Option<Range<u64>> {
        self.others.segment_svma_range(name)
    }

    fn segment_data(&mut self, name: &[u8]) -> Option<&'static [u8]> {
        self.others.segment_data(name)
    }
}

impl FramehopSections {
    /// Returns the sections by name.
    pub fn named(&self) -> NamedSections
        ensures { named_table result ≡ table_in self.now }
    {
        NamedSections {
            others: ExplicitModuleSectionInfo {
                base_svma: self.base_svma,
                text_svma: self.text.range(),
                text: self.text.bytes(),
                stubs_svma: self.stubs.range(),
                stub_helper_svma: self.stub_helper.range(),
                got_svma: self.got.range(),
                unwind_info: self.unwind_info.bytes(),
                eh_frame_svma: self.eh_frame.range(),
                eh_frame: self.eh_frame.bytes(),
                eh_frame_hdr_svma: self.eh_frame_hdr.range(),
                eh_frame_hdr: self.eh_frame_hdr.bytes(),
                debug_frame: self.debug_frame.bytes(),
                text_segment_svma: self.text_segment.range(),
                text_segment: self.text_segment.bytes(),
            },
            pdata: self.pdata.bytes(),
            rdata_svma: self.rdata.range(),
            rdata: self.rdata.bytes(),
            xdata_svma: self.xdata.range(),
            xdata: self.xdata.bytes(),
        }
    }
}
