//! Section tables for the tests.
ghost use Rattle.std.specs.Prelude.{◌≡◌, [], ◌∷◌, None, codes};
ghost use Rattle.framehop_bytes.specs.ExplicitSections.{under};

use framehop_bytes::section::ModuleSectionInfo;
use std::ops::Range;

/// A module that tells of no section.
#[derive(Drop)]
pub struct NoSections {
    pub base_svma: u64,
}

impl ModuleSectionInfo<Vec<u8>> for NoSections {
    ghost table = { λ s. record { base_svma = s.base_svma; sections = []; segments = [] } };

    fn base_svma(&self) -> u64 {
        self.base_svma
    }

    fn section_svma_range(&mut self, _name: &[u8]) -> Option<Range<u64>> {
        None
    }

    fn section_data(&mut self, _name: &[u8]) -> Option<Vec<u8>> {
        None
    }

    fn segment_svma_range(&mut self, _name: &[u8]) -> Option<Range<u64>> {
        None
    }

    fn segment_data(&mut self, _name: &[u8]) -> Option<Vec<u8>> {
        None
    }
}

/// The sections of a PE module. The base is 0.
#[derive(Drop)]
pub struct ExplicitPeSections {
    pub pdata: Option<&'static [u8]>,
    pub rdata_svma: Option<Range<u64>>,
    pub rdata: Option<&'static [u8]>,
    pub xdata_svma: Option<Range<u64>>,
    pub xdata: Option<&'static [u8]>,
    pub text_svma: Option<Range<u64>>,
    pub text: Option<&'static [u8]>,
}

impl ModuleSectionInfo<&'static [u8]> for ExplicitPeSections {
    ghost table = { λ s. record {
      base_svma = 0;
      sections =
          under (codes ".pdata" ∷ []) None s.pdata
          ∷ under (codes ".rdata" ∷ []) s.rdata_svma s.rdata
          ∷ under (codes ".xdata" ∷ []) s.xdata_svma s.xdata
          ∷ under (codes ".text" ∷ []) s.text_svma s.text
          ∷ [];
      segments = [];
    } };

    fn base_svma(&self) -> u64 {
        0
    }

    fn section_svma_range(&mut self, name: &[u8]) -> Option<Range<u64>> {
        if name == b".rdata".as_slice() {
            copy_of(&self.rdata_svma)
        } else if name == b".xdata".as_slice() {
            copy_of(&self.xdata_svma)
        } else if name == b".text".as_slice() {
            copy_of(&self.text_svma)
        } else {
            None
        }
    }

    fn section_data(&mut self, name: &[u8]) -> Option<&'static [u8]> {
        if name == b".pdata".as_slice() {
            self.pdata.take()
        } else if name == b".rdata".as_slice() {
            self.rdata.take()
        } else if name == b".xdata".as_slice() {
            self.xdata.take()
        } else if name == b".text".as_slice() {
            self.text.take()
        } else {
            None
        }
    }

    fn segment_svma_range(&mut self, _name: &[u8]) -> Option<Range<u64>> {
        None
    }

    fn segment_data(&mut self, _name: &[u8]) -> Option<&'static [u8]> {
        None
    }
}

// a copy of a range
fn copy_of(range: &Option<Range<u64>>) -> Option<Range<u64>>
    ensures { result ≡ range.now }
{
    match range {
        Some(range) => Some(range.start..range.end),
        None => None,
    }
}
