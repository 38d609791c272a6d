//! A PE file with its sections.
ghost use Rattle.std.specs.Prelude.{◌≡◌, ◌⊎◌, Ok, Err, MatchResult};
ghost use Rattle.framehop_object.specs.Pe.PeFile.{pe_file_of};

use crate::pe::error::PeError;
use crate::pe::header::{FileHeader, read_file_header};
use crate::pe::section_header::{SectionHeader, read_section_headers};
use std::alloc::Global;
use std::marker::Model;

/// A PE file with its sections.
#[derive(Drop)]
pub struct PeFile<'a> {
    bytes: &'a [u8],
    header: FileHeader,
    sections: Vec<SectionHeader>,
}

impl<'a> Model for PeFile<'a> {
    ghost use Rattle.framehop_object.specs.Pe.PeFile.{PeFile};

    ghost Value = { PeFile };

    ghost view = { λ pe. record { bytes = pe.bytes.now; header = pe.header; sections = pe.sections.items } };
}

impl<'a> PeFile<'a> {
    /// Reads the headers of a file, and those of its sections.
    ///
    /// # Errors
    ///
    /// The first of those of [`read_file_header`] and [`read_section_headers`].
    #[tactic(auto, unfolding(crate::specs::Pe::PeFile::pe_file_of))]
    pub fn read(alloc: Global, bytes: &'a [u8]) -> Result<Self, PeError>
        ensures { MatchResult result
            (λ pe. pe_file_of bytes.entry.now ≡ Ok pe)
            (λ error. (error ≡ PeError.OutOfMemory) ⊎ (pe_file_of bytes.entry.now ≡ Err error)) }
    {
        let header = read_file_header(bytes)?;
        let sections = read_section_headers(alloc, bytes, header)?;
        Ok(PeFile {
            bytes,
            header,
            sections,
        })
    }

    /// Returns the bytes of the whole file.
    pub fn bytes(&self) -> &'a [u8]
        ensures { result.now ≡ self.now.bytes }
    {
        self.bytes
    }

    /// Returns the headers of the file.
    pub fn header(&self) -> FileHeader
        ensures { result ≡ self.now.header }
    {
        self.header
    }

    /// Returns the section headers.
    pub fn sections(&self) -> &[SectionHeader]
        ensures { result.now ≡ self.now.sections }
    {
        self.sections.as_slice()
    }
}
