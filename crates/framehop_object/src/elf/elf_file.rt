//! An ELF file with its sections and their names.
ghost use Rattle.std.specs.Prelude.{◌≡◌, ◌==◌, ◌⊎◌, Ok, Err, MatchResult, nat_eq};
ghost use Rattle.std.specs.Cmp.Lexicographic.{pointwise};
ghost use Rattle.framehop_bytes.specs.String.{before_nul};
ghost use Rattle.framehop_object.specs.Elf.ElfFile.{elf_file_of, elf_file_with, first_called, section_called};
ghost use Rattle.framehop_object.specs.Elf.Section.{contents_of};

use crate::elf::error::ElfError;
use crate::elf::header::{FileHeader, read_file_header};
use crate::elf::section::{read_contents, read_section_names};
use crate::elf::section_header::{SectionHeader, read_section_headers};
use framehop_bytes::bytes::back;
use std::alloc::Global;
use std::marker::Model;

/// An ELF file with its sections and their names.
#[derive(Drop)]
pub struct ElfFile<'a> {
    bytes: &'a [u8],
    header: FileHeader,
    sections: Vec<SectionHeader>,
    names: &'a [u8],
}

impl<'a> Model for ElfFile<'a> {
    ghost use Rattle.framehop_object.specs.Elf.ElfFile.{ElfFile};

    ghost Value = { ElfFile };

    ghost view = { λ elf. record { bytes = elf.bytes.now; header = elf.header; sections = elf.sections.items; names = elf.names.now } };
}

impl<'a> ElfFile<'a> {
    /// Reads the header of a file, its section headers, and their names.
    ///
    /// # Errors
    ///
    /// The first of those of [`read_file_header`], [`read_section_headers`] and [`read_section_names`].
    #[tactic(auto, unfolding(crate::specs::Elf::ElfFile::elf_file_of))]
    pub fn read(alloc: Global, bytes: &'a [u8]) -> Result<Self, ElfError>
        ensures { MatchResult result
            (λ elf. elf_file_of bytes.entry.now ≡ Ok elf)
            (λ error. (error ≡ ElfError.OutOfMemory) ⊎ (elf_file_of bytes.entry.now ≡ Err error)) }
    {
        let header = read_file_header(bytes)?;
        ElfFile::with_header(alloc, bytes, header)
    }

    /// Reads the section headers of a file, whose header this is, and their names.
    ///
    /// # Errors
    ///
    /// The first of those of [`read_section_headers`] and [`read_section_names`].
    #[tactic(auto, unfolding(crate::specs::Elf::ElfFile::elf_file_with))]
    pub fn with_header(alloc: Global, bytes: &'a [u8], header: FileHeader) -> Result<Self, ElfError>
        ensures { MatchResult result
            (λ elf. elf_file_with bytes.entry.now header ≡ Ok elf)
            (λ error. (error ≡ ElfError.OutOfMemory) ⊎ (elf_file_with bytes.entry.now header ≡ Err error)) }
    {
        let sections = read_section_headers(alloc, bytes, header)?;
        let names = read_section_names(bytes, header, sections.as_slice())?;
        Ok(ElfFile {
            bytes,
            header,
            sections,
            names,
        })
    }

    /// Returns the bytes of the whole file.
    pub fn bytes(&self) -> &'a [u8]
        ensures { result.now ≡ self.now.bytes }
    {
        self.bytes
    }

    /// Returns the header of the file.
    pub fn header(&self) -> FileHeader
        ensures { result ≡ self.now.header }
    {
        self.header
    }

    /// Returns the section headers.
    pub fn sections(&self) -> &[SectionHeader]
        ensures { result.now ≡ self.now.sections }
    {
        self.sections.as_slice()
    }

    /// Returns the string table that has the names of the sections, without bytes where they have none.
    pub fn names(&self) -> &'a [u8]
        ensures { result.now ≡ self.now.names }
    {
        self.names
    }

    /// Returns the first section of a name.
    pub fn section(&self, name: &[u8]) -> Option<SectionHeader>
        ensures { result ≡ section_called self.now name.now }
    {
        first_called(self.sections.as_slice(), self.names, name)
    }

    /// Returns what a section of the file holds, as [`read_contents`] does.
    ///
    /// # Errors
    ///
    /// Those of [`read_contents`].
    pub fn contents(&self, section: SectionHeader) -> Result<&'a [u8], ElfError>
        ensures { MatchResult result
            (λ contents. contents_of self.now.bytes section ≡ Ok contents.now)
            (λ error. contents_of self.now.bytes section ≡ Err error) }
    {
        read_contents(self.bytes, section)
    }
}

/// Returns the first section of a name, by the names of the sections.
fn first_called(sections: &[SectionHeader], names: &[u8], name: &[u8]) -> Option<SectionHeader>
    ensures { result ≡ first_called sections.now names.now name.now }
{
    sections
        .iter()
        .find(|section| is_string(back(names, u64::from(section.sh_name)), name))
        .copied()
}

/// Returns whether the string at the front of bytes, which ends before the first 0 or with the bytes, is a name. It is
/// read no further than one byte after the length of the name: so a table without a 0 is not read to its end for
/// each section.
fn is_string(bytes: &[u8], name: &[u8]) -> bool
    ensures { result ≡ pointwise nat_eq (before_nul bytes.now) name.now }
{
    for index in 0..name.len() {
        if index >= bytes.len() || bytes[index] != name[index] || bytes[index] == 0 {
            return false;
        }
    }
    match bytes.get(name.len()) {
        Some(after) => *after == 0,
        None => true,
    }
}
