//! Sections of a file whose bytes are shared.
ghost use Rattle.std.specs.Prelude.{◌≡◌, Ok, MatchResult};
ghost use Rattle.framehop_object.specs.Elf.Block.{IsErrorOf};
ghost use Rattle.framehop_object.specs.Elf.Section.{contents_of};
ghost use Rattle.framehop_object.specs.Elf.FileSection.{section_bytes};

use crate::elf::error::ElfError;
use crate::elf::section::{read_contents, size_in_file};
use crate::elf::section_header::SectionHeader;
use framehop_bytes::bytes::{back, front};
use framehop_bytes::section::SectionBytes;
use std::rc::Rc;

/// What a section of a file holds. Many sections share the bytes of one file.
#[derive(Drop)]
pub(crate) struct FileSection {
    /// The bytes of the whole file.
    pub file: Rc<Vec<u8>>,
    /// Where the section begins in the file, in bytes.
    pub start: u64,
    /// Its size in the file, in bytes.
    pub size: u64,
}

impl SectionBytes for FileSection {
    ghost contents = { section_bytes };

    fn bytes(&self) -> &[u8] {
        let file: &Vec<u8> = &self.file;
        front(back(file.as_slice(), self.start), self.size as usize)
    }
}

impl FileSection {
    /// Returns what a section of a file holds.
    ///
    /// # Errors
    ///
    /// Those of `read_contents`, and `OutOfMemory`.
    pub fn new(file: &Rc<Vec<u8>>, section: SectionHeader) -> Result<Self, ElfError>
        ensures { MatchResult result
            (λ part. contents_of file.now.value.items section ≡ Ok (section_bytes part))
            (λ error. IsErrorOf (contents_of file.now.value.items section) error) }
    {
        let bytes: &Vec<u8> = file;
        let _contents = read_contents(bytes.as_slice(), section)?;
        let start = section.sh_offset;
        let size = size_in_file(section);
        let file = file.clone()?;
        Ok(FileSection { file, start, size })
    }
}
