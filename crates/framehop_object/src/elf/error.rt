//! Why an ELF file can't be read.
ghost use Rattle.std.specs.Prelude.{◌≡◌, Some};
ghost use Rattle.framehop_object.specs.Elf.ErrorText.{elf_error_text};

use std::alloc::{AllocError, AllocFailed};
use std::{error, fmt};

/// Why an ELF file, or a table of it, can't be read. Each offset is in bytes from the start of the
/// file.
#[derive(Clone, Copy, Debug, PartialEq, Eq)]
pub enum ElfError {
    /// The file ends before what is to be read from the offset on.
    Eof { offset: u64 },
    /// The file does not begin with the magic number.
    NotElf { offset: u64 },
    /// The file's class is not ELFCLASS64.
    NotClass64 { offset: u64 },
    /// The file's encoding is not ELFDATA2LSB.
    NotLittleEndian { offset: u64 },
    /// The file's version is not EV_CURRENT.
    UnknownVersion { offset: u64 },
    /// The entries of a table have another size than the format's. The offset is that of the field of
    /// the ELF header, or of the symbol table.
    BadEntrySize { offset: u64 },
    /// The field of the ELF header at the offset, or the symbol table at the offset, asks for a section
    /// that is not there.
    NoSuchSection { offset: u64 },
    /// The section whose contents begin at the offset is compressed.
    Compressed { offset: u64 },
    /// An allocation failed.
    OutOfMemory,
}

impl fmt::Display for ElfError {
    ghost output = { λ e. Some (elf_error_text e) };

    #[tactic(auto, unfolding(crate::specs::Elf::ErrorText::elf_error_text))]
    fn fmt<W: fmt::Write>(&self, f: &mut fmt::Formatter<W>) -> fmt::Result {
        match self {
            ElfError::Eof { offset } => write!(
                f,
                "the file ends before what is to be read at offset {offset}"
            ),
            ElfError::NotElf { offset } => write!(f, "not an ELF file: offset {offset}"),
            ElfError::NotClass64 { offset } => write!(f, "not a 64-bit ELF file: offset {offset}"),
            ElfError::NotLittleEndian { offset } => {
                write!(f, "not a little-endian ELF file: offset {offset}")
            }
            ElfError::UnknownVersion { offset } => {
                write!(f, "an unknown version of ELF: offset {offset}")
            }
            ElfError::BadEntrySize { offset } => {
                write!(f, "entries of an unknown size: offset {offset}")
            }
            ElfError::NoSuchSection { offset } => write!(f, "no such section: offset {offset}"),
            ElfError::Compressed { offset } => {
                write!(f, "a compressed section at offset {offset}")
            }
            ElfError::OutOfMemory => write!(f, "out of memory"),
        }
    }
}

impl error::Error for ElfError {}

impl From<AllocError> for ElfError {
    ghost use Rattle.framehop_object.specs.declared.elf.error.ElfError.{ElfError};

    ghost from_gives = { λ value error. error ≡ ElfError.OutOfMemory };

    fn from(_value: AllocError) -> Self {
        ElfError::OutOfMemory
    }
}

impl<T: Drop> From<AllocFailed<T>> for ElfError {
    ghost use Rattle.framehop_object.specs.declared.elf.error.ElfError.{ElfError};

    ghost from_gives = { λ value error. error ≡ ElfError.OutOfMemory };

    fn from(_value: AllocFailed<T>) -> Self {
        ElfError::OutOfMemory
    }
}
