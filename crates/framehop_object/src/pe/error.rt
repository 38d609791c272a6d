//! Why a PE file can't be read.
ghost use Rattle.std.specs.Prelude.{◌≡◌, Some};
ghost use Rattle.framehop_object.specs.Pe.ErrorText.{pe_error_text};

use std::alloc::AllocError;
use std::{error, fmt};

/// Why a PE file, or a part of it, can't be read. Each offset is in bytes from the start of the file.
#[derive(Clone, Copy, Debug, PartialEq, Eq)]
pub enum PeError {
    /// The file ends before what is to be read from the offset on.
    Eof { offset: u64 },
    /// The file does not begin with "MZ", or "PE" and two zeros are not where its header says.
    NotPe { offset: u64 },
    /// The magic number of the optional header is not that of PE32+.
    NotPe32Plus { offset: u64 },
    /// The optional header, whose size is at the offset, ends before the data directories.
    ShortOptionalHeader { offset: u64 },
    /// No section has the bytes from the RVA on in the file.
    NotInSection { rva: u32 },
    /// An allocation failed.
    OutOfMemory,
}

impl fmt::Display for PeError {
    ghost output = { λ e. Some (pe_error_text e) };

    #[tactic(auto, unfolding(crate::specs::Pe::ErrorText::pe_error_text))]
    fn fmt<W: fmt::Write>(&self, f: &mut fmt::Formatter<W>) -> fmt::Result {
        match self {
            PeError::Eof { offset } => write!(
                f,
                "the file ends before what is to be read at offset {offset}"
            ),
            PeError::NotPe { offset } => write!(f, "not a PE file: offset {offset}"),
            PeError::NotPe32Plus { offset } => write!(f, "not a 64-bit PE file: offset {offset}"),
            PeError::ShortOptionalHeader { offset } => write!(
                f,
                "an optional header of an unknown size: offset {offset}"
            ),
            PeError::NotInSection { rva } => {
                write!(f, "no section has the bytes at the RVA {rva}")
            }
            PeError::OutOfMemory => write!(f, "out of memory"),
        }
    }
}

impl error::Error for PeError {}

impl From<AllocError> for PeError {
    ghost use Rattle.framehop_object.specs.declared.pe.error.PeError.{PeError};

    ghost from_gives = { λ value error. error ≡ PeError.OutOfMemory };

    fn from(_value: AllocError) -> Self {
        PeError::OutOfMemory
    }
}
