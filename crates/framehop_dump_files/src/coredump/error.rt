//! Why a core file can't be read.
ghost use Rattle.std.specs.Prelude.{◌≡◌};

use framehop_object::elf::error::ElfError;
use std::alloc::AllocError;
use thiserror::Error;

/// Why a core file, or a note of it, can't be read. Each offset is in bytes from the start of the file.
#[derive(Clone, Copy, Debug, Error)]
pub enum CoreFileError {
    /// The ELF header or the program headers can't be read, or the file ends before a segment of notes
    /// does.
    #[error("{0}")]
    Elf(ElfError),
    /// The file is an ELF file, but no core file: its type is not ET_CORE.
    #[error("not a core file: offset {offset}")]
    NotACore { offset: u64 },
    /// The core file is of a machine other than x86_64 and aarch64.
    #[error("a core file of an unknown machine: offset {offset}")]
    UnknownMachine { offset: u64 },
    /// The segment ends before the note at the offset does.
    #[error("the note at offset {offset} ends after its segment")]
    NoteBeyondSegment { offset: u64 },
    /// The segment of notes at the offset, with those before it, has more bytes than the file: they share
    /// some.
    #[error("segments of notes that share bytes: offset {offset}")]
    SharedNotes { offset: u64 },
    /// The note at the offset has another size than those of its type and of this machine.
    #[error("a note of a wrong size at offset {offset}")]
    BadNoteSize { offset: u64 },
    /// The note at the offset ends before its fields do.
    #[error("the note at offset {offset} ends before its fields do")]
    ShortNote { offset: u64 },
    /// The note at the offset has a file mapped from an offset on that does not fit 64 bits.
    #[error("a file mapped beyond the last offset: the note at offset {offset}")]
    OffsetTooBig { offset: u64 },
    /// The note at the offset is of FreeBSD.
    #[error("a core file of FreeBSD: the note at offset {offset}; only those of Linux are read")]
    OfFreeBsd { offset: u64 },
    /// The note at the offset is of NetBSD.
    #[error("a core file of NetBSD: the note at offset {offset}; only those of Linux are read")]
    OfNetBsd { offset: u64 },
    /// The note at the offset is of OpenBSD.
    #[error("a core file of OpenBSD: the note at offset {offset}; only those of Linux are read")]
    OfOpenBsd { offset: u64 },
    /// The first bytes of the mapped files tell of more program headers and notes, together, than the core file has bytes:
    /// files share some.
    #[error("mapped files whose first bytes share program headers or notes")]
    SharedHeaders,
    /// The core file has no note of a thread.
    #[error("a core file without threads")]
    NoThreads,
    /// An allocation failed.
    #[error("out of memory")]
    OutOfMemory,
}

impl From<ElfError> for CoreFileError {
    ghost use Rattle.framehop_dump_files.specs.Coredump.Refusal.{of_elf};

    ghost from_gives = { λ value error. error ≡ of_elf value };

    fn from(value: ElfError) -> Self {
        match value {
            ElfError::OutOfMemory => CoreFileError::OutOfMemory,
            refusal => CoreFileError::Elf(refusal),
        }
    }
}

impl From<AllocError> for CoreFileError {
    ghost use Rattle.framehop_dump_files.specs.declared.coredump.error.CoreFileError.{CoreFileError};

    ghost from_gives = { λ value error. error ≡ CoreFileError.OutOfMemory };

    fn from(_value: AllocError) -> Self {
        CoreFileError::OutOfMemory
    }
}
