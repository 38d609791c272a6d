//! Why a minidump can't be read.
ghost use Rattle.std.specs.Prelude.{◌≡◌};

use std::alloc::AllocError;
use thiserror::Error;

/// Why a minidump, or a part of it, can't be read. Each offset is in bytes from the start of the file.
#[derive(Clone, Copy, Debug, PartialEq, Eq, Error)]
pub enum MinidumpError {
    /// The file ends before what is to be read from the offset on.
    #[error("the file ends before what is to be read at offset {offset}")]
    Eof { offset: u64 },
    /// The file does not begin with the signature.
    #[error("not a minidump: offset {offset}")]
    NotAMinidump { offset: u64 },
    /// The file's version is not MINIDUMP_VERSION.
    #[error("a minidump of an unknown version: offset {offset}")]
    UnknownVersion { offset: u64 },
    /// No stream says of which machine the process was. The offset is that of the number of streams.
    #[error("a minidump without system information: offset {offset}")]
    NoSystemInfo { offset: u64 },
    /// The system information at the offset names a machine other than x86_64 and aarch64.
    #[error("a minidump of an unknown machine: offset {offset}")]
    UnknownMachine { offset: u64 },
    /// The stream at the offset ends before its fields do.
    #[error("the stream at offset {offset} ends before its fields do")]
    ShortStream { offset: u64 },
    /// The list at the offset has another size than its entries.
    #[error("a list of a wrong size at offset {offset}")]
    BadListSize { offset: u64 },
    /// The range of memory whose bytes begin at the offset ends at an offset that does not fit 64 bits.
    #[error("memory beyond the last offset: its bytes begin at offset {offset}")]
    OffsetTooBig { offset: u64 },
    /// The string at the offset has an odd number of bytes.
    #[error("a string of an odd number of bytes at offset {offset}")]
    OddString { offset: u64 },
    /// The CodeView record at the offset ends before its fields do.
    #[error("the CodeView record at offset {offset} ends before its fields do")]
    ShortCodeView { offset: u64 },
    /// No thread is listed.
    #[error("a minidump without threads")]
    NoThreads,
    /// The names and the build ids up to this one, at the offset, have more bytes than the file may have: they share some.
    #[error("names that share bytes: offset {offset}")]
    SharedNames { offset: u64 },
    /// The first bytes of the modules in memory tell of more program headers and notes, together, than the file has bytes:
    /// modules share some.
    #[error("modules whose first bytes share program headers or notes")]
    SharedHeaders,
    /// An allocation failed.
    #[error("out of memory")]
    OutOfMemory,
}

impl From<AllocError> for MinidumpError {
    ghost use Rattle.framehop_dump_files.specs.declared.minidump.error.MinidumpError.{MinidumpError};

    ghost from_gives = { λ value error. error ≡ MinidumpError.OutOfMemory };

    fn from(_value: AllocError) -> Self {
        MinidumpError::OutOfMemory
    }
}
