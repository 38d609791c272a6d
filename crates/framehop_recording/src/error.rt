//! Why a recording can't be read.
ghost use Rattle.std.specs.Prelude.{◌≡◌};

use std::alloc::{AllocError, AllocFailed};
use thiserror::Error;

/// Why a recording, or a record of it, can't be read. Each offset is in bytes from the start of the
/// file.
#[derive(Clone, Copy, Debug, Error)]
pub enum RecordingError {
    /// The file ends before what is to be read at the offset.
    #[error("the file ends before what is to be read at offset {offset}")]
    Eof { offset: u64 },
    /// The file does not begin as a recording does.
    #[error("not a recording of perf: offset {offset}")]
    NotARecording { offset: u64 },
    /// The recording is of a big-endian machine.
    #[error("a big-endian recording: offset {offset}")]
    BigEndian { offset: u64 },
    /// The header is that of a pipe, to which `perf record` wrote.
    #[error("the header of a pipe: offset {offset}; perf inject --itrace -i FILE -o OTHER, or perf record -o FILE, makes a file that can be read")]
    Piped { offset: u64 },
    /// The header has another size than that of a file.
    #[error("a header of an unknown size: offset {offset}")]
    BadHeaderSize { offset: u64 },
    /// The recording was not finished: `perf record` was ended before it wrote how many bytes of
    /// records there are.
    #[error("an unfinished recording: offset {offset}")]
    Unfinished { offset: u64 },
    /// The attribute of an event is too short to have user registers and a user stack.
    #[error("an attribute without user registers: offset {offset}")]
    ShortAttribute { offset: u64 },
    /// The size that the attribute of an event has is not that of the header's entries, so that its ids
    /// are not where these have them.
    #[error("an attribute of another size: offset {offset}")]
    BadAttributeSize { offset: u64 },
    /// There are several events, and not each has ids at the place where the first has them.
    #[error("several events whose records can't be told apart: offset {offset}")]
    MixedIds { offset: u64 },
    /// The ids of the events take more bytes than the file has, so that some are shared.
    #[error("events that share ids: offset {offset}")]
    SharedIds { offset: u64 },
    /// The size of a record is less than that of what each record of its kind begins with.
    #[error("a record of a wrong size at offset {offset}")]
    BadRecordSize { offset: u64 },
    /// The record at the offset has compressed records in it.
    #[error("compressed records at offset {offset}; perf record without -z makes a file that can be read")]
    Compressed { offset: u64 },
    /// The record at the offset is of another kind than the one that is to be read.
    #[error("a record of another kind at offset {offset}")]
    OtherKind { offset: u64 },
    /// The record at the offset ends before its fields do.
    #[error("the record at offset {offset} ends before its fields do")]
    ShortRecord { offset: u64 },
    /// The samples of the event have no instruction pointer or no thread.
    #[error("a sample without instruction pointer or thread at offset {offset}")]
    NoThread { offset: u64 },
    /// The samples of the event have no user registers or no user stack.
    #[error("a sample without user registers and stack at offset {offset}")]
    NoUserStack { offset: u64 },
    /// The samples of the event have a field before the registers that is not read: counter values,
    /// raw data or a branch stack.
    #[error("a sample with counter values, raw data or branches at offset {offset}")]
    UnsupportedField { offset: u64 },
    /// The samples of the event have no call chain.
    #[error("a sample without a call chain at offset {offset}")]
    NoCallChain { offset: u64 },
    /// The sample was taken where there were no user registers, as in a kernel thread.
    #[error("a sample of no user process at offset {offset}")]
    NoUserRegisters { offset: u64 },
    /// The sample is of a 32-bit process.
    #[error("a sample of a 32-bit process at offset {offset}")]
    Process32Bit { offset: u64 },
    /// The sample names an ABI of registers that is not known.
    #[error("a sample with registers of an unknown ABI at offset {offset}")]
    UnknownAbi { offset: u64 },
    /// An allocation failed.
    #[error("out of memory")]
    OutOfMemory,
}

impl From<AllocError> for RecordingError {
    ghost use Rattle.framehop_recording.specs.declared.error.RecordingError.{RecordingError};

    ghost from_gives = { λ value error. error ≡ RecordingError.OutOfMemory };

    fn from(_value: AllocError) -> Self {
        RecordingError::OutOfMemory
    }
}

impl<T: Drop> From<AllocFailed<T>> for RecordingError {
    ghost use Rattle.framehop_recording.specs.declared.error.RecordingError.{RecordingError};

    ghost from_gives = { λ value error. error ≡ RecordingError.OutOfMemory };

    fn from(_value: AllocFailed<T>) -> Self {
        RecordingError::OutOfMemory
    }
}
