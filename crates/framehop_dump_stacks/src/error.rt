//! Why a core file or a minidump gives no stacks.
ghost use Rattle.std.specs.Prelude.{◌≡◌};

use framehop_dump_files::coredump::error::CoreFileError;
use framehop_dump_files::minidump::error::MinidumpError;
use framehop_processes::ProcessesError;
use std::alloc::AllocError;
use std::io;
use thiserror::Error;

/// Why a core file or a minidump gives no stacks.
#[derive(Clone, Copy, Debug, Error)]
pub enum DumpStacksError {
    /// The core file can't be read.
    #[error("{0}")]
    Core(CoreFileError),
    /// The minidump can't be read.
    #[error("{0}")]
    Minidump(MinidumpError),
    /// An allocation failed.
    #[error("out of memory")]
    OutOfMemory,
    /// The counter of generations is at its end.
    #[error("no generation is left")]
    GenerationsExhausted,
    /// A mapping has no address: none is made of code that has none.
    #[error("a mapping without an address")]
    EmptyMapping,
    /// A write failed.
    #[error("cannot write output")]
    CannotWrite,
}

impl From<CoreFileError> for DumpStacksError {
    ghost use Rattle.framehop_dump_stacks.specs.Refusal.{of_core_file};

    ghost from_gives = { λ value error. error ≡ of_core_file value };

    fn from(value: CoreFileError) -> Self {
        match value {
            CoreFileError::OutOfMemory => DumpStacksError::OutOfMemory,
            refusal => DumpStacksError::Core(refusal),
        }
    }
}

impl From<MinidumpError> for DumpStacksError {
    ghost use Rattle.framehop_dump_stacks.specs.Refusal.{of_minidump};

    ghost from_gives = { λ value error. error ≡ of_minidump value };

    fn from(value: MinidumpError) -> Self {
        match value {
            MinidumpError::OutOfMemory => DumpStacksError::OutOfMemory,
            refusal => DumpStacksError::Minidump(refusal),
        }
    }
}

impl From<ProcessesError> for DumpStacksError {
    ghost use Rattle.framehop_dump_stacks.specs.Refusal.{of_processes};

    ghost from_gives = { λ value error. error ≡ of_processes value };

    fn from(value: ProcessesError) -> Self {
        match value {
            ProcessesError::OutOfMemory => DumpStacksError::OutOfMemory,
            ProcessesError::GenerationsExhausted => DumpStacksError::GenerationsExhausted,
            ProcessesError::EmptyMapping => DumpStacksError::EmptyMapping,
        }
    }
}

impl From<AllocError> for DumpStacksError {
    ghost use Rattle.framehop_dump_stacks.specs.declared.error.DumpStacksError.{DumpStacksError};

    ghost from_gives = { λ value error. error ≡ DumpStacksError.OutOfMemory };

    fn from(_value: AllocError) -> Self {
        DumpStacksError::OutOfMemory
    }
}

impl From<io::Error> for DumpStacksError {
    ghost use Rattle.framehop_dump_stacks.specs.declared.error.DumpStacksError.{DumpStacksError};

    ghost from_gives = { λ value error. error ≡ DumpStacksError.CannotWrite };

    fn from(_value: io::Error) -> Self {
        DumpStacksError::CannotWrite
    }
}
