//! Why a recording gives no stacks, or no more of them.
ghost use Rattle.std.specs.Prelude.{◌≡◌};

use framehop::ModuleListError;
use framehop_folded::error::FoldedError;
use framehop_processes::ProcessesError;
use framehop_recording::error::RecordingError;
use std::alloc::{AllocError, AllocFailed};
use std::io;
use thiserror::Error;

/// Why a recording gives no stacks, or no more of them.
#[derive(Clone, Copy, Debug, Error)]
pub enum StacksError {
    /// The recording, or a record of it, can't be read.
    #[error("{0}")]
    Recording(RecordingError),
    /// An allocation failed.
    #[error("out of memory")]
    OutOfMemory,
    /// The counter of generations is at its end.
    #[error("no generation is left")]
    GenerationsExhausted,
    /// A mapping has no address: the records that are read give none.
    #[error("a mapping without an address")]
    EmptyMapping,
    /// There are 2^64 samples or more.
    #[error("2^64 samples or more")]
    TooManySamples,
    /// A write failed.
    #[error("cannot write output")]
    CannotWrite,
}

impl From<RecordingError> for StacksError {
    ghost use Rattle.framehop_perf_stacks.specs.Refusal.{of_recording};

    ghost from_gives = { λ value error. error ≡ of_recording value };

    fn from(value: RecordingError) -> Self {
        match value {
            RecordingError::OutOfMemory => StacksError::OutOfMemory,
            refusal => StacksError::Recording(refusal),
        }
    }
}

impl From<ProcessesError> for StacksError {
    ghost use Rattle.framehop_perf_stacks.specs.Refusal.{of_processes};

    ghost from_gives = { λ value error. error ≡ of_processes value };

    fn from(value: ProcessesError) -> Self {
        match value {
            ProcessesError::OutOfMemory => StacksError::OutOfMemory,
            ProcessesError::GenerationsExhausted => StacksError::GenerationsExhausted,
            ProcessesError::EmptyMapping => StacksError::EmptyMapping,
        }
    }
}

impl From<FoldedError> for StacksError {
    ghost use Rattle.framehop_perf_stacks.specs.Refusal.{of_folded};

    ghost from_gives = { λ value error. error ≡ of_folded value };

    fn from(value: FoldedError) -> Self {
        match value {
            FoldedError::OutOfMemory => StacksError::OutOfMemory,
            FoldedError::CountTooLarge => StacksError::TooManySamples,
        }
    }
}

impl From<ModuleListError> for StacksError {
    ghost use Rattle.framehop_perf_stacks.specs.declared.error.StacksError.{StacksError};

    ghost from_gives = { λ value error. error ≡ StacksError.OutOfMemory };

    fn from(_value: ModuleListError) -> Self {
        StacksError::OutOfMemory
    }
}

impl From<AllocError> for StacksError {
    ghost use Rattle.framehop_perf_stacks.specs.declared.error.StacksError.{StacksError};

    ghost from_gives = { λ value error. error ≡ StacksError.OutOfMemory };

    fn from(_value: AllocError) -> Self {
        StacksError::OutOfMemory
    }
}

impl<T: Drop> From<AllocFailed<T>> for StacksError {
    ghost use Rattle.framehop_perf_stacks.specs.declared.error.StacksError.{StacksError};

    ghost from_gives = { λ value error. error ≡ StacksError.OutOfMemory };

    fn from(_value: AllocFailed<T>) -> Self {
        StacksError::OutOfMemory
    }
}

impl From<io::Error> for StacksError {
    ghost use Rattle.framehop_perf_stacks.specs.declared.error.StacksError.{StacksError};

    ghost from_gives = { λ value error. error ≡ StacksError.CannotWrite };

    fn from(_value: io::Error) -> Self {
        StacksError::CannotWrite
    }
}
