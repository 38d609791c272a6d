//! Why folded stacks can't be read or added.
ghost use Rattle.std.specs.Prelude.{◌≡◌};

use std::alloc::{AllocError, AllocFailed};
use thiserror::Error;

/// Why a text can't be read as folded stacks.
#[derive(Clone, Copy, Debug, Error)]
pub enum TextError {
    /// The line at this offset, in bytes, has no blank before a count.
    #[error("the line at byte {0} has no count")]
    NoCount(usize),
    /// What follows the last blank of the line at this offset, in bytes, is not a decimal number below 2^64.
    #[error("the line at byte {0} has no decimal count below 2^64")]
    BadCount(usize),
    /// An allocation failed.
    #[error("out of memory")]
    OutOfMemory,
}

/// Why counts of stacks can't be added.
#[derive(Clone, Copy, Debug, Error)]
pub enum FoldedError {
    /// The counts of a stack add up to 2^64 or more.
    #[error("the counts of a stack add up to 2^64 or more")]
    CountTooLarge,
    /// An allocation failed.
    #[error("out of memory")]
    OutOfMemory,
}

impl From<AllocError> for TextError {
    ghost use Rattle.framehop_folded.specs.declared.error.TextError.{TextError};

    ghost from_gives = { λ value error. error ≡ TextError.OutOfMemory };

    fn from(_value: AllocError) -> Self {
        TextError::OutOfMemory
    }
}

impl<T: Drop> From<AllocFailed<T>> for TextError {
    ghost use Rattle.framehop_folded.specs.declared.error.TextError.{TextError};

    ghost from_gives = { λ value error. error ≡ TextError.OutOfMemory };

    fn from(_value: AllocFailed<T>) -> Self {
        TextError::OutOfMemory
    }
}

impl From<AllocError> for FoldedError {
    ghost use Rattle.framehop_folded.specs.declared.error.FoldedError.{FoldedError};

    ghost from_gives = { λ value error. error ≡ FoldedError.OutOfMemory };

    fn from(_value: AllocError) -> Self {
        FoldedError::OutOfMemory
    }
}

impl<T: Drop> From<AllocFailed<T>> for FoldedError {
    ghost use Rattle.framehop_folded.specs.declared.error.FoldedError.{FoldedError};

    ghost from_gives = { λ value error. error ≡ FoldedError.OutOfMemory };

    fn from(_value: AllocFailed<T>) -> Self {
        FoldedError::OutOfMemory
    }
}
