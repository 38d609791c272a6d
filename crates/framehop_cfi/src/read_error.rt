//! Why a call frame section could not be read.
ghost use Rattle.std.specs.Prelude.{◌≡◌};

use std::alloc::{AllocError, AllocFailed};
use thiserror::Error;

/// Why a record, a row or an expression could not be read.
#[derive(Clone, Copy, Debug, PartialEq, Eq, Error)]
pub enum ReadError {
    /// The bytes end before what was to be read.
    #[error("Eof")]
    Eof,
    /// A LEB128 number has more than ten bytes, or does not fit 64 bits.
    #[error("BadLeb")]
    BadLeb,
    /// A pointer encoding, an address size or a segment size that is not supported.
    #[error("BadEncoding")]
    BadEncoding,
    /// A reserved value stands in place of a length.
    #[error("BadLength")]
    BadLength,
    /// The entry at the offset is not a CIE.
    #[error("NotCie")]
    NotCie,
    /// The entry at the offset is not an FDE.
    #[error("NotFde")]
    NotFde,
    /// The CIE's version is not 1, 3 or 4.
    #[error("UnknownVersion")]
    UnknownVersion,
    /// The CIE's augmentation text has an unknown letter, or does not begin with `z`.
    #[error("UnknownAugmentation")]
    UnknownAugmentation,
    /// An unknown instruction.
    #[error("UnknownInstruction")]
    UnknownInstruction,
    /// An instruction that is not allowed where it stands.
    #[error("InvalidContext")]
    InvalidContext,
    /// A number does not fit its range.
    #[error("NumberTooBig")]
    NumberTooBig,
    /// The FDE does not cover the address.
    #[error("NoRow")]
    NoRow,
    /// A row has more register rules than its storage holds.
    #[error("TooManyRules")]
    TooManyRules,
    /// More rows are remembered than their storage holds.
    #[error("TooManyRows")]
    TooManyRows,
    /// A row is to be restored, and none is remembered.
    #[error("NothingRemembered")]
    NothingRemembered,
    /// An allocation failed.
    #[error("OutOfMemory")]
    OutOfMemory,
}

impl From<AllocError> for ReadError {
    ghost use Rattle.framehop_cfi.specs.declared.read_error.ReadError.{ReadError};

    ghost from_gives = { λ value error. error ≡ ReadError.OutOfMemory };

    fn from(_value: AllocError) -> Self {
        ReadError::OutOfMemory
    }
}

impl<T: Drop> From<AllocFailed<T>> for ReadError {
    ghost use Rattle.framehop_cfi.specs.declared.read_error.ReadError.{ReadError};

    ghost from_gives = { λ value error. error ≡ ReadError.OutOfMemory };

    fn from(_value: AllocFailed<T>) -> Self {
        ReadError::OutOfMemory
    }
}
