//! Why call frame information does not unwind a frame. Compact unwind info, which can name an FDE, has
//! this error among its own.
use crate::read_error::ReadError;
use thiserror::Error;

/// Why call frame information does not unwind a frame.
#[derive(Clone, Copy, Debug, PartialEq, Eq, Error)]
pub enum DwarfUnwinderError {
    /// The FDE at the offset, or its CIE, can't be read.
    #[error("FdeFromOffsetFailed")]
    FdeFromOffsetFailed(ReadError),
    /// The row or an expression can't be evaluated: memory ran out.
    #[error("UnwindInfoForAddressFailed")]
    UnwindInfoForAddressFailed(ReadError),
    /// In a frame other than the first, the caller's stack pointer is below the callee's, or on
    /// aarch64 equal to it.
    #[error("StackPointerMovedBackwards")]
    StackPointerMovedBackwards,
    /// Neither the stack pointer nor the code address changes.
    #[error("DidNotAdvance")]
    DidNotAdvance,
    /// The canonical frame address has no value.
    #[error("CouldNotRecoverCfa")]
    CouldNotRecoverCfa,
    /// The return address has no value.
    #[error("CouldNotRecoverReturnAddress")]
    CouldNotRecoverReturnAddress,
    /// The frame pointer has no value.
    #[error("CouldNotRecoverFramePointer")]
    CouldNotRecoverFramePointer,
}
