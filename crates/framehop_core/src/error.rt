//! Why a frame could not be unwound.
ghost use Rattle.std.specs.Prelude.{Some};
ghost use Rattle.framehop_core.specs.ErrorText.{error_text};

use std::{error, fmt};

/// Why a frame could not be unwound.
#[derive(Debug, Clone, Copy, PartialEq, Eq)]
pub enum Error {
    /// The callback could not read the stack word at this address (AVMA).
    CouldNotReadStack(u64),

    /// The caller's frame pointer or stack pointer does not lie above the callee's.
    FramepointerUnwindingMovedBackwards,

    /// The step would give the same frame again.
    DidNotAdvance,

    /// A stack pointer or a stack address does not fit 64 bits.
    IntegerOverflow,

    /// A frame has the return address 0.
    ReturnAddressIsNull,

    /// An allocation failed.
    OutOfMemory,
}

impl fmt::Display for Error {
    ghost output = { λ e. Some (error_text e) };

    fn fmt<W: fmt::Write>(&self, f: &mut fmt::Formatter<W>) -> fmt::Result {
        match self {
            Error::CouldNotReadStack(address) => {
                write!(f, "Could not read stack memory at 0x{address:x}")
            }
            Error::FramepointerUnwindingMovedBackwards => {
                write!(f, "Frame pointer unwinding moved backwards")
            }
            Error::DidNotAdvance => write!(
                f,
                "Neither the code address nor the stack pointer changed, would loop"
            ),
            Error::IntegerOverflow => write!(f, "Unwinding caused integer overflow"),
            Error::ReturnAddressIsNull => write!(f, "Return address is null"),
            Error::OutOfMemory => write!(f, "Out of memory"),
        }
    }
}

impl error::Error for Error {}
