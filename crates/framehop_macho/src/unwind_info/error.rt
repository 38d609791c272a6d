//! Why the bytes of `__unwind_info` are refused.
use thiserror::Error;

/// Why the bytes of `__unwind_info` are refused.
#[derive(Clone, Copy, Debug, PartialEq, Eq, Error)]
pub enum CompactReadError {
    /// The bytes end before what they should have.
    #[error("Eof")]
    Eof,
    /// The version is not 1.
    #[error("BadVersion")]
    BadVersion,
    /// A page is neither regular nor compressed.
    #[error("BadPageKind")]
    BadPageKind,
    /// An entry's opcode number is beyond the common opcodes and those of its page.
    #[error("BadEncodingIndex")]
    BadEncodingIndex,
    /// A function ends at an address above 32 bits.
    #[error("AddressTooBig")]
    AddressTooBig,
}
