//! Unwinding by compact unwind info on the aarch64 CPU architecture.
pub mod macho;
pub mod opcode;
