//! Unwinding by compact unwind info on the x86_64 CPU architecture.
pub mod macho;
pub mod opcode;
pub mod saved_registers;
