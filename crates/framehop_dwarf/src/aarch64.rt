//! Unwinding by call frame information on aarch64.
pub mod dwarf;
