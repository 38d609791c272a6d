//! Unwinding by call frame information on x86_64.
pub mod dwarf;
