//! Unwinding by PE unwind info on the aarch64 CPU architecture.
pub mod pe;
