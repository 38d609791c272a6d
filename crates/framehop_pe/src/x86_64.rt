//! Unwinding by PE unwind info on the x86_64 CPU architecture.
pub mod pe;
