//! Microsoft's x64 unwind data: the function table, unwind info and its codes, chained info, and
//! epilogs (Microsoft, "x64 exception handling"). What framehop 0.16.0 calls of the crate
//! pe-unwind-info.
pub mod chain;
pub mod epilog;
pub mod function_table;
pub mod info;
pub mod operation;
pub mod register;
pub mod resolve;
pub mod state;
