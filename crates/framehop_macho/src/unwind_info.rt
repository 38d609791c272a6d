//! The section `__unwind_info`: its header, index and pages (Apple,
//! mach-o/compact_unwind_encoding.h). What framehop 0.16.0 calls of the crate macho-unwind-info.
pub mod error;
pub mod info;
pub mod page;
pub mod table;
