//! Reads Microsoft's PE files of 64 bits (PE32+): what an unwinder needs of them, and what tells which file
//! it is. Each reader is given the bytes of the whole file and lends from them.
//!
//! # Decisions
//!
//! - A file of any machine is read. What an unwinder needs can be lent (`lend_unwind_sections`):
//!   `.text` is tens of megabytes in a large library.
//! - The function table is looked for by name first, and then by the data directory, by which
//!   Windows finds it. A section ends with the smaller of its sizes.
//! - A broken CodeView record counts as none, since the file still has its time and its size to be
//!   known by; a debug directory outside of the file is refused.

mod block;
pub mod codeview;
pub mod error;
pub mod exports;
pub mod header;
pub mod pe_file;
pub mod rva;
pub mod section;
pub mod section_header;
pub mod unwind_sections;
