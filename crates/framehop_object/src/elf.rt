//! Reads 64-bit little-endian ELF files (System V gABI, chapters 4 and 5): what an unwinder and a
//! symbolizer need of them. Each reader is given the bytes of the whole file and lends from them.
//!
//! # Decisions
//!
//! - The symbol of an address is the one with the greatest start at or below it, and none where
//!   that one ends before: a symbol inside another hides it. One without a size reaches to the next
//!   start, or to the end of its section.
//! - The segment of a mapping is sought among the executable ones: two segments may share a page of
//!   the file, and only code is unwound.
//! - Notes for a build id are read as long as they have no more bytes than the file together; what
//!   does not fit is passed over, as a build id only finds other files.
//! - `.debug_frame` is decompressed, as linkers compress it: by zlib, and to 64 MiB. Another section
//!   that is compressed is refused, since what it has in the file is not what it holds.

mod block;
pub mod build_id;
pub mod decompressed;
pub mod elf_file;
pub mod error;
pub mod file_section;
pub mod header;
pub mod note;
pub mod program_header;
pub mod section;
pub mod section_header;
pub mod segment;
pub mod symbol;
pub mod unwind_sections;
