//! Reads ELF core files of Linux (System V gABI, chapter 5; `core(5)`): what an unwinder needs of a process
//! that is gone. Each reader is given the bytes of the whole file and lends from them.
//!
//! # Decisions
//!
//! - Bytes are never copied. Segments of notes may have no more bytes than the file together.
//! - A core file that is cut off in its notes is refused; one that is cut off later has the memory
//!   that comes before. What a segment has in memory beyond its bytes in the file is not taken for
//!   0.
//! - Of segments that overlap the first that has all the bytes has them. A word across two segments
//!   that touch is not read: no aligned word does so.
//! - The size of NT_PRSTATUS must be that of the machine, as other systems have other structs under
//!   the same owner and type; an NT_SIGINFO of another size is passed over.

pub mod auxiliary_vector;
pub mod core_file;
pub mod error;
pub mod mapped_file;
pub mod memory;
pub mod note;
pub mod other_system;
pub mod process;
pub mod registers;
pub mod signal_info;
pub mod thread;
