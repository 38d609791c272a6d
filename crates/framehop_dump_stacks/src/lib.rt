//! From a core file or a minidump to stacks: unwinds each thread of a dump, and writes a block for each, or JSON.
//!
//! # Decisions
//!
//! - A mapped file of a core file is read when an address of its mappings is looked up; of
//!   minidumps all are read, since where their code is mapped is told by the files.
//! - Of a segment its end is read, from the lowest address that was asked for: stacks are walked
//!   upwards. Notes are read to the end of the headers, since gdb's `gcore` writes them after the
//!   memory.
//! - A file is unwound by memory only where nothing was read of it. `.eh_frame` ends with its
//!   segment of memory: no program header has its size.
//! - The vdso is where the auxiliary vector says, with its unwind data from memory, and no names.
//! - The address of a fault is printed only where the kernel found one (`siginfo_layout`).
//! - Threads are walked by one loop, each once, for each kind of `Report`. Of a core file up to 16
//!   MiB of the text are kept until it is known that nothing more is asked for; a longer one is made
//!   again as it is written.
//! - The file of a module of Windows is looked for by the path after the drive, and then by its name
//!   in the root.
#![tactic(auto)]

mod bounded;
pub mod error;
pub mod exception;
mod first_mappings;
mod frame_headers;
mod json_crash;
mod json_modules;
pub mod json_report;
mod json_threads;
pub mod machine;
pub mod modules;
mod problems;
pub mod program;
pub mod report;
pub mod signal;
pub mod stack;
pub mod text;
