//! Reads minidumps (Microsoft's `minidumpapiset.h`; Breakpad's `minidump_format.h`): what an unwinder needs
//! of a process that is gone. Each reader is given the bytes of the whole file and lends from them.
//!
//! # Decisions
//!
//! - A list may be padded by four bytes after its number, as Breakpad's reader has it. A name that
//!   is not UTF-16 is not refused: paths of Windows are any units.
//! - A line of `/proc/PID/maps` that is not of its form is left out, as LLDB leaves it out; it only
//!   says which memory could be executed.
//! - A context must have the flags of its machine. The address of the exception is passed on as it
//!   is: LLDB writes that of the instruction, Breakpad on Linux that which the instruction used.

pub mod codeview;
pub mod error;
pub mod exception;
pub mod header;
pub mod linux_maps;
mod list;
pub mod location;
pub mod memory;
pub mod memory_info;
pub mod misc_info;
pub mod module;
pub mod registers;
pub mod stream;
pub mod string;
pub mod system_info;
pub mod thread;
pub mod thread_name;
