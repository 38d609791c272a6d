//! From a core file or a minidump to a dump: the threads of a process that is gone with their registers, its memory, where code was
//! mapped, and why it ended.
//!
//! # Decisions
//!
//! - Which mappings are code is taken from the segment of memory at the first address, since
//!   NT_FILE has no protection, or else from the program headers in the file's first bytes. A file
//!   is known by its path, and must have the build id that memory has of it.
//! - The signal is that of the first NT_PRSTATUS that has one.
//! - A core file without a thread is refused: nothing printed would say so.
//! - A core file and a minidump are read into one `Dump`, so all that follows is proved once.
//! - Of a minidump the process's name is that of the first module's file. The exception's code is a
//!   signal on Linux and Android; its flags are `si_code`, of which 0, as LLDB writes it, tells
//!   nothing. Return addresses of aarch64 are stripped up to the highest bit of the last module's
//!   address.
//! - A module whose file is not there is mapped as far as its size says, if its first bytes have no
//!   program headers. One of Windows is code from its base to its end.
//! - A broken name or CodeView record refuses the whole minidump: the module would be unwound by
//!   another file, or by none, and nothing printed would say so.
#![tactic(auto)]

pub mod core_dump;
pub mod dump;
mod heads;
pub mod image;
pub mod minidump;
mod minidump_cause;
mod order;
mod shared_headers;
pub mod thread_names;
