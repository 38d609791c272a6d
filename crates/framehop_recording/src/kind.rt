//! The kinds of records that are read, by their names without PERF_RECORD_.
//!
//! Source: Linux, `include/uapi/linux/perf_event.h`, `enum perf_event_type`; from 64 on
//! `tools/lib/perf/include/perf/event.h`, `enum perf_user_event_type`.

/// A file that is mapped into a process.
pub const MMAP: u32 = 1;

/// Records that the kernel lost.
pub const LOST: u32 = 2;

/// A new name of a thread, as by an exec.
pub const COMM: u32 = 3;

/// A thread that ends.
pub(crate) const EXIT: u32 = 4;

/// A thread that begins.
pub const FORK: u32 = 7;

/// A sample of an event.
pub const SAMPLE: u32 = 9;

/// A file that is mapped into a process, with more about it.
pub const MMAP2: u32 = 10;

/// Records of this kind and above are perf's own.
pub(crate) const USER_TYPE_START: u32 = 64;

/// Data that is after the record.
pub(crate) const AUXTRACE: u32 = 71;

/// Compressed records.
pub const COMPRESSED: u32 = 81;

/// Compressed records, padded to eight bytes.
pub(crate) const COMPRESSED2: u32 = 83;
