//! Reads what `perf record --call-graph dwarf` writes: the file `perf.data` (Linux,
//! `tools/perf/Documentation/perf.data-file-format.txt` and `include/uapi/linux/perf_event.h`).
//!
//! # Decisions
//!
//! - What refuses one sample is no refusal of the recording: its thread and its time are read, and
//!   a caller counts it by its name.
//! - A time is optional, as `perf record --per-thread` writes none; 2^64 - 1 says that there is
//!   none. Records without one come first, in the order of the file.
//! - A recording whose size of records is 0 was not finished, and is refused by name.
//!   PERF_RECORD_COMPRESSED is refused, since samples would be missing; kinds that are not known
//!   are passed over by their size.
//! - PERF_RECORD_LOST_SAMPLES says again what PERF_RECORD_LOST does: a caller adds up one of the
//!   two.
//! - Whether a mapping has code is taken from PERF_RECORD_MISC_MMAP_DATA, which both kinds of
//!   mapping have.
//! - Of several events the ids must be at one place, and all together take no more bytes than the
//!   file has.
//! - Counter values, raw data and branch stacks come before the registers and are not read: a
//!   sample with them is refused by name.
#![tactic(auto)]

pub mod attributes;
pub mod build_ids;
mod bytes;
pub mod chain;
pub mod error;
pub mod event_names;
pub mod events;
pub mod header;
pub mod kind;
pub mod mapping;
pub mod order;
pub mod records;
pub mod registers;
pub mod sample;
mod sample_type;
pub mod tasks;
