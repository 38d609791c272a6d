//! The memory of a process as files tell of it: ranges of memory whose bytes a file has, and segments of files that are
//! loaded into memory, whatever format they are of.
//!
//! # Decisions
//!
//! - Ranges are sorted by their starts beside the list of the file. Where they are apart the first
//!   that has an address is found by halving; where two overlap the list is halved until 32 are
//!   left, and beside two halves is which bytes the first has, so the first range of n is found by
//!   log n searches. The tree takes n log n of memory.
//! - Segments are searched by address as ranges, a segment's number in the place of the offset.
//! - What is asked for in ranges that were not read is noted in cells, since memory is read through
//!   a shared reference.
#![tactic(auto)]

pub mod by_address;
pub mod code;
pub mod left_out;
pub mod memory;
mod range_tree;
mod ranges;
pub mod segment;
mod stairs;
