//! The cache of unwind rules, and the counter that tells lists of modules apart.
//!
//! # Decisions
//!
//! - A set is two slots, `newest` and `older`, beside one another: 64 bytes, without a box. A
//!   lookup writes no entry, so the two stay in the order in which they were stored.
//! - A slot is a struct with the kind of frame as a variant: an entry inside an enum would take 8
//!   bytes more. An empty slot has zeros only, so that a new cache is one `memset`.
//! - Tried: filling a new cache by a loop of pushes (twice the time of `resize`); one function for
//!   both entries (180 instructions a warm frame in place of 146, and more for a new cache); an
//!   enum with the entry inside (a new cache is no longer zeros); the newest entries of all sets
//!   side by side (a new cache in 140 ns for 312, but scattered frames slower).
#![tactic(auto)]

pub mod generations;
pub mod rule_cache;

pub use generations::Generations;
pub use rule_cache::{CacheHandle, CacheResult, CacheStats, RuleCache};
