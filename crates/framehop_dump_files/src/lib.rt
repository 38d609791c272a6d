//! Readers of what is left of a process that is gone: core files of Linux, and minidumps.
#![tactic(auto)]

pub mod coredump;
pub mod minidump;
