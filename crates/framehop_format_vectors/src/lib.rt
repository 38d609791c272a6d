//! What only calls show of files: ELF and PE files, compressed sections, recordings, core files, minidumps, and their memory (what
//! programs print of files is cases, in `checks/cases/core_files` and the others); and sweeps over sections, reads, registers
//! and allocations. This crate has only tests.
//!
//! Each sweep takes a worked example, changes one thing of it in each way that there is, and says of all of them how
//! many steps come to which end.
#![tactic(auto)]

#[cfg(test)]
mod bytes;
#[cfg(test)]
mod cases;
#[cfg(test)]
mod changed;
#[cfg(test)]
mod elf;
#[cfg(test)]
mod inflate;
#[cfg(test)]
mod memory;
#[cfg(test)]
mod process_memory;
#[cfg(test)]
mod reads;
#[cfg(test)]
mod reads_aarch64;
#[cfg(test)]
mod registers;
#[cfg(test)]
mod sections;
#[cfg(test)]
mod segments;
#[cfg(test)]
mod steps;
#[cfg(test)]
mod totals;
#[cfg(test)]
mod walks;
