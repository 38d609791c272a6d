//! Readers of ELF and PE files: what an unwinder and a symbolizer need of them.
#![tactic(auto)]

pub mod elf;
pub mod pe;
