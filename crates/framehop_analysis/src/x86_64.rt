//! Code analysis for the x86_64 CPU architecture.
pub mod instruction_analysis;
