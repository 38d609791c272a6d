//! Code analysis for the aarch64 CPU architecture.
pub mod instruction_analysis;
