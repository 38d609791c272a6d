//! Folded stacks: how often each stack was counted. Reads them as text, adds them up, writes them, draws them as a flame
//! graph, and makes a file of speedscope of them.
//!
//! # Decisions
//!
//! - A merge that is refused has added some stacks, each whole: to undo it would take a copy, which
//!   may be refused too.
//! - A file is told by its content, text too, so that a pipe needs no option. A text that is no
//!   folded stacks is refused by its first line that is none, and nothing of it is added.
//! - Parts of all are compared, and not counts, since two recordings are seldom of one length; what
//!   only the first run had has no width.
//! - Demangling is left to `c++filt`, between two runs: names that were cut for a picture can't be
//!   demangled.
#![tactic(auto)]

pub mod changes;
pub mod error;
pub mod flame_graph;
pub mod folded;
pub mod speedscope;
pub mod text;
