//! Stacks of frames, whatever input they are of: what an unwinder of their machine gives, how they are written, and notes
//! under their lines.
//!
//! # Decisions
//!
//! - A return address of 0 by a row is no root, as in the library: a stack that was overwritten has
//!   it, too.
//! - `.debug_frame` is asked where `.eh_frame` has no row, as gdb does; that of a separate debug
//!   file is not read.
//! - What may be executed is what a file is mapped to, and what a dump says; of a minidump without
//!   a list of its regions nothing else is known, so that a stack ends at the code of a JIT
//!   compiler.
//! - A note tells what the walk took, and not what the library would have taken.
//! - A walk that ends since a word can't be read has one end, `Refused(CouldNotReadStack)`, whether a
//!   step of the library or a row asked for the word, at the last frame or at one before it.
#![tactic(auto)]

pub mod explain;
pub mod json_files;
pub mod json_frames;
pub mod json_values;
pub mod line;
pub mod machine;
pub mod memory;
mod missing;
pub mod note;
pub mod numbered;
pub mod place;
pub mod rows;
pub mod stack;
pub mod start;
mod unseen;
pub mod walk;
