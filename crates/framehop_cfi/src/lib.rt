//! Readers of the DWARF call frame sections.
//!
//! # Decisions
//!
//! - `ReadError` is the enum of all call frame readers. That a reader of numbers, of LEB128 or of
//!   pointers returns only three of its variants is a clause (`IsSliceRefusal`).
//! - A CIE's augmentation is told twice: `augmentation_at` reads it letter by letter, and
//!   `HasAugmentation` says which bytes are each letter's arguments. They share no word about
//!   letters or pointers.
//! - `UnwindSection` and `EhFrameHdr` are not `Copy`: they have a `Model`, and that the header can
//!   be read is its invariant. The contexts' model holds the remembered rows too; the crates above
//!   cite `row_at`.
//! - Remembered rows are a log, without limits: a note says where a row was remembered, and each
//!   change of the rules after it is another, which DW_CFA_restore_state undoes. So memory grows
//!   with the instructions, however many rules the rows have. With limits no room for a log is
//!   enough, and a remembered row is a copy in room that is made before, shared until it is
//!   written.
//! - Undoing takes no memory, but the contract of `restore_state` can't say so: contracts don't see
//!   a vector's capacity. So on paper it may return `OutOfMemory`, only where a row was remembered
//!   before.
//! - A row that has no rule takes no memory, so what may take some are the instructions that give a
//!   register a rule, and DW_CFA_remember_state.
//! - Tried, in instructions a row of libc: instructions that are read and then matched (2,787 in
//!   place of 1,767); fewer branches of the common ones (2,509); `set_rule` inlined by force
//!   (1,804, as `Vec::push` is a call then). An index of rules by register would save 50 at most.
#![tactic(auto)]

pub mod aarch64;
pub mod augmentation;
pub mod context;
pub mod dwarf_error;
pub mod entry;
pub mod extent;
pub mod header;
pub mod instruction;
mod instruction_code;
pub mod known_cies;
pub mod leb128;
pub mod numbers;
pub mod pointer;
pub mod read_error;
mod remembered;
mod remembered_copies;
mod remembered_log;
pub mod row;
pub mod rule;
pub mod storage;
pub mod x86_64;
