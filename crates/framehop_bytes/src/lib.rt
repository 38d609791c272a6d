//! Bytes that are lent: the numbers, blocks and strings in them, the place of an address in a table, and how a module
//! lends its sections.
#![tactic(auto)]

pub mod block;
pub mod bytes;
pub mod gathered;
pub mod place;
pub mod section;
pub mod string;
