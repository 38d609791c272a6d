//! What machine instructions do to registers and memory.
//!
//! An instruction is described by its size, by what it makes of the stack pointer and of the frame pointer, and by where it
//! leads: an `Effect`. That is enough to follow how far the canonical frame address (CFA) is above either
//! register, from instruction to instruction. An instruction's `Action` describes all general registers and the
//! memory that it writes, so that code can be followed over values that are known.
//!
//! # Decisions
//!
//! - The opcode maps and the encodings are data: rows of a `static`, of which the first that fits
//!   counts, as the manuals print them.
//! - What is not certain is no knowledge: a register that an instruction may write has any value
//!   after it, and an instruction that is not in the tables ends the check of its function.
//! - An action never says less than what is written, and no more bytes of memory than that: a word that is lost may be a
//!   return address. Memory that is written at an address that no operand tells is only said to be elsewhere.
#![tactic(auto)]

pub mod aarch64;
pub mod action;
pub mod effect;
pub mod x86_64;
