//! Prologues and epilogues recognised from a function's instructions: the unwind rule at an address
//! inside them, which unwind data often leaves out (framehop 0.16.0, `instruction_analysis`).
//!
//! # Decisions
//!
//! - The machine is a relation by rows, one for each shape of instruction, and not a function of a
//!   decoded one: no proof has to show that no word has two shapes, but for the words that end a
//!   function.
//! - On aarch64 the run out of an epilogue ends at the first unconditional branch, by the manual's
//!   class of encodings; on x86_64 at the first instruction that the analysis takes for the end,
//!   any `FF` for JMP r/m64, as the crate does (`IsTakenForEnd`). The rsp of x86_64 does not wrap
//!   in the machine.
//! - The `brk` of an authenticated call counts as an instruction that does nothing: the test before
//!   it jumps over it where the check succeeds. `br` in the place of `b` there is no part of the
//!   call. Signing may change lr in any bits that the mask lacks.
//! - A prologue's claim is about the run that was read: whether the function begins there is not
//!   known. Where the pc is no multiple of 4 the bytes before it that make no whole word are passed
//!   over.
//! - Places of compiled functions that are interrupted, as by moves of arguments between pushes,
//!   are kept in the tables of the tests, which count them; there the rule can be that of a
//!   shallower frame, as in the crate.
//! - The machine of aarch64 shares no definition with the analysis (`Laws/Aarch64/Encodings`). As
//!   the analysis, it does not read the low bit of a pair access's opc, nor the bits 28 to 26 of a
//!   `mov x16`, which no other instruction of that form has.
#![tactic(auto)]

pub mod aarch64;
pub mod instruction_analysis;
pub mod x86_64;

pub use instruction_analysis::InstructionAnalysis;
