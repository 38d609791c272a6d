//! Checks unwind data against code: whether the rows of an FDE say of each instruction what the instruction does.
//!
//! A row claims of each instruction that the canonical frame address (CFA) is so many bytes above a register. Going forward
//! from instruction to instruction, what the code does to the stack pointer and to the frame pointer tells how far below the
//! CFA each of them is. Where a row says otherwise, code and unwind data contradict each other. Where the code tells
//! nothing, as after a jump, the row is believed.
//!
//! # Decisions
//!
//! - Code analysis is no checker: `framehop_analysis` guesses, as the original does, and disagrees
//!   with a fifth of libc's functions.
//! - A row that changes after a call is believed, since the call may not return. Overwritten
//!   registers are alarms of their own: no contradiction, since the value may be the old one. A row
//!   that begins inside an instruction is a note.
//! - Codes of a prolog are rows: those that have run at an offset make one claim on the CFA there.
//!   Where rbp is set the row counts from it for one instruction, and then from rsp again, so that
//!   both are checked.
//! - The rows of a function are read once and kept as spans: n rows and m instructions cost n + m
//!   log n.
//! - Code without rows is what gaps between gaps are: the gaps between what FDEs cover and the gaps
//!   between sections of code. One loop is proved and used for both.
//! - A CIE is read once and kept by its offset, so that FDEs which name large ones in turn take no
//!   square.
#![tactic(auto)]

pub mod check;
pub mod claim;
pub mod entries;
pub mod known;
pub mod missing;
pub mod prolog;
pub mod report;
pub mod room;
pub mod rows;
pub mod sections;
pub mod tracked;
