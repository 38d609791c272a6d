//! Microsoft x64 unwind info of PE modules.
//!
//! # Decisions
//!
//! - What `unwind_frame` returns is told by two functions, `found` (of the bytes) and `computed`
//!   (of registers and memory too). The rule of a list is looked for among the 40320 numbers of
//!   orderings in the definition; the code computes its number.
//! - A leaf function is a way without operations. All codes of an info are judged when it is read,
//!   also those that are skipped. The 33rd chained info is refused before its address is looked at.
//! - In a first frame the epilog comes before the rest of the info; rsp as frame register is
//!   refused only where no epilog is found.
//! - The base of a saved register is worked out when the code is undone, from the frame register as
//!   it is then; Windows takes it once, at the start.
//! - A chain is read again by each pass: once as a test, once for the rule and once to undo it.
//!   Nothing is kept but the place in the chain.
//! - `UnwindState` has a ghost member `loan`, which says that a call does not exchange the callback
//!   that it reads by. `FrameRegister`, `FrameBase` and `FramedOperation` are our own: each
//!   operation carries the frame register of its info.
#![tactic(auto)]

pub mod aarch64;
pub mod pe;
pub mod unwind_info;
pub mod x86_64;
