//! Backtraces: walks over whole register files, that read signal frames and rows of call frame information, and say of
//! each frame how it was found.
//!
//! They take the library's step where the modules have no row for a frame. Nothing is stored in the library's cache but
//! by its own steps.
//!
//! # Decisions
//!
//! - A frame has two sets of registers: columns, each known or not, by which rows are evaluated;
//!   and those of the library's step. So a walk without rows is the library's. After such a step
//!   only pc, sp and fp are known, and lr of aarch64.
//! - A guess is only made at a first frame, since the rule of a function's start follows the frame
//!   pointer at others. Its return address and that of the frame pointer are compared by the calls
//!   before them. Code that nobody has, as of a JIT compiler, may have a call.
//! - What a row of x86_64 leaves unknown of the registers that a function restores, since their words can't be
//!   read, is taken from a run of the code to its return, where that comes to the row's caller: after
//!   a `pop` a row has the register in the word below the stack pointer still.
//! - A row that needs another register, as rax in assembly, is tried once more over all that a run of
//!   the callee's code keeps. gdb takes such a register to be the callee's, whatever that does.
//! - A return address is in code if the byte before it is, or it itself, as that of a trampoline at
//!   the beginning of a mapping.
//! - Rows come from a trait (`Rows`), so that call frames that the library leaves out can be a
//!   second source (`OrElse`).
//! - A walk keeps what it found for its latest 64 addresses, and forgets it at its end, since modules
//!   change between walks.
#![tactic(auto)]

pub mod aarch64;
pub mod call;
mod covers;
pub mod frame;
mod guess;
pub mod info;
pub mod kept;
pub mod machine;
pub mod memory;
pub mod next;
mod restored;
pub mod rows;
mod run;
pub mod signal;
pub mod step;
pub mod walk;
pub mod x86_64;

pub use frame::{BacktraceEnd, FoundBy, Frame};
pub use kept::RowRoom;
pub use machine::BacktraceUnwinder;
pub use memory::CodeMemory;
pub use next::next_frame;
pub use rows::{OrElse, RowFinding, Rows, row_in_module};
pub use walk::{StackTrace, backtrace};
