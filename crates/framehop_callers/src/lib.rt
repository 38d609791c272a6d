//! The caller of a frame over its whole register file: by a row of call frame information (DWARF 5 section 6.4), or by
//! running the frame's code forward to the function's return.
//!
//! An unwind rule has a few registers only, and its expressions read no memory. A row is evaluated here for each column
//! that it or the calling convention describes, by any register that is known, with expressions that read memory: rows of
//! hand-written assembly need more than a rule has, and of the innermost frame, and the one that a signal interrupted, all
//! registers are known.
//!
//! Where no unwind data covers an address, as in hand-written assembly, the code itself says who the caller is: the
//! processor will return to it. A run goes on from an instruction over the registers and the memory that are known,
//! without the process, until the function returns.
//!
//! # Decisions
//!
//! Rows:
//!
//! - The library's rules stay as they are: a row whose CFA is by another register, or by a word of memory, has no rule,
//!   and the original follows the frame pointer there. It is evaluated here over registers that are known or not.
//! - A register that the row doesn't name has its own value only where functions keep it, where gdb keeps each. Sums are
//!   exact, and one that is no address is refused, where gdb lets it wrap.
//! - `DW_OP_deref_size` reads the first bytes of a word of eight, so it has no value where that can't be read.
//! - A frame is the outermost one where its return address is undefined. Memory is lent as a value (`WordMemory`):
//!   nothing is written, so contracts need no premise on it.
//!
//! Runs:
//!
//! - Flags and vector registers are not followed. Of each conditional jump one way is taken, differently in two runs, which
//!   go through a loop once more in different ways: what a loop changes is then known to neither or not alike. Where both
//!   return, they must agree in return address and stack pointer. Where only one returns, a register that a loop changes
//!   may be wrong.
//! - A call of a function that unwind data covers is passed over, as one to an address that isn't known: it keeps the
//!   registers that the calling convention says (System V ABI for AMD64, section 3.2.1; Procedure Call Standard for the Arm
//!   64-bit Architecture, section 6.1.1). Other functions are often helpers of one file with a convention of their own, and
//!   are entered. One may move its return address on the stack, or on aarch64 in a register: a return to an instruction
//!   after a call that was entered, and from which there was no return, is not the function's own.
//! - Of aarch64 pointer authentication codes aren't followed: a signed return address is the same for a run, and its caller's
//!   is stripped by who asks.
//! - A write to an address that isn't known goes to no word that the run needs: without this each
//!   `mov [rdi], rax` could overwrite the return address.
//! - A run is given up after 4,096 instructions, 128 writes, and 8 calls that are open or places of calls that were entered.
//!   No call takes memory.
#![tactic(auto)]

pub mod base;
pub mod caller;
pub mod calls;
pub mod convention;
pub mod evaluation;
pub mod known;
pub mod load;
pub mod memory;
pub mod register_file;
pub mod rules;
pub mod run;
pub mod state;
pub mod step;
