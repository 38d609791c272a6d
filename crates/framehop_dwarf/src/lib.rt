//! DWARF call frame information: from an address to its FDE, and from a row to a rule or to values.
//!
//! # Decisions
//!
//! - The index is one table, a binary search tree that is stored level by level, filled from sorted
//!   keys: a search reads one pair a level. For each block of 2^n addresses a shortcut is a place
//!   to which the search comes for all of them; that it is on the way is an invariant
//!   (`AreShortcuts`), and how large a block is decides the time only.
//! - A look-up keeps no pair that it has passed: the digits of the place at which it ends tell the
//!   last pair at or below the address (`found_before`).
//! - `lookup_counted` has the exact count (`looked_at`) beside its bound, which a count of 0 would
//!   meet, too.
//! - What a row means knows no limit (`RowMeans`, `ColumnsMean`): a value that an expression has in
//!   64 places is its value without a limit too. The limit is that of `EvaluationStorage::Stack`,
//!   apart from that of rows.
//! - `row_means` and `columns_mean` are fixed by each architecture's records, and not by the trait,
//!   which has no name for one architecture's registers; the laws `row_is` and `columns_are` of
//!   `Unwinding` say it in both directions.
//! - The contract of `unwind_frame_with_fde` stands once, on the function. What the private steps
//!   ensure is a part of it, clause by clause, so that a refusal names its clause.
//! - Tried: sorting pairs into two vectors (390 instructions an FDE more); a search from the first
//!   pair on, without shortcuts (1.3 to 1.75 of the original's time, as each level waits for
//!   memory); other numbers of turns before the end is asked for (0.05 at most).
#![tactic(auto)]

pub mod aarch64;
pub mod bases;
pub mod dwarf;
pub mod evaluation;
pub mod index;
pub mod operation;
mod operation_code;
pub mod unwinder;
pub mod x86_64;
