//! Apple's compact unwind info of Mach-O modules.
//!
//! # Decisions
//!
//! - The first refusal in this order is returned: header, version, common opcodes, index; the
//!   page's kind, header and tables; then the function's end, whether it covers the address, and
//!   its opcode's number.
//! - The common opcodes and the index are judged at each lookup, a page's own opcodes at each
//!   lookup in that page.
//! - No function here returns `BadDwarfUnwinding`: it is for callers who unwind by the FDE that the
//!   info names.
//! - `saved_registers` finds the list by blocks of one length; the definition has the whole list.
//!   The opcode of a frameless function keeps the place of rbp only: the rules need no other
//!   register.
//! - `unwind_frame` of an architecture asks that the offset is at most the length of the function's
//!   code; `CompactUnwindInfoUnwinder` keeps this by `covers`.
//! - Tried: numbers that are read by an inlined function (31 ns a search of a page for 18: the byte
//!   that a mask drops makes two loads of one); the middles of both halves read ahead (no gain).
#![tactic(auto)]

pub mod aarch64;
pub mod macho;
pub mod unwind_info;
pub mod x86_64;
