//! Registers of aarch64 by their DWARF numbers (DWARF for the Arm 64-bit Architecture, "DWARF register names").

use crate::rule::Register;

/// `x19`, the first that a callee saves.
pub const X19: Register = Register(19);

/// The frame pointer.
pub const X29: Register = Register(29);

/// The link register.
pub const X30: Register = Register(30);

/// The stack pointer.
pub const SP: Register = Register(31);

/// The program counter.
pub const PC: Register = Register(32);
