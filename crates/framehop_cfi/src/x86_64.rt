//! Registers of x86_64 by their DWARF numbers (System V ABI for AMD64, figure 3.36).

use crate::rule::Register;

/// `rbx`.
pub const RBX: Register = Register(3);

/// The frame pointer.
pub const RBP: Register = Register(6);

/// The stack pointer.
pub const RSP: Register = Register(7);

/// `r12`, after which `r13` to `r15` come.
pub const R12: Register = Register(12);

/// `r15`.
pub const R15: Register = Register(15);

/// The column of the return address.
pub const RA: Register = Register(16);
