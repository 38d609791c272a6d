//! What a CPU architecture is to unwinding: registers and rules.
use crate::unwind_rule::UnwindRule;

/// A CPU architecture: its unwind registers, and the rules that unwind over them.
pub trait Arch {
    type UnwindRegs: Copy;

    type UnwindRule: UnwindRule<UnwindRegs = Self::UnwindRegs>;
}
