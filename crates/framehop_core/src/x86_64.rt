//! What unwinding on x86_64 needs: the registers that it follows, and its rules.
pub mod arch;
pub mod register_ordering;
pub mod unwind_rule;
pub mod unwindregs;

pub use arch::ArchX86_64;
pub use unwind_rule::{OffsetOrPop, UnwindRuleX86_64, run_rules};
pub use unwindregs::{Reg, UnwindRegsX86_64};
