//! What unwinding on aarch64 needs: the registers that it follows, and its rules.
pub mod arch;
pub mod unwind_rule;
pub mod unwindregs;

pub use arch::ArchAarch64;
pub use unwind_rule::{UnwindRuleAarch64, run_rules};
pub use unwindregs::{PtrAuthMask, UnwindRegsAarch64};
