//! Unwinding on aarch64: the unwinder and its cache, with the registers and the rules of the crate below.
pub mod cache;
pub mod unwinder;

pub use cache::CacheAarch64;
pub use framehop_analysis::aarch64::instruction_analysis;
pub use framehop_core::aarch64::{
    ArchAarch64, PtrAuthMask, UnwindRegsAarch64, UnwindRuleAarch64, arch, run_rules, unwind_rule,
    unwindregs,
};
pub use framehop_dwarf::aarch64::dwarf;
pub use framehop_macho::aarch64::macho;
pub use framehop_pe::aarch64::pe;
pub use unwinder::UnwinderAarch64;
