//! Unwinding on x86_64: the unwinder and its cache, with the registers and the rules of the crate below.
pub mod cache;
pub mod unwinder;

pub use cache::CacheX86_64;
pub use framehop_analysis::x86_64::instruction_analysis;
pub use framehop_core::x86_64::{
    ArchX86_64, OffsetOrPop, Reg, UnwindRegsX86_64, UnwindRuleX86_64, arch, register_ordering,
    run_rules, unwind_rule, unwindregs,
};
pub use framehop_dwarf::x86_64::dwarf;
pub use framehop_macho::x86_64::macho;
pub use framehop_pe::x86_64::pe;
pub use unwinder::UnwinderX86_64;
