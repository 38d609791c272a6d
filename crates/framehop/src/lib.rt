//! A stack frame unwinder: from registers, stack words and the unwind data of loaded modules to
//! the return addresses of a call stack.
//!
//! An **AVMA** (actual virtual memory address) is where something is in the running process, an
//! **SVMA** (stated virtual memory address) where its file says; a **relative address** counts from
//! the module's base. Calls take and return AVMAs unless they say otherwise.
//!
//! # What the caller must see to
//!
//! - **Modules**: `add_module` before the first walk through a module, `remove_module` when it is
//!   unloaded. A section returns the same bytes each time (`SectionBytes`).
//!   `ExplicitModuleSectionInfo` has no `.pdata`: for Windows implement `ModuleSectionInfo`.
//! - **Generations**: all unwinders that share a cache draw from one `Generations`.
//! - **The stack**: the callback gives the same word at an address throughout a walk. Copy the
//!   stack, or keep its thread stopped.
//! - **Pointer authentication** on aarch64: `UnwindRegsAarch64::new` strips nothing. Use
//!   `new_with_ptr_auth_mask`, with a mask such as
//!   `PtrAuthMask::from_max_known_address(unwinder.max_known_code_address())`.
//! - **Limits**: a walk on x86_64 needs one.
//! - **Threads**: an unwinder, its modules and its cache stay on one thread.
//! - **Signals**: a signal frame is unwound as any frame. Calls in a signal handler: no claim; that
//!   a step under `MustNotAllocateDuringUnwind` takes no memory is tested, not proved.
//!
//! # Decisions
//!
//! - A module's unwind data is a function of the table of its sections. Data is handed out once, so
//!   a name that is asked later sees the table without what was taken before. A section whose index
//!   is refused is no unwind data: `.debug_frame` is not asked then, as in the crate.
//! - `exec` is inlined and a miss is a call of its own, so that on a hit the rule never leaves the
//!   processor's registers.
//! - The starts of modules are in a list of their own, in the same order: a search reads eight
//!   bytes a module that it passes.
//! - Which unwind data answers an address is a call of `lookup`. `Module::unwind_by_data` matches
//!   the kinds itself, each arm handing on its arguments: by the value that `lookup` returns steps
//!   by compact and PE info took 3 to 9 percent more instructions.
//! - The words of a command are the whole memory of its step or walk.
//! - Tried: a miss that is called and not inlined (3 ns more a frame: its handle goes over memory);
//!   a list of modules instead of pointers and a list of starts (two to six times the time to add
//!   and remove); halving the starts in place of quarters (34 ns for 16); a copy of the registers
//!   for a module's data (no gain).
#![tactic(auto)]

pub mod aarch64;
pub mod cache;
pub mod dwarf;
mod frame_answer;
pub mod iterator;
pub mod lookup;
mod module_list;
pub mod modules;
pub mod session;
mod unwind_by_data;
pub mod unwind_data;
pub mod unwinder;
pub mod unwinder_internal;
pub mod unwinding;
pub mod walk;
pub mod x86_64;

pub use cache::{AllocationPolicy, Cache, MayAllocateDuringUnwind, MustNotAllocateDuringUnwind};
pub use framehop_analysis::instruction_analysis;
pub use framehop_bytes::section;
pub use framehop_bytes::section::{ExplicitModuleSectionInfo, ModuleSectionInfo, SectionBytes};
pub use framehop_cache::{CacheStats, Generations, generations, rule_cache};
pub use framehop_core::{
    Error, FrameAddress, add_signed, arch, code_address, display_utils, error, unwind_result,
    unwind_rule,
};
pub use framehop_macho::{macho, unwind_info as macho_unwind_info};
pub use framehop_pe::{pe, unwind_info as pe_unwind_info};
pub use unwinder::{
    Module, ModuleListError, RefusedModule, UnwindIterator, Unwinder, UnwinderError, Unwinding,
};
