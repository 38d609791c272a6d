//! Whether PE or compact unwind info unwinds a frame.
ghost use Rattle.std.specs.Prelude.{◌≡◌};
ghost use Rattle.framehop_core.specs.CodeAddress.{location_of};
ghost use Rattle.framehop_core.specs.Memory.{reply};
ghost use Rattle.framehop_pe.specs.Sections.{sections_of};
ghost use Rattle.framehop_backtrace.specs.Info.{is_by_pe, is_by_data, is_by_info};

use crate::step::read;
use framehop::lookup::{Lookup, UnwindEntry};
use framehop::unwinder::UnwinderInternal;
use framehop::{AllocationPolicy, Module, Unwinding};
use framehop_bytes::section::SectionBytes;
use framehop_callers::memory::WordMemory;
use framehop_core::FrameAddress;
use framehop_pe::pe::{PeSections, PeUnwinding};

/// Returns whether PE or compact unwind info of the covering module unwinds a frame over registers and a memory.
pub fn is_by_info<D: SectionBytes + Drop, A: Unwinding, P: AllocationPolicy, M: WordMemory>(
    unwinder: &UnwinderInternal<D, A, P>,
    address: FrameAddress,
    regs: A::UnwindRegs,
    memory: &M,
) -> bool
    ensures { result ≡ is_by_info A.readers regs (M.memory memory.now) unwinder.now.modules (location_of address) }
{
    match unwinder.find_module_for_address(address.address_for_lookup()) {
        Some((module, relative_address)) => {
            let lookup = Lookup {
                relative_address,
                is_first_frame: !address.is_return_address(),
            };
            is_by_module::<D, A, M>(module, lookup, regs, memory)
        }
        None => false,
    }
}

/// Returns whether PE or compact unwind info of a module unwinds a frame.
fn is_by_module<D: SectionBytes + Drop, A: Unwinding, M: WordMemory>(
    module: &Module<D>,
    lookup: Lookup,
    regs: A::UnwindRegs,
    memory: &M,
) -> bool
    ensures { result ≡ is_by_data A.readers regs (M.memory memory.now) «module».now.unwind_data lookup.relative_address lookup.is_first_frame }
{
    if module.frame_section().is_some() {
        return false;
    }
    match module.unwind_entry::<A>(lookup) {
        Ok(UnwindEntry::Pe(info)) => is_by_pe::<D, A, M>(info.sections(), lookup, regs, memory),
        Ok(UnwindEntry::Rule(_)) => true,
        Ok(UnwindEntry::Fde(_)) | Err(_) => false,
    }
}

/// Returns whether PE unwind info has a rule for a frame, or values that can be computed.
fn is_by_pe<D: SectionBytes, A: Unwinding, M: WordMemory>(
    sections: PeSections<'_, D>,
    lookup: Lookup,
    regs: A::UnwindRegs,
    memory: &M,
) -> bool
    ensures { result ≡ is_by_pe (A.found (sections_of D.contents sections.entry) lookup.relative_address lookup.is_first_frame)
        (A.computed (sections_of D.contents sections.entry) lookup.relative_address lookup.is_first_frame (M.memory memory.now) regs) }
{
    let mut read_stack = |address: u64| -> Result<u64, ()>
        ensures { result ≡ reply (M.memory memory.entry.now address) }
    { read(memory, address) };
    let mut caller = regs;
    let found = <A as PeUnwinding>::unwind_frame(
        sections,
        lookup.relative_address,
        &mut caller,
        lookup.is_first_frame,
        &mut read_stack,
    );
    found.is_ok()
}
