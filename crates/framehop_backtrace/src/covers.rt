//! Which functions unwind data covers.
ghost use Rattle.std.specs.Prelude.{◌≡◌};
ghost use Rattle.framehop_backtrace.specs.Covers.{is_covered_in, is_covered};

use framehop::lookup::UnwindDataAt;
use framehop::unwinder::UnwinderInternal;
use framehop::{AllocationPolicy, Module, Unwinding};
use framehop_bytes::section::SectionBytes;

/// Returns whether unwind data of the modules of an unwinder covers the function at an address (AVMA).
pub(crate) fn is_covered<D: SectionBytes + Drop, A: Unwinding, P: AllocationPolicy>(
    unwinder: &UnwinderInternal<D, A, P>,
    address: u64,
) -> bool
    ensures { result ≡ is_covered unwinder.now.modules address }
{
    match unwinder.find_module_for_address(address) {
        Some((module, relative_address)) => is_covered_in_module(module, relative_address),
        None => false,
    }
}

/// Returns whether unwind data of a module covers an address relative to the module's base.
fn is_covered_in_module<D: SectionBytes + Drop>(module: &Module<D>, relative_address: u32) -> bool
    ensures { result ≡ is_covered_in «module».now.unwind_data relative_address }
{
    match module.unwind_data_at(relative_address) {
        Ok(UnwindDataAt::Fde(fde)) => fde.covering(relative_address).is_some(),
        Ok(UnwindDataAt::Compact(_)) | Ok(UnwindDataAt::Pe(_)) => true,
        Err(_) => false,
    }
}
