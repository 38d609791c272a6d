//! What differs by the architecture of a recording.
ghost use Rattle.std.specs.Prelude.{◌≡◌, ℕ, List, Option};
ghost use Rattle.framehop.specs.Modules.{ModuleView, greatest_end as greatest_end_of};
ghost use Rattle.framehop_frames.specs.declared.machine.Start.{Start};
ghost use Rattle.framehop_perf_stacks.specs.Start.{general_values};

use framehop::aarch64::{UnwindRegsAarch64, UnwinderAarch64};
use framehop::cache::MustNotAllocateDuringUnwind;
use framehop::section::SectionBytes;
use framehop::x86_64::{UnwindRegsX86_64, UnwinderX86_64};
use framehop_core::aarch64::PtrAuthMask;
use framehop_frames::machine::{Start, Steps};
use framehop_frames::start::{aarch64_start, x86_64_start};
use framehop_recording::registers::{aarch64_registers, x86_64_registers};

/// The bits of x0 to x28.
const GENERAL: u64 = 0x1fff_ffff;

/// An unwinder for the samples of its architecture.
pub trait Sampled: Steps {
    // the registers of a sample, by the modules of its process
    ghost starts: { List ModuleView → ℕ → List ℕ → Option (Start Self.UnwindRegs) → Type 0 };

    /// Returns the registers of a sample, by the greatest end of a module of its process (AVMA), from the mask of those
    /// that were recorded and their values.
    fn start(greatest_end: u64, mask: u64, values: &[u8]) -> Option<Start<Self::UnwindRegs>>
        ensures { (modules : List ModuleView) → greatest_end_of modules ≡ greatest_end → starts modules mask values.now result };
}

impl<D: SectionBytes + Drop> Sampled for UnwinderX86_64<D, MustNotAllocateDuringUnwind> {
    ghost use Rattle.framehop_perf_stacks.specs.Start.{StartsX86_64};

    ghost starts = { StartsX86_64 };

    fn start(_greatest_end: u64, mask: u64, values: &[u8]) -> Option<Start<UnwindRegsX86_64>> {
        Some(x86_64_start(x86_64_registers(mask, values)?))
    }
}

impl<D: SectionBytes + Drop> Sampled for UnwinderAarch64<D, MustNotAllocateDuringUnwind> {
    ghost use Rattle.framehop_perf_stacks.specs.Start.{StartsAarch64};

    ghost starts = { StartsAarch64 };

    fn start(greatest_end: u64, mask: u64, values: &[u8]) -> Option<Start<UnwindRegsAarch64>> {
        let known = PtrAuthMask::from_max_known_address(greatest_end);
        let (pc, regs) = aarch64_registers(known, mask, values)?;
        Some(aarch64_start(pc, regs, general_values(mask, values)))
    }
}

/// Returns the values of x0 to x28, which come first, if all of them were recorded.
///
/// Source: Linux, `arch/arm64/include/uapi/asm/perf_regs.h`, `perf_event_arm_regs`.
fn general_values(mask: u64, values: &[u8]) -> &[u8]
    ensures { result.now ≡ general_values mask values.now }
{
    if mask & GENERAL == GENERAL {
        values
    } else {
        &[]
    }
}
