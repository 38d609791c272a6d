//! What differs by the machine on which a process ran.
ghost use Rattle.std.specs.Prelude.{◌≡◌, Option};
ghost use Rattle.framehop_dumps.specs.Dump.{RegistersView, registers_view};
ghost use Rattle.framehop_frames.specs.declared.machine.Start.{Start};
ghost use Rattle.framehop_dump_stacks.specs.Thread.{general_words};

use framehop::aarch64::{UnwindRegsAarch64, UnwinderAarch64};
use framehop::cache::MustNotAllocateDuringUnwind;
use framehop::section::SectionBytes;
use framehop::x86_64::{UnwindRegsX86_64, UnwinderX86_64};
use framehop_bytes::bytes::back;
use framehop_core::aarch64::PtrAuthMask;
use framehop_dump_files::coredump::registers as kernel;
use framehop_dump_files::minidump::registers as context;
use framehop_dumps::dump::Registers;
use framehop_frames::machine::{Start, Steps};
use framehop_frames::start::{aarch64_start, x86_64_start};

/// The bit of a context's flags that says that it has x0 to x28.
const INTEGER: u8 = 2;

/// Where a context has x0, in bytes.
const GENERAL_AT: u64 = 8;

/// An unwinder for the threads of core files and minidumps of its machine.
pub(crate) trait Dumped: Steps {
    // the registers of a thread
    ghost begins: { RegistersView → Option (Start Self.UnwindRegs) };

    /// Returns the registers with which the walk of a thread begins, from those that the file has of it.
    fn begin(registers: Registers<'_>) -> Option<Start<Self::UnwindRegs>>
        ensures { result ≡ begins (registers_view registers.entry) };
}

impl<D: SectionBytes + Drop> Dumped for UnwinderX86_64<D, MustNotAllocateDuringUnwind> {
    ghost use Rattle.framehop_dump_stacks.specs.Thread.{begins_x86_64};

    ghost begins = { begins_x86_64 };

    fn begin(registers: Registers<'_>) -> Option<Start<UnwindRegsX86_64>> {
        let regs = match registers {
            Registers::Kernel { values, .. } => kernel::x86_64_registers(values),
            Registers::Context { values, .. } => context::x86_64_registers(values),
        }?;
        Some(x86_64_start(regs))
    }
}

impl<D: SectionBytes + Drop> Dumped for UnwinderAarch64<D, MustNotAllocateDuringUnwind> {
    ghost use Rattle.framehop_dump_stacks.specs.Thread.{begins_aarch64};

    ghost begins = { begins_aarch64 };

    fn begin(registers: Registers<'_>) -> Option<Start<UnwindRegsAarch64>> {
        match registers {
            Registers::Kernel { values, pac_mask } => {
                let mask = kernel::code_ptr_auth_mask(pac_mask);
                let (pc, regs) = kernel::aarch64_registers(mask, values)?;
                Some(aarch64_start(pc, regs, values))
            }
            Registers::Context { values, code_mask } => {
                let mask = PtrAuthMask(code_mask);
                let (pc, regs) = context::aarch64_registers(mask, values)?;
                Some(aarch64_start(pc, regs, general_words(values)))
            }
        }
    }
}

/// Returns the bytes of a context from x0 on, if its flags say that it has x0 to x28.
///
/// Source: Breakpad, `src/google_breakpad/common/minidump_cpu_arm64.h`, `MDRawContextARM64`.
fn general_words(values: &[u8]) -> &[u8]
    ensures { result.now ≡ general_words values.now }
{
    let flags = values.first().copied().unwrap_or(0);
    if flags & INTEGER == INTEGER {
        back(values, GENERAL_AT)
    } else {
        &[]
    }
}
