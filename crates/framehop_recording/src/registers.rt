//! The user registers of a sample, for the unwinders.
ghost use Rattle.std.specs.Prelude.{◌≡◌, ◌<◌, unwrap_or};
ghost use Rattle.framehop_recording.specs.Registers.{register_at, with_general, x86_64_registers, aarch64_registers};

use crate::bytes::word;
use framehop_core::aarch64::{PtrAuthMask, UnwindRegsAarch64};
use framehop_core::x86_64::{Reg, UnwindRegsX86_64};

/// Returns the registers of a sample on x86_64, from its attribute's `sample_regs_user` and its
/// values. A general register that was not recorded is 0. Without rip, rsp and rbp there are none.
///
/// Source: Linux, `arch/x86/include/uapi/asm/perf_regs.h`, `perf_event_x86_regs`.
pub fn x86_64_registers(mask: u64, values: &[u8]) -> Option<UnwindRegsX86_64>
    ensures { result ≡ x86_64_registers mask values.now }
{
    let ip = register(mask, values, 0x100)?;
    let sp = register(mask, values, 0x80)?;
    let bp = register(mask, values, 0x40)?;
    Some(general(mask, values, ip, sp, bp))
}

/// Returns the registers of x86_64 with these three, and the others that were recorded.
#[tactic(auto, unfolding(crate::specs::Registers::with_general))]
fn general(mask: u64, values: &[u8], ip: u64, sp: u64, bp: u64) -> UnwindRegsX86_64
    ensures { result ≡ with_general mask values.now ip sp bp }
{
    let mut regs = UnwindRegsX86_64::new(ip, sp, bp);
    regs.set(Reg::RAX, value(mask, values, 0x1));
    regs.set(Reg::RBX, value(mask, values, 0x2));
    regs.set(Reg::RCX, value(mask, values, 0x4));
    regs.set(Reg::RDX, value(mask, values, 0x8));
    regs.set(Reg::RSI, value(mask, values, 0x10));
    regs.set(Reg::RDI, value(mask, values, 0x20));
    regs.set(Reg::R8, value(mask, values, 0x10000));
    regs.set(Reg::R9, value(mask, values, 0x20000));
    regs.set(Reg::R10, value(mask, values, 0x40000));
    regs.set(Reg::R11, value(mask, values, 0x80000));
    regs.set(Reg::R12, value(mask, values, 0x100000));
    regs.set(Reg::R13, value(mask, values, 0x200000));
    regs.set(Reg::R14, value(mask, values, 0x400000));
    regs.set(Reg::R15, value(mask, values, 0x800000));
    regs
}

/// Returns the register of a bit, or 0 where it was not recorded.
fn value(mask: u64, values: &[u8], bit: u64) -> u64
    requires { 0 < bit }
    ensures { result ≡ unwrap_or (register_at mask values.now bit) 0 }
{
    register(mask, values, bit).unwrap_or(0)
}

/// Returns the program counter and the registers of a sample on aarch64, from its attribute's
/// `sample_regs_user` and its values, with the mask of lr. Without pc, lr, sp and x29 there are none.
///
/// Source: Linux, `arch/arm64/include/uapi/asm/perf_regs.h`, `perf_event_arm_regs`.
pub fn aarch64_registers(
    code_ptr_auth_mask: PtrAuthMask,
    mask: u64,
    values: &[u8],
) -> Option<(u64, UnwindRegsAarch64)>
    ensures { result ≡ aarch64_registers code_ptr_auth_mask.0 mask values.now }
{
    let pc = register(mask, values, 0x100000000)?;
    let lr = register(mask, values, 0x40000000)?;
    let sp = register(mask, values, 0x80000000)?;
    let fp = register(mask, values, 0x20000000)?;
    let regs = UnwindRegsAarch64::new_with_ptr_auth_mask(code_ptr_auth_mask, lr, sp, fp);
    Some((pc, regs))
}

/// Returns the register of a bit, if it was recorded.
fn register(mask: u64, values: &[u8], bit: u64) -> Option<u64>
    requires { 0 < bit }
    ensures { result ≡ register_at mask values.now bit }
{
    if mask & bit == 0 {
        return None;
    }
    let index = (mask & (bit - 1)).count_ones() as usize;
    word(values, 8 * index)
}
