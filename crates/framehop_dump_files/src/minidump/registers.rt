//! The registers of a thread, for the unwinders.
ghost use Rattle.std.specs.Prelude.{◌≡◌, ◌≤◌, length};
ghost use Rattle.framehop_dump_files.specs.Minidump.Registers.{general_of, has_x86_64, has_aarch64, x86_64_registers, aarch64_registers};

use framehop_bytes::bytes::{u32_at, u64_at};
use framehop_core::aarch64::{PtrAuthMask, UnwindRegsAarch64};
use framehop_core::x86_64::{Reg, UnwindRegsX86_64};

/// The size of `CONTEXT` of x64 up to `Rip`, in bytes.
const AMD64_SIZE: usize = 0x100;

/// `CONTEXT_CONTROL` and `CONTEXT_INTEGER` of x64.
const AMD64_FLAGS: u32 = 0x100003;

/// The size of `ARM64_NT_CONTEXT` up to `Pc`, in bytes.
const ARM64_SIZE: usize = 0x110;

/// `CONTEXT_ARM64_CONTROL`.
const ARM64_FLAGS: u32 = 0x400001;

/// `MD_CONTEXT_ARM64_INTEGER_OLD`, of Breakpad.
const ARM64_OLD_FLAGS: u32 = 0x80000002;

/// Returns the registers of a thread on x86_64 from the bytes of its context, or `None` where they are fewer,
/// or its flags lack `CONTEXT_CONTROL` or `CONTEXT_INTEGER` of that machine.
///
/// Source: `winnt.h`, `CONTEXT` of x64.
pub fn x86_64_registers(context: &[u8]) -> Option<UnwindRegsX86_64>
    ensures { result ≡ x86_64_registers context.now }
{
    if !has_x86_64(context) {
        return None;
    }
    Some(general(context))
}

/// Returns whether a context is of x86_64, and has its instruction pointer and its general registers.
fn has_x86_64(context: &[u8]) -> bool
    ensures { result ≡ has_x86_64 context.now }
{
    context.len() >= AMD64_SIZE && u32_at(context, 0x30) & AMD64_FLAGS == AMD64_FLAGS
}

/// Returns the registers of x86_64 that a context has.
#[tactic(auto, unfolding(crate::specs::Minidump::Registers::general_of))]
fn general(context: &[u8]) -> UnwindRegsX86_64
    requires { 256 ≤ length context.now }
    ensures { result ≡ general_of context.now }
{
    let ip = u64_at(context, 0xf8);
    let sp = u64_at(context, 0x98);
    let bp = u64_at(context, 0xa0);
    let mut regs = UnwindRegsX86_64::new(ip, sp, bp);
    regs.set(Reg::RAX, u64_at(context, 0x78));
    regs.set(Reg::RCX, u64_at(context, 0x80));
    regs.set(Reg::RDX, u64_at(context, 0x88));
    regs.set(Reg::RBX, u64_at(context, 0x90));
    regs.set(Reg::RSI, u64_at(context, 0xa8));
    regs.set(Reg::RDI, u64_at(context, 0xb0));
    regs.set(Reg::R8, u64_at(context, 0xb8));
    regs.set(Reg::R9, u64_at(context, 0xc0));
    regs.set(Reg::R10, u64_at(context, 0xc8));
    regs.set(Reg::R11, u64_at(context, 0xd0));
    regs.set(Reg::R12, u64_at(context, 0xd8));
    regs.set(Reg::R13, u64_at(context, 0xe0));
    regs.set(Reg::R14, u64_at(context, 0xe8));
    regs.set(Reg::R15, u64_at(context, 0xf0));
    regs
}

/// Returns the program counter and the registers of a thread on aarch64 from the bytes of its context, with
/// the mask of lr, or `None` where they are fewer, or its flags lack `CONTEXT_ARM64_CONTROL` and, in the
/// older form of Breakpad, `MD_CONTEXT_ARM64_INTEGER_OLD`.
///
/// Source: `winnt.h`, `ARM64_NT_CONTEXT`; Breakpad, `minidump_cpu_arm64.h`, `MDRawContextARM64` and
/// `MDRawContextARM64_Old`.
pub fn aarch64_registers(
    code_ptr_auth_mask: PtrAuthMask,
    context: &[u8],
) -> Option<(u64, UnwindRegsAarch64)>
    ensures { result ≡ aarch64_registers code_ptr_auth_mask.0 context.now }
{
    if !has_aarch64(context) {
        return None;
    }
    let fp = u64_at(context, 0xf0);
    let lr = u64_at(context, 0xf8);
    let sp = u64_at(context, 0x100);
    let pc = u64_at(context, 0x108);
    let regs = UnwindRegsAarch64::new_with_ptr_auth_mask(code_ptr_auth_mask, lr, sp, fp);
    Some((pc, regs))
}

/// Returns whether a context is of aarch64, and has pc, lr, sp and x29.
fn has_aarch64(context: &[u8]) -> bool
    ensures { result ≡ has_aarch64 context.now }
{
    if context.len() < ARM64_SIZE {
        return false;
    }
    let flags = u32_at(context, 0);
    flags & ARM64_FLAGS == ARM64_FLAGS || flags & ARM64_OLD_FLAGS == ARM64_OLD_FLAGS
}
