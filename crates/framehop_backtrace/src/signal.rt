//! Signal frames of Linux: the code to which a handler returns, and what the kernel saved of the code that a signal
//! interrupted.
//!
//! A handler returns to a trampoline, which calls `rt_sigreturn`. Its stack pointer is then where the kernel saved the
//! registers of the interrupted code.
//!
//! # Decisions
//!
//! - A trampoline is known by its instructions, as gdb and LLVM's libunwind know it: not every C
//!   library has the row that tells it.
ghost use Rattle.std.specs.Prelude.{◌≡◌, ◌≤◌, ◌+◌, ◌*◌, Some, length};
ghost use Rattle.framehop_bytes.specs.Bytes.{le8};
ghost use Rattle.framehop_backtrace.specs.Columns.{columns_by};
ghost use Rattle.framehop_backtrace.specs.Signal.{interrupted_aarch64, interrupted_x86_64, is_trampoline, saved_x86_64};

use framehop_bytes::bytes::u64_at;
use framehop_callers::register_file::RegisterFile;
use framehop_cfi::rule::Register;
use framehop_core::x86_64::{Reg, UnwindRegsX86_64};

/// `__restore_rt` of x86_64: `mov $15, %rax`, `syscall`.
const RESTORE_RT: [u8; 9] = [0x48, 0xc7, 0xc0, 0x0f, 0x00, 0x00, 0x00, 0x0f, 0x05];

/// `__kernel_rt_sigreturn` of aarch64: `mov x8, #139`, `svc #0`.
const KERNEL_RT_SIGRETURN: [u8; 8] = [0x68, 0x11, 0x80, 0xd2, 0x01, 0x00, 0x00, 0xd4];

/// How much of a signal frame of x86_64 is read, in bytes: all up to rip.
pub const FRAME_SIZE_X86_64: u64 = 176;

/// How much of a signal frame of aarch64 is read, in bytes: all up to pc.
pub const FRAME_SIZE_AARCH64: u64 = 576;

/// Returns whether code begins with a trampoline, that of x86_64 or that of aarch64: the handlers of signals return to
/// it.
///
/// Source: Linux, `arch/arm64/kernel/vdso/sigreturn.S`; the numbers of `rt_sigreturn` in
/// `arch/x86/entry/syscalls/syscall_64.tbl` and `include/uapi/asm-generic/unistd.h`. On x86_64 the C library has the
/// trampoline (`SA_RESTORER`): it is the two instructions that unwinders look for.
#[tactic(auto, unfolding(crate::specs::Signal::is_trampoline))]
pub fn is_trampoline(code: &[u8]) -> bool
    ensures { result ≡ is_trampoline code.now }
{
    code.starts_with(&RESTORE_RT) || code.starts_with(&KERNEL_RT_SIGRETURN)
}

/// Returns the registers of the code of x86_64 that a signal interrupted. `frame` is the memory from the trampoline's
/// stack pointer on. `None` where it has less than [`FRAME_SIZE_X86_64`] bytes.
///
/// Source: Linux, `include/uapi/asm-generic/ucontext.h`, `struct ucontext`; `arch/x86/include/uapi/asm/sigcontext.h`,
/// `struct sigcontext`.
pub fn interrupted_x86_64(frame: &[u8]) -> Option<UnwindRegsX86_64>
    ensures { result ≡ interrupted_x86_64 frame.now }
{
    if (frame.len() as u64) < FRAME_SIZE_X86_64 {
        return None;
    }
    Some(saved_x86_64(frame))
}

/// Returns the registers that a signal frame of x86_64 has.
#[tactic(auto, unfolding(crate::specs::Signal::saved_x86_64))]
fn saved_x86_64(frame: &[u8]) -> UnwindRegsX86_64
    requires { 176 ≤ length frame.now }
    ensures { result ≡ saved_x86_64 frame.now }
{
    let ip = u64_at(frame, 168);
    let sp = u64_at(frame, 160);
    let bp = u64_at(frame, 120);
    let mut regs = UnwindRegsX86_64::new(ip, sp, bp);
    regs.set(Reg::R8, u64_at(frame, 40));
    regs.set(Reg::R9, u64_at(frame, 48));
    regs.set(Reg::R10, u64_at(frame, 56));
    regs.set(Reg::R11, u64_at(frame, 64));
    regs.set(Reg::R12, u64_at(frame, 72));
    regs.set(Reg::R13, u64_at(frame, 80));
    regs.set(Reg::R14, u64_at(frame, 88));
    regs.set(Reg::R15, u64_at(frame, 96));
    regs.set(Reg::RDI, u64_at(frame, 104));
    regs.set(Reg::RSI, u64_at(frame, 112));
    regs.set(Reg::RBX, u64_at(frame, 128));
    regs.set(Reg::RDX, u64_at(frame, 136));
    regs.set(Reg::RAX, u64_at(frame, 144));
    regs.set(Reg::RCX, u64_at(frame, 152));
    regs
}

/// Returns the program counter (AVMA) and x0 to x30, sp and pc of the code of aarch64 that a signal interrupted, x30
/// with its pointer authentication bits. `frame` is the memory from the trampoline's stack pointer on. `None` where it
/// has less than [`FRAME_SIZE_AARCH64`] bytes.
///
/// Source: Linux, `arch/arm64/kernel/signal.c`, `struct rt_sigframe`; `arch/arm64/include/uapi/asm/ucontext.h`,
/// `struct ucontext`; `arch/arm64/include/uapi/asm/sigcontext.h`, `struct sigcontext`.
pub fn interrupted_aarch64(frame: &[u8]) -> Option<(u64, RegisterFile)>
    ensures { result ≡ interrupted_aarch64 frame.now }
{
    if (frame.len() as u64) < FRAME_SIZE_AARCH64 {
        return None;
    }
    Some((u64_at(frame, 568), saved_columns(frame)))
}

/// Returns x0 to x30, sp and pc of a signal frame of aarch64.
fn saved_columns(frame: &[u8]) -> RegisterFile
    requires { 576 ≤ length frame.now }
    ensures { result ≡ columns_by (λ at. Some (le8 frame.now (312 + at * 8))) }
{
    let mut columns = RegisterFile::new();
    let mut at = 0u16;
    while at < 33 {
        let word = u64_at(frame, 312 + usize::from(at) * 8);
        columns.set(Register(at), Some(word));
        at += 1;
    }
    columns
}
