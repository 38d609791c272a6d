//! The registers of a thread, for the unwinders.
ghost use Rattle.std.specs.Prelude.{◌≡◌, ◌≤◌, length};
ghost use Rattle.framehop_dump_files.specs.Coredump.Registers.{general_of, x86_64_registers, aarch64_registers, code_mask_of};

use framehop_bytes::bytes::u64_at;
use framehop_core::aarch64::{PtrAuthMask, UnwindRegsAarch64};
use framehop_core::x86_64::{Reg, UnwindRegsX86_64};

/// The size of `struct user_regs_struct`, in bytes.
const USER_REGS_SIZE: usize = 216;

/// The size of `struct user_pt_regs`, in bytes.
const USER_PT_REGS_SIZE: usize = 272;

/// Returns the registers of a thread on x86_64, or `None` where these are fewer bytes than its
/// registers have.
///
/// Source: Linux, `arch/x86/include/asm/user_64.h`, `struct user_regs_struct`.
pub fn x86_64_registers(values: &[u8]) -> Option<UnwindRegsX86_64>
    ensures { result ≡ x86_64_registers values.now }
{
    if values.len() < USER_REGS_SIZE {
        return None;
    }
    Some(general(values))
}

/// Returns the registers of x86_64 that have these bytes.
#[tactic(auto, unfolding(crate::specs::Coredump::Registers::general_of))]
fn general(values: &[u8]) -> UnwindRegsX86_64
    requires { 216 ≤ length values.now }
    ensures { result ≡ general_of values.now }
{
    let ip = u64_at(values, 128);
    let sp = u64_at(values, 152);
    let bp = u64_at(values, 32);
    let mut regs = UnwindRegsX86_64::new(ip, sp, bp);
    regs.set(Reg::R15, u64_at(values, 0));
    regs.set(Reg::R14, u64_at(values, 8));
    regs.set(Reg::R13, u64_at(values, 16));
    regs.set(Reg::R12, u64_at(values, 24));
    regs.set(Reg::RBX, u64_at(values, 40));
    regs.set(Reg::R11, u64_at(values, 48));
    regs.set(Reg::R10, u64_at(values, 56));
    regs.set(Reg::R9, u64_at(values, 64));
    regs.set(Reg::R8, u64_at(values, 72));
    regs.set(Reg::RAX, u64_at(values, 80));
    regs.set(Reg::RCX, u64_at(values, 88));
    regs.set(Reg::RDX, u64_at(values, 96));
    regs.set(Reg::RSI, u64_at(values, 104));
    regs.set(Reg::RDI, u64_at(values, 112));
    regs
}

/// Returns the program counter and the registers of a thread on aarch64, with the mask of lr, or `None`
/// where these are fewer bytes than its registers have. [`code_ptr_auth_mask`] is the mask.
///
/// Source: Linux, `arch/arm64/include/uapi/asm/ptrace.h`, `struct user_pt_regs`.
pub fn aarch64_registers(
    code_ptr_auth_mask: PtrAuthMask,
    values: &[u8],
) -> Option<(u64, UnwindRegsAarch64)>
    ensures { result ≡ aarch64_registers code_ptr_auth_mask.0 values.now }
{
    if values.len() < USER_PT_REGS_SIZE {
        return None;
    }
    let fp = u64_at(values, 232);
    let lr = u64_at(values, 240);
    let sp = u64_at(values, 248);
    let pc = u64_at(values, 256);
    let regs = UnwindRegsAarch64::new_with_ptr_auth_mask(code_ptr_auth_mask, lr, sp, fp);
    Some((pc, regs))
}

/// Returns the mask of return addresses on aarch64, from a thread's `pac_mask`: the bits that are no
/// signature, or all bits where the thread has no such mask.
///
/// Source: Linux, `Documentation/arch/arm64/pointer-authentication.rst`, "Debugging".
pub fn code_ptr_auth_mask(pac_mask: Option<u64>) -> PtrAuthMask
    ensures { result.0 ≡ code_mask_of pac_mask }
{
    match pac_mask {
        Some(pac_mask) => PtrAuthMask(u64::MAX - pac_mask),
        None => PtrAuthMask::new_no_strip(),
    }
}
