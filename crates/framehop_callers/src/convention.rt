//! What a calling convention says of columns that a row doesn't name.
ghost use Rattle.std.specs.Prelude.{◌≡◌, ◌&&◌, nat_le};
ghost use Rattle.framehop_callers.specs.Convention.{stack_pointer_of, program_counter_of, return_address_of, scratch_of, keeps};

use framehop_cfi::rule::Register;
use framehop_cfi::{aarch64, x86_64};
use framehop_code::action::Registers;

/// The calling convention of an architecture.
#[derive(Clone, Copy, PartialEq, Eq)]
pub enum Convention {
    /// System V ABI for AMD64
    X86_64,
    /// Procedure Call Standard for the Arm 64-bit Architecture
    Aarch64,
}

impl Convention {
    /// Returns the column of the stack pointer.
    pub fn stack_pointer(self) -> Register
        ensures { result ≡ record { 0 = stack_pointer_of self } }
    {
        match self {
            Convention::X86_64 => x86_64::RSP,
            Convention::Aarch64 => aarch64::SP,
        }
    }

    /// Returns the column of the program counter.
    pub fn program_counter(self) -> Register
        ensures { result ≡ record { 0 = program_counter_of self } }
    {
        match self {
            Convention::X86_64 => x86_64::RA,
            Convention::Aarch64 => aarch64::PC,
        }
    }

    /// Returns the column of the return address.
    pub fn return_address(self) -> Register
        ensures { result ≡ record { 0 = return_address_of self } }
    {
        match self {
            Convention::X86_64 => x86_64::RA,
            Convention::Aarch64 => aarch64::X30,
        }
    }

    /// Returns the registers that a function need not keep: of x86_64 rax, rcx, rdx, rsi, rdi and r8 to r11, of aarch64 x0 to
    /// x18 and x30.
    pub(crate) fn scratch(self) -> Registers
        ensures { result ≡ record { 0 = scratch_of self } }
    {
        match self {
            Convention::X86_64 => Registers(0x0f37),
            Convention::Aarch64 => Registers(0x4007_ffff),
        }
    }

    /// Returns whether a function that doesn't save a register leaves it as it was.
    pub fn keeps(self, register: Register) -> bool
        ensures { result ≡ keeps self register.0 }
    {
        match self {
            Convention::X86_64 => {
                register == x86_64::RBX
                    || register == x86_64::RBP
                    || is_between(register, x86_64::R12, x86_64::R15)
            }
            Convention::Aarch64 => is_between(register, aarch64::X19, aarch64::X30),
        }
    }
}

/// Returns whether a register has the number of the first or the last one, or one between.
fn is_between(register: Register, first: Register, last: Register) -> bool
    ensures { result ≡ (nat_le first.0 register.0 && nat_le register.0 last.0) }
{
    first.0 <= register.0 && register.0 <= last.0
}
