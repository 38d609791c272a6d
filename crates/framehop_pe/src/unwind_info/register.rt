//! The numbers of the registers in x64 machine code and unwind info.
ghost use Rattle.std.specs.Prelude.{◌≡◌, ◌<◌};
ghost use Rattle.framehop_pe.specs.Register.{register_of};

use framehop_core::x86_64::Reg;

const REGISTERS: [Reg; 16] = [
    Reg::RAX,
    Reg::RCX,
    Reg::RDX,
    Reg::RBX,
    Reg::RSP,
    Reg::RBP,
    Reg::RSI,
    Reg::RDI,
    Reg::R8,
    Reg::R9,
    Reg::R10,
    Reg::R11,
    Reg::R12,
    Reg::R13,
    Reg::R14,
    Reg::R15,
];

/// Returns the register of a number.
#[inline(always)]
#[tactic(auto, unfolding(crate::specs::Register::register_of))]
pub fn register_of(number: u8) -> Reg
    requires { number < 16 }
    ensures { result ≡ register_of number }
{
    REGISTERS[number as usize]
}
