//! Registers read from JSON and printed.
ghost use Rattle.std.specs.Prelude.{◌≡◌, ◌++◌, ℕ, List, OnOk, string_bytes};
ghost use Rattle.serde_json.specs.Data.{Data};
ghost use Rattle.serde_json.specs.View.{view};
ghost use Rattle.framehop_walk.specs.Refusals.{Reading, told, reading_of};
ghost use Rattle.framehop_walk.specs.Registers.{read_aarch64, read_x86_64, read_named, read_numbered, read_register as register_read};
ghost use Rattle.framehop_walk.specs.Text.{aarch64_text, register_text, named_registers_text, numbered_registers_text, x86_64_text};

use crate::fields::{hexadecimal, optional_hexadecimal};
use crate::printing::print_hexadecimal;
use crate::refusal::Refusal;
use framehop::Unwinding;
use framehop::aarch64::{ArchAarch64, PtrAuthMask, UnwindRegsAarch64};
use framehop::x86_64::{ArchX86_64, Reg, UnwindRegsX86_64};
use serde_json::Value;
use std::alloc::AllocError;

/// An architecture whose registers are read from JSON and printed.
pub trait Registers: Unwinding {
    // the registers that the field `regs` tells
    ghost reading: { Data → Reading Self.UnwindRegs };

    // what is printed of the registers
    ghost text: { Self.UnwindRegs → List ℕ };

    /// Reads the field `regs` of a command.
    fn read(regs: &Value) -> Result<Self::UnwindRegs, Refusal>
        ensures { told result ≡ reading (view regs.now) };

    /// Prints the registers, each after a blank, in hexadecimal.
    fn print(regs: &Self::UnwindRegs, out: &mut String) -> Result<(), AllocError>
        ensures { OnOk result (string_bytes out.new ≡ string_bytes out.old ++ text regs.now) };
}

#[tactic(auto, unfolding(crate::specs::Registers::read_aarch64, crate::specs::Text::register_text))]
impl Registers for ArchAarch64 {
    ghost reading = { read_aarch64 };

    ghost text = { aarch64_text };

    fn read(regs: &Value) -> Result<UnwindRegsAarch64, Refusal> {
        let lr = hexadecimal(regs, "lr")?;
        let sp = hexadecimal(regs, "sp")?;
        let fp = hexadecimal(regs, "fp")?;
        let mask = match optional_hexadecimal(regs, "mask")? {
            Some(mask) => PtrAuthMask(mask),
            None => PtrAuthMask::new_no_strip(),
        };
        Ok(UnwindRegsAarch64::new_with_ptr_auth_mask(mask, lr, sp, fp))
    }

    fn print(regs: &UnwindRegsAarch64, out: &mut String) -> Result<(), AllocError> {
        let (lr, sp, fp) = (regs.lr(), regs.sp(), regs.fp());
        print_register("lr", lr, out)?;
        print_register("sp", sp, out)?;
        print_register("fp", fp, out)
    }
}

#[tactic(auto, unfolding(crate::specs::Text::x86_64_text, crate::specs::Registers::read_x86_64))]
impl Registers for ArchX86_64 {
    ghost reading = { read_x86_64 };

    ghost text = { x86_64_text };

    fn read(regs: &Value) -> Result<UnwindRegsX86_64, Refusal> {
        let ip = hexadecimal(regs, "ip")?;
        let sp = hexadecimal(regs, "sp")?;
        let bp = hexadecimal(regs, "bp")?;
        let mut read = UnwindRegsX86_64::new(ip, sp, bp);
        read_named_registers(regs, &mut read)?;
        read_numbered_registers(regs, &mut read)?;
        Ok(read)
    }

    fn print(regs: &UnwindRegsX86_64, out: &mut String) -> Result<(), AllocError> {
        print_named_registers(regs, out)?;
        print_numbered_registers(regs, out)
    }
}

/// Reads the registers that have names, each of which may be left out.
#[tactic(auto, unfolding(crate::specs::Registers::read_named))]
fn read_named_registers(regs: &Value, read: &mut UnwindRegsX86_64) -> Result<(), Refusal>
    ensures { reading_of (λ _. read.new) result ≡ read_named (view regs.now) read.old }
{
    read_register("rax", Reg::RAX, regs, read)?;
    read_register("rbx", Reg::RBX, regs, read)?;
    read_register("rcx", Reg::RCX, regs, read)?;
    read_register("rdx", Reg::RDX, regs, read)?;
    read_register("rsi", Reg::RSI, regs, read)?;
    read_register("rdi", Reg::RDI, regs, read)
}

/// Returns the same of the registers that have numbers.
#[tactic(auto, unfolding(crate::specs::Registers::read_numbered))]
fn read_numbered_registers(regs: &Value, read: &mut UnwindRegsX86_64) -> Result<(), Refusal>
    ensures { reading_of (λ _. read.new) result ≡ read_numbered (view regs.now) read.old }
{
    read_register("r8", Reg::R8, regs, read)?;
    read_register("r9", Reg::R9, regs, read)?;
    read_register("r10", Reg::R10, regs, read)?;
    read_register("r11", Reg::R11, regs, read)?;
    read_register("r12", Reg::R12, regs, read)?;
    read_register("r13", Reg::R13, regs, read)?;
    read_register("r14", Reg::R14, regs, read)?;
    read_register("r15", Reg::R15, regs, read)
}

/// Reads a register that may be left out, and then keeps its value.
#[tactic(auto, unfolding(crate::specs::Registers::read_register))]
fn read_register(
    name: &'static str,
    reg: Reg,
    regs: &Value,
    read: &mut UnwindRegsX86_64,
) -> Result<(), Refusal>
    ensures { reading_of (λ _. read.new) result ≡ register_read name.entry.now reg (view regs.now) read.old }
{
    if let Some(value) = optional_hexadecimal(regs, name)? {
        read.set(reg, value);
    }
    Ok(())
}

fn print_named_registers(regs: &UnwindRegsX86_64, out: &mut String) -> Result<(), AllocError>
    ensures { OnOk result (string_bytes out.new ≡ string_bytes out.old ++ named_registers_text regs.now) }
{
    print_register("ip", regs.ip(), out)?;
    print_register("rax", regs.get(Reg::RAX), out)?;
    print_register("rdx", regs.get(Reg::RDX), out)?;
    print_register("rcx", regs.get(Reg::RCX), out)?;
    print_register("rbx", regs.get(Reg::RBX), out)?;
    print_register("rsi", regs.get(Reg::RSI), out)?;
    print_register("rdi", regs.get(Reg::RDI), out)?;
    print_register("rbp", regs.bp(), out)?;
    print_register("rsp", regs.sp(), out)
}

fn print_numbered_registers(regs: &UnwindRegsX86_64, out: &mut String) -> Result<(), AllocError>
    ensures { OnOk result (string_bytes out.new ≡ string_bytes out.old ++ numbered_registers_text regs.now) }
{
    print_register("r8", regs.get(Reg::R8), out)?;
    print_register("r9", regs.get(Reg::R9), out)?;
    print_register("r10", regs.get(Reg::R10), out)?;
    print_register("r11", regs.get(Reg::R11), out)?;
    print_register("r12", regs.get(Reg::R12), out)?;
    print_register("r13", regs.get(Reg::R13), out)?;
    print_register("r14", regs.get(Reg::R14), out)?;
    print_register("r15", regs.get(Reg::R15), out)
}

#[tactic(auto, unfolding(crate::specs::Text::register_text))]
fn print_register(name: &str, value: u64, out: &mut String) -> Result<(), AllocError>
    ensures { OnOk result (string_bytes out.new ≡ string_bytes out.old ++ register_text name.now value) }
{
    out.push(' ')?;
    out.push_str(name)?;
    out.push('=')?;
    print_hexadecimal(value, out)
}
