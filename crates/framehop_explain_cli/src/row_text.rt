//! Rows of call frame tables as text, in the words of `readelf --debug-dump=frames-interp`.
ghost use Rattle.std.specs.Prelude.{◌≡◌, ◌++◌, ℕ, List, OnOk, map, option_map, string_bytes};
ghost use Rattle.std.specs.List.{slice_get};
ghost use Rattle.framehop_explain_cli.specs.RowText.{register_text, offset_text, cfa_text, rule_text, column_text, row_text};

use framehop_cfi::row::UnwindTableRow;
use framehop_cfi::rule::{CfaRule, Register, RegisterRule};
use framehop_cfi::storage::UnwindContextStorage;
use framehop_core::aarch64::ArchAarch64;
use framehop_core::x86_64::ArchX86_64;
use std::alloc::AllocError;

/// The registers of a row that are printed: those below this number.
const REGISTERS: u16 = 256;

/// An architecture whose registers have names in call frame information.
pub(crate) trait RegisterNames {
    // the names of the registers, by their numbers
    ghost names: { List (List ℕ) };

    /// Returns the name of a register, if it is known here.
    fn register_name(register: Register) -> Option<&'static str>
        ensures { option_map (λ name. name.now) result ≡ slice_get names register.0 };
}

impl RegisterNames for ArchX86_64 {
    ghost use Rattle.framehop_explain_cli.specs.RowText.{x86_64_names};

    ghost names = { x86_64_names };

    // System V ABI, AMD64 supplement, figure 3.36: 16 is the return address.
    fn register_name(register: Register) -> Option<&'static str> {
        let names = [
            "rax", "rdx", "rcx", "rbx", "rsi", "rdi", "rbp", "rsp", "r8", "r9", "r10", "r11",
            "r12", "r13", "r14", "r15", "ra",
        ];
        name_in(&names, register)
    }
}

impl RegisterNames for ArchAarch64 {
    ghost use Rattle.framehop_explain_cli.specs.RowText.{aarch64_names};

    ghost names = { aarch64_names };

    // DWARF for the Arm 64-bit architecture, section 4.1: 30 is the link register, 31 the stack pointer.
    fn register_name(register: Register) -> Option<&'static str> {
        let names = [
            "x0", "x1", "x2", "x3", "x4", "x5", "x6", "x7", "x8", "x9", "x10", "x11", "x12", "x13",
            "x14", "x15", "x16", "x17", "x18", "x19", "x20", "x21", "x22", "x23", "x24", "x25",
            "x26", "x27", "x28", "x29", "ra", "sp",
        ];
        name_in(&names, register)
    }
}

/// Returns the name that a table has under the number of a register.
fn name_in(names: &[&'static str], register: Register) -> Option<&'static str>
    ensures { option_map (λ name. name.now) result ≡ slice_get (map (λ name. name.now) names.now) register.0 }
{
    names.get(usize::from(register.0)).copied()
}

/// Appends a row: how the CFA is found, and each register that has a rule, as `CFA=rsp+16 rbp=c-16 ra=c-8`.
pub(crate) fn push_row<A: RegisterNames, S: UnwindContextStorage>(
    row: &UnwindTableRow<S>,
    out: &mut String,
) -> Result<(), AllocError>
    ensures { OnOk result (string_bytes out.new ≡ string_bytes out.old ++ row_text A.names row.now) }
{
    out.push_str("CFA=")?;
    push_cfa::<A>(row.cfa(), out)?;
    for number in 0..REGISTERS {
        push_column::<A, S>(row, Register(number), out)?;
    }
    Ok(())
}

/// Appends a register with its rule, if it has one.
fn push_column<A: RegisterNames, S: UnwindContextStorage>(
    row: &UnwindTableRow<S>,
    register: Register,
    out: &mut String,
) -> Result<(), AllocError>
    ensures { OnOk result (string_bytes out.new ≡ string_bytes out.old ++ column_text A.names row.now register.0) }
{
    let Some(rule) = row.register(register) else {
        return Ok(());
    };
    out.push_str(" ")?;
    push_register::<A>(register, out)?;
    out.push_str("=")?;
    push_rule::<A>(rule, out)
}

/// Appends how the CFA is found.
fn push_cfa<A: RegisterNames>(cfa: &CfaRule, out: &mut String) -> Result<(), AllocError>
    ensures { OnOk result (string_bytes out.new ≡ string_bytes out.old ++ cfa_text A.names cfa.now) }
{
    match cfa {
        CfaRule::RegisterAndOffset { register, offset } => {
            push_register::<A>(*register, out)?;
            push_offset(*offset, out)
        }
        CfaRule::Expression(_) => out.push_str("exp"),
    }
}

/// Appends how a register is found: `c-16` at the CFA minus 16 bytes.
fn push_rule<A: RegisterNames>(rule: RegisterRule, out: &mut String) -> Result<(), AllocError>
    ensures { OnOk result (string_bytes out.new ≡ string_bytes out.old ++ rule_text A.names rule) }
{
    match rule {
        RegisterRule::Undefined => out.push_str("u"),
        RegisterRule::SameValue => out.push_str("s"),
        RegisterRule::Offset(offset) => {
            out.push_str("c")?;
            push_offset(offset, out)
        }
        RegisterRule::ValOffset(offset) => {
            out.push_str("v")?;
            push_offset(offset, out)
        }
        RegisterRule::Register(register) => push_register::<A>(register, out),
        RegisterRule::Expression(_) => out.push_str("exp"),
        RegisterRule::ValExpression(_) => out.push_str("vexp"),
    }
}

/// Appends a number of bytes with its sign.
#[tactic(auto, unfolding(crate::specs::RowText::offset_text))]
fn push_offset(offset: i64, out: &mut String) -> Result<(), AllocError>
    ensures { OnOk result (string_bytes out.new ≡ string_bytes out.old ++ offset_text offset) }
{
    let bytes = offset.unsigned_abs();
    if offset < 0 {
        write!(out, "-{bytes}")
    } else {
        write!(out, "+{bytes}")
    }
}

/// Appends the name of a register, or its number.
fn push_register<A: RegisterNames>(register: Register, out: &mut String) -> Result<(), AllocError>
    ensures { OnOk result (string_bytes out.new ≡ string_bytes out.old ++ register_text A.names register) }
{
    match A::register_name(register) {
        Some(name) => out.push_str(name),
        None => write!(out, "r{}", register.0),
    }
}
