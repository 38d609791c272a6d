//! Unwind rules as text: the rule as the library has it, then the same in the words of call frame information, where the
//! canonical frame address (CFA) is and where the caller's registers are. The CFA is the caller's stack pointer (DWARF 5
//! section 6.4).
ghost use Rattle.std.specs.Prelude.{◌≡◌, ◌<◌, ◌≤◌, ◌+◌, ◌*◌, ◌^◌, ℕ, List, length, Some, pos, ◌*ℤ◌, ◌-ℤ◌, ◌++◌, codes};
ghost use Rattle.std.specs.Fmt.{DisplaysOnOk, WritesOnOk, decimal};
ghost use Rattle.framehop_core.specs.X86_64.Ordering.{ordering};
ghost use Rattle.framehop_explain.specs.RuleText.{distance_text, cfa_place, register_name, pops_text, popped_text, x86_64_rule_text, aarch64_rule_text};

use framehop_core::aarch64::UnwindRuleAarch64;
use framehop_core::unwind_rule::UnwindRule;
use framehop_core::x86_64::{Reg, UnwindRuleX86_64, register_ordering};
use std::fmt;

/// A rule that can be written as text.
pub trait DescribeRule: UnwindRule {
    // the text
    ghost rule_text: { Self → List ℕ };

    /// Writes on one line the rule by its name and its fields, then where the CFA and the caller's registers are, offsets in
    /// bytes.
    fn describe<W: fmt::Write>(self, f: &mut fmt::Formatter<W>) -> fmt::Result
        ensures { DisplaysOnOk W.write_str_gives f.old result (Some (rule_text self)) f.new };
}

/// A rule whose `Display` is its text:
/// `OffsetSp { sp_offset_by_8: 3 }: CFA = rsp + 24; return address at CFA - 8`.
#[derive(Clone, Copy)]
pub struct Described<R>(pub R);

impl<R: DescribeRule> fmt::Display for Described<R> {
    ghost output = { λ described. Some (R.rule_text described.0) };

    fn fmt<W: fmt::Write>(&self, f: &mut fmt::Formatter<W>) -> fmt::Result {
        self.0.describe(f)
    }
}

/// An offset in units of 8 or 16 bytes, which is printed in bytes.
#[derive(Clone, Copy)]
struct Offset {
    count: u16,
    unit: u8,
}

impl Offset {
    /// Returns the offset in bytes.
    fn bytes(self) -> u32
        ensures exact { result ≡ self.count * self.unit }
        ensures fits { result < 2 ^ 24 }
    {
        u32::from(self.count) * u32::from(self.unit)
    }
}

impl fmt::Display for Offset {
    ghost output = { λ offset. Some (decimal (offset.count * offset.unit)) };

    fn fmt<W: fmt::Write>(&self, f: &mut fmt::Formatter<W>) -> fmt::Result {
        let bytes = self.bytes();
        write!(f, "{bytes}")
    }
}

/// A place at a distance from the CFA, in bytes.
#[derive(Clone, Copy)]
struct Distance(i32);

impl fmt::Display for Distance {
    ghost output = { λ distance. Some (distance_text distance.0) };

    #[tactic(auto, unfolding(crate::specs::RuleText::distance_text))]
    fn fmt<W: fmt::Write>(&self, f: &mut fmt::Formatter<W>) -> fmt::Result {
        let bytes = self.0.unsigned_abs();
        if self.0 < 0 {
            write!(f, "CFA - {bytes}")
        } else {
            write!(f, "CFA + {bytes}")
        }
    }
}

/// A place at an offset from a base, in words of 8 bytes, where the CFA is at another offset from the same base.
#[derive(Clone, Copy)]
struct Place {
    offset_by_8: i16,
    cfa: Offset,
}

impl Place {
    /// Returns how far it is from the CFA.
    fn distance(self) -> Distance
        ensures { result.0 ≡ (self.offset_by_8 *ℤ pos 8) -ℤ pos (self.cfa.count * self.cfa.unit) }
    {
        Distance(i32::from(self.offset_by_8) * 8 - self.cfa.bytes() as i32)
    }
}

impl fmt::Display for Place {
    ghost output = { λ place. Some (cfa_place place.offset_by_8 (place.cfa.count * place.cfa.unit)) };

    #[tactic(auto, unfolding(crate::specs::RuleText::cfa_place))]
    fn fmt<W: fmt::Write>(&self, f: &mut fmt::Formatter<W>) -> fmt::Result {
        let distance = self.distance();
        write!(f, "{distance}")
    }
}

/// Registers that are popped from an offset of the stack pointer on, in words of 8 bytes.
#[derive(Clone, Copy)]
struct Pops {
    sp_offset_by_8: u16,
    register_count: u8,
    encoded_registers: u16,
}

impl fmt::Display for Pops {
    ghost output = { λ pops. Some (popped_text pops.sp_offset_by_8 (ordering pops.register_count pops.encoded_registers)) };

    #[tactic(auto, unfolding(crate::specs::RuleText::popped_text))]
    fn fmt<W: fmt::Write>(&self, f: &mut fmt::Formatter<W>) -> fmt::Result {
        let registers = register_ordering::decode(self.register_count, self.encoded_registers);
        let cfa = (u64::from(self.sp_offset_by_8) + registers.len() as u64 + 1) * 8;
        write!(f, "CFA = rsp + {cfa}")?;
        write_pops(registers.as_slice(), f)
    }
}

/// Writes where registers lie that are popped one after another: the last one next to the return address.
fn write_pops<W: fmt::Write>(registers: &[Reg], f: &mut fmt::Formatter<W>) -> fmt::Result
    requires { length registers.now ≤ 8 }
    ensures { WritesOnOk W.write_str_gives f.old result (pops_text registers.now) f.new }
{
    for (i, register) in registers.iter().enumerate() {
        let distance = (registers.len() - i + 1) * 8;
        write!(f, "; {} at CFA - {distance}", register_name(*register))?;
    }
    Ok(())
}

/// Returns the name of a register of x86_64.
fn register_name(register: Reg) -> &'static str
    ensures { result.now ≡ register_name register }
{
    match register {
        Reg::RAX => "rax",
        Reg::RDX => "rdx",
        Reg::RCX => "rcx",
        Reg::RBX => "rbx",
        Reg::RSI => "rsi",
        Reg::RDI => "rdi",
        Reg::RBP => "rbp",
        Reg::RSP => "rsp",
        Reg::R8 => "r8",
        Reg::R9 => "r9",
        Reg::R10 => "r10",
        Reg::R11 => "r11",
        Reg::R12 => "r12",
        Reg::R13 => "r13",
        Reg::R14 => "r14",
        Reg::R15 => "r15",
    }
}

impl DescribeRule for UnwindRuleX86_64 {
    ghost rule_text = { x86_64_rule_text };

    fn describe<W: fmt::Write>(self, f: &mut fmt::Formatter<W>) -> fmt::Result {
        match self {
            UnwindRuleX86_64::EndOfStack => write!(f, "EndOfStack: end of the stack"),
            UnwindRuleX86_64::JustReturn => {
                write!(f, "JustReturn: CFA = rsp + 8; return address at CFA - 8")
            }
            UnwindRuleX86_64::JustReturnIfFirstFrameOtherwiseFp => write!(
                f,
                "JustReturnIfFirstFrameOtherwiseFp: in a first frame CFA = rsp + 8, else CFA = rbp + 16 and rbp at CFA - \
                 16; return address at CFA - 8"
            ),
            UnwindRuleX86_64::OffsetSp { sp_offset_by_8 } => {
                let cfa = Offset {
                    count: sp_offset_by_8,
                    unit: 8,
                };
                write!(
                    f,
                    "OffsetSp {{ sp_offset_by_8: {sp_offset_by_8} }}: CFA = rsp + {cfa}; return address at CFA - 8"
                )
            }
            UnwindRuleX86_64::OffsetSpAndRestoreBp {
                sp_offset_by_8: x,
                bp_storage_offset_from_sp_by_8: y,
            } => {
                let cfa = Offset { count: x, unit: 8 };
                let rbp = Place {
                    offset_by_8: y,
                    cfa,
                };
                write!(
                    f,
                    "OffsetSpAndRestoreBp {{ sp_offset_by_8: {x}, bp_storage_offset_from_sp_by_8: {y} }}: CFA = rsp + \
                     {cfa}; rbp at {rbp}; return address at CFA - 8"
                )
            }
            UnwindRuleX86_64::UseFramePointer => write!(
                f,
                "UseFramePointer: CFA = rbp + 16; rbp at CFA - 16; return address at CFA - 8"
            ),
            UnwindRuleX86_64::UseFramePointerWithOffsets {
                sp_offset_from_bp_by_8: x,
                bp_storage_offset_from_bp_by_8: y,
            } => {
                let cfa = Offset { count: x, unit: 8 };
                let rbp = Place {
                    offset_by_8: y,
                    cfa,
                };
                write!(
                    f,
                    "UseFramePointerWithOffsets {{ sp_offset_from_bp_by_8: {x}, bp_storage_offset_from_bp_by_8: {y} }}: \
                     CFA = rbp + {cfa}; rbp at {rbp}; return address at CFA - 8"
                )
            }
            UnwindRuleX86_64::OffsetSpAndPopRegisters {
                sp_offset_by_8: x,
                register_count: count,
                encoded_registers_to_pop: number,
            } => {
                let pops = Pops {
                    sp_offset_by_8: x,
                    register_count: count,
                    encoded_registers: number,
                };
                write!(
                    f,
                    "OffsetSpAndPopRegisters {{ sp_offset_by_8: {x}, register_count: {count}, encoded_registers_to_pop: \
                     {number} }}: {pops}; return address at CFA - 8"
                )
            }
        }
    }
}

impl DescribeRule for UnwindRuleAarch64 {
    ghost rule_text = { aarch64_rule_text };

    fn describe<W: fmt::Write>(self, f: &mut fmt::Formatter<W>) -> fmt::Result {
        match self {
            UnwindRuleAarch64::NoOp => write!(f, "NoOp: CFA = sp; return address in lr"),
            UnwindRuleAarch64::NoOpIfFirstFrameOtherwiseFp => write!(
                f,
                "NoOpIfFirstFrameOtherwiseFp: in a first frame CFA = sp and return address in lr, else CFA = fp + 16, fp \
                 at CFA - 16 and return address at CFA - 8"
            ),
            UnwindRuleAarch64::OffsetSp { sp_offset_by_16: x } => {
                let cfa = Offset { count: x, unit: 16 };
                write!(
                    f,
                    "OffsetSp {{ sp_offset_by_16: {x} }}: CFA = sp + {cfa}; return address in lr"
                )
            }
            UnwindRuleAarch64::OffsetSpIfFirstFrameOtherwiseStackEndsHere { sp_offset_by_16: x } =>
                {
                    let cfa = Offset { count: x, unit: 16 };
                    write!(
                        f,
                        "OffsetSpIfFirstFrameOtherwiseStackEndsHere {{ sp_offset_by_16: {x} }}: in a first frame CFA = sp + \
                     {cfa} and return address in lr, else end of the stack"
                    )
                }
            UnwindRuleAarch64::OffsetSpAndRestoreLr {
                sp_offset_by_16: x,
                lr_storage_offset_from_sp_by_8: z,
            } => {
                let cfa = Offset { count: x, unit: 16 };
                let lr = Place {
                    offset_by_8: z,
                    cfa,
                };
                write!(
                    f,
                    "OffsetSpAndRestoreLr {{ sp_offset_by_16: {x}, lr_storage_offset_from_sp_by_8: {z} }}: CFA = sp + \
                     {cfa}; return address at {lr}"
                )
            }
            UnwindRuleAarch64::OffsetSpAndRestoreFpAndLr {
                sp_offset_by_16: x,
                fp_storage_offset_from_sp_by_8: y,
                lr_storage_offset_from_sp_by_8: z,
            } => {
                let cfa = Offset { count: x, unit: 16 };
                let fp = Place {
                    offset_by_8: y,
                    cfa,
                };
                let lr = Place {
                    offset_by_8: z,
                    cfa,
                };
                write!(
                    f,
                    "OffsetSpAndRestoreFpAndLr {{ sp_offset_by_16: {x}, fp_storage_offset_from_sp_by_8: {y}, \
                     lr_storage_offset_from_sp_by_8: {z} }}: CFA = sp + {cfa}; fp at {fp}; return address at {lr}"
                )
            }
            UnwindRuleAarch64::UseFramePointer => write!(
                f,
                "UseFramePointer: CFA = fp + 16; fp at CFA - 16; return address at CFA - 8"
            ),
            UnwindRuleAarch64::UseFramepointerWithOffsets {
                sp_offset_from_fp_by_8: x,
                fp_storage_offset_from_fp_by_8: y,
                lr_storage_offset_from_fp_by_8: z,
            } => {
                let cfa = Offset { count: x, unit: 8 };
                let fp = Place {
                    offset_by_8: y,
                    cfa,
                };
                let lr = Place {
                    offset_by_8: z,
                    cfa,
                };
                write!(
                    f,
                    "UseFramepointerWithOffsets {{ sp_offset_from_fp_by_8: {x}, fp_storage_offset_from_fp_by_8: {y}, \
                     lr_storage_offset_from_fp_by_8: {z} }}: CFA = fp + {cfa}; fp at {fp}; return address at {lr}"
                )
            }
        }
    }
}
