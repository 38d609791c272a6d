//! What the opcodes of compact unwind info say of a frame on aarch64 (framehop 0.16.0,
//! `aarch64/macho.rs`).
ghost use Rattle.std.specs.Prelude.{◌≡◌};
ghost use Rattle.framehop_macho.specs.Aarch64.{by_opcode};

use super::opcode::OpcodeArm64;
use crate::macho::{CompactUnwindInfoUnwinderError, CompactUnwindInfoUnwinding, CuiUnwindResult};
use crate::unwind_info::info::Function;
use framehop_analysis::InstructionAnalysis;
use framehop_core::aarch64::{ArchAarch64, UnwindRuleAarch64};

/// Returns what an opcode says.
fn unwind_by_opcode(
    opcode: OpcodeArm64,
    is_first_frame: bool,
) -> Result<CuiUnwindResult<UnwindRuleAarch64>, CompactUnwindInfoUnwinderError>
    ensures { result ≡ by_opcode opcode is_first_frame }
{
    let rule = match opcode {
        OpcodeArm64::Null if is_first_frame => UnwindRuleAarch64::NoOp,
        OpcodeArm64::Null => return Err(CompactUnwindInfoUnwinderError::FunctionHasNoInfo),
        OpcodeArm64::Frameless { .. } if !is_first_frame => {
            return Err(CompactUnwindInfoUnwinderError::CallerCannotBeFrameless);
        }
        OpcodeArm64::Frameless {
            stack_size_by_16: 0,
        } => UnwindRuleAarch64::NoOp,
        OpcodeArm64::Frameless { stack_size_by_16 } => {
            UnwindRuleAarch64::OffsetSp {
                sp_offset_by_16: stack_size_by_16,
            }
        }
        OpcodeArm64::Dwarf { eh_frame_fde } => return Ok(CuiUnwindResult::NeedDwarf(eh_frame_fde)),
        OpcodeArm64::FrameBased => UnwindRuleAarch64::UseFramePointer,
        OpcodeArm64::UnrecognizedKind(kind) => {
            return Err(CompactUnwindInfoUnwinderError::BadOpcodeKind(kind));
        }
    };
    Ok(CuiUnwindResult::ExecRule(rule))
}

impl CompactUnwindInfoUnwinding for ArchAarch64 {
    ghost use Rattle.framehop_macho.specs.Aarch64.{says, helper_rule, by_code};
    ghost use Rattle.framehop_analysis.specs.Laws.Aarch64.Means.{analysed-means};
    ghost use Rattle.framehop_macho.specs.Laws.Aarch64.{says-by_code, by_code-analysed};

    ghost says = { says };

    ghost helper_rule = { helper_rule };

    ghost by_code = { by_code };

    ghost says_by_code = { says-by_code };

    ghost code_means = { λ function code offset rule is. analysed-means code offset rule (by_code-analysed function code offset rule is) };

    fn unwind_frame(
        function: Function,
        is_first_frame: bool,
        address_offset_within_function: usize,
        function_bytes: Option<&[u8]>,
    ) -> Result<CuiUnwindResult<UnwindRuleAarch64>, CompactUnwindInfoUnwinderError> {
        let opcode = OpcodeArm64::parse(function.opcode);
        if !is_first_frame {
            return unwind_by_opcode(opcode, false);
        }
        if let OpcodeArm64::Null = opcode {
            return unwind_by_opcode(opcode, true);
        }
        // No opcode describes a prologue or an epilogue: there the instructions at the pc decide.
        if let Some(code) = function_bytes {
            if let Some(rule) = Self::rule_from_instruction_analysis(
                code,
                address_offset_within_function,
            ) {
                return Ok(CuiUnwindResult::ExecRule(rule));
            }
        }
        unwind_by_opcode(opcode, true)
    }

    fn rule_for_stub_helper(
        offset: u32,
    ) -> Result<CuiUnwindResult<UnwindRuleAarch64>, CompactUnwindInfoUnwinderError> {
        //     shared:
        // +0x00  adr  x17, ..
        // +0x04  nop
        // +0x08  stp  x16, x17, [sp, #-0x10]!
        // +0x0c  nop
        // +0x10  ldr  x16, ..
        // +0x14  br   x16
        //     a stub:
        // +0x18  ldr  w16, ..
        // +0x1c  b    shared
        let rule = if offset < 0xc {
            UnwindRuleAarch64::NoOp
        } else if offset < 0x18 {
            // The two registers lie on the stack.
            UnwindRuleAarch64::OffsetSp { sp_offset_by_16: 1 }
        } else {
            UnwindRuleAarch64::NoOp
        };
        Ok(CuiUnwindResult::ExecRule(rule))
    }
}
