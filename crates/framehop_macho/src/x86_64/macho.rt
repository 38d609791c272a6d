//! What the opcodes of compact unwind info say of a frame on x86_64 (framehop 0.16.0,
//! `x86_64/macho.rs`).
ghost use Rattle.std.specs.Prelude.{◌≡◌};
ghost use Rattle.std.specs.Option.{option_copied};
ghost use Rattle.framehop_macho.specs.X86_64.{with_bp, frameless_rule, indirect_size, uncovered_rule, by_opcode};

use super::opcode::OpcodeX86_64;
use crate::macho::{CompactUnwindInfoUnwinderError, CompactUnwindInfoUnwinding, CuiUnwindResult};
use crate::unwind_info::info::Function;
use framehop_analysis::InstructionAnalysis;
use framehop_bytes::bytes::u32_at;
use framehop_core::x86_64::{ArchX86_64, UnwindRuleX86_64};

/// Returns the rule of a stack of so many words of 8 bytes, with rbp stored at a place, if it is.
fn rule_with_bp(
    sp_offset_by_8: u16,
    bp_position: Option<u8>,
) -> Result<UnwindRuleX86_64, CompactUnwindInfoUnwinderError>
    ensures { result ≡ with_bp sp_offset_by_8 bp_position }
{
    let Some(place) = bp_position else {
        return Ok(UnwindRuleX86_64::OffsetSp { sp_offset_by_8 });
    };
    let bp_offset_by_8 = i32::from(sp_offset_by_8) - 2 - i32::from(place);
    let Ok(bp_storage_offset_from_sp_by_8) = i16::try_from(bp_offset_by_8) else {
        return Err(CompactUnwindInfoUnwinderError::BpOffsetDoesNotFit);
    };
    Ok(UnwindRuleX86_64::OffsetSpAndRestoreBp {
        sp_offset_by_8,
        bp_storage_offset_from_sp_by_8,
    })
}

/// Returns the rule of a stack of so many bytes, with rbp stored at a place, if it is.
fn rule_of_stack_size(
    stack_size_in_bytes: u32,
    bp_position: Option<u8>,
) -> Result<UnwindRuleX86_64, CompactUnwindInfoUnwinderError>
    ensures { result ≡ frameless_rule stack_size_in_bytes bp_position }
{
    if stack_size_in_bytes % 8 != 0 || stack_size_in_bytes / 8 > 0xffff {
        return Err(CompactUnwindInfoUnwinderError::StackSizeDoesNotFit);
    }
    rule_with_bp((stack_size_in_bytes / 8) as u16, bp_position)
}

/// Returns the size of a stack, in bytes, that a function's code has, with what is to be added.
#[tactic(auto, unfolding(crate::specs::X86_64::indirect_size))]
fn indirect_stack_size(
    function_bytes: Option<&[u8]>,
    immediate_offset_from_function_start: u8,
    stack_adjust_in_bytes: u8,
) -> Result<u32, CompactUnwindInfoUnwinderError>
    ensures { result ≡ indirect_size (option_copied function_bytes.entry) immediate_offset_from_function_start stack_adjust_in_bytes }
{
    let Some(code) = function_bytes else {
        return Err(CompactUnwindInfoUnwinderError::NoTextBytesToLookUpIndirectStackOffset);
    };
    let at = usize::from(immediate_offset_from_function_start);
    if code.len() < at + 4 {
        return Err(CompactUnwindInfoUnwinderError::IndirectStackOffsetOutOfBounds);
    }
    u32_at(code, at)
        .checked_add(u32::from(stack_adjust_in_bytes))
        .ok_or(CompactUnwindInfoUnwinderError::StackAdjustOverflow)
}

/// Returns the rule in a first frame of a function without info, outside prologues and epilogues.
fn rule_of_uncovered_function(function_bytes: Option<&[u8]>) -> UnwindRuleX86_64
    ensures { result ≡ uncovered_rule (option_copied function_bytes.entry) }
{
    match function_bytes {
        // push rbp; mov rbp, rsp
        Some(code) if code.starts_with(&[0x55, 0x48, 0x89, 0xe5]) =>
            UnwindRuleX86_64::UseFramePointer,
        _ => UnwindRuleX86_64::JustReturn,
    }
}

/// Returns what an opcode says.
fn unwind_by_opcode(
    opcode: OpcodeX86_64,
    is_first_frame: bool,
    function_bytes: Option<&[u8]>,
) -> Result<CuiUnwindResult<UnwindRuleX86_64>, CompactUnwindInfoUnwinderError>
    ensures { result ≡ by_opcode opcode is_first_frame (option_copied function_bytes.entry) }
{
    let rule = match opcode {
        OpcodeX86_64::Null if is_first_frame => rule_of_uncovered_function(function_bytes),
        OpcodeX86_64::Null => return Err(CompactUnwindInfoUnwinderError::FunctionHasNoInfo),
        OpcodeX86_64::FrameBased => UnwindRuleX86_64::UseFramePointer,
        OpcodeX86_64::FramelessImmediate {
            stack_size_in_bytes: 8,
            ..
        } => { UnwindRuleX86_64::JustReturn }
        OpcodeX86_64::FramelessImmediate {
            stack_size_in_bytes,
            bp_position,
        } => { rule_of_stack_size(u32::from(stack_size_in_bytes), bp_position)? }
        OpcodeX86_64::FramelessIndirect {
            immediate_offset_from_function_start,
            stack_adjust_in_bytes,
            bp_position,
        } => {
            let stack_size_in_bytes = indirect_stack_size(
                function_bytes,
                immediate_offset_from_function_start,
                stack_adjust_in_bytes,
            )?;
            rule_of_stack_size(stack_size_in_bytes, bp_position)?
        }
        OpcodeX86_64::Dwarf { eh_frame_fde } => return Ok(CuiUnwindResult::NeedDwarf(eh_frame_fde)),
        OpcodeX86_64::InvalidFrameless => return Err(
            CompactUnwindInfoUnwinderError::InvalidFrameless,
        ),
        OpcodeX86_64::UnrecognizedKind(kind) => {
            return Err(CompactUnwindInfoUnwinderError::BadOpcodeKind(kind));
        }
    };
    Ok(CuiUnwindResult::ExecRule(rule))
}

impl CompactUnwindInfoUnwinding for ArchX86_64 {
    ghost use Rattle.framehop_macho.specs.X86_64.{says, helper_rule, by_code};
    ghost use Rattle.framehop_analysis.specs.Laws.X86_64.Means.{analysed-means};
    ghost use Rattle.framehop_macho.specs.Laws.X86_64.{says-by_code};

    ghost says = { says };

    ghost helper_rule = { helper_rule };

    ghost by_code = { by_code };

    ghost says_by_code = { says-by_code };

    ghost code_means = { λ function. analysed-means };

    fn unwind_frame(
        function: Function,
        is_first_frame: bool,
        address_offset_within_function: usize,
        function_bytes: Option<&[u8]>,
    ) -> Result<CuiUnwindResult<UnwindRuleX86_64>, CompactUnwindInfoUnwinderError> {
        if is_first_frame {
            // No opcode describes a prologue or an epilogue: there the instructions at the pc decide.
            if let Some(code) = function_bytes {
                if let Some(rule) = Self::rule_from_instruction_analysis(
                    code,
                    address_offset_within_function,
                ) {
                    return Ok(CuiUnwindResult::ExecRule(rule));
                }
            }
        }
        unwind_by_opcode(
            OpcodeX86_64::parse(function.opcode),
            is_first_frame,
            function_bytes,
        )
    }

    fn rule_for_stub_helper(
        offset: u32,
    ) -> Result<CuiUnwindResult<UnwindRuleX86_64>, CompactUnwindInfoUnwinderError> {
        //     shared:
        // +0x00  lea  r11, [rip + ..]
        // +0x07  push r11
        // +0x09  jmp  [rip + ..]
        // +0x0f  nop
        //     a stub:
        // +0x10  push ..
        // +0x15  jmp  shared
        let rule = if offset < 0x7 {
            // The stub has pushed its number.
            UnwindRuleX86_64::OffsetSp { sp_offset_by_8: 2 }
        } else if offset < 0x10 {
            // r11 is being pushed, or has been.
            UnwindRuleX86_64::OffsetSp { sp_offset_by_8: 3 }
        } else if (offset - 0x10) % 10 < 5 {
            UnwindRuleX86_64::JustReturn
        } else {
            UnwindRuleX86_64::OffsetSp { sp_offset_by_8: 2 }
        };
        Ok(CuiUnwindResult::ExecRule(rule))
    }
}
