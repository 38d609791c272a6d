//! The unwind rules of prologues and epilogues on x86_64.
mod bytes;
mod epilogue;
mod prologue;

use crate::instruction_analysis::InstructionAnalysis;
pub use epilogue::unwind_rule_from_detected_epilogue;
use framehop_core::x86_64::{ArchX86_64, UnwindRuleX86_64};
pub use prologue::unwind_rule_from_detected_prologue;

impl InstructionAnalysis for ArchX86_64 {
    ghost use Rattle.framehop_analysis.specs.X86_64.Prologue.{IsPrologueRule, ReachesFrom, UndonePrologue};
    ghost use Rattle.framehop_analysis.specs.X86_64.Epilogue.{IsEpilogueRule, EndsFrom, DoneEpilogue};
    ghost use Rattle.framehop_analysis.specs.X86_64.Analysed.{analysed, analysed-only};

    ghost prologue_rule = { IsPrologueRule };

    ghost epilogue_rule = { IsEpilogueRule };

    ghost analysed = { analysed };

    ghost analysed_only = { analysed-only };

    ghost reaches = { ReachesFrom };

    ghost undone_prologue = { UndonePrologue };

    ghost ends = { EndsFrom };

    ghost done_epilogue = { DoneEpilogue };

    fn rule_from_prologue_analysis(
        text_bytes: &[u8],
        pc_offset: usize,
    ) -> Option<UnwindRuleX86_64> {
        unwind_rule_from_detected_prologue(text_bytes, pc_offset)
    }

    fn rule_from_epilogue_analysis(
        text_bytes: &[u8],
        pc_offset: usize,
    ) -> Option<UnwindRuleX86_64> {
        unwind_rule_from_detected_epilogue(text_bytes, pc_offset)
    }
}
