//! The unwind rules of prologues and epilogues on aarch64.
mod epilogue;
mod prologue;
mod units;
mod words;

use crate::instruction_analysis::InstructionAnalysis;
pub use epilogue::unwind_rule_from_detected_epilogue;
use framehop_core::aarch64::{ArchAarch64, UnwindRuleAarch64};
pub use prologue::unwind_rule_from_detected_prologue;

impl InstructionAnalysis for ArchAarch64 {
    ghost use Rattle.std.specs.Prelude.{take, drop};
    ghost use Rattle.framehop_analysis.specs.Aarch64.Prologue.{IsPrologueRule, ReachesFrom, UndonePrologue};
    ghost use Rattle.framehop_analysis.specs.Aarch64.Epilogue.{IsEpilogueRule, EndsFrom, DoneEpilogue};
    ghost use Rattle.framehop_analysis.specs.Aarch64.Analysed.{analysed, analysed-only};

    ghost prologue_rule = { λ text pc rule. IsPrologueRule (take pc text) (drop pc text) rule };

    ghost epilogue_rule = { IsEpilogueRule };

    ghost analysed = { analysed };

    ghost analysed_only = { analysed-only };

    ghost reaches = { λ text pc. ReachesFrom (take pc text) };

    ghost undone_prologue = { λ text pc. UndonePrologue (take pc text) };

    ghost ends = { EndsFrom };

    ghost done_epilogue = { DoneEpilogue };

    fn rule_from_prologue_analysis(
        text_bytes: &[u8],
        pc_offset: usize,
    ) -> Option<UnwindRuleAarch64> {
        let (slice_from_start, slice_to_end) = text_bytes.split_at(pc_offset);
        unwind_rule_from_detected_prologue(slice_from_start, slice_to_end)
    }

    fn rule_from_epilogue_analysis(
        text_bytes: &[u8],
        pc_offset: usize,
    ) -> Option<UnwindRuleAarch64> {
        unwind_rule_from_detected_epilogue(text_bytes, pc_offset)
    }
}
