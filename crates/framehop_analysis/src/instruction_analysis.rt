//! Unwind rules from the instructions around a pc: inside a prologue or an epilogue the registers
//! are not yet saved, or are already restored, which unwind data often does not say.
ghost use Rattle.std.specs.Prelude.{◌≡◌, ℕ, Bool, ◌≤◌, ◌↔◌, ◌⊎◌, List, length, Option, Some, IsTrue, IfSome, OnSome};
ghost use Rattle.framehop_core.specs.Memory.{Memory};
ghost use Rattle.framehop_analysis.specs.Answer.{IsOnly, FirstOf, Does};

use framehop_core::arch::Arch;

/// The analysis of an architecture's instructions.
///
/// In each function `text_bytes` has the function's code, and `pc_offset` is the offset of the pc
/// in it, in bytes, at most its length.
pub trait InstructionAnalysis: Arch {
    // the rule of a pc inside a prologue, at an offset of the code
    ghost prologue_rule: { List ℕ → ℕ → Self.UnwindRule → Type 0 };

    // the rule of a pc inside an epilogue
    ghost epilogue_rule: { List ℕ → ℕ → Self.UnwindRule → Type 0 };

    // the rule of a pc inside a prologue or, where none is recognised, inside an epilogue
    ghost analysed: { List ℕ → ℕ → Option Self.UnwindRule };

    // the machine's instructions lead to the pc
    ghost reaches: { List ℕ → ℕ → Type 0 };

    // what they have done is undone: in a first frame (`true`) or another, from registers over a memory to
    // an address and new registers
    ghost undone_prologue: { List ℕ → ℕ → Bool → Self.UnwindRegs → Memory → ℕ → Self.UnwindRegs → Type 0 };

    // the machine's instructions lead from the pc to an end
    ghost ends: { List ℕ → ℕ → Type 0 };

    // what they do is done, told alike
    ghost done_epilogue: { List ℕ → ℕ → Bool → Self.UnwindRegs → Memory → ℕ → Self.UnwindRegs → Type 0 };

    /// Returns the unwind rule at a pc inside a prologue, or `None` where none is recognised.
    fn rule_from_prologue_analysis(text_bytes: &[u8], pc_offset: usize) -> Option<Self::UnwindRule>
        requires { pc_offset ≤ length text_bytes.now }
        ensures exact { (rule : Self.UnwindRule)
            → (result ≡ Some rule) ↔ prologue_rule text_bytes.now pc_offset rule }
        ensures simulation { IfSome result (Does Self.UnwindRule.outcome (undone_prologue text_bytes.now pc_offset)) }
        ensures reaches { OnSome result (reaches text_bytes.now pc_offset) }
        ensures executable { IfSome result (λ rule. IsTrue (Self.UnwindRule.executable rule)) };

    /// Returns the unwind rule at a pc inside an epilogue, or `None` where none is recognised.
    fn rule_from_epilogue_analysis(text_bytes: &[u8], pc_offset: usize) -> Option<Self::UnwindRule>
        requires { pc_offset ≤ length text_bytes.now }
        ensures exact { (rule : Self.UnwindRule)
            → (result ≡ Some rule) ↔ epilogue_rule text_bytes.now pc_offset rule }
        ensures simulation { IfSome result (Does Self.UnwindRule.outcome (done_epilogue text_bytes.now pc_offset)) }
        ensures ends { OnSome result (ends text_bytes.now pc_offset) }
        ensures executable { IfSome result (λ rule. IsTrue (Self.UnwindRule.executable rule)) };

    /// Returns the unwind rule at a pc inside a prologue or, where none is recognised, inside an
    /// epilogue.
    fn rule_from_instruction_analysis(
        text_bytes: &[u8],
        pc_offset: usize,
    ) -> Option<Self::UnwindRule>
        requires { pc_offset ≤ length text_bytes.now }
        ensures exact { (rule : Self.UnwindRule) → (result ≡ Some rule)
            ↔ FirstOf (prologue_rule text_bytes.now pc_offset)
            (epilogue_rule text_bytes.now pc_offset) rule }
        ensures value { result ≡ analysed text_bytes.now pc_offset }
        ensures simulation { IfSome result (λ rule.
            (prologue_rule text_bytes.now pc_offset rule
            × reaches text_bytes.now pc_offset
            × Does Self.UnwindRule.outcome (undone_prologue text_bytes.now pc_offset) rule)
            ⊎ (epilogue_rule text_bytes.now pc_offset rule
            × ends text_bytes.now pc_offset
            × Does Self.UnwindRule.outcome (done_epilogue text_bytes.now pc_offset) rule)) }
        ensures executable { IfSome result (λ rule. IsTrue (Self.UnwindRule.executable rule)) }
    {
        Self::rule_from_prologue_analysis(text_bytes, pc_offset).or_else(
            || Self::rule_from_epilogue_analysis(text_bytes, pc_offset),
        )
    }

    // the analysed rule is the only one there is, or there is none
    ghost analysed_only: { (text : List ℕ) (pc : ℕ)
        → IsOnly (FirstOf (prologue_rule text pc) (epilogue_rule text pc)) (analysed text pc) };
}
