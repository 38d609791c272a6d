//! Architectures whose unwind data can be read.
ghost use Rattle.std.specs.Prelude.{◌≡◌, ◌<◌, ◌↔◌, ◌⊎◌, refl, Bool, true, false, ℕ, List, Ok, None, Option};
ghost use Rattle.framehop.specs.Memory.{Memory};
ghost use Rattle.framehop.specs.Outcome.{answered};
ghost use Rattle.framehop.specs.CodeAddress.{FrameLocation};
ghost use Rattle.framehop.specs.Unwinding.{Unwinding, Readers, answer_by, may_take_memory_by, RisesAsSaid};
ghost use Rattle.framehop.specs.Meaning.{Meanings, MeansAt};
ghost use Rattle.framehop_cfi.specs.Row.{Row};
ghost use Rattle.framehop_analysis.specs.Answer.{Does};
ghost use Rattle.framehop_pe.specs.Sections.{Sections};
ghost use Rattle.framehop.specs.Policy.{Policy};
ghost use Rattle.framehop.specs.Modules.{ModuleView};

use framehop_core::aarch64::ArchAarch64;
use framehop_core::unwind_rule::UnwindRule;
use framehop_core::x86_64::ArchX86_64;
use framehop_dwarf::dwarf::DwarfUnwinding;
use framehop_macho::macho::CompactUnwindInfoUnwinding;
use framehop_pe::pe::PeUnwinding;

/// A CPU architecture whose unwind data can be read: what it makes of rules and modules.
pub trait Unwinding: DwarfUnwinding + PeUnwinding + CompactUnwindInfoUnwinding {
    ghost use Rattle.framehop.specs.Fresh.{step};

    // what a step gives by the modules' bytes, under an allocation policy
    ghost unwinding: { Policy → Unwinding Self.UnwindRule Self.UnwindRegs };

    // what the readers of unwind data give on it
    ghost readers: { Readers Self.UnwindRule Self.UnwindRegs };

    // what the sources of its rules mean
    ghost meanings: { Meanings Self.UnwindRule Self.UnwindRegs };

    // what a step that answers an address does to the registers, whatever the callback replies: of
    // a first frame (`true`) or another, before and after
    ghost step_advances: { Bool → Self.UnwindRegs → Self.UnwindRegs → Type 0 };

    // its rules are those of the architecture
    ghost outcome_is: { (policy : Policy) → (unwinding policy).outcome ≡ Self.UnwindRule.outcome };

    ghost fallback_is: { (policy : Policy) → (unwinding policy).fallback ≡ Self.UnwindRule.fallback };

    ghost stack_pointer_is: { (policy : Policy) → (unwinding policy).stack_pointer ≡ Self.UnwindRule.stack_pointer };

    // they are the readers of the traits that it has
    ghost readers_are: { readers ≡ record {
      rows = record { translated = Self.translated; uncovered = Self.uncovered; direct = Self.direct };
      pe_found = Self.found;
      pe_computed = Self.computed;
      compact = record {
        stub_rule = Self.UnwindRule.stub_rule;
        start_rule = Self.UnwindRule.function_start_rule;
        helper_rule = Self.helper_rule;
        says = Self.says;
      };
    } };

    // and so is what the sources mean
    ghost row_is: { (section : List ℕ) (memory : Memory) (row : Row) (first : Bool) (old : Self.UnwindRegs)
        (address : ℕ) (new : Self.UnwindRegs)
        → meanings.row section memory row first old address new
        ↔ Self.row_means section memory row first old address new };

    ghost columns_are: { (section : List ℕ) (limit : Option ℕ) (memory : Memory) (row : Row) (first : Bool)
        (old : Self.UnwindRegs) (address : ℕ) (new : Self.UnwindRegs)
        → meanings.columns section limit memory row first old address new
        ↔ Self.columns_mean section limit memory row first old address new };

    ghost by_code_is: { meanings.by_code ≡ Self.by_code };

    ghost does_code_is: { (code : List ℕ) (offset : ℕ) (rule : Self.UnwindRule) → meanings.does_code code offset rule
        ↔ (Self.prologue_rule code offset rule × Self.reaches code offset
        × Does Self.UnwindRule.outcome (Self.undone_prologue code offset) rule)
        ⊎ (Self.epilogue_rule code offset rule × Self.ends code offset
        × Does Self.UnwindRule.outcome (Self.done_epilogue code offset) rule) };

    // what a module's unwind data gives is by its readers
    ghost answer_is: { (policy : Policy) → (unwinding policy).module_answer ≡ answer_by readers policy };

    ghost memory_is: { (policy : Policy) → (unwinding policy).may_take_memory ≡ may_take_memory_by readers policy };

    // a step that answers an address does what the source of its rule means
    ghost step_means: { (policy : Policy) (modules : List ModuleView) (location : FrameLocation)
        (old new : Self.UnwindRegs) (memory : Memory) (address : ℕ)
        → step (unwinding policy) modules location old memory ≡ answered address new
        → MeansAt readers meanings Self.UnwindRule.outcome policy modules location old memory address new };

    ghost values_advance: { (first : Bool) (old new : Self.UnwindRegs) → Self.ascends first old new
        → step_advances first old new };

    ghost pe_values_advance: { (sections : Sections) (relative : ℕ) (first : Bool)
        → Self.found sections relative first ≡ Ok None → (old new : Self.UnwindRegs) → step_advances first old new };

    ghost rule_advances: { (rule : Self.UnwindRule) (first : Bool) (old new : Self.UnwindRegs)
        → Self.UnwindRule.advances rule first old new → step_advances first old new };

    // where it is said that all steps raise the stack pointer, they do
    ghost rises_as_said: { (policy : Policy) → RisesAsSaid (unwinding policy) };

    // and it is said where all that steps do to the registers raises it
    ghost says_rising: { (policy : Policy)
        → ((old new : Self.UnwindRegs) → step_advances false old new
        → Self.UnwindRule.stack_pointer old < Self.UnwindRule.stack_pointer new)
        → (unwinding policy).always_rises ≡ true };
}

impl Unwinding for ArchAarch64 {
    ghost use Rattle.framehop_dwarf.specs.Aarch64.{Ascends};
    ghost use Rattle.framehop.specs.Aarch64.{aarch64, aarch64_readers, aarch64_meanings};
    ghost use Rattle.framehop.specs.Laws.Aarch64.{outcome-is, fallback-is, stack_pointer-is, answer-is, memory-is, step-means, says-rising, no-pe-values, Ascends-rule, rises-as-said};

    ghost unwinding = { aarch64 };

    ghost readers = { aarch64_readers };

    ghost meanings = { aarch64_meanings };

    ghost step_advances = { Ascends };

    ghost outcome_is = { outcome-is };

    ghost fallback_is = { fallback-is };

    ghost stack_pointer_is = { stack_pointer-is };

    ghost readers_are = { refl };

    ghost row_is = { λ section memory row first old address new. (λ means. means, λ means. means) };

    ghost columns_are = { λ section limit memory row first old address new. (λ means. means, λ means. means) };

    ghost by_code_is = { refl };

    ghost does_code_is = { λ code offset rule. (λ does. does, λ does. does) };

    ghost answer_is = { answer-is };

    ghost memory_is = { memory-is };

    ghost step_means = { step-means };

    ghost values_advance = { λ first old new advances. advances };

    ghost pe_values_advance = { no-pe-values };

    ghost rule_advances = { Ascends-rule };

    ghost rises_as_said = { rises-as-said };

    ghost says_rising = { says-rising };
}

impl Unwinding for ArchX86_64 {
    ghost use Rattle.framehop.specs.X86_64.{x86_64, x86_64_readers, x86_64_meanings};
    ghost use Rattle.framehop.specs.Laws.X86_64.{outcome-is, fallback-is, stack_pointer-is, answer-is, memory-is, step-means, says-rising, rises-as-said};

    ghost unwinding = { x86_64 };

    ghost readers = { x86_64_readers };

    ghost meanings = { x86_64_meanings };

    // values that are computed from unwind data may lower rsp
    ghost step_advances = { λ first old new. Unit {0} };

    ghost outcome_is = { outcome-is };

    ghost fallback_is = { fallback-is };

    ghost stack_pointer_is = { stack_pointer-is };

    ghost readers_are = { refl };

    ghost row_is = { λ section memory row first old address new. (λ means. means, λ means. means) };

    ghost columns_are = { λ section limit memory row first old address new. (λ means. means, λ means. means) };

    ghost by_code_is = { refl };

    ghost does_code_is = { λ code offset rule. (λ does. does, λ does. does) };

    ghost answer_is = { answer-is };

    ghost memory_is = { memory-is };

    ghost step_means = { step-means };

    ghost values_advance = { λ first old new advances. tt };

    ghost pe_values_advance = { λ sections relative first none old new. tt };

    ghost rule_advances = { λ rule first old new advances. tt };

    ghost rises_as_said = { rises-as-said };

    ghost says_rising = { says-rising };
}
