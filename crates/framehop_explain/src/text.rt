//! What unwind data a module has, and what a frame came from, as text.
ghost use Rattle.std.specs.Prelude.{◌≡◌, IfOk, string_bytes, option_map};
ghost use Rattle.std.specs.Option.{option_copied};
ghost use Rattle.framehop_core.specs.CodeAddress.{location_of, lookup_address};
ghost use Rattle.framehop_explain.specs.DataText.{IsDataText};
ghost use Rattle.framehop_explain.specs.Found.{finding_of};
ghost use Rattle.framehop_explain.specs.FrameText.{name_text, place_text, last_text, uncovered_text, told_text, finding_text, frame_text};

use crate::count::UnwindDataCount;
use crate::explain::{Explanation, Finding};
use crate::kind::UnwindDataKind;
use crate::pe::Sources;
use crate::reason::Reason;
use crate::rule_text::{DescribeRule, Described};
use crate::told::Told;
use crate::uncovered::{Uncovered, last_module_by};
use framehop::{FrameAddress, Module};
use framehop_bytes::section::SectionBytes;
use framehop_core::unwind_rule::UnwindRule;
use std::alloc::{AllocError, Global};

/// Returns what kind of unwind data a module has, and how much.
pub fn unwind_data_text<D: SectionBytes + Drop>(
    alloc: Global,
    loaded: &Module<D>,
) -> Result<String, AllocError>
    ensures { IfOk result (λ text. IsDataText loaded.now.unwind_data (string_bytes text)) }
{
    let kind = UnwindDataKind::of(loaded);
    match UnwindDataCount::of(loaded) {
        UnwindDataCount::None => format!(in alloc; "{kind}"),
        count => format!(in alloc; "{kind}, {count}"),
    }
}

/// Returns what a frame came from: what the module that covers it tells, or why no module does.
pub fn frame_text<D: SectionBytes + Drop, A: Sources>(
    alloc: Global,
    modules: &[Module<D>],
    address: FrameAddress,
    explanation: &Explanation<'_, D, A>,
) -> Result<String, AllocError>
where
    A::UnwindRule: DescribeRule,
    ensures { IfOk result (λ text. string_bytes text
        ≡ frame_text A.UnwindRule.rule_text A.UnwindRule.fallback modules.now (lookup_address (location_of address))
        (option_map finding_of explanation.now.finding)) }
{
    match &explanation.finding {
        Some(finding) => finding_text::<D, A::UnwindRule>(alloc, finding),
        None => uncovered_text::<D, A>(alloc, modules, address.address_for_lookup()),
    }
}

/// Returns what the covering module tells for a frame.
fn finding_text<D: SectionBytes + Drop, R: DescribeRule>(
    alloc: Global,
    finding: &Finding<'_, D, R>,
) -> Result<String, AllocError>
    ensures { IfOk result (λ text. string_bytes text ≡ finding_text R.rule_text R.fallback (finding_of finding.now)) }
{
    let place = place_text(alloc, finding.module.name(), finding.relative_address)?;
    let told = told_text(alloc, finding.told)?;
    let source = finding.source;
    format!(in alloc; "{}: {source}: {}", place.as_str(), told.as_str())
}

/// Returns where an address is in a module: `m+0x100`, or `0x100` in one that is not named.
fn place_text(alloc: Global, name: &str, relative_address: u32) -> Result<String, AllocError>
    ensures { IfOk result (λ text. string_bytes text ≡ place_text name.now relative_address) }
{
    match name {
        "" => format!(in alloc; "0x{relative_address:x}"),
        name => format!(in alloc; "{name}+0x{relative_address:x}"),
    }
}

/// Returns what is told of a frame.
fn told_text<R: DescribeRule>(alloc: Global, told: Told<R>) -> Result<String, AllocError>
    ensures { IfOk result (λ text. string_bytes text ≡ told_text R.rule_text R.fallback told) }
{
    match told {
        Told::Rule(rule) => {
            let rule = Described(rule);
            format!(in alloc; "{rule}")
        }
        Told::Computed(address) => format!(in alloc; "computed: return address 0x{address:x}"),
        Told::Refused(error) => {
            let reason = Reason(error);
            let rule = Described(R::fallback_rule());
            format!(in alloc; "{reason}: fallback: {rule}")
        }
    }
}

/// Returns what becomes of a frame that no module covers.
fn uncovered_text<D: SectionBytes + Drop, A: Sources>(
    alloc: Global,
    modules: &[Module<D>],
    address: u64,
) -> Result<String, AllocError>
where
    A::UnwindRule: DescribeRule,
    ensures { IfOk result (λ text. string_bytes text
        ≡ frame_text A.UnwindRule.rule_text A.UnwindRule.fallback modules.now address None) }
{
    let reason = reason_text(alloc, modules, address)?;
    let rule = Described(A::UnwindRule::fallback_rule());
    format!(in alloc; "{}: fallback: {rule}", reason.as_str())
}

/// Returns why no module covers an address (AVMA).
fn reason_text<D: SectionBytes + Drop>(
    alloc: Global,
    modules: &[Module<D>],
    address: u64,
) -> Result<String, AllocError>
    ensures { IfOk result (λ text. string_bytes text ≡ uncovered_text modules.now address) }
{
    last_text(alloc, last_module_by(modules, address), address)
}

/// Returns why no module covers an address (AVMA), by the last one that starts at or below it.
fn last_text<D: SectionBytes + Drop>(
    alloc: Global,
    last: Option<&Module<D>>,
    address: u64,
) -> Result<String, AllocError>
    ensures { IfOk result (λ text. string_bytes text ≡ last_text (option_copied last.entry) address) }
{
    let Some(loaded) = last else {
        return format!(in alloc; "no module starts at or below 0x{address:x}");
    };
    let name = module_name(loaded);
    let base = loaded.base_avma();
    match Uncovered::by(last, address) {
        Uncovered::NoModule => format!(in alloc; "no module starts at or below 0x{address:x}"),
        Uncovered::PastEnd => {
            let end = loaded.avma_range().end;
            format!(in alloc; "0x{address:x} is past the end 0x{end:x} of {name}")
        }
        Uncovered::BelowBase => {
            format!(in alloc; "the base 0x{base:x} of {name} is above the address 0x{address:x}")
        }
        Uncovered::FarAboveBase => {
            format!(in alloc; "0x{address:x} is 4 GiB or more above the base 0x{base:x} of {name}")
        }
    }
}

/// Returns the name of a module, or what stands for one that is not named.
pub fn module_name<D: SectionBytes + Drop>(loaded: &Module<D>) -> &str
    ensures { result.now ≡ name_text loaded.entry.now.name }
{
    match loaded.name() {
        "" => "a module",
        name => name,
    }
}
