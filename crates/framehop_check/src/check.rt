//! The check of a function: its rows against its code, from instruction to instruction.
ghost use Rattle.std.specs.Prelude.{◌≡◌, ◌<◌, ◌≤◌, ◌+◌, ◌++◌, ℤ, pos, ◌+ℤ◌, [], ◌∷◌, length, IfSome, IfOk, OnOk};
ghost use Rattle.std.specs.List.{AllByRecursion};
ghost use Rattle.framehop_check.specs.Contradiction.{HasMeaning, RowsFollow};
ghost use Rattle.framehop_check.specs.Quiet.{IsQuiet};
ghost use Rattle.framehop_check.specs.Counts.{plus, one_if, is_checked, is_believed, is_jump, is_changed, counted, with_function};
ghost use Rattle.std.specs.List.Sorted.{IsNonDecreasingBy};
ghost use Rattle.framehop_core.specs.AddSigned.{fitting};
ghost use Rattle.framehop_check.specs.Rows.{claim_at, end_of};
ghost use Rattle.framehop_check.specs.Check.{inside, target_of, target_with, says_otherwise, item_at, items_of, all_of, items_of_fde, first_pass, difference, goes_on, alarm_of, row_alarm, return_alarm, jump_alarm, alarms_at, notes_at, pass_after, alarms_from, notes_from, all_of_fde};

use crate::claim::Claim;
use crate::known::{agreed, known_of};
use crate::report::{Alarm, Counts, Report, add_alarm};
use crate::rows::{Span, claim_at, read_spans};
use crate::tracked::{
    Came, Fault, Tracked, arriving, beginning, fault_at, fault_of_jump, fault_of_return, is_passed,
    step,
};
use framehop_cfi::context::UnwindContext;
use framehop_cfi::entry::{FrameDescriptionEntry, UnwindSection};
use framehop_cfi::storage::UnwindContextStorage;
use framehop_code::effect::{Code, Effect, Flow};
use std::alloc::{AllocError, Global};

/// An instruction with what its row says.
#[derive(Clone, Copy)]
pub struct Item {
    /// SVMA.
    pub address: u64,
    pub effect: Effect,
    pub claim: Claim,
    /// Whether the row of its last byte says otherwise.
    pub splits: bool,
    /// The address inside the function to which the instruction jumps (SVMA), with what the row says there.
    pub target: Option<(u64, Claim)>,
}

/// Where the check has got to.
#[derive(Clone, Copy)]
pub(crate) struct Pass {
    pub tracked: Tracked,
    /// The address of the instruction before (SVMA).
    pub before: u64,
    /// By how much the row of the instruction before and the code differ, in bytes, if they do.
    pub differed: Option<i128>,
}

/// The room for checks: it is made once and used for any number of functions.
#[derive(Drop)]
pub struct Checker<S: UnwindContextStorage> {
    context: UnwindContext<S>,
    spans: Vec<Span>,
}

impl<S: UnwindContextStorage> Checker<S> {
    /// Makes the room.
    pub fn new(alloc: Global) -> Result<Self, AllocError> {
        Ok(Checker {
            context: UnwindContext::new_in(alloc)?,
            spans: Vec::new(alloc),
        })
    }

    /// Checks the rows of an FDE against its code, the bytes from its first address on, and adds to a report. Of rows that
    /// can't be read, and from an instruction on that is not recognised, nothing is said.
    ///
    /// # Errors
    ///
    /// An allocation failed.
    pub fn check_function<C: Code>(
        &mut self,
        section: &UnwindSection,
        fde: &FrameDescriptionEntry,
        code: &[u8],
        report: &mut Report,
    ) -> Result<(), AllocError>
        ensures alarms { OnOk result (report.new.alarms.items ≡ report.old.alarms.items
            ++ alarms_from C.entry (first_pass fde.now.initial_address)
            (items_of_fde C.instruction C.numbered C.return_column S.limits section.now fde.now code.now)) }
        ensures notes { OnOk result (report.new.notes.items ≡ report.old.notes.items
            ++ notes_from (first_pass fde.now.initial_address)
            (items_of_fde C.instruction C.numbered C.return_column S.limits section.now fde.now code.now)) }
        ensures counts { OnOk result (report.new.counts ≡ with_function report.old.counts
            (all_of_fde C.instruction C.numbered C.return_column S.limits section.now fde.now code.now)
            (first_pass fde.now.initial_address)
            (items_of_fde C.instruction C.numbered C.return_column S.limits section.now fde.now code.now)
            (alarms_from C.entry (first_pass fde.now.initial_address)
            (items_of_fde C.instruction C.numbered C.return_column S.limits section.now fde.now code.now))) }
        ensures follows { RowsFollow (first_pass fde.now.initial_address)
            (items_of_fde C.instruction C.numbered C.return_column S.limits section.now fde.now code.now) }
        ensures quiet { IsQuiet C.entry (first_pass fde.now.initial_address)
            (items_of_fde C.instruction C.numbered C.return_column S.limits section.now fde.now code.now) }
        ensures contradiction { AllByRecursion
            (HasMeaning C.entry (items_of_fde C.instruction C.numbered C.return_column S.limits section.now fde.now code.now))
            (alarms_from C.entry (first_pass fde.now.initial_address)
            (items_of_fde C.instruction C.numbered C.return_column S.limits section.now fde.now code.now)) }
    {
        report.counts.functions = report.counts.functions.saturating_add(1);
        let alarms = report.alarms.len();
        if !self.check_rows::<C>(section, fde, code, report)? {
            report.counts.unread = report.counts.unread.saturating_add(1);
        }
        if report.alarms.len() != alarms {
            report.counts.alarmed = report.counts.alarmed.saturating_add(1);
        }
        Ok(())
    }

    /// Checks the rows of an FDE against its code, and returns whether all of them and all of it were read. An FDE that ends
    /// above the last address of 64 bits is not.
    #[tactic(auto, unfolding(crate::specs::Check::items_of_fde, crate::specs::Check::all_of_fde))]
    fn check_rows<C: Code>(
        &mut self,
        section: &UnwindSection,
        fde: &FrameDescriptionEntry,
        code: &[u8],
        report: &mut Report,
    ) -> Result<bool, AllocError>
        ensures alarms { OnOk result (report.new.alarms.items ≡ report.old.alarms.items
            ++ alarms_from C.entry (first_pass fde.now.initial_address)
            (items_of_fde C.instruction C.numbered C.return_column S.limits section.now fde.now code.now)) }
        ensures notes { OnOk result (report.new.notes.items ≡ report.old.notes.items
            ++ notes_from (first_pass fde.now.initial_address)
            (items_of_fde C.instruction C.numbered C.return_column S.limits section.now fde.now code.now)) }
        ensures counts { OnOk result (report.new.counts ≡ counted report.old.counts (first_pass fde.now.initial_address)
            (items_of_fde C.instruction C.numbered C.return_column S.limits section.now fde.now code.now)) }
        ensures all { IfOk result (λ all. all
            ≡ all_of_fde C.instruction C.numbered C.return_column S.limits section.now fde.now code.now) }
    {
        let Some(end) = fde.initial_address.checked_add(fde.address_range) else {
            return Ok(false);
        };
        read_spans::<C, S>(&mut self.context, section, fde, end, &mut self.spans)?;
        check_code::<C>(&self.spans, fde.initial_address, code, report)
    }
}

/// Checks the code of a function from an address on (SVMA) by the spans of its rows, and returns whether all of it was
/// read.
fn check_code<C: Code>(
    spans: &[Span],
    start: u64,
    code: &[u8],
    report: &mut Report,
) -> Result<bool, AllocError>
    requires { IsNonDecreasingBy end_of spans.now }
    ensures alarms { OnOk result (report.new.alarms.items ≡ report.old.alarms.items
        ++ alarms_from C.entry (first_pass start) (items_of C.instruction (claim_at spans.now) start code.now)) }
    ensures notes { OnOk result (report.new.notes.items ≡ report.old.notes.items
        ++ notes_from (first_pass start) (items_of C.instruction (claim_at spans.now) start code.now)) }
    ensures counts { OnOk result (report.new.counts ≡ counted report.old.counts (first_pass start)
        (items_of C.instruction (claim_at spans.now) start code.now)) }
    ensures all { IfOk result (λ all. all ≡ all_of C.instruction (claim_at spans.now) start code.now) }
{
    let mut pass = first_pass(start);
    let mut at = 0;
    while at < code.len() {
        let Some(item) = item_at::<C>(spans, start, code, at) else {
            return Ok(false);
        };
        pass = check_item::<C>(pass, item, report)?;
        at += item.effect.size;
    }
    Ok(true)
}

/// Returns where the check of a function begins.
pub(crate) fn first_pass(start: u64) -> Pass
    ensures { result ≡ first_pass start }
{
    Pass {
        tracked: beginning(),
        before: start,
        differed: None,
    }
}

/// Returns the instruction at an offset of a function's code with what its row says, or `None` where either can't be read.
#[tactic(auto, unfolding(crate::specs::Check::item_at))]
fn item_at<C: Code>(spans: &[Span], start: u64, code: &[u8], at: usize) -> Option<Item>
    requires { IsNonDecreasingBy end_of spans.now }
    ensures exact { result ≡ item_at C.instruction (claim_at spans.now) start code.now at }
    ensures sized { IfSome result (λ item. (0 < item.effect.size) × (at + item.effect.size ≤ length code.now)) }
{
    let address = start.checked_add(at as u64)?;
    let effect = C::effect_at(code, at)?;
    let claim = claim_at(spans, address)?;
    let next = address.checked_add(effect.size as u64)?;
    let target = target_with(spans, target_of(start, code.len(), next, effect.flow))?;
    Some(Item {
        address,
        effect,
        claim,
        splits: says_otherwise(claim, claim_at(spans, next - 1)),
        target,
    })
}

/// Returns a jump's target, if there is one, with what its row says, or `None` where the target has no row.
fn target_with(spans: &[Span], target: Option<u64>) -> Option<Option<(u64, Claim)>>
    requires { IsNonDecreasingBy end_of spans.now }
    ensures { result ≡ target_with (claim_at spans.now) target }
{
    match target {
        Some(target) => match claim_at(spans, target) {
            Some(claim) => Some(Some((target, claim))),
            None => None,
        },
        None => Some(None),
    }
}

/// Returns where an instruction jumps to inside the function, from the address after it.
fn target_of(start: u64, size: usize, next: u64, flow: Flow) -> Option<u64>
    ensures { result ≡ target_of start size next flow }
{
    match flow {
        Flow::Branch(distance) => inside(start, size, address_from(next, distance)),
        Flow::Jump(distance) => inside(start, size, address_from(next, distance)),
        _ => None,
    }
}

/// Returns the address, if it is one of a function that begins at an address and has so many bytes.
fn inside(start: u64, size: usize, target: Option<u64>) -> Option<u64>
    ensures { result ≡ inside start size target }
{
    match target {
        Some(target) if start <= target && target - start < size as u64 => Some(target),
        _ => None,
    }
}

/// Returns the address so many bytes from another, where it fits 64 bits.
fn address_from(next: u64, distance: i64) -> Option<u64>
    ensures { result ≡ fitting 64 (pos next +ℤ distance) }
{
    next.checked_add_signed(distance)
}

/// Returns whether a row says otherwise than the one before it.
pub(crate) fn says_otherwise(claim: Claim, last: Option<Claim>) -> bool
    ensures { result ≡ says_otherwise claim last }
{
    match last {
        Some(last) => last != claim,
        None => false,
    }
}

/// Checks an instruction, and returns where the check has then got to.
#[tactic(auto, unfolding(crate::specs::Check::alarms_at, crate::specs::Check::notes_at, crate::specs::Check::pass_after))]
pub(crate) fn check_item<C: Code>(
    pass: Pass,
    item: Item,
    report: &mut Report,
) -> Result<Pass, AllocError>
    ensures pass { IfOk result (λ after. after ≡ pass_after pass item) }
    ensures alarms { OnOk result (report.new.alarms.items ≡ report.old.alarms.items ++ alarms_at C.entry pass item) }
    ensures notes { OnOk result (report.new.notes.items ≡ report.old.notes.items ++ notes_at pass item) }
    ensures counts { OnOk result (report.new.counts ≡ counted report.old.counts pass (item ∷ [])) }
{
    if is_passed(pass.tracked, item.effect) {
        return Ok(pass);
    }
    report.counts = counted(report.counts, pass.tracked, item);
    if item.splits {
        report.notes.push(item.address)?;
    }
    let tracked = step(pass.tracked, item.claim, item.effect);
    add_alarm(&mut report.alarms, row_alarm(pass, item))?;
    add_alarm(&mut report.alarms, return_alarm::<C>(pass, item))?;
    add_alarm(&mut report.alarms, jump_alarm(tracked, item))?;
    Ok(Pass {
        tracked,
        before: item.address,
        differed: difference(fault_at(pass.tracked, item.claim)),
    })
}

/// Returns the counts with an instruction added.
fn counted(counts: Counts, tracked: Tracked, item: Item) -> Counts
    ensures functions { result.functions ≡ counts.functions }
    ensures unread { result.unread ≡ counts.unread }
    ensures alarmed { result.alarmed ≡ counts.alarmed }
    ensures instructions { result.instructions ≡ plus counts.instructions 1 }
    ensures checked { result.checked ≡ plus counts.checked (one_if (is_checked tracked item)) }
    ensures believed { result.believed ≡ plus counts.believed (one_if (is_believed tracked item)) }
    ensures jumps { result.jumps ≡ plus counts.jumps (one_if (is_jump tracked item)) }
    ensures calls { result.calls ≡ plus counts.calls (one_if (is_changed tracked item)) }
{
    let mut counts = counts;
    counts.instructions = counts.instructions.saturating_add(1);
    if item.target.is_some() {
        counts.jumps = counts.jumps.saturating_add(1);
    }
    if let Claim::Above { base, .. } = item.claim {
        if tracked.came == Came::Returned && tracked.claim != item.claim {
            counts.calls = counts.calls.saturating_add(1);
        }
        match known_of(arriving(tracked, item.claim), base) {
            Some(_) => counts.checked = counts.checked.saturating_add(1),
            None => counts.believed = counts.believed.saturating_add(1),
        }
    }
    counts
}

/// Returns the alarm of an instruction's row. Rows that go on differing by as much are told once.
fn row_alarm(pass: Pass, item: Item) -> Option<Alarm>
    ensures { result ≡ row_alarm pass item }
{
    let fault = fault_at(pass.tracked, item.claim);
    if goes_on(difference(fault), pass.differed) {
        None
    } else {
        alarm_of(item.address, pass.before, fault)
    }
}

/// Returns whether two differences are there and the same.
fn goes_on(difference: Option<i128>, before: Option<i128>) -> bool
    ensures { result ≡ goes_on difference before }
{
    match (difference, before) {
        (Some(one), Some(other)) => one == other,
        _ => false,
    }
}

/// Returns the alarm of a return.
fn return_alarm<C: Code>(pass: Pass, item: Item) -> Option<Alarm>
    ensures { result ≡ return_alarm C.entry pass item }
{
    let known = agreed(arriving(pass.tracked, item.claim), item.claim);
    let fault = fault_of_return::<C>(known, item.effect.flow);
    alarm_of(item.address, pass.before, fault)
}

/// Returns the alarm of a jump, by what is known after it.
fn jump_alarm(tracked: Tracked, item: Item) -> Option<Alarm>
    ensures { result ≡ jump_alarm tracked item }
{
    match item.target {
        Some((target, claim)) => {
            let fault = fault_of_jump(tracked.known, target, claim);
            alarm_of(item.address, item.address, fault)
        }
        None => None,
    }
}

/// Returns the alarm of a fault.
fn alarm_of(address: u64, before: u64, fault: Option<Fault>) -> Option<Alarm>
    ensures { result ≡ alarm_of address before fault }
{
    match fault {
        Some(fault) => Some(Alarm {
            address,
            before,
            fault,
        }),
        None => None,
    }
}

/// Returns by how much a row and the code differ, where a fault is that.
fn difference(fault: Option<Fault>) -> Option<i128>
    ensures { result ≡ difference fault }
{
    match fault {
        Some(Fault::Differs { row, code, .. }) => Some(i128::from(code) - i128::from(row)),
        _ => None,
    }
}
