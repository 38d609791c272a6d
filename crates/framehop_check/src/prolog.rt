//! The check of a prolog of a PE file: the unwind codes of a function against its first instructions (Microsoft, "x64
//! exception handling", struct UNWIND_CODE).
//!
//! A code says which instruction of the prolog ends at an offset, and what it does: so after it the canonical frame address
//! (CFA), which is what rsp is before the call, is so many bytes above rsp. Codes of offset 0 are those of a fragment, which is
//! entered with the frame made.
ghost use Rattle.std.specs.Prelude.{◌≡◌, ◌<◌, ◌≤◌, ◌+◌, ◌++◌, ℕ, pos, ◌≤ℤ◌, true, length, IfSome, IfOk, OnOk};
ghost use Rattle.std.specs.List.{AllByRecursion};
ghost use Rattle.framehop_pe.specs.Info.{left_codes, read_by};
ghost use Rattle.framehop_check.specs.Contradiction.{HasMeaning};
ghost use Rattle.framehop_check.specs.Counts.{plus, with_function, counted};
ghost use Rattle.framehop_check.specs.Check.{first_pass, alarms_from, notes_from};
ghost use Rattle.framehop_check.specs.Prolog.{lowered, depth, frame_offset, claim_by, sets, claim_of_codes, last_offset, claim_at_offset, prolog_item, prolog_items};
ghost use Rattle.std.specs.Io.Iter.{u64_saturate};

use crate::check::{Item, check_item, first_pass, says_otherwise};
use crate::claim::Claim;
use crate::report::Report;
use framehop_code::effect::{Base, Code};
use framehop_code::x86_64::CodeX86_64;
use framehop_core::x86_64::Reg;
use framehop_pe::unwind_info::info::{FrameRegister, PrologInfo, UnwindCodes};
use framehop_pe::unwind_info::operation::UnwindOperation;
use std::alloc::AllocError;

/// Checks the codes of a function's prolog against its code, the bytes from its first address (SVMA) on, and adds to a report.
/// From an instruction on that is not recognised nothing is said.
///
/// # Errors
///
/// An allocation failed.
pub fn check_prolog(
    begin: u64,
    info: &PrologInfo,
    code: &[u8],
    report: &mut Report,
) -> Result<(), AllocError>
    ensures alarms { OnOk result (report.new.alarms.items ≡ report.old.alarms.items
        ++ alarms_from (pos 8) (first_pass begin) (prolog_items (read_by info.now) begin code.now)) }
    ensures notes { OnOk result (report.new.notes.items ≡ report.old.notes.items
        ++ notes_from (first_pass begin) (prolog_items (read_by info.now) begin code.now)) }
    ensures counts { OnOk result (report.new.counts ≡ with_function report.old.counts true (first_pass begin)
        (prolog_items (read_by info.now) begin code.now)
        (alarms_from (pos 8) (first_pass begin) (prolog_items (read_by info.now) begin code.now))) }
    ensures contradiction { AllByRecursion (HasMeaning (pos 8) (prolog_items (read_by info.now) begin code.now))
        (alarms_from (pos 8) (first_pass begin) (prolog_items (read_by info.now) begin code.now)) }
{
    report.counts.functions = report.counts.functions.saturating_add(1);
    let alarms = report.alarms.len();
    check_instructions(begin, info, code, report)?;
    if report.alarms.len() != alarms {
        report.counts.alarmed = report.counts.alarmed.saturating_add(1);
    }
    Ok(())
}

/// Checks the instructions of a prolog and the one after it.
fn check_instructions(
    begin: u64,
    info: &PrologInfo,
    code: &[u8],
    report: &mut Report,
) -> Result<(), AllocError>
    ensures alarms { OnOk result (report.new.alarms.items ≡ report.old.alarms.items
        ++ alarms_from (pos 8) (first_pass begin) (prolog_items (read_by info.now) begin code.now)) }
    ensures notes { OnOk result (report.new.notes.items ≡ report.old.notes.items
        ++ notes_from (first_pass begin) (prolog_items (read_by info.now) begin code.now)) }
    ensures counts { OnOk result (report.new.counts ≡ counted report.old.counts (first_pass begin)
        (prolog_items (read_by info.now) begin code.now)) }
{
    let mut pass = first_pass(begin);
    let mut at = 0;
    while at < code.len() {
        let Some(item) = prolog_item(begin, info, code, at) else {
            return Ok(());
        };
        pass = check_item::<CodeX86_64>(pass, item, report)?;
        at += item.effect.size;
    }
    Ok(())
}

/// Returns the instruction at an offset of a function with what the codes say there, or `None` where either can't be read.
#[tactic(auto, unfolding(crate::specs::Prolog::prolog_item))]
fn prolog_item(begin: u64, info: &PrologInfo, code: &[u8], at: usize) -> Option<Item>
    ensures exact { result ≡ prolog_item (read_by info.now) begin code.now at }
    ensures sized { IfSome result (λ item. (0 < item.effect.size) × (at + item.effect.size ≤ length code.now)) }
{
    let address = begin.checked_add(at as u64)?;
    let effect = CodeX86_64::effect_at(code, at)?;
    let claim = claim_at_offset(info, at)?;
    Some(Item {
        address,
        effect,
        claim,
        splits: says_otherwise(claim, claim_at_offset(info, at + effect.size - 1)),
        target: None,
    })
}

/// Returns what the codes say at an offset of the function, or `None` after the last instruction that has a code.
#[tactic(auto, unfolding(crate::specs::Prolog::claim_at_offset))]
fn claim_at_offset(info: &PrologInfo, offset: usize) -> Option<Claim>
    ensures { result ≡ claim_at_offset (read_by info.now) offset }
{
    let last = last_offset(info.codes);
    if offset > usize::from(last) {
        return None;
    }
    let mut codes = info.codes;
    codes.skip_beyond(offset as u32);
    Some(claim_of_codes(info.frame_register, codes))
}

/// Returns where the last instruction ends that has a code, from the function's first address on.
fn last_offset(codes: UnwindCodes<'_>) -> u8
    ensures { result ≡ last_offset (left_codes codes.entry) }
{
    let mut codes = codes;
    match codes.next() {
        Some(code) => code.offset_in_prolog,
        None => 0,
    }
}

/// Returns what is said where the instructions of these codes have run.
fn claim_of_codes(frame: Option<FrameRegister>, codes: UnwindCodes<'_>) -> Claim
    ensures { result ≡ claim_of_codes frame (left_codes codes.entry) }
{
    let bytes = match i64::try_from(depth(codes).saturating_add(8)) {
        Ok(bytes) => bytes,
        Err(_) => return Claim::Other,
    };
    claim_by(bytes, frame_offset(frame), sets(codes))
}

/// Returns by how many bytes the frame register is above rsp when it is set, if it is rbp.
fn frame_offset(frame: Option<FrameRegister>) -> Option<u8>
    ensures { result ≡ frame_offset frame }
{
    match frame {
        Some(frame) if matches!(frame.register, Reg::RBP) => Some(frame.offset),
        _ => None,
    }
}

/// Returns what is said where the CFA is so many bytes above rsp, and rbp may have been set last.
fn claim_by(bytes: i64, offset: Option<u8>, sets: bool) -> Claim
    requires { pos 0 ≤ℤ bytes }
    ensures { result ≡ claim_by bytes offset sets }
{
    match offset {
        Some(offset) if sets => Claim::Above {
            base: Base::Fp,
            offset: bytes - i64::from(offset),
        },
        _ => Claim::Above {
            base: Base::Sp,
            offset: bytes,
        },
    }
}

/// Returns whether the last code sets the frame register.
fn sets(codes: UnwindCodes<'_>) -> bool
    ensures { result ≡ sets (left_codes codes.entry) }
{
    let mut codes = codes;
    match codes.next() {
        Some(code) => matches!(code.operation, UnwindOperation::RestoreSp),
        None => false,
    }
}

/// Returns by how many bytes the instructions of codes lower rsp, or the greatest number of 64 bits.
fn depth(codes: UnwindCodes<'_>) -> u64
    ensures { result ≡ u64_saturate (depth (left_codes codes.entry)) }
{
    let mut sum: u64 = 0;
    for code in codes {
        sum = sum.saturating_add(lowered(code.operation));
    }
    sum
}

/// Returns by how many bytes the instruction of a code lowers rsp.
fn lowered(operation: UnwindOperation) -> u64
    ensures { result ≡ lowered operation }
{
    match operation {
        UnwindOperation::UnStackAlloc(bytes) => u64::from(bytes),
        UnwindOperation::PopNonVolatile(_) => 8,
        _ => 0,
    }
}
