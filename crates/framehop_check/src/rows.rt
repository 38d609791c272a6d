//! What the rows of an FDE say of the CFA, by spans of addresses.
ghost use Rattle.std.specs.Prelude.{◌≡◌, ℕ, ◌+◌, ◌<◌, ◌≤◌, [], OnOk, IsTrue, ◌↔◌};
ghost use Rattle.std.specs.List.Sorted.{IsNonDecreasingBy};
ghost use Rattle.framehop_cfi.specs.RowCursor.{HasReached};
ghost use Rattle.framehop_check.specs.Rows.{claim_at, claim_of_span, claim_of_address, end_of, FitsBelow};

use crate::claim::{Claim, claim_of_row};
use framehop_cfi::context::{RowCursor, UnwindContext};
use framehop_cfi::entry::{FrameDescriptionEntry, UnwindSection};
use framehop_cfi::read_error::ReadError;
use framehop_cfi::storage::UnwindContextStorage;
use framehop_code::effect::Code;
use std::alloc::AllocError;

/// Addresses from a start to before an end (SVMA) whose row says so of the CFA.
#[derive(Clone, Copy)]
pub struct Span {
    pub start: u64,
    pub end: u64,
    pub claim: Claim,
}

/// Returns what the row of an address (SVMA) says of the CFA, by spans in order.
pub(crate) fn claim_at(spans: &[Span], address: u64) -> Option<Claim>
    requires { IsNonDecreasingBy end_of spans.now }
    ensures { result ≡ claim_at spans.now address }
{
    let place = spans.partition_point(|span| span.end <= address);
    match spans.get(place) {
        Some(span) => claim_of_span(address, *span),
        None => None,
    }
}

/// Returns what a span says of an address (SVMA) before its end, if the address is in it.
fn claim_of_span(address: u64, span: Span) -> Option<Claim>
    ensures { result ≡ claim_of_span address span }
{
    if span.start <= address {
        Some(span.claim)
    } else {
        None
    }
}

/// Puts the spans of an FDE's rows, up to one that can't be read, in the place of others. The FDE's addresses end at one of
/// 64 bits.
///
/// # Errors
///
/// An allocation failed.
pub(crate) fn read_spans<C: Code, S: UnwindContextStorage>(
    context: &mut UnwindContext<S>,
    section: &UnwindSection,
    fde: &FrameDescriptionEntry,
    end: u64,
    spans: &mut Vec<Span>,
) -> Result<(), AllocError>
    requires { end ≡ fde.now.initial_address + fde.now.address_range }
    ensures claims { OnOk result ((address : ℕ) → claim_at spans.new.items address
        ≡ claim_of_address C.numbered C.return_column S.limits section.now fde.now address) }
    ensures ordered { OnOk result (IsNonDecreasingBy end_of spans.new.items) }
{
    spans.clear();
    match context.begin_rows(section, fde) {
        Ok(first) => read_rows::<C, S>(context, section, fde, first, end, spans),
        Err(error) => if is_out_of_memory(error) {
            Err(AllocError)
        } else {
            Ok(())
        },
    }
}

/// Appends the spans of an FDE's rows, up to one that can't be read.
fn read_rows<C: Code, S: UnwindContextStorage>(
    context: &mut UnwindContext<S>,
    section: &UnwindSection,
    fde: &FrameDescriptionEntry,
    first: RowCursor,
    end: u64,
    spans: &mut Vec<Span>,
) -> Result<(), AllocError>
    requires empty { spans.old.items ≡ [] }
    requires end { end ≡ fde.now.initial_address + fde.now.address_range }
    requires reached { HasReached S.limits section.now fde.now first.next first.location context.old }
    requires first { first.location ≡ fde.now.initial_address }
    ensures claims { OnOk result ((address : ℕ) → claim_at spans.new.items address
        ≡ claim_of_address C.numbered C.return_column S.limits section.now fde.now address) }
    ensures ordered { OnOk result (IsNonDecreasingBy end_of spans.new.items) }
{
    let mut cursor = first;
    while cursor.location < end {
        let after = match context.next_row(section, fde, cursor) {
            Ok(after) => after,
            Err(error) => return if is_out_of_memory(error) {
                Err(AllocError)
            } else {
                Ok(())
            },
        };
        let claim = claim_of_row::<C, S>(context.row());
        spans.push(Span {
            start: cursor.location,
            end: earlier(after.location, end),
            claim,
        })?;
        cursor = after;
    }
    Ok(())
}

/// Returns the lesser of two addresses.
fn earlier(one: u64, other: u64) -> u64
    ensures one { result ≤ one }
    ensures other { result ≤ other }
    ensures least { (n : ℕ) → n < one → n < other → n < result }
{
    if one < other { one } else { other }
}

/// Returns whether an allocation failed.
fn is_out_of_memory(error: ReadError) -> bool
    ensures { IsTrue result ↔ error ≡ ReadError.OutOfMemory }
{
    matches!(error, ReadError::OutOfMemory)
}
