//! The code that no FDE covers, by ranges of addresses.
ghost use Rattle.std.specs.Prelude.{◌≡◌, ℕ, not, ◌&&◌, nat_lt, ◌++◌, IfOk, OnOk, ◌≤◌, false};
ghost use Rattle.std.specs.List.{AllByRecursion};
ghost use Rattle.std.specs.Io.Iter.{u64_saturate};
ghost use Rattle.framehop_check.specs.Missing.{is_in, is_missing, IsInOrder, IsWhole, IsGap, gap_between, empty_at, bounds_of, size_of, bytes_in, share};

use std::alloc::{AllocError, Global};

/// The addresses from a start to before an end (SVMA).
#[derive(Clone, Copy, PartialEq, Eq)]
pub struct Range {
    pub start: u64,
    pub end: u64,
}

impl Range {
    /// Returns how many bytes it has.
    pub fn size(self) -> u64
        ensures { result ≡ size_of self }
    {
        self.end.saturating_sub(self.start)
    }
}

/// Appends where functions begin and where they end, as ranges without addresses.
///
/// # Errors
///
/// An allocation failed.
pub fn add_bounds(ranges: &mut Vec<Range>, functions: &[Range]) -> Result<(), AllocError>
    ensures { OnOk result (ranges.new.items ≡ ranges.old.items ++ bounds_of functions.now) }
{
    for function in functions {
        ranges.push(empty_at(function.start))?;
        ranges.push(empty_at(function.end))?;
    }
    Ok(())
}

/// Returns the range without addresses at an address.
fn empty_at(address: u64) -> Range
    ensures { result ≡ empty_at address }
{
    Range {
        start: address,
        end: address,
    }
}

/// Returns the ranges of code that are not covered, in the order of their addresses. A range without addresses covers none,
/// and divides a range that it is inside of.
///
/// # Errors
///
/// An allocation failed.
pub fn missing_ranges(
    alloc: Global,
    code: Vec<Range>,
    covered: Vec<Range>,
) -> Result<Vec<Range>, AllocError>
    ensures held { IfOk result (λ ranges. (address : ℕ) → is_in ranges.items address
        ≡ is_missing code.items covered.items address) }
    ensures ordered { IfOk result (λ ranges. IsInOrder ranges.items) }
    ensures whole { IfOk result (λ ranges. AllByRecursion (IsWhole code.items covered.items) ranges.items) }
{
    let mut others = gaps(alloc, code)?;
    others.extend_from_slice(&covered)?;
    gaps(alloc, others)
}

/// Returns the ranges below the last address of 64 bits that are in none of these.
fn gaps(alloc: Global, mut ranges: Vec<Range>) -> Result<Vec<Range>, AllocError>
    ensures held { IfOk result (λ gaps. (address : ℕ) → is_in gaps.items address
        ≡ (nat_lt address 0xffff_ffff_ffff_ffff && not (is_in ranges.items address))) }
    ensures below { IfOk result (λ gaps. (address : ℕ) → 0xffff_ffff_ffff_ffff ≤ address
        → is_in ranges.items address ≡ false) }
    ensures ordered { IfOk result (λ gaps. IsInOrder gaps.items) }
    ensures whole { IfOk result (λ gaps. AllByRecursion (IsGap ranges.items) gaps.items) }
{
    ranges.sort_by_key(|range| range.start)?;
    let mut gaps = Vec::new(alloc);
    let mut at = 0;
    for range in &ranges {
        push_gap(&mut gaps, at, range.start)?;
        at = at.max(range.start).max(range.end);
    }
    push_gap(&mut gaps, at, u64::MAX)?;
    Ok(gaps)
}

/// Appends the addresses from a start to before an end, if there are any.
fn push_gap(gaps: &mut Vec<Range>, start: u64, end: u64) -> Result<(), AllocError>
    ensures { OnOk result (gaps.new.items ≡ gaps.old.items ++ gap_between start end) }
{
    if start < end {
        gaps.push(Range { start, end })?;
    }
    Ok(())
}

/// Returns how many bytes ranges have that come one after another, or the greatest number of 64 bits.
pub fn bytes_in(ranges: &[Range]) -> u64
    ensures { result ≡ u64_saturate (bytes_in ranges.now) }
{
    let mut sum: u64 = 0;
    for range in ranges {
        sum = sum.saturating_add(range.size());
    }
    sum
}

/// Returns a part of a whole in tenths of a percent, rounded down, and 0 of nothing.
pub fn share(part: u64, whole: u64) -> u128
    ensures { result ≡ share part whole }
{
    if whole == 0 {
        return 0;
    }
    u128::from(part) * 1000 / u128::from(whole)
}
