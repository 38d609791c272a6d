//! Parts of a file that are left out when it is read.
ghost use Rattle.std.specs.Prelude.{◌≡◌, ◌≤◌, ℕ, IfOk, Option, Some, None, true, false, if◌then◌else◌, option_map};
ghost use Rattle.framehop_disk.specs.Gaps.{AreCounted, are_apart, begins_at, gaps_of, is_kept, moved, so_far_at};

use std::alloc::{AllocError, Global};
use std::marker::Model;
use std::ops::Range;

/// A part of a file that is left out.
#[derive(Clone, Copy)]
pub(crate) struct Gap {
    /// The offset at which it begins, in bytes.
    pub(crate) start: u64,
    /// The offset at which it ends, in bytes.
    pub(crate) end: u64,
    /// How many bytes are left out up to its end, with its own.
    pub(crate) so_far: u64,
}

/// The parts of a file that are left out, in the order of their offsets, and apart.
#[derive(Drop)]
pub(crate) struct Gaps {
    list: Vec<Gap>,
}

impl Model for Gaps {
    ghost use Rattle.std.specs.Prelude.{List};
    ghost use Rattle.framehop_disk.specs.Gaps.{AreCounted};
    ghost use Rattle.framehop_disk.specs.declared.gaps.Gap.{Gap};

    ghost Value = { List Gap };

    ghost view = { λ gaps. gaps.list.items };

    ghost invariant = { λ gaps. AreCounted 0 0 gaps.list.items };
}

impl Gaps {
    /// Returns parts to be left out. `None` where one begins before the one before it ends, or the first before an offset.
    pub(crate) fn new(
        alloc: Global,
        parts: &[Range<u64>],
        from: u64,
    ) -> Result<Option<Self>, AllocError>
        ensures { IfOk result (λ gaps. gaps
            ≡ (if are_apart from parts.now then Some (gaps_of 0 parts.now) else None)) }
    {
        match counted(alloc, parts, from)? {
            Some(list) => Ok(Some(Gaps { list })),
            None => Ok(None),
        }
    }

    /// Returns them.
    pub(crate) fn gaps(&self) -> &[Gap]
        ensures { result.now ≡ self.entry.now }
    {
        self.list.as_slice()
    }

    /// Returns whether so many bytes from an offset on are kept.
    pub(crate) fn keep(&self, offset: u64, size: u64) -> bool
        ensures { result ≡ is_kept self.now offset size }
    {
        is_kept(self.list.as_slice(), offset, size)
    }

    /// Returns whether one of them begins at an offset.
    pub(crate) fn begins_at(&self, offset: u64) -> bool
        ensures { result ≡ begins_at offset self.now }
    {
        begins_at(self.list.as_slice(), offset)
    }

    /// Returns where an offset of the file is when the gaps are left out.
    pub(crate) fn moved(&self, offset: u64) -> u64
        ensures { result ≡ moved self.now offset }
    {
        moved(self.list.as_slice(), offset)
    }
}

/// Returns whether so many bytes from an offset on are in none of these gaps.
fn is_kept(gaps: &[Gap], offset: u64, size: u64) -> bool
    requires { AreCounted 0 0 gaps.now }
    ensures { result ≡ is_kept gaps.now offset size }
{
    let next = gaps.partition_point(|gap| gap.end <= offset);
    match gaps.get(next) {
        Some(gap) => offset.saturating_add(size) <= gap.start,
        None => true,
    }
}

/// Returns whether one of these gaps begins at an offset.
fn begins_at(gaps: &[Gap], offset: u64) -> bool
    requires { AreCounted 0 0 gaps.now }
    ensures { result ≡ begins_at offset gaps.now }
{
    let next = gaps.partition_point(|gap| gap.start < offset);
    match gaps.get(next) {
        Some(gap) => gap.start == offset,
        None => false,
    }
}

/// Returns where an offset of the file is when these gaps are left out.
fn moved(gaps: &[Gap], offset: u64) -> u64
    requires { AreCounted 0 0 gaps.now }
    ensures { result ≡ moved gaps.now offset }
{
    let count = gaps.partition_point(|gap| gap.end <= offset);
    offset.saturating_sub(so_far(gaps, count))
}

/// Returns how many bytes so many first gaps leave out.
fn so_far(gaps: &[Gap], count: usize) -> u64
    ensures { result ≡ so_far_at gaps.now count }
{
    match count.checked_sub(1) {
        Some(last) => match gaps.get(last) {
            Some(gap) => gap.so_far,
            None => 0,
        },
        None => 0,
    }
}

/// Returns the gaps of parts, if each begins where the one before it ends, or later, and the first at an offset, or later.
fn counted(alloc: Global, parts: &[Range<u64>], from: u64) -> Result<Option<Vec<Gap>>, AllocError>
    ensures { IfOk result (λ gaps. option_map (λ gaps. gaps.items) gaps
        ≡ (if are_apart from parts.now then Some (gaps_of 0 parts.now) else None)) }
{
    let mut gaps = Vec::with_capacity(alloc, parts.len())?;
    let (mut last, mut so_far) = (from, 0u64);
    for part in parts {
        let (start, end) = (part.start, part.end);
        if start < last || end < start {
            return Ok(None);
        }
        so_far += end - start;
        last = end;
        gaps.push(Gap { start, end, so_far })?;
    }
    Ok(Some(gaps))
}
