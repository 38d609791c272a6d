//! The code of a file, by its sections.
ghost use Rattle.std.specs.Prelude.{◌≡◌, ◌≤◌, ◌<◌, ◌+◌, length, option_map, IfSome, IfOk, IsPermutation, map};
ghost use Rattle.std.specs.List.Sorted.{IsNonDecreasingBy};
ghost use Rattle.framehop_check.specs.Sections.{address_of, range_of_section, nearest_of, code_in, code_at, padding_at, padding_size, trimmed, without_padding};

use crate::missing::Range;
use framehop_code::effect::{Code, Flow};
use std::alloc::{AllocError, Global};
use std::marker::Model;

/// `int3` of x86_64: what linkers fill code with.
const INT3: u8 = 0xcc;

/// A section of code.
#[derive(Clone, Copy)]
pub struct CodeSection<'a> {
    /// Its first address (SVMA).
    pub address: u64,
    pub contents: &'a [u8],
}

/// The sections of code of a file, to be searched by address. A contract sees the list of them.
#[derive(Drop)]
pub struct CodeSections<'a> {
    /// In the order of their addresses.
    sections: Vec<CodeSection<'a>>,
}

impl<'a> Model for CodeSections<'a> {
    ghost use Rattle.std.specs.Prelude.{List};
    ghost use Rattle.std.specs.List.Sorted.{IsNonDecreasingBy};
    ghost use Rattle.framehop_check.specs.Sections.{address_of};
    ghost use Rattle.framehop_check.specs.declared.sections.CodeSection.{CodeSection};

    ghost Value = { List CodeSection };

    ghost view = { λ sections. sections.sections.items };

    ghost invariant = { λ sections. IsNonDecreasingBy address_of sections.sections.items };
}

impl<'a> CodeSections<'a> {
    /// Returns these sections.
    ///
    /// # Errors
    ///
    /// An allocation failed.
    pub fn new(mut sections: Vec<CodeSection<'a>>) -> Result<Self, AllocError>
        ensures { IfOk result (λ table. IsPermutation sections.entry.items table) }
    {
        sections.sort_by_key(|section| section.address)?;
        Ok(CodeSections { sections })
    }

    /// Returns the addresses of each.
    ///
    /// # Errors
    ///
    /// An allocation failed.
    pub fn ranges(&self, alloc: Global) -> Result<Vec<Range>, AllocError>
        ensures { IfOk result (λ ranges. ranges.items ≡ map range_of_section self.now) }
    {
        self.sections
            .iter()
            .map(|section| range_of_section(*section))
            .collect(alloc)
    }

    /// Returns the code of so many bytes from an address (SVMA) on, if the section that begins last of those at or before it
    /// has it.
    pub fn code_at(&self, start: u64, size: u64) -> Option<&'a [u8]>
        ensures { option_map (λ code. code.now) result ≡ code_at self.now start size }
    {
        code_in(nearest(&self.sections, start)?, start, size)
    }
}

/// Returns the addresses of a section.
fn range_of_section(section: CodeSection<'_>) -> Range
    ensures { result ≡ range_of_section section.entry }
{
    Range {
        start: section.address,
        end: section
            .address
            .saturating_add(section.contents.len() as u64),
    }
}

/// Returns the nearest of sorted sections.
fn nearest<'a>(sections: &[CodeSection<'a>], address: u64) -> Option<CodeSection<'a>>
    requires { IsNonDecreasingBy address_of sections.now }
    ensures { result ≡ nearest_of sections.now address }
{
    let count = sections.partition_point(|section| section.address <= address);
    if count == 0 {
        return None;
    }
    Some(sections[count - 1])
}

/// Returns so many bytes of a section from an address in it on, if it has them.
fn code_in(section: CodeSection<'_>, start: u64, size: u64) -> Option<&[u8]>
    ensures { option_map (λ code. code.now) result ≡ code_in start size section.entry }
{
    let offset = usize::try_from(start.saturating_sub(section.address)).ok()?;
    let end = offset.checked_add(usize::try_from(size).ok()?)?;
    if offset >= section.contents.len() {
        return None;
    }
    section.contents.get(offset..end)
}

/// Returns ranges of code without the padding that they begin with, if more is in them: instructions that do nothing, and
/// `int3`.
///
/// # Errors
///
/// An allocation failed.
pub fn without_padding<C: Code>(
    alloc: Global,
    sections: &CodeSections<'_>,
    ranges: &[Range],
) -> Result<Vec<Range>, AllocError>
    ensures { IfOk result (λ code. code.items ≡ without_padding C.instruction sections.now ranges.now) }
{
    ranges
        .iter()
        .map(|range| trimmed::<C>(sections, *range))
        .filter(|range| range.start < range.end)
        .collect(alloc)
}

/// Returns a range without the padding that it begins with.
#[tactic(auto, unfolding(crate::specs::Sections::trimmed))]
fn trimmed<C: Code>(sections: &CodeSections<'_>, range: Range) -> Range
    ensures { result ≡ trimmed C.instruction sections.now range }
{
    let padding = match sections.code_at(range.start, range.size()) {
        Some(code) => padding_size::<C>(code),
        None => 0,
    };
    Range {
        start: range.start.saturating_add(padding as u64),
        end: range.end,
    }
}

/// Returns how many bytes of padding code begins with.
fn padding_size<C: Code>(code: &[u8]) -> usize
    ensures { result ≡ padding_size C.instruction code.now }
{
    let mut at = 0;
    while at < code.len() {
        match padding_at::<C>(code, at) {
            Some(size) => at += size,
            None => return at,
        }
    }
    at
}

/// Returns the size of the instruction at an offset, if it is padding.
#[tactic(auto, unfolding(crate::specs::Sections::padding_at))]
fn padding_at<C: Code>(code: &[u8], at: usize) -> Option<usize>
    requires { at < length code.now }
    ensures exact { result ≡ padding_at C.instruction code.now at }
    ensures sized { IfSome result (λ size. (0 < size) × (at + size ≤ length code.now)) }
{
    let effect = C::effect_at(code, at)?;
    let is_int3 = code[at] == INT3 && effect.size == 1;
    if effect.flow == Flow::Padding || is_int3 {
        Some(effect.size)
    } else {
        None
    }
}
