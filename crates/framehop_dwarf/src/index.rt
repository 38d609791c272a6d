//! An index of a section's FDEs by their starts, for a section that has no table of its own.
//!
//! The pairs of a start and an offset are one vector, a binary search tree that is stored level by level. A second
//! vector has, for each block of 2^n addresses, a place of the tree that the search for each of them comes to: a look-up
//! begins there.
//! An entry that can't be read is passed over; only lengths that do not cut the section to its end refuse the index.
ghost use Rattle.std.specs.Prelude.{◌≡◌, ◌≢◌, ◌+◌, ◌^◌, ◌<◌, ◌≤◌, ◌*◌, ◌-◌, length, map, IfOk, IfErr, Ok, Err, false, IsPermutation};
ghost use Rattle.framehop_cfi.specs.Section.{section_of};
ghost use Rattle.framehop_cfi.specs.EntryExtent.{extent_at, is_zero_length};
ghost use Rattle.framehop_cfi.specs.Entry.{fde_of_head};
ghost use Rattle.framehop_dwarf.specs.Index.{pair_of, pair_if_read, pair_at, pairs_of, pair_of_key, fde_offset_for, IsFdeFor, IsIndexOf, IsIndexOfAll, IsIndexRefusal, HasNoIndex};
ghost use Rattle.framehop_dwarf.specs.Tree.{left_to_right, looked_at, IsAscending, IsWithinDigits, IsSearchTree, IsOnPath, AreShortcuts, StartUpTo, AreTops};
ghost use Rattle.framehop_dwarf.specs.declared.index.DwarfCfiIndexError.TheVariants.{Gimli};
ghost use Rattle.framehop_cfi.specs.declared.read_error.ReadError.TheVariants.{OutOfMemory};
ghost use Rattle.framehop_dwarf.specs.Bases.{section_in};
ghost use Rattle.framehop_cfi.specs.declared.entry.UnwindSectionType.TheVariants.{EhFrame, DebugFrame};

use crate::bases::base_addresses_for_sections;
use framehop_bytes::section::ModuleSectionInfo;
use framehop_cfi::entry::{EntryHead, FrameDescriptionEntry, UnwindSection, UnwindSectionType};
use framehop_cfi::extent::{EntryExtent, read_extent};
use framehop_cfi::known_cies::KnownCies;
use framehop_cfi::pointer::BaseAddresses;
use framehop_cfi::read_error::ReadError;
use std::alloc::{AllocError, Global};
use std::marker::Model;
use thiserror::Error;

/// Why a section has no index, which is always `Gimli`. The other names are those of the original, where an FDE that
/// can't be a pair refuses the index. Here it is passed over.
#[derive(Clone, Copy, Debug, PartialEq, Eq, Error)]
pub enum DwarfCfiIndexError {
    /// The length of an entry is reserved (`BadLength`), is cut off or reaches past the section (`Eof`), or an
    /// allocation failed (`OutOfMemory`).
    #[error("Gimli")]
    Gimli(#[from] ReadError),
    /// An FDE starts below the base address. Not returned.
    #[error("CouldNotSubtractBaseAddress")]
    CouldNotSubtractBaseAddress,
    /// An FDE's start relative to the base address does not fit 32 bits. Not returned.
    #[error("RelativeAddressTooBig")]
    RelativeAddressTooBig,
    /// An FDE's offset does not fit 32 bits. Not returned.
    #[error("FdeOffsetTooBig")]
    FdeOffsetTooBig,
}

/// What one of a start counts for in a key: more than each offset.
const START_UNIT: u64 = 1 << 32;

/// An index of a section's FDEs: pairs of a start relative to the base address and an offset, as a search tree by
/// levels.
#[derive(Drop)]
pub struct DwarfCfiIndex {
    /// The pairs. Under place `2 * i + 1` is what comes before the pair at place `i`, and under `2 * i + 2` what comes
    /// after it. Only the last level can have room left, at its right end. Of equal starts the one that is first in the
    /// section comes first.
    tree: Vec<(u32, u32)>,
    /// How many addresses a block has, as a power of two.
    shift: u32,
    /// For each block of addresses, from 0 to the one in which the last pair starts, a place of the tree that the
    /// search for each of its addresses comes to.
    shortcuts: Vec<u32>,
}

impl Model for DwarfCfiIndex {
    ghost use Rattle.std.specs.Prelude.{List, ℕ};
    ghost use Rattle.framehop_dwarf.specs.Tree.{IsTreeWithShortcuts};

    ghost Value = { List (ℕ × ℕ) };

    ghost view = { λ index. index.tree.items };

    ghost invariant = { λ index. IsTreeWithShortcuts index.tree.items index.shift index.shortcuts.items };
}

/// Marks a block in which no pair starts: greater than each place of a tree.
const NO_PAIR: u32 = u32::MAX;

/// How many turns a search takes before it is asked whether it has ended. Most look-ups need no more from their
/// shortcut on, and a processor can't foresee which turn is the last.
const TURNS: usize = 4;

impl DwarfCfiIndex {
    /// Returns the index of an `.eh_frame` section, by the base addresses of its module.
    pub fn try_new_eh_frame<D, I: ModuleSectionInfo<D>>(
        alloc: Global,
        eh_frame_data: &[u8],
        section_info: &mut I,
    ) -> Result<Self, DwarfCfiIndexError>
        ensures found { IfOk result (IsIndexOf (section_in EhFrame (I.table section_info.old) eh_frame_data.now) (I.table section_info.old).base_svma) }
        ensures all { IfOk result (IsIndexOfAll (section_in EhFrame (I.table section_info.old) eh_frame_data.now) (I.table section_info.old).base_svma) }
        ensures refused { IfErr result (λ error. error ≢ Gimli OutOfMemory → HasNoIndex (section_in EhFrame (I.table section_info.old) eh_frame_data.now)) }
        ensures lengths { IfErr result IsIndexRefusal }
        ensures first { IfErr result (λ error. error ≢ Gimli OutOfMemory → pairs_of (section_in EhFrame (I.table section_info.old) eh_frame_data.now) (I.table section_info.old).base_svma ≡ Err error) }
        ensures kept { I.table section_info.new ≡ I.table section_info.old }
    {
        let bases = base_addresses_for_sections(section_info);
        let base_svma = section_info.base_svma();
        Self::try_new(
            alloc,
            eh_frame_data,
            UnwindSectionType::EhFrame,
            bases,
            base_svma,
        )
    }

    /// Returns the index of a `.debug_frame` section, by the base addresses of its module.
    pub fn try_new_debug_frame<D, I: ModuleSectionInfo<D>>(
        alloc: Global,
        debug_frame_data: &[u8],
        section_info: &mut I,
    ) -> Result<Self, DwarfCfiIndexError>
        ensures found { IfOk result (IsIndexOf (section_in DebugFrame (I.table section_info.old) debug_frame_data.now) (I.table section_info.old).base_svma) }
        ensures all { IfOk result (IsIndexOfAll (section_in DebugFrame (I.table section_info.old) debug_frame_data.now) (I.table section_info.old).base_svma) }
        ensures refused { IfErr result (λ error. error ≢ Gimli OutOfMemory → HasNoIndex (section_in DebugFrame (I.table section_info.old) debug_frame_data.now)) }
        ensures lengths { IfErr result IsIndexRefusal }
        ensures first { IfErr result (λ error. error ≢ Gimli OutOfMemory → pairs_of (section_in DebugFrame (I.table section_info.old) debug_frame_data.now) (I.table section_info.old).base_svma ≡ Err error) }
        ensures kept { I.table section_info.new ≡ I.table section_info.old }
    {
        let bases = base_addresses_for_sections(section_info);
        let base_svma = section_info.base_svma();
        Self::try_new(
            alloc,
            debug_frame_data,
            UnwindSectionType::DebugFrame,
            bases,
            base_svma,
        )
    }

    /// Returns the index of a section, whose pointers count from these addresses. Starts are taken relative to
    /// `base_svma`.
    ///
    /// The section is cut into entries by their lengths. An FDE that can't be read, or whose CIE can't, is passed
    /// over, and so is one whose start lies below `base_svma`, or whose start relative to it or whose offset does not
    /// fit 32 bits.
    ///
    /// # Errors
    ///
    /// `Gimli` with the error of the first length that can't be read or reaches past the section (`BadLength`,
    /// `Eof`), or with `OutOfMemory`.
    pub fn try_new(
        alloc: Global,
        section: &[u8],
        section_type: UnwindSectionType,
        bases: BaseAddresses,
        base_svma: u64,
    ) -> Result<Self, DwarfCfiIndexError>
        ensures found { IfOk result (IsIndexOf (section_of section_type bases section.now) base_svma) }
        ensures all { IfOk result (IsIndexOfAll (section_of section_type bases section.now) base_svma) }
        ensures refused { IfErr result (λ error. error ≢ Gimli OutOfMemory → HasNoIndex (section_of section_type bases section.now)) }
        ensures lengths { IfErr result IsIndexRefusal }
        ensures first { IfErr result (λ error. error ≢ Gimli OutOfMemory → pairs_of (section_of section_type bases section.now) base_svma ≡ Err error) }
    {
        let section = UnwindSection::new(section, section_type, &bases);
        let keys = read_keys(alloc, &section, base_svma)?;
        match Self::from_keys(alloc, keys) {
            Ok(index) => Ok(index),
            Err(_) => Err(DwarfCfiIndexError::Gimli(ReadError::OutOfMemory)),
        }
    }

    /// Returns the index of the pairs of these keys, in any order.
    fn from_keys(alloc: Global, mut keys: Vec<u64>) -> Result<Self, AllocError>
        requires { length keys.items ≤ 2 ^ 30 }
        ensures only { IfOk result (λ index. IsPermutation (map pair_of_key keys.items) index) }
        ensures tree { IfOk result (λ index. IsSearchTree index) }
    {
        keys.sort_unstable();
        let tree = fill(alloc, &keys)?;
        let last_start = last_start(&keys);
        let shift = block_shift(last_start, keys.len());
        let shortcuts = shortcuts_of(alloc, &tree, last_start, shift)?;
        Ok(DwarfCfiIndex {
            tree,
            shift,
            shortcuts,
        })
    }

    /// Returns how many FDEs the index has.
    pub fn len(&self) -> usize
        ensures { result ≡ length self.now }
    {
        self.tree.len()
    }

    /// Returns the offset of the FDE that starts last of those that start at a relative address or before it; where
    /// several start there, that of the last in the section.
    ///
    /// The search is that of `lookup_counted`, but begins at the place to which that comes for each address of the
    /// block.
    pub fn fde_offset_for_relative_address(&self, rel_lookup_address: u32) -> Option<u32>
        ensures exact { result ≡ fde_offset_for self.now rel_lookup_address }
        ensures law { IsFdeFor self.now rel_lookup_address result }
    {
        let begin = self.shortcut(rel_lookup_address);
        let end = descend(&self.tree, rel_lookup_address, begin);
        found_before(&self.tree, rel_lookup_address, end)
    }

    /// Returns a place of the tree that the search for an address comes to.
    fn shortcut(&self, address: u32) -> usize
        ensures { IsOnPath self.now address result }
    {
        let last = self.shortcuts.len() - 1;
        let block = (address >> self.shift) as usize;
        self.shortcuts[block.min(last)] as usize
    }

    /// Returns the same offset, and the number of pairs that the search from place 0 of the tree looks at: at most as
    /// many as `len` has binary digits, and 0 where there is no pair.
    pub fn lookup_counted(&self, rel_lookup_address: u32) -> (Option<u32>, u32)
        ensures exact { result.0 ≡ fde_offset_for self.now rel_lookup_address }
        ensures counted { result.1 ≡ looked_at self.now rel_lookup_address (length self.now) 0 }
        ensures few { IsWithinDigits result.1 (length self.now) }
    {
        search(&self.tree, rel_lookup_address)
    }
}

/// Returns the keys of the pairs of all FDEs of a section that can be read and fit, in its order.
fn read_keys(
    alloc: Global,
    section: &UnwindSection,
    base_svma: u64,
) -> Result<Vec<u64>, DwarfCfiIndexError>
    ensures read { IfOk result (λ keys. pairs_of section.now base_svma ≡ Ok (map pair_of_key keys.items)) }
    ensures few { IfOk result (λ keys. length keys.items ≤ 2 ^ 30) }
    ensures lengths { IfErr result IsIndexRefusal }
    ensures first { IfErr result (λ error. error ≢ Gimli OutOfMemory → pairs_of section.now base_svma ≡ Err error) }
{
    let mut keys = Vec::new(alloc);
    let mut cies = KnownCies::new(alloc, section);
    let mut at = 0;
    while at < section.bytes.len() {
        let extent = match read_extent(section.bytes, at) {
            Ok(extent) => extent,
            Err(error) => return Err(DwarfCfiIndexError::Gimli(error)),
        };
        if extent.is_zero_length() {
            match section.section_type {
                UnwindSectionType::EhFrame => return Ok(keys),
                UnwindSectionType::DebugFrame => {}
            }
        } else {
            match visit_entry(section, base_svma, &mut cies, at, &extent)? {
                Some(pair) => {
                    if keys.push(key_of(pair)).is_err() {
                        return Err(DwarfCfiIndexError::Gimli(ReadError::OutOfMemory));
                    }
                }
                None => {}
            }
        }
        at = extent.end;
    }
    Ok(keys)
}

/// Returns the pair of the entry in the extent at an offset, whose length is not 0, if it is an FDE that can be read and
/// fits.
#[tactic(auto, unfolding(framehop_cfi::specs::Entry::head_at, framehop_cfi::specs::Entry::fde_at, crate::specs::Index::pair_at))]
fn visit_entry(
    section: &UnwindSection,
    base_svma: u64,
    cies: &mut KnownCies<'_>,
    at: usize,
    extent: &EntryExtent,
) -> Result<Option<(u32, u32)>, DwarfCfiIndexError>
    requires same { cies.old ≡ section.now }
    requires extent { extent_at section.now.bytes at ≡ Ok extent.now }
    requires some { is_zero_length extent.now ≡ false }
    ensures exact { IfOk result (λ pair. pair ≡ pair_at section.now base_svma at) }
    ensures memory { IfErr result (λ error. error ≡ Gimli OutOfMemory) }
    ensures kept { cies.new ≡ cies.old }
{
    match section.head_of(extent) {
        Ok(head) => read_pair(base_svma, cies, at, head),
        Err(_) => Ok(None),
    }
}

/// Returns the pair of the entry at an offset that begins with a head, if it is an FDE that can be read and fits.
#[tactic(auto, unfolding(framehop_cfi::specs::Entry::cie_at))]
fn read_pair(
    base_svma: u64,
    cies: &mut KnownCies<'_>,
    at: usize,
    head: EntryHead,
) -> Result<Option<(u32, u32)>, DwarfCfiIndexError>
    ensures exact { IfOk result (λ pair. pair ≡ pair_if_read base_svma at (fde_of_head cies.old head)) }
    ensures memory { IfErr result (λ error. error ≡ Gimli OutOfMemory) }
    ensures kept { cies.new ≡ cies.old }
{
    match head {
        EntryHead::Fde {
            cie_offset,
            fields,
            end,
        } => match cies.read_fde(cie_offset, fields, end) {
            Ok(Ok(fde)) => Ok(pair_of(base_svma, at, &fde)),
            Ok(Err(_)) => Ok(None),
            Err(_) => Err(DwarfCfiIndexError::Gimli(ReadError::OutOfMemory)),
        },
        _ => Ok(None),
    }
}

/// Returns an FDE's start relative to the base, and its offset, if both fit 32 bits.
fn pair_of(base_svma: u64, at: usize, fde: &FrameDescriptionEntry) -> Option<(u32, u32)>
    ensures { result ≡ pair_of base_svma at fde.now }
{
    let relative = fde.initial_address.checked_sub(base_svma)?;
    let start = u32::try_from(relative).ok()?;
    let offset = u32::try_from(at).ok()?;
    Some((start, offset))
}

/// Returns a pair as one number, so that numbers in order are pairs in order.
fn key_of(pair: (u32, u32)) -> u64
    ensures { pair_of_key result ≡ pair }
{
    let (start, offset) = pair;
    u64::from(start) * START_UNIT + u64::from(offset)
}

/// Returns the pairs of sorted keys as a search tree by levels.
///
/// The loop goes through the levels: `width` is the number of places of one, and `within` of those to the left of
/// the next. In a tree whose last level is full that is the place `left` from left to right, counted from 1. There
/// every other place is of the last level, of which only `last_level` are here.
fn fill(alloc: Global, keys: &[u64]) -> Result<Vec<(u32, u32)>, AllocError>
    ensures { IfOk result (λ tree. left_to_right tree.items ≡ map pair_of_key keys.now) }
{
    let count = keys.len();
    let mut tree = Vec::with_capacity(alloc, count)?;
    if count == 0 {
        return Ok(tree);
    }
    let half = 2usize.pow(count.ilog2());
    let last_level = count - half + 1;
    let mut width = 1;
    let mut step = half;
    let mut within = 0;
    for _place in 0..count {
        if within == width {
            width *= 2;
            step /= 2;
            within = 0;
        }
        let left = 2 * within * step + step;
        let rank = (left - 1) / 2 + (left / 2).min(last_level);
        tree.push(pair_of_key(keys[rank]))?;
        within += 1;
    }
    Ok(tree)
}

/// Returns where the last pair of sorted keys starts, or 0.
fn last_start(keys: &[u64]) -> u32
    requires { IsAscending (map pair_of_key keys.now) }
    ensures { StartUpTo (map pair_of_key keys.now) result }
{
    match keys.last() {
        Some(last) => pair_of_key(*last).0,
        None => 0,
    }
}

/// Returns the pair of a key.
fn pair_of_key(key: u64) -> (u32, u32)
    ensures { result ≡ pair_of_key key }
{
    ((key / START_UNIT) as u32, (key % START_UNIT) as u32)
}

/// Returns how many addresses a block has, as a power of two, so that there are between half a block and two of them
/// a pair.
fn block_shift(last_start: u32, count: usize) -> u32
    ensures { result < 32 }
{
    if last_start == 0 || count == 0 {
        return 0;
    }
    last_start.ilog2().saturating_sub(count.ilog2())
}

/// Returns, for each block of 2^shift addresses up to the one in which the last pair starts, a place of the tree that
/// the search for each of them comes to: the first from which it may go on in two ways, or else its end.
fn shortcuts_of(
    alloc: Global,
    tree: &[(u32, u32)],
    last_start: u32,
    shift: u32,
) -> Result<Vec<u32>, AllocError>
    requires tree { IsSearchTree tree.now }
    requires few { length tree.now ≤ 2 ^ 30 }
    requires last { StartUpTo tree.now last_start }
    requires small { shift < 32 }
    ensures { IfOk result (λ shortcuts. AreShortcuts tree.now shift shortcuts.items) }
{
    let mut places = tops_of(alloc, tree, last_start, shift)?;
    let mut before = 0;
    for block in 0..places.len() {
        if places[block] == NO_PAIR {
            // from the place of the block before, the search goes one way for all addresses of this block
            places[block] = descend(tree, (block as u32) << shift, before) as u32;
        }
        before = places[block] as usize;
    }
    Ok(places)
}

/// Returns for each block the least place whose pair starts in it, or `NO_PAIR`. All other pairs of the block are under
/// that place, so the search for each address of the block comes to it.
fn tops_of(
    alloc: Global,
    tree: &[(u32, u32)],
    last_start: u32,
    shift: u32,
) -> Result<Vec<u32>, AllocError>
    requires few { length tree.now ≤ 2 ^ 30 }
    requires last { StartUpTo tree.now last_start }
    requires small { shift < 32 }
    ensures { IfOk result (λ tops. AreTops tree.now shift last_start 0 (2 ^ 32 - 1) tops.items) }
{
    let mut tops = Vec::new(alloc);
    tops.resize((last_start >> shift) as usize + 1, NO_PAIR)?;
    let mut place = tree.len();
    while place > 0 {
        place -= 1;
        let block = (tree[place].0 >> shift) as usize;
        tops[block] = place as u32;
    }
    Ok(tops)
}

/// Returns the end of the search for an address, which is a place past the tree, from a place that it comes to.
fn descend(tree: &[(u32, u32)], address: u32, begin: usize) -> usize
    requires { IsOnPath tree.now address begin }
    ensures on { IsOnPath tree.now address result }
    ensures end { length tree.now ≤ result }
{
    if tree.is_empty() {
        return begin;
    }
    let mut place = begin;
    for _turn in 0..TURNS {
        place = next_place(tree, address, place);
    }
    while place < tree.len() {
        place = next_place(tree, address, place);
    }
    place
}

/// Returns the place that the search for an address goes to from one that it comes to, or that one where the search
/// has ended; without branches, which a processor could not foresee.
#[inline(always)]
fn next_place(tree: &[(u32, u32)], address: u32, place: usize) -> usize
    requires some { 0 < length tree.now }
    requires on { IsOnPath tree.now address place }
    ensures on { IsOnPath tree.now address result }
    ensures further { place < length tree.now → place < result }
{
    let inside = place.min(tree.len() - 1);
    let next = 2 * inside + 2 - usize::from(address < tree[inside].0);
    if place < tree.len() { next } else { place }
}

/// Returns the offset of the last pair at or below an address, by the end of the search for it.
///
/// Counted from 1, the two places under place `n` are `2 * n` and `2 * n + 1`. So the binary digits of the end, after
/// the first one, are the ways that the search took: 1 where the pair was at or below the address. The last such pair
/// is the one from which the last 1 was taken, and the digits before that 1 are its place.
fn found_before(tree: &[(u32, u32)], address: u32, end: usize) -> Option<u32>
    requires tree { IsAscending (left_to_right tree.now) }
    requires on { IsOnPath tree.now address end }
    requires end { length tree.now ≤ end }
    ensures { result ≡ fde_offset_for tree.now address }
{
    let number = end + 1;
    let found = (number >> number.trailing_zeros()) / 2;
    if found == 0 {
        return None;
    }
    Some(tree[found - 1].1)
}

/// Returns the offset of the last pair at or below an address, and the number of pairs looked at.
fn search(tree: &[(u32, u32)], address: u32) -> (Option<u32>, u32)
    requires { IsAscending (left_to_right tree.now) }
    ensures exact { result.0 ≡ fde_offset_for tree.now address }
    ensures counted { result.1 ≡ looked_at tree.now address (length tree.now) 0 }
    ensures few { IsWithinDigits result.1 (length tree.now) }
{
    let mut place = 0;
    let mut found = None;
    let mut count: u32 = 0;
    while place < tree.len() {
        let is_found = tree[place].0 <= address;
        if is_found {
            found = Some(place);
        }
        // not by a branch, which a processor could not foresee
        place = 2 * place + 1 + usize::from(is_found);
        count += 1;
    }
    match found {
        Some(place) => (Some(tree[place].1), count),
        None => (None, count),
    }
}
