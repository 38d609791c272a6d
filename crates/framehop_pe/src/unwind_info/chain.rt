//! The operations that undo a prolog: those of the first unwind info and of each info that it is
//! chained to, read in passes over the lent bytes.
ghost use Rattle.std.specs.Prelude.{◌≡◌, ◌<◌, [], Ok, Err, Some, MatchResult, MatchOption};
ghost use Rattle.std.specs.List.{flat_map};
ghost use Rattle.std.specs.Iterator.{YieldsFirst, item_count};
ghost use Rattle.framehop_pe.specs.Sections.{sections_of};
ghost use Rattle.framehop_pe.specs.Info.{shown, read_by};
ghost use Rattle.framehop_pe.specs.Chain.{header_at, info_at, all_of, chained_infos, infos_from, operations_from};
ghost use Rattle.framehop_pe.specs.Operations.{left_infos, left_operations};

use super::info::{FrameRegister, PrologInfo, UnwindCodes, UnwindInfo};
use super::operation::UnwindOperation;
use crate::pe::{PeSections, PeUnwinderError};
use framehop_bytes::section::SectionBytes;

/// How many infos may be chained to the first one.
const MAX_CHAINED_INFOS: u8 = 32;

/// What operations count from in the frame whose prolog they undo.
#[derive(Clone, Copy)]
pub struct FrameBase {
    /// The frame register of the info that has the operation.
    pub frame_register: Option<FrameRegister>,
    /// Whether each code of that info that sets the frame register has run.
    pub is_established: bool,
}

/// An operation, and what it counts from.
#[derive(Clone, Copy)]
pub struct FramedOperation {
    /// The operation.
    pub operation: UnwindOperation,
    /// What it counts from.
    pub base: FrameBase,
}

impl<'a, D: SectionBytes> PeSections<'a, D> {
    /// Reads the header of the unwind info at a relative address.
    pub fn unwind_info(&self, rva: u32) -> Result<UnwindInfo<'a>, PeUnwinderError>
        ensures { MatchResult result
            (λ info. header_at (sections_of D.contents self.now) rva ≡ Ok (shown info))
            (λ error. header_at (sections_of D.contents self.now) rva ≡ Err error) }
    {
        let bytes = self.unwind_info_memory_at_rva(rva)?;
        UnwindInfo::parse(bytes).ok_or(PeUnwinderError::UnwindInfoParseError)
    }

    /// Reads the unwind info at a relative address.
    #[tactic(auto, unfolding(crate::specs::Chain::info_at))]
    fn prolog_info(&self, rva: u32) -> Result<PrologInfo<'a>, PeUnwinderError>
        ensures { MatchResult result
            (λ info. info_at (sections_of D.contents self.now) rva ≡ Ok (read_by info))
            (λ error. info_at (sections_of D.contents self.now) rva ≡ Err error) }
    {
        let info = self.unwind_info(rva)?;
        info.read().ok_or(PeUnwinderError::UnwindInfoParseError)
    }
}

/// Reads a chain to its end, as a test.
fn check_chain<D: SectionBytes>(
    sections: &PeSections<'_, D>,
    chained: Option<u32>,
) -> Result<(), PeUnwinderError>
    ensures { MatchResult result
        (λ _. chained_infos (sections_of D.contents sections.now) 32 chained
        ≡ Ok (infos_from (sections_of D.contents sections.now) 32 chained))
        (λ error. chained_infos (sections_of D.contents sections.now) 32 chained ≡ Err error) }
{
    let mut left = MAX_CHAINED_INFOS;
    let mut next = chained;
    while let Some(rva) = next {
        if left == 0 {
            return Err(PeUnwinderError::UnwindInfoParseError);
        }
        let info = sections.prolog_info(rva)?;
        next = info.chained;
        left -= 1;
    }
    Ok(())
}

/// The operations that are left to be undone.
#[derive_where(Clone, Copy)]
pub(crate) struct UnwindOperations<'s, 'a, D> {
    sections: &'s PeSections<'a, D>,
    codes: UnwindCodes<'a>,
    base: FrameBase,
    chained: Option<u32>,
    left: u8,
}

impl<'s, 'a, D: SectionBytes> UnwindOperations<'s, 'a, D> {
    /// Returns the operations from an offset in the function, in bytes: those of the first info that
    /// have run there, then all of each chained info. Each info is judged here.
    #[tactic(auto, unfolding(crate::specs::Chain::operations_from))]
    pub fn new(
        sections: &'s PeSections<'a, D>,
        info: UnwindInfo<'a>,
        offset: u32,
    ) -> Result<Self, PeUnwinderError>
        ensures { MatchResult result
            (λ operations. operations_from (sections_of D.contents sections.entry.now) (shown info.entry) offset
            ≡ Ok (left_operations D.contents operations))
            (λ error. operations_from (sections_of D.contents sections.entry.now) (shown info.entry) offset
            ≡ Err error) }
    {
        let info = info.read().ok_or(PeUnwinderError::UnwindInfoParseError)?;
        check_chain(sections, info.chained)?;
        let mut codes = info.codes;
        let is_established = !codes.skip_beyond(offset);
        Ok(UnwindOperations {
            sections,
            codes,
            base: FrameBase {
                frame_register: info.frame_register,
                is_established,
            },
            chained: info.chained,
            left: MAX_CHAINED_INFOS,
        })
    }
}

impl<'s, 'a, D: SectionBytes> UnwindOperations<'s, 'a, D> {
    /// Goes on to the chained info, if there is one that can be read.
    fn enter_chained(&mut self) -> Option<()>
        ensures { MatchOption result
            ((self.new ≡ self.old) × (left_infos D.contents self.old ≡ []))
            (λ _. (self.new.left < self.old.left)
            × (left_operations D.contents self.new ≡ flat_map all_of (left_infos D.contents self.old))) }
    {
        let rva = self.chained?;
        if self.left == 0 {
            return None;
        }
        let Ok(info) = self.sections.prolog_info(rva) else {
            return None;
        };
        self.left -= 1;
        self.chained = info.chained;
        self.codes = info.codes;
        self.base = FrameBase {
            frame_register: info.frame_register,
            is_established: true,
        };
        Some(())
    }
}

impl<D: SectionBytes> Iterator for UnwindOperations<'_, '_, D> {
    type Item = FramedOperation;

    ghost next_gives = { YieldsFirst (left_operations D.contents) };

    ghost remaining = { item_count (left_operations D.contents) };

    fn next(&mut self) -> Option<FramedOperation> {
        loop {
            if let Some(code) = self.codes.next() {
                return Some(FramedOperation {
                    operation: code.operation,
                    base: self.base,
                });
            }
            self.enter_chained()?;
        }
    }
}
