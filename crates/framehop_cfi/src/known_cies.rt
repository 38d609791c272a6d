//! The CIEs of a section that were read: each is read once, however many FDEs name it, in whichever order.
ghost use Rattle.std.specs.Prelude.{◌≡◌, IfOk};
ghost use Rattle.framehop_cfi.specs.Entry.{cie_at, fde_of_head};
ghost use Rattle.framehop_cfi.specs.declared.entry.EntryHead.TheVariants.{Fde};

use crate::entry::{CommonInformationEntry, FrameDescriptionEntry, UnwindSection};
use crate::read_error::ReadError;
use std::alloc::{AllocError, Global};
use std::collections::BTreeMap;
use std::marker::Model;

/// A section with its CIEs that were read.
#[derive(Drop)]
pub struct KnownCies<'a> {
    section: &'a UnwindSection<'a>,
    /// The one that was asked for last, and its offset: most FDEs name the CIE that the one before names.
    last: Option<(usize, Result<CommonInformationEntry, ReadError>)>,
    by_offset: BTreeMap<usize, Result<CommonInformationEntry, ReadError>>,
}

impl<'a> Model for KnownCies<'a> {
    ghost use Rattle.std.specs.Prelude.{◌≡◌, ℕ, IfSome};
    ghost use Rattle.std.specs.BTreeMap.{get};
    ghost use Rattle.std.specs.Ordering.{nat_cmp};
    ghost use Rattle.framehop_cfi.specs.Entry.{cie_at};
    ghost use Rattle.framehop_cfi.specs.Section.{Section};

    ghost Value = { Section };

    ghost view = { λ cies. cies.section.now };

    ghost invariant = { λ cies. IfSome cies.last (λ known. known.1 ≡ cie_at cies.section.now known.0)
        × ((offset : ℕ) → IfSome (get nat_cmp cies.by_offset offset) (λ cie. cie ≡ cie_at cies.section.now offset)) };
}

impl<'a> KnownCies<'a> {
    /// Returns the section, of which no CIE was read.
    pub fn new(alloc: Global, section: &'a UnwindSection<'a>) -> Self
        ensures { result ≡ section.now }
    {
        KnownCies {
            section,
            last: None,
            by_offset: BTreeMap::new(alloc),
        }
    }

    /// Returns the FDE whose CIE is at `cie_offset`, and whose fields begin after that and end with the entry, or why
    /// it or its CIE can't be read.
    ///
    /// # Errors
    ///
    /// An allocation failed.
    #[tactic(auto, unfolding(crate::specs::Entry::fde_of_head))]
    pub fn read_fde(
        &mut self,
        cie_offset: usize,
        fields: usize,
        end: usize,
    ) -> Result<Result<FrameDescriptionEntry, ReadError>, AllocError>
        ensures exact { IfOk result (λ fde. fde ≡ fde_of_head self.old (Fde cie_offset fields end)) }
        ensures kept { self.new ≡ self.old }
    {
        match self.cie_from_offset(cie_offset)? {
            Ok(cie) => Ok(self.section.read_fde(&cie, fields, end)),
            Err(error) => Ok(Err(error)),
        }
    }

    /// Returns the CIE at an offset, or why none can be read there.
    fn cie_from_offset(
        &mut self,
        at: usize,
    ) -> Result<Result<CommonInformationEntry, ReadError>, AllocError>
        ensures exact { IfOk result (λ cie. cie ≡ cie_at self.old at) }
        ensures kept { self.new ≡ self.old }
    {
        if let Some((offset, cie)) = self.last
            && offset == at
        {
            return Ok(cie);
        }
        let cie = self.kept_cie(at)?;
        self.last = Some((at, cie));
        Ok(cie)
    }

    /// Returns the same, and keeps it by its offset.
    fn kept_cie(
        &mut self,
        at: usize,
    ) -> Result<Result<CommonInformationEntry, ReadError>, AllocError>
        ensures exact { IfOk result (λ cie. cie ≡ cie_at self.old at) }
        ensures kept { self.new ≡ self.old }
    {
        if let Some(cie) = self.by_offset.get(&at) {
            return Ok(*cie);
        }
        let cie = self.section.cie_from_offset(at);
        self.by_offset.insert(at, cie)?;
        Ok(cie)
    }
}
