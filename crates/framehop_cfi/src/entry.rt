//! The entries of a call frame section: CIEs and FDEs (DWARF 5 section 6.4.1; LSB, `.eh_frame`).
//!
//! A section is cut by its lengths and then read: the kind of an entry is read at its offset, and an FDE says where
//! its CIE is. The refusal is the first in the order in which the bytes are read.
ghost use Rattle.std.specs.Prelude.{◌≡◌, ◌≢◌, Err, IfErr, IfOk, take};
ghost use Rattle.framehop_cfi.specs.EntryMeaning.{IsCie, IsFde};
ghost use Rattle.framehop_cfi.specs.Section.{section_of};
ghost use Rattle.framehop_cfi.specs.Entry.{eh_frame_id, debug_frame_id, id_at, head_at, cie_at, fde_at, cie_fields, fde_fields, sizes_at, sizes_of, return_register_at, alignments_at, skipped_at, is_known_version, versioned_fields, fde_range};

use crate::augmentation::{find_terminator, read_counted};
use crate::extent::{EntryExtent, read_extent};
use crate::leb128::{read_sleb128, read_uleb128};
use crate::numbers::{read_u8, read_u32, read_u64};
use crate::pointer::{BaseAddresses, DW_EH_PE_INDIRECT, SectionBaseAddresses, read_raw_pointer};
use crate::read_error::ReadError;
use framehop_bytes::bytes::front;
use std::marker::Model;

/// Which of the two call frame sections the bytes are.
#[derive(Clone, Copy, Debug, PartialEq, Eq)]
pub enum UnwindSectionType {
    EhFrame,
    DebugFrame,
}

/// What stands at an offset of a section.
#[derive(Clone, Copy)]
pub enum EntryHead {
    /// A length of 0: the offset after it.
    ZeroLength(usize),
    /// A CIE.
    Cie {
        /// Where its fields begin, after its id.
        fields: usize,
        /// Where it ends.
        end: usize,
    },
    /// An FDE.
    Fde {
        /// Where its CIE is.
        cie_offset: usize,
        /// Where its fields begin, after that.
        fields: usize,
        /// Where it ends.
        end: usize,
    },
}

/// A common information entry (CIE): what the FDEs that name it share.
#[derive(Clone, Copy)]
pub struct CommonInformationEntry {
    /// What an advance of the location is multiplied by.
    pub code_alignment_factor: u64,
    /// What a factored offset is multiplied by.
    pub data_alignment_factor: i64,
    /// How its FDEs encode their addresses.
    pub fde_pointer_encoding: u8,
    /// Whether its FDEs have augmentation data.
    pub has_augmentation_data: bool,
    /// The offset of its instructions.
    pub instructions: usize,
    /// The offset after the entry.
    pub end: usize,
}

/// A frame description entry (FDE): a function's range and its instructions.
#[derive(Clone, Copy)]
pub struct FrameDescriptionEntry {
    /// The CIE that it names.
    pub cie: CommonInformationEntry,
    /// The first address that it covers, an SVMA.
    pub initial_address: u64,
    /// How many bytes it covers.
    pub address_range: u64,
    /// The offset of its instructions.
    pub instructions: usize,
    /// The offset after the entry.
    pub end: usize,
}

/// A call frame section.
#[derive(Drop)]
pub struct UnwindSection<'a> {
    /// The section's bytes.
    pub bytes: &'a [u8],
    /// Which section this is.
    pub section_type: UnwindSectionType,
    /// What its pointers count from.
    pub bases: SectionBaseAddresses,
}

impl<'a> Model for UnwindSection<'a> {
    ghost use Rattle.framehop_cfi.specs.Section.{Section};

    ghost Value = { Section };

    ghost view = { λ section. record { kind = section.section_type; bases = section.bases; bytes = section.bytes.now } };
}

impl<'a> UnwindSection<'a> {
    /// Returns the section of these bytes, in a module that lies at these addresses.
    pub fn new(
        bytes: &'a [u8],
        section_type: UnwindSectionType,
        bases: &BaseAddresses,
    ) -> UnwindSection<'a>
        ensures { result ≡ section_of section_type bases.now bytes.now }
    {
        let section = match section_type {
            UnwindSectionType::EhFrame => bases.eh_frame,
            UnwindSectionType::DebugFrame => 0,
        };
        UnwindSection {
            bytes,
            section_type,
            bases: SectionBaseAddresses {
                section,
                text: bases.text,
                data: bases.got,
            },
        }
    }

    /// Returns the section's bytes.
    pub fn bytes(&self) -> &[u8]
        ensures { result.now ≡ self.now.bytes }
    {
        self.bytes
    }

    /// Returns the FDE at an offset, with the CIE at the offset that it names.
    ///
    /// An offset of a CIE or of a zero length is refused by `NotFde`.
    pub fn fde_from_offset(&self, at: usize) -> Result<FrameDescriptionEntry, ReadError>
        ensures found { IfOk result (IsFde self.now at) }
        ensures none { IfErr result (λ _. (fde : FrameDescriptionEntry) → IsFde self.now at fde → ⊥) }
        ensures exact { result ≡ fde_at self.now at }
        ensures memory { result ≢ Err ReadError.OutOfMemory }
    {
        // apart, so that `found` and `none` are proved of an answer that is known exactly
        self.read_fde_at(at)
    }

    /// Returns the FDE at an offset, read field by field.
    #[tactic(auto, unfolding(crate::specs::Entry::fde_at))]
    fn read_fde_at(&self, at: usize) -> Result<FrameDescriptionEntry, ReadError>
        ensures exact { result ≡ fde_at self.now at }
        ensures memory { result ≢ Err ReadError.OutOfMemory }
    {
        match self.head_at(at)? {
            EntryHead::Fde {
                cie_offset,
                fields,
                end,
            } => {
                let cie = self.read_cie_at(cie_offset)?;
                self.read_fde(&cie, fields, end)
            }
            _ => Err(ReadError::NotFde),
        }
    }

    /// Returns the FDE of that CIE whose fields begin after its CIE's offset and end with the entry, or with the
    /// section.
    pub fn read_fde(
        &self,
        cie: &CommonInformationEntry,
        fields: usize,
        end: usize,
    ) -> Result<FrameDescriptionEntry, ReadError>
        ensures exact { result ≡ fde_fields self.now.bases cie.now (take end self.now.bytes) fields end }
        ensures end { IfOk result (λ fde. (fde.end ≡ end) × (fde.cie ≡ cie.now)) }
        ensures memory { result ≢ Err ReadError.OutOfMemory }
    {
        if cie.fde_pointer_encoding >= DW_EH_PE_INDIRECT {
            return Err(ReadError::BadEncoding);
        }
        self.read_range(cie, front(self.bytes, end), fields, end)
    }

    /// Returns an FDE's range, and what stands after it.
    #[tactic(auto, unfolding(crate::specs::Entry::fde_range))]
    fn read_range(
        &self,
        cie: &CommonInformationEntry,
        entry: &[u8],
        at: usize,
        end: usize,
    ) -> Result<FrameDescriptionEntry, ReadError>
        ensures exact { result ≡ fde_range self.now.bases cie.now entry.now at end }
        ensures end { IfOk result (λ fde. (fde.end ≡ end) × (fde.cie ≡ cie.now)) }
        ensures memory { result ≢ Err ReadError.OutOfMemory }
    {
        let encoding = cie.fde_pointer_encoding;
        let (initial_address, next) = self.bases.read_pointer(entry, at, encoding)?;
        let (address_range, next) = read_raw_pointer(entry, next, encoding)?;
        let instructions = skip_augmentation_data(cie.has_augmentation_data, entry, next)?;
        Ok(FrameDescriptionEntry {
            cie: *cie,
            initial_address,
            address_range,
            instructions,
            end,
        })
    }

    /// Returns the CIE at an offset.
    ///
    /// An offset of an FDE or of a zero length is refused by `NotCie`.
    pub fn cie_from_offset(&self, at: usize) -> Result<CommonInformationEntry, ReadError>
        ensures found { IfOk result (IsCie self.now at) }
        ensures none { IfErr result (λ _. (cie : CommonInformationEntry) → IsCie self.now at cie → ⊥) }
        ensures exact { result ≡ cie_at self.now at }
        ensures memory { result ≢ Err ReadError.OutOfMemory }
    {
        // apart, as `read_fde_at` is
        self.read_cie_at(at)
    }

    /// Returns the CIE at an offset, read field by field.
    #[tactic(auto, unfolding(crate::specs::Entry::cie_at))]
    fn read_cie_at(&self, at: usize) -> Result<CommonInformationEntry, ReadError>
        ensures exact { result ≡ cie_at self.now at }
        ensures memory { result ≢ Err ReadError.OutOfMemory }
    {
        match self.head_at(at)? {
            EntryHead::Cie { fields, end } => self.read_cie(fields, end),
            _ => Err(ReadError::NotCie),
        }
    }

    /// Returns what stands at an offset.
    #[tactic(auto, unfolding(crate::specs::Entry::head_at))]
    pub fn head_at(&self, at: usize) -> Result<EntryHead, ReadError>
        ensures exact { result ≡ head_at self.now.kind self.now.bytes at }
        ensures memory { result ≢ Err ReadError.OutOfMemory }
    {
        let extent = read_extent(self.bytes, at)?;
        if extent.is_zero_length() {
            return Ok(EntryHead::ZeroLength(extent.end));
        }
        self.head_of(&extent)
    }

    /// Returns the id of the entry in an extent, whose length is not 0: which kind it is.
    pub fn head_of(&self, extent: &EntryExtent) -> Result<EntryHead, ReadError>
        ensures exact { result ≡ id_at self.now.kind (take extent.now.end self.now.bytes) extent.now }
        ensures memory { result ≢ Err ReadError.OutOfMemory }
    {
        let entry = front(self.bytes, extent.end);
        match self.section_type {
            UnwindSectionType::EhFrame => read_eh_frame_id(entry, extent),
            UnwindSectionType::DebugFrame => read_debug_frame_id(entry, extent),
        }
    }

    /// Returns the CIE whose fields begin after its id and end with the entry, or with the section.
    #[tactic(auto, unfolding(crate::specs::Entry::cie_fields))]
    fn read_cie(&self, fields: usize, end: usize) -> Result<CommonInformationEntry, ReadError>
        ensures exact { result ≡ cie_fields self.now.kind self.now.bases (take end self.now.bytes) fields end }
        ensures end { IfOk result (λ cie. cie.end ≡ end) }
        ensures memory { result ≢ Err ReadError.OutOfMemory }
    {
        let entry = front(self.bytes, end);
        let (version, next) = read_u8(entry, fields)?;
        if !is_known_version(version) {
            return Err(ReadError::UnknownVersion);
        }
        self.read_versioned(version, entry, next, end)
    }

    /// Returns the fields after a CIE's version.
    #[tactic(auto, unfolding(crate::specs::Entry::versioned_fields))]
    fn read_versioned(
        &self,
        version: u8,
        entry: &[u8],
        at: usize,
        end: usize,
    ) -> Result<CommonInformationEntry, ReadError>
        ensures exact { result ≡ versioned_fields self.now.kind self.now.bases version entry.now at end }
        ensures end { IfOk result (λ cie. cie.end ≡ end) }
        ensures memory { result ≢ Err ReadError.OutOfMemory }
    {
        let terminator = find_terminator(entry, at)?;
        let sizes = self.skip_sizes(version, entry, terminator + 1)?;
        self.read_alignments(version, &entry[at..terminator], entry, sizes, end)
    }

    /// Skips the sizes of addresses and of segment selectors, which version 4 has in `.debug_frame`. Returns
    /// the offset after them.
    fn skip_sizes(&self, version: u8, entry: &[u8], at: usize) -> Result<usize, ReadError>
        ensures exact { result ≡ sizes_of self.now.kind version entry.now at }
        ensures memory { result ≢ Err ReadError.OutOfMemory }
    {
        match self.section_type {
            UnwindSectionType::DebugFrame if version == 4 => read_sizes(entry, at),
            _ => Ok(at),
        }
    }

    /// Returns the fields after a CIE's augmentation text.
    #[tactic(auto, unfolding(crate::specs::Entry::alignments_at))]
    fn read_alignments(
        &self,
        version: u8,
        letters: &[u8],
        entry: &[u8],
        at: usize,
        end: usize,
    ) -> Result<CommonInformationEntry, ReadError>
        ensures exact { result ≡ alignments_at self.now.bases version letters.now entry.now at end }
        ensures end { IfOk result (λ cie. cie.end ≡ end) }
        ensures memory { result ≢ Err ReadError.OutOfMemory }
    {
        let (code_alignment_factor, next) = read_uleb128(entry, at)?;
        let (data_alignment_factor, next) = read_sleb128(entry, next)?;
        let next = skip_return_register(version, entry, next)?;
        let augmentation = self.bases.read_augmentation(letters, entry, next)?;
        Ok(CommonInformationEntry {
            code_alignment_factor,
            data_alignment_factor,
            fde_pointer_encoding: augmentation.encoding,
            has_augmentation_data: augmentation.has_data,
            instructions: augmentation.after_data,
            end,
        })
    }
}

/// Returns the offset after an FDE's augmentation data, if it has any.
fn skip_augmentation_data(has_data: bool, entry: &[u8], at: usize) -> Result<usize, ReadError>
    ensures exact { result ≡ skipped_at has_data entry.now at }
    ensures memory { result ≢ Err ReadError.OutOfMemory }
{
    if !has_data {
        return Ok(at);
    }
    let (_, end) = read_counted(entry, at)?;
    Ok(end)
}

/// Returns the id of an entry of `.eh_frame`, where an FDE's CIE lies so many bytes before the field.
#[tactic(auto, unfolding(crate::specs::Entry::eh_frame_id))]
fn read_eh_frame_id(entry: &[u8], extent: &EntryExtent) -> Result<EntryHead, ReadError>
    ensures exact { result ≡ eh_frame_id entry.now extent.now }
    ensures memory { result ≢ Err ReadError.OutOfMemory }
{
    let (id, next) = read_u32(entry, extent.contents)?;
    let distance = id as usize;
    if distance == 0 {
        return Ok(EntryHead::Cie {
            fields: next,
            end: extent.end,
        });
    }
    if distance > extent.contents {
        return Err(ReadError::NumberTooBig);
    }
    Ok(EntryHead::Fde {
        cie_offset: extent.contents - distance,
        fields: next,
        end: extent.end,
    })
}

/// Returns the id of an entry of `.debug_frame`, where an FDE's CIE lies at the offset in the field.
#[tactic(auto, unfolding(crate::specs::Entry::short_id, crate::specs::Entry::long_id))]
fn read_debug_frame_id(entry: &[u8], extent: &EntryExtent) -> Result<EntryHead, ReadError>
    ensures exact { result ≡ debug_frame_id entry.now extent.now }
    ensures memory { result ≢ Err ReadError.OutOfMemory }
{
    if extent.offset_size == 4 {
        let (id, next) = read_u32(entry, extent.contents)?;
        if id == u32::MAX {
            return Ok(EntryHead::Cie {
                fields: next,
                end: extent.end,
            });
        }
        return Ok(EntryHead::Fde {
            cie_offset: id as usize,
            fields: next,
            end: extent.end,
        });
    }
    let (id, next) = read_u64(entry, extent.contents)?;
    if id == u64::MAX {
        return Ok(EntryHead::Cie {
            fields: next,
            end: extent.end,
        });
    }
    Ok(EntryHead::Fde {
        cie_offset: id as usize,
        fields: next,
        end: extent.end,
    })
}

/// Returns whether the CIE's version is one that is read here.
fn is_known_version(version: u8) -> bool
    ensures { result ≡ is_known_version version }
{
    version == 1 || version == 3 || version == 4
}

/// Skips the sizes of addresses and of segment selectors. Returns the offset after them.
#[tactic(auto, unfolding(crate::specs::Entry::sizes_at))]
fn read_sizes(bytes: &[u8], at: usize) -> Result<usize, ReadError>
    ensures exact { result ≡ sizes_at bytes.now at }
    ensures memory { result ≢ Err ReadError.OutOfMemory }
{
    let (address_size, next) = read_u8(bytes, at)?;
    let (segment_size, next) = read_u8(bytes, next)?;
    if address_size != 8 || segment_size != 0 {
        return Err(ReadError::BadEncoding);
    }
    Ok(next)
}

/// Skips the return register, which is not used. Returns the offset after it.
fn skip_return_register(version: u8, bytes: &[u8], at: usize) -> Result<usize, ReadError>
    ensures exact { result ≡ return_register_at version bytes.now at }
    ensures memory { result ≢ Err ReadError.OutOfMemory }
{
    if version == 1 {
        let (_, next) = read_u8(bytes, at)?;
        return Ok(next);
    }
    let (_, next) = read_uleb128(bytes, at)?;
    Ok(next)
}
