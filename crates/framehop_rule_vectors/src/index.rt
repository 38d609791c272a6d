//! Look-ups in an index with the number of pairs that they look at, and refusals of sections.
ghost use Rattle.std.specs.Prelude.{[], ◌∷◌, codes, None, Some};

use crate::sections::{
    CUT_DEBUG_FRAME, DEBUG_FRAME, FOUR_FDES, GREAT_LENGTH, ONE_FDE, OTHER_AUGMENTATION, OTHER_CIE,
    OTHER_VERSION, RESERVED_LENGTH, TWO_FDES, at,
};
use framehop_bytes::section::ModuleSectionInfo;
use framehop_cfi::entry::UnwindSectionType;
use framehop_cfi::read_error::ReadError;
use framehop_dwarf::index::{DwarfCfiIndex, DwarfCfiIndexError};
use std::alloc::Global;
use std::ops::Range;
use std::test::Fail;

const EH_FRAME: UnwindSectionType = UnwindSectionType::EhFrame;

const DEBUG: UnwindSectionType = UnwindSectionType::DebugFrame;

/// The offset that an index has for an address, and how many pairs the look-up looks at; or why there is no index.
type Found = Result<(Option<u32>, u32), DwarfCfiIndexError>;

const CUT_OFF: Found = Err(DwarfCfiIndexError::Gimli(ReadError::Eof));

/// A section that begins at an address, and the base address of its module; then an address, and what is found.
type LookUp = (UnwindSectionType, &'static [u8], u64, u64, u32, Found);

const LOOK_UPS: [LookUp; 24] = [
    // The tree is (0x20, 80) over (0x20, 52) and (0x30, 108), with (0x10, 24) under the first of these.
    (EH_FRAME, &FOUR_FDES, 0x2000, 0, 0, Ok((None, 3))),
    (EH_FRAME, &FOUR_FDES, 0x2000, 0, 0x0f, Ok((None, 3))),
    (EH_FRAME, &FOUR_FDES, 0x2000, 0, 0x10, Ok((Some(24), 3))),
    (EH_FRAME, &FOUR_FDES, 0x2000, 0, 0x1f, Ok((Some(24), 3))),
    (EH_FRAME, &FOUR_FDES, 0x2000, 0, 0x20, Ok((Some(80), 2))),
    (EH_FRAME, &FOUR_FDES, 0x2000, 0, 0x2f, Ok((Some(80), 2))),
    (EH_FRAME, &FOUR_FDES, 0x2000, 0, 0x30, Ok((Some(108), 2))),
    (EH_FRAME, &FOUR_FDES, 0x2000, 0, 0x38, Ok((Some(108), 2))),
    (
        EH_FRAME,
        &FOUR_FDES,
        0x2000,
        0,
        0xffff_ffff,
        Ok((Some(108), 2)),
    ),
    (EH_FRAME, &[0, 0, 0, 0], 0x2000, 0, 0x1000, Ok((None, 0))),
    (EH_FRAME, &TWO_FDES, 0x2000, 0, 0x1000, Ok((Some(52), 1))),
    (EH_FRAME, &OTHER_CIE, 0x2000, 0, 0x1000, Ok((Some(24), 1))),
    (EH_FRAME, &OTHER_VERSION, 0x2000, 0, 0x1000, Ok((None, 0))),
    // the start is one below the base, and at it
    (EH_FRAME, &ONE_FDE, 0x2000, 0x1001, 0x1000, Ok((None, 0))),
    (EH_FRAME, &ONE_FDE, 0x2000, 0x1000, 0, Ok((Some(24), 1))),
    // it is 2^32 above the base, and 2^32 - 1
    (
        EH_FRAME,
        &ONE_FDE,
        0x1_0000_2000,
        0x1000,
        0x1000,
        Ok((None, 0)),
    ),
    (
        EH_FRAME,
        &ONE_FDE,
        0x1_0000_2000,
        0x1001,
        0xffff_fffe,
        Ok((None, 1)),
    ),
    (
        EH_FRAME,
        &ONE_FDE,
        0x1_0000_2000,
        0x1001,
        0xffff_ffff,
        Ok((Some(24), 1)),
    ),
    (DEBUG, &OTHER_AUGMENTATION, 0, 0, 0x1000, Ok((None, 1))),
    (DEBUG, &OTHER_AUGMENTATION, 0, 0, 0x1fff, Ok((None, 1))),
    (DEBUG, &OTHER_AUGMENTATION, 0, 0, 0x2000, Ok((Some(73), 1))),
    (
        EH_FRAME,
        &RESERVED_LENGTH,
        0x2000,
        0,
        0x1000,
        Err(DwarfCfiIndexError::Gimli(ReadError::BadLength)),
    ),
    (EH_FRAME, &GREAT_LENGTH, 0x2000, 0, 0x1000, CUT_OFF),
    (DEBUG, &CUT_DEBUG_FRAME, 0, 0, 0x1000, CUT_OFF),
];

/// What an index of a section finds.
fn look_up(
    alloc: Global,
    section_type: UnwindSectionType,
    section: &[u8],
    eh_frame: u64,
    base_svma: u64,
    address: u32,
) -> Found {
    let index = DwarfCfiIndex::try_new(alloc, section, section_type, at(eh_frame), base_svma)?;
    Ok(index.lookup_counted(address))
}

#[test]
fn finds_by_an_index(rt: HostRuntime) {
    for (section_type, section, eh_frame, base_svma, address, want) in LOOK_UPS {
        let found = look_up(
            rt.alloc(),
            section_type,
            section,
            eh_frame,
            base_svma,
            address,
        );
        assert_eq!(rt; found, want, "{section:?} at {address:x}");
    }
}

/// The CIE of a `.debug_frame`.
const CIE: [u8; 20] = [
    0x10, 0x00, 0x00, 0x00, 0xff, 0xff, 0xff, 0xff, 0x04, 0x00, 0x08, 0x00, 0x01, 0x78, 0x10, 0x0c,
    0x07, 0x08, 0x90, 0x01,
];

/// An FDE of that CIE before its start, and after it.
const BEFORE_START: [u8; 8] = [0x1c, 0x00, 0x00, 0x00, 0x00, 0x00, 0x00, 0x00];

const AFTER_START: [u8; 16] = [
    0x01, 0x00, 0x00, 0x00, 0x00, 0x00, 0x00, 0x00, 0x41, 0x0e, 0x10, 0x86, 0x02, 0x00, 0x00, 0x00,
];

/// The index of a `.debug_frame` with an FDE for each of these starts. The first is at offset 20, and each takes 32
/// bytes.
fn index_of_starts(alloc: Global, starts: &[u64]) -> Result<DwarfCfiIndex, Fail> {
    let mut section = Vec::from_slice(alloc, &CIE)?;
    for start in starts {
        section.extend_from_slice(&BEFORE_START)?;
        section.extend_from_slice(&start.to_le_bytes())?;
        section.extend_from_slice(&AFTER_START)?;
    }
    Ok(DwarfCfiIndex::try_new(alloc, section.as_slice(), DEBUG, at(0), 0)?)
}

/// Starts in the order of a section; then an address, its offset, and how many pairs the search from index 0 looks at.
type Searched = (&'static [u64], u32, Option<u32>, u32);

const EIGHT: [u64; 8] = [0x1_0000, 0x106, 0x105, 0x104, 0x103, 0x102, 0x101, 0x100];

/// Their tree has by levels the pairs 0x20 (84), 0x20 (52), 0x30 (116), 0x10 (20).
const FOUR: [u64; 4] = [0x10, 0x20, 0x20, 0x30];

const SEARCHED: [Searched; 24] = [
    (&FOUR, 0x0f, None, 3),
    (&FOUR, 0x10, Some(20), 3),
    (&FOUR, 0x2f, Some(84), 2),
    // The logarithms of 0x10000 and 8 are 16 and 3, so a block has 2^13 addresses. In the first block start seven pairs,
    // of which that of 0x103 (offset 148) is at index 1. At index 0 is that of 0x104 (116): the least index.
    (&EIGHT, 0, None, 4),
    (&EIGHT, 0x100, Some(244), 4),
    (&EIGHT, 0x103, Some(148), 3),
    (&EIGHT, 0x106, Some(52), 3),
    (&EIGHT, 0x1fff, Some(52), 3),
    // blocks without a pair
    (&EIGHT, 0x2000, Some(52), 3),
    (&EIGHT, 0xffff, Some(52), 3),
    // the last block, and after it
    (&EIGHT, 0x1_0000, Some(20), 3),
    (&EIGHT, 0x1_2000, Some(20), 3),
    // a block has one address, and there is one block
    (&[0], 0, Some(20), 1),
    (&[0], 1, Some(20), 1),
    (&[0], 0xffff_ffff, Some(20), 1),
    // a block has 2^(12 - 1) addresses, so the last of three begins at 0x1000
    (&[0x1000, 0x1000, 0x1000], 0xfff, None, 2),
    (&[0x1000, 0x1000, 0x1000], 0x1000, Some(84), 2),
    (&[0x1000, 0x1000, 0x1000], 0x2000, Some(84), 2),
    // a block has 2^(31 - 1) addresses, so there are four
    (&[0xffff_ffff, 0], 0, Some(52), 2),
    (&[0xffff_ffff, 0], 0x3fff_ffff, Some(52), 2),
    (&[0xffff_ffff, 0], 0x4000_0000, Some(52), 2),
    (&[0xffff_ffff, 0], 0xc000_0000, Some(52), 2),
    (&[0xffff_ffff, 0], 0xffff_fffe, Some(52), 2),
    (&[0xffff_ffff, 0], 0xffff_ffff, Some(20), 1),
];

#[test]
fn searches_a_tree(rt: HostRuntime) -> Result<(), Fail> {
    for (starts, address, offset, count) in SEARCHED {
        let index = index_of_starts(rt.alloc(), starts)?;
        let found = index.lookup_counted(address);
        assert_eq!(rt; found, (offset, count), "{starts:?} at {address:x}");
        assert_eq!(rt; index.fde_offset_for_relative_address(address), offset);
    }
    Ok(())
}

/// The section is cut off to where it has no byte, the CIE, the CIE and the FDE, or all, and else inside an entry.
#[test]
fn sections_cut_off(rt: HostRuntime) {
    for len in 0..=ONE_FDE.len() {
        let want = match len {
            0 | 24 => Ok((None, 0)),
            52 | 56 => Ok((Some(24), 1)),
            _ => CUT_OFF,
        };
        let found = look_up(rt.alloc(), EH_FRAME, &ONE_FDE[..len], 0x2000, 0, 0x1000);
        assert_eq!(rt; found, want, "{len}");
    }
}

/// A section info that knows where `.eh_frame` begins, and nothing else.
#[derive(Drop)]
struct Sections {
    eh_frame: u64,
}

impl ModuleSectionInfo<Vec<u8>> for Sections {
    ghost table = { λ s. record {
      base_svma = 0;
      sections = record { names = codes ".eh_frame" ∷ []; range = Some (record { start = s.eh_frame; end = s.eh_frame }); contents = None } ∷ [];
      segments = [];
    } };

    fn base_svma(&self) -> u64 {
        0
    }

    fn section_svma_range(&mut self, name: &[u8]) -> Option<Range<u64>> {
        if name == b".eh_frame".as_slice() {
            return Some(self.eh_frame..self.eh_frame);
        }
        None
    }

    fn section_data(&mut self, _name: &[u8]) -> Option<Vec<u8>> {
        None
    }

    fn segment_svma_range(&mut self, _name: &[u8]) -> Option<Range<u64>> {
        None
    }

    fn segment_data(&mut self, _name: &[u8]) -> Option<Vec<u8>> {
        None
    }
}

/// The offsets of the FDEs that an index has for an address below its FDE, at its start, and at its end.
fn offsets_around(index: &DwarfCfiIndex) -> [Option<u32>; 3] {
    [0xfff, 0x1000, 0x1020].map(|address| index.fde_offset_for_relative_address(address))
}

/// The same by the index of an `.eh_frame`.
fn offsets_in_eh_frame(alloc: Global) -> Result<[Option<u32>; 3], DwarfCfiIndexError> {
    let mut sections = Sections { eh_frame: 0x2000 };
    let index = DwarfCfiIndex::try_new_eh_frame(alloc, &ONE_FDE, &mut sections)?;
    Ok(offsets_around(&index))
}

/// The same by the index of a `.debug_frame`.
fn offsets_in_debug_frame(alloc: Global) -> Result<[Option<u32>; 3], DwarfCfiIndexError> {
    let mut sections = Sections { eh_frame: 0x2000 };
    let index = DwarfCfiIndex::try_new_debug_frame(alloc, &DEBUG_FRAME, &mut sections)?;
    Ok(offsets_around(&index))
}

#[test]
fn index_by_section_info(rt: HostRuntime) {
    assert_eq!(rt;
        offsets_in_eh_frame(rt.alloc()),
        Ok([None, Some(24), Some(24)])
    );
    assert_eq!(rt;
        offsets_in_debug_frame(rt.alloc()),
        Ok([None, Some(20), Some(20)])
    );
}
