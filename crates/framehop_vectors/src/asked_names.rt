//! Which names `Module::new` asks for, and how often: each of its calls asks for a name at most once.
use crate::sections::ExplicitPeSections;
use framehop::Module;
use framehop::section::{ExplicitModuleSectionInfo, ModuleSectionInfo};
use std::alloc::Global;
use std::ops::Range;

/// The names of sections and segments that a module may be asked for.
const NAMES: [&str; 17] = [
    "__unwind_info",
    ".pdata",
    ".eh_frame",
    "__eh_frame",
    ".eh_frame_hdr",
    "__eh_frame_hdr",
    ".debug_frame",
    "__debug_frame",
    "__text",
    ".text",
    "__got",
    ".got",
    "__stubs",
    "__stub_helper",
    "__TEXT",
    ".rdata",
    ".xdata",
];

/// How often each name was asked by one of the calls, and all other names.
#[derive(Clone, Copy, PartialEq, Eq)]
struct Counts {
    names: [u32; 17],
    others: u32,
}

impl Counts {
    fn new() -> Self {
        Counts {
            names: [0; 17],
            others: 0,
        }
    }

    /// Each of the names once.
    fn once(names: &[&str]) -> Self {
        let mut counts = Counts::new();
        for name in names {
            counts.add(name.as_bytes());
        }
        counts
    }

    fn add(&mut self, name: &[u8]) {
        for index in 0..17usize {
            if NAMES[index].as_bytes() == name {
                self.names[index] = self.names[index].saturating_add(1);
                return;
            }
        }
        self.others = self.others.saturating_add(1);
    }
}

/// The counts of the four calls.
#[derive(Clone, Copy, PartialEq, Eq)]
struct Asked {
    section_ranges: Counts,
    section_data: Counts,
    segment_ranges: Counts,
    segment_data: Counts,
}

impl Asked {
    fn new() -> Self {
        Asked {
            section_ranges: Counts::new(),
            section_data: Counts::new(),
            segment_ranges: Counts::new(),
            segment_data: Counts::new(),
        }
    }
}

/// Sections that count how often they are asked for.
#[derive(Drop)]
struct Counting<'a, I> {
    info: I,
    asked: &'a mut Asked,
}

impl<I: ModuleSectionInfo<&'static [u8]>> ModuleSectionInfo<&'static [u8]> for Counting<'_, I> {
    ghost table = { λ s. I.table s.info };

    fn base_svma(&self) -> u64 {
        self.info.base_svma()
    }

    fn section_svma_range(&mut self, name: &[u8]) -> Option<Range<u64>> {
        self.asked.section_ranges.add(name);
        self.info.section_svma_range(name)
    }

    fn section_data(&mut self, name: &[u8]) -> Option<&'static [u8]> {
        self.asked.section_data.add(name);
        self.info.section_data(name)
    }

    fn segment_svma_range(&mut self, name: &[u8]) -> Option<Range<u64>> {
        self.asked.segment_ranges.add(name);
        self.info.segment_svma_range(name)
    }

    fn segment_data(&mut self, name: &[u8]) -> Option<&'static [u8]> {
        self.asked.segment_data.add(name);
        self.info.segment_data(name)
    }
}

/// What a new module asks for.
fn asked_for<I: ModuleSectionInfo<&'static [u8]> + Drop>(alloc: Global, info: I) -> Option<Asked> {
    let mut asked = Asked::new();
    let counting = Counting {
        info,
        asked: &mut asked,
    };
    match Module::new(alloc, String::new(alloc), 0..0x4000, 0, counting) {
        Ok(_module) => {}
        Err(_) => return None,
    }
    Some(asked)
}

/// Whether a new module asks once for the data and for the range of each of these sections and segments, and for
/// nothing else.
fn asks_for<I: ModuleSectionInfo<&'static [u8]> + Drop>(
    alloc: Global,
    info: I,
    section_data: &[&str],
    section_ranges: &[&str],
    segments: &[&str],
) -> bool {
    let want = Asked {
        section_ranges: Counts::once(section_ranges),
        section_data: Counts::once(section_data),
        segment_ranges: Counts::once(segments),
        segment_data: Counts::once(segments),
    };
    asked_for(alloc, info) == Some(want)
}

/// A CIE and an FDE.
const EH_FRAME: Option<&[u8]> = Some(
    b"\x14\x00\x00\x00\x00\x00\x00\x00\x01\x7a\x52\x00\x01\x78\x10\x01\x1b\x0c\x07\x08\
      \x90\x01\x00\x00\x18\x00\x00\x00\x1c\x00\x00\x00\xe0\xef\xff\xff\x20\x00\x00\x00\
      \x00\x41\x0e\x10\x86\x02\x43\x0d\x06\x00\x00\x00\x00\x00\x00\x00",
);

const EH_FRAME_HDR: Option<&[u8]> = Some(
    b"\x01\x1b\x03\x3b\xfc\xef\xff\xff\x01\x00\x00\x00\x00\xe0\xff\xff\x18\xf0\xff\xff",
);

/// A CIE and an FDE.
const DEBUG_FRAME: Option<&[u8]> = Some(
    b"\x10\x00\x00\x00\xff\xff\xff\xff\x04\x00\x08\x00\x01\x78\x10\x0c\x07\x08\x90\x01\
      \x1c\x00\x00\x00\x00\x00\x00\x00\x00\x10\x00\x00\x00\x00\x00\x00\x20\x00\x00\x00\
      \x00\x00\x00\x00\x41\x0e\x10\x86\x02\x00\x00\x00",
);

/// A version that is cut off.
const UNWIND_INFO: Option<&[u8]> = Some(b"\x01");

/// An instruction that returns.
const CODE: Option<&[u8]> = Some(b"\xc3");

/// The sections that base addresses are taken of, each by its first name.
const FIRST_NAMES: [&str; 4] = ["__eh_frame", "__eh_frame_hdr", "__text", "__got"];

/// The same by both names: the second is asked where the first has no range.
const BOTH_NAMES: [&str; 8] = [
    "__eh_frame",
    ".eh_frame",
    "__eh_frame_hdr",
    ".eh_frame_hdr",
    "__text",
    ".text",
    "__got",
    ".got",
];

/// Sections with the ranges that base addresses are taken of, or without them.
fn with_ranges(has_ranges: bool) -> ExplicitModuleSectionInfo<&'static [u8]> {
    if !has_ranges {
        return ExplicitModuleSectionInfo::default();
    }
    ExplicitModuleSectionInfo {
        text_svma: Some(0x1000..0x1800),
        got_svma: Some(0x1800..0x1900),
        eh_frame_svma: Some(0x2000..0x2038),
        eh_frame_hdr_svma: Some(0x3000..0x3014),
        ..ExplicitModuleSectionInfo::default()
    }
}

/// Whether a module with these sections asks for the data, and for the base addresses by their ranges.
fn asks_for_call_frames(
    alloc: Global,
    eh_frame: Option<&'static [u8]>,
    eh_frame_hdr: Option<&'static [u8]>,
    section_data: &[&str],
) -> bool {
    for (has_ranges, section_ranges) in [
        (true, FIRST_NAMES.as_slice()),
        (false, BOTH_NAMES.as_slice()),
    ] {
        let info = ExplicitModuleSectionInfo {
            eh_frame,
            eh_frame_hdr,
            debug_frame: DEBUG_FRAME,
            ..with_ranges(has_ranges)
        };
        if !asks_for(alloc, info, section_data, section_ranges, &[]) {
            return false;
        }
    }
    true
}

/// `.eh_frame`, its header, and the sections whose data is asked for: with the header, without it, with an FDE that
/// is cut off, and only with the header.
const CALL_FRAMES: [(Option<&[u8]>, Option<&[u8]>, &[&str]); 4] = [
    (
        EH_FRAME,
        EH_FRAME_HDR,
        &["__unwind_info", ".pdata", ".eh_frame", ".eh_frame_hdr"],
    ),
    (
        EH_FRAME,
        None,
        &[
            "__unwind_info",
            ".pdata",
            ".eh_frame",
            ".eh_frame_hdr",
            "__eh_frame_hdr",
        ],
    ),
    (
        Some(b"\x14"),
        None,
        &[
            "__unwind_info",
            ".pdata",
            ".eh_frame",
            ".eh_frame_hdr",
            "__eh_frame_hdr",
        ],
    ),
    (
        None,
        EH_FRAME_HDR,
        &[
            "__unwind_info",
            ".pdata",
            ".eh_frame",
            "__eh_frame",
            ".debug_frame",
        ],
    ),
];

/// Whether all of them do, beside `.debug_frame`.
fn asks_for_all_call_frames(alloc: Global) -> bool {
    for (eh_frame, eh_frame_hdr, section_data) in CALL_FRAMES {
        if !asks_for_call_frames(alloc, eh_frame, eh_frame_hdr, section_data) {
            return false;
        }
    }
    true
}

#[test]
fn asks_for_call_frame_sections(rt: HostRuntime) {
    assert!(rt; asks_for_all_call_frames(rt.alloc()));
}

/// Whether a module without unwind data is asked for no range.
fn asks_for_no_range(alloc: Global, has_ranges: bool) -> bool {
    let section_data = [
        "__unwind_info",
        ".pdata",
        ".eh_frame",
        "__eh_frame",
        ".debug_frame",
    ];
    asks_for(alloc, with_ranges(has_ranges), &section_data, &[], &[])
}

#[test]
fn asks_for_the_data_of_each_kind(rt: HostRuntime) {
    assert!(rt; asks_for_no_range(rt.alloc(), false));
    assert!(rt; asks_for_no_range(rt.alloc(), true));
}

/// The sections whose ranges a module with compact unwind info asks for.
const COMPACT_RANGES: [&str; 6] = [
    "__eh_frame",
    "__eh_frame_hdr",
    "__text",
    "__got",
    "__stubs",
    "__stub_helper",
];

/// Whether a module with compact unwind info, with and without `.eh_frame`, asks for these data.
fn asks_for_compact(
    alloc: Global,
    segment_end: Option<u64>,
    text_segment: Option<&'static [u8]>,
    section_data: &[&str],
) -> bool {
    for eh_frame in [None, EH_FRAME] {
        let info = ExplicitModuleSectionInfo {
            unwind_info: UNWIND_INFO,
            eh_frame,
            debug_frame: DEBUG_FRAME,
            text: CODE,
            text_segment_svma: match segment_end {
                Some(end) => Some(0..end),
                None => None,
            },
            text_segment,
            ..with_ranges(true)
        };
        if !asks_for(alloc, info, section_data, &COMPACT_RANGES, &["__TEXT"]) {
            return false;
        }
    }
    true
}

/// The end of `__TEXT`, its data, and the sections whose data is asked for.
const COMPACT: [(Option<u64>, Option<&[u8]>, &[&str]); 5] = [
    (None, None, &["__unwind_info", "__eh_frame", "__text"]),
    (None, CODE, &["__unwind_info", "__eh_frame", "__text"]),
    (
        Some(0x4000),
        None,
        &["__unwind_info", "__eh_frame", "__text"],
    ),
    (Some(0x4000), CODE, &["__unwind_info", "__eh_frame"]),
    // the range does not fit 32 bits
    (Some(0x100000000), CODE, &["__unwind_info", "__eh_frame"]),
];

/// Whether each does.
fn asks_for_each_compact(alloc: Global) -> bool {
    for (segment_end, text_segment, section_data) in COMPACT {
        if !asks_for_compact(alloc, segment_end, text_segment, section_data) {
            return false;
        }
    }
    true
}

/// Compact unwind info asks for no unwind data but `__eh_frame`, and for the code of `__text` where `__TEXT` lacks
/// its data or its range.
#[test]
fn asks_for_the_sections_of_compact_unwind_info(rt: HostRuntime) {
    assert!(rt; asks_for_each_compact(rt.alloc()));
}

/// Whether a module with compact unwind info and without ranges asks for each range by both names.
fn asks_for_no_code(alloc: Global, text: Option<&'static [u8]>) -> bool {
    let info = ExplicitModuleSectionInfo {
        unwind_info: UNWIND_INFO,
        text,
        ..ExplicitModuleSectionInfo::default()
    };
    let section_ranges = [
        "__eh_frame",
        ".eh_frame",
        "__eh_frame_hdr",
        ".eh_frame_hdr",
        "__text",
        ".text",
        "__got",
        ".got",
        "__stubs",
        "__stub_helper",
    ];
    let section_data = ["__unwind_info", "__eh_frame"];
    asks_for(alloc, info, &section_data, &section_ranges, &["__TEXT"])
}

/// Without a range of `__text` its data is not asked for.
#[test]
fn asks_for_no_code_without_its_range(rt: HostRuntime) {
    assert!(rt; asks_for_no_code(rt.alloc(), None));
    assert!(rt; asks_for_no_code(rt.alloc(), CODE));
}

/// A range of one byte, or none.
fn range_if(is_there: bool, start: u64) -> Option<Range<u64>> {
    if is_there {
        Some(start..start.saturating_add(1))
    } else {
        None
    }
}

/// Whether a PE module asks for the sections beside `.pdata`, with their ranges and their data or without them.
fn asks_for_pe(alloc: Global, has_ranges: bool, contents: Option<&'static [u8]>) -> bool {
    let info = ExplicitPeSections {
        pdata: CODE,
        rdata_svma: range_if(has_ranges, 0x1000),
        rdata: contents,
        xdata_svma: range_if(has_ranges, 0x2000),
        xdata: contents,
        text_svma: range_if(has_ranges, 0x3000),
        text: contents,
    };
    let section_data = ["__unwind_info", ".pdata", ".rdata", ".xdata", ".text"];
    let section_ranges = [".rdata", ".xdata", ".text"];
    asks_for(alloc, info, &section_data, &section_ranges, &[])
}

/// The sections beside `.pdata` are asked for whatever the others have.
#[test]
fn asks_for_the_sections_of_a_pe_module(rt: HostRuntime) {
    for has_ranges in [false, true] {
        assert!(rt; asks_for_pe(rt.alloc(), has_ranges, None));
        assert!(rt; asks_for_pe(rt.alloc(), has_ranges, CODE));
    }
}
