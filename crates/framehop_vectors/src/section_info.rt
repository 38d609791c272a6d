//! What a module lends: sections that are given one by one.
use framehop_bytes::section::{ExplicitModuleSectionInfo, ModuleSectionInfo};
use std::alloc::Global;

const TEXT: [u8; 1] = [1];

const UNWIND_INFO: [u8; 1] = [2];

const EH_FRAME: [u8; 1] = [3];

const EH_FRAME_HDR: [u8; 1] = [4];

const DEBUG_FRAME: [u8; 1] = [5];

const TEXT_SEGMENT: [u8; 1] = [6];

/// Each section with a range of its own, and data of its own.
fn every_section() -> ExplicitModuleSectionInfo<&'static [u8]> {
    ExplicitModuleSectionInfo {
        base_svma: 0x1000,
        text_svma: Some(0x10..0x11),
        text: Some(&TEXT),
        stubs_svma: Some(0x20..0x22),
        stub_helper_svma: Some(0x30..0x33),
        got_svma: Some(0x40..0x44),
        unwind_info: Some(&UNWIND_INFO),
        eh_frame_svma: Some(0x50..0x55),
        eh_frame: Some(&EH_FRAME),
        eh_frame_hdr_svma: Some(0x60..0x66),
        eh_frame_hdr: Some(&EH_FRAME_HDR),
        debug_frame: Some(&DEBUG_FRAME),
        text_segment_svma: Some(0x70..0x77),
        text_segment: Some(&TEXT_SEGMENT),
    }
}

/// The first byte of data.
fn first_byte(contents: Option<&[u8]>) -> Option<u8> {
    contents?.first().copied()
}

/// The two names of each section, its range, and its first byte.
const SECTIONS: [(&str, &str, Option<(u64, u64)>, Option<u8>); 8] = [
    ("__text", ".text", Some((0x10, 0x11)), Some(1)),
    ("__stubs", "__stubs", Some((0x20, 0x22)), None),
    ("__stub_helper", "__stub_helper", Some((0x30, 0x33)), None),
    ("__got", ".got", Some((0x40, 0x44)), None),
    ("__unwind_info", "__unwind_info", None, Some(2)),
    ("__eh_frame", ".eh_frame", Some((0x50, 0x55)), Some(3)),
    (
        "__eh_frame_hdr",
        ".eh_frame_hdr",
        Some((0x60, 0x66)),
        Some(4),
    ),
    ("__debug_frame", ".debug_frame", None, Some(5)),
];

/// Where a section of this name is.
fn range_of(info: &mut ExplicitModuleSectionInfo<&'static [u8]>, name: &str) -> Option<(u64, u64)> {
    match info.section_svma_range(name.as_bytes()) {
        Some(range) => Some((range.start, range.end)),
        None => None,
    }
}

/// Whether a section has this range and this first byte, and then its data is gone under both names, while the range
/// stays.
fn is_given(asked: &str, then: &str, range: Option<(u64, u64)>, byte: Option<u8>) -> bool {
    let mut info = every_section();
    range_of(&mut info, asked) == range
        && first_byte(info.section_data(asked.as_bytes())) == byte
        && info.section_data(asked.as_bytes()).is_none()
        && info.section_data(then.as_bytes()).is_none()
        && range_of(&mut info, then) == range
}

#[test]
fn gives_each_section_under_its_names(rt: HostRuntime) {
    for (name, other, range, byte) in SECTIONS {
        assert!(rt; is_given(name, other, range, byte));
        assert!(rt; is_given(other, name, range, byte));
    }
}

#[test]
fn gives_the_text_segment(rt: HostRuntime) {
    let mut info = every_section();
    assert_eq!(rt; info.base_svma(), 0x1000);
    assert_eq!(rt; info.segment_svma_range(b"__TEXT"), Some(0x70..0x77));
    assert_eq!(rt; first_byte(info.segment_data(b"__TEXT")), Some(6));
    assert!(rt; info.segment_data(b"__TEXT").is_none());
    assert_eq!(rt; info.segment_svma_range(b"__TEXT"), Some(0x70..0x77));
}

/// Whether sections have this text.
fn prints(alloc: Global, info: &ExplicitModuleSectionInfo<&'static [u8]>, text: &str) -> bool {
    match format!(in alloc; "{info:?}") {
        Ok(printed) => printed.as_str() == text,
        Err(_) => false,
    }
}

/// The text of no sections.
const NOTHING: &str =
    "ExplicitModuleSectionInfo { base_svma: 0, text_svma: None, text: None, stubs_svma: None, \
     stub_helper_svma: None, got_svma: None, unwind_info: None, eh_frame_svma: None, eh_frame: None, \
     eh_frame_hdr_svma: None, eh_frame_hdr: None, debug_frame: None, text_segment_svma: None, \
     text_segment: None }";

/// The text of each section.
const EVERYTHING: &str =
    "ExplicitModuleSectionInfo { base_svma: 4096, text_svma: Some(16..17), text: Some([1]), \
     stubs_svma: Some(32..34), stub_helper_svma: Some(48..51), got_svma: Some(64..68), \
     unwind_info: Some([2]), eh_frame_svma: Some(80..85), eh_frame: Some([3]), \
     eh_frame_hdr_svma: Some(96..102), eh_frame_hdr: Some([4]), debug_frame: Some([5]), \
     text_segment_svma: Some(112..119), text_segment: Some([6]) }";

#[test]
fn default_gives_nothing(rt: HostRuntime) {
    let alloc = rt.alloc();
    assert!(rt; prints(alloc, &ExplicitModuleSectionInfo::default(), NOTHING));
    assert!(rt; prints(alloc, &every_section(), EVERYTHING));
}
