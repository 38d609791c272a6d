//! Segments of files, and where their addresses are once they are mapped.
use framehop_memory::segment::{Segment, base_avma, base_from, svma_of_file_offset};

/// A segment, by whether it is executable, its offset, its address and its size in the file.
const fn loaded(is_code: bool, offset: u64, address: u64, file_size: u64) -> Segment {
    Segment {
        address,
        size: file_size,
        offset,
        file_size,
        is_code,
    }
}

/// That of the program `small` of `checks/stacks`, as `readelf -l` prints it.
#[test]
fn finds_the_base_of_one_segment(rt: HostRuntime) {
    let segments = [loaded(true, 0, 0x400000, 0x184)];
    let found = [
        svma_of_file_offset(&segments, 0, 0x1000),
        base_avma(&segments, 0, 0x1000, 0x5400000),
        base_avma(&segments, 0x184, 0x1000, 0x5400000),
        base_from(&segments, 0x5400000),
        base_from(&segments, 0x3ff000),
    ];
    assert!(rt; found == [Some(0x400000), Some(0x5000000), None, Some(0x5000000), None]);
}

/// A program with two executable segments, of which parts are in one page of the file: made by gcc and a
/// linker script that places `.text` at 0x401800 and `.text.other` in a segment of its own. The segments are
/// as `readelf -l` prints them, and the mappings as `perf script --show-mmap-events` does.
#[test]
fn finds_the_base_of_each_mapping(rt: HostRuntime) {
    let segments = [
        loaded(false, 0, 0x400000, 0x1a0),
        loaded(true, 0x800, 0x401800, 0x152b),
        loaded(true, 0x1d2b, 0x403d2b, 0x2f),
    ];
    let found = [
        base_avma(&segments, 0, 0x2000, 0x401000),
        base_avma(&segments, 0x1000, 0x1000, 0x403000),
        // a part of the first segment
        base_avma(&segments, 0, 0x1000, 0x401000),
        // it is moved as a whole
        base_avma(&segments, 0x1000, 0x1000, 0x5403000),
        // after both
        base_avma(&segments, 0x2000, 0x1000, 0x404000),
    ];
    assert!(rt; found == [Some(0), Some(0), Some(0), Some(0x5000000), None]);
}

/// The segments of the program `crash` of `checks/stacks` in a minidump, as `readelf -l` prints them.
#[test]
fn finds_the_base_by_the_first_page(rt: HostRuntime) {
    let segments = [
        loaded(false, 0x1b4, 0x4001b4, 0),
        loaded(false, 0x1b4, 0x402000, 0),
    ];
    let found = [
        base_from(&segments, 0x400000),
        // a library's
        base_from(&segments, 0x7f0000400000),
        base_from(&segments, 0x3ff000),
        base_from(&[], 0x400000),
    ];
    assert!(rt; found == [Some(0), Some(0x7f0000000000), None, None]);
}
