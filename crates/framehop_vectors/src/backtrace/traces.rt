//! What is compared of a backtrace.
use framehop_backtrace::{BacktraceEnd, FoundBy, Frame, StackTrace};
use framehop_cfi::rule::Register;

/// A frame: its address (AVMA), whether that is a return address, and how it was found.
pub(crate) type FrameRow = (u64, bool, FoundBy);

/// The frame at an index, a column, and what is known of it.
pub(crate) type ColumnRow = (usize, u16, Option<u64>);

/// Whether a backtrace has these frames, and ends so.
pub(crate) fn is_trace<R: Copy>(
    found: &StackTrace<R>,
    expected: &[FrameRow],
    end: BacktraceEnd,
) -> bool {
    for (at, row) in expected.iter().enumerate() {
        if frame_row(found, at) != Some(*row) {
            return false;
        }
    }
    found.frames.len() == expected.len() && found.end == end
}

/// Whether the frames of a backtrace have these columns.
pub(crate) fn has_columns<R: Copy>(found: &StackTrace<R>, expected: &[ColumnRow]) -> bool {
    for (at, column, value) in expected {
        match found.frames.get(*at) {
            Some(frame) if frame.columns.get(Register(*column)) == *value => {}
            _ => return false,
        }
    }
    true
}

/// Returns what is compared of the frame at an index.
pub(crate) fn frame_row<R: Copy>(found: &StackTrace<R>, at: usize) -> Option<FrameRow> {
    match found.frames.get(at) {
        Some(frame) => Some(row_of(frame)),
        None => None,
    }
}

/// Returns what is compared of a frame.
fn row_of<R: Copy>(frame: &Frame<R>) -> FrameRow {
    let address = frame.address;
    (address.address(), address.is_return_address(), frame.found)
}
