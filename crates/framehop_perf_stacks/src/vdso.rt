//! Frames in the vdso, where no file of it was read.
ghost use Rattle.std.specs.Prelude.{◌≡◌, map, option_map};
ghost use Rattle.framehop_frames.specs.Stack.{shown_frame};
ghost use Rattle.framehop_processes.specs.Mappings.{IsInOrder};
ghost use Rattle.framehop_perf_stacks.specs.Vdso.{is_unread_vdso, is_in_unread_vdso, has_unread_vdso};

use framehop_frames::place::looked_up;
use framehop_frames::stack::StackFrame;
use framehop_processes::Mapping;
use framehop_processes::files::{Files, NamedFile, is_vdso};
use framehop_processes::place::mapping_at;

/// Returns whether one of frames is in a vdso of which no file was read, by mappings in order.
pub(crate) fn has_unread_vdso<R: Copy>(
    files: &Files<'_>,
    mappings: &[Mapping],
    frames: &[StackFrame<R>],
) -> bool
    requires { IsInOrder 0 mappings.now }
    ensures { result ≡ has_unread_vdso files.now mappings.now (map shown_frame frames.now) }
{
    for frame in frames {
        if is_in_unread_vdso(files, mappings, frame) {
            return true;
        }
    }
    false
}

/// Returns whether a frame is in a vdso of which no file was read.
fn is_in_unread_vdso<R: Copy>(
    files: &Files<'_>,
    mappings: &[Mapping],
    frame: &StackFrame<R>,
) -> bool
    requires { IsInOrder 0 mappings.now }
    ensures { result ≡ is_in_unread_vdso files.now mappings.now (shown_frame frame.now) }
{
    match mapping_at(mappings, looked_up(frame)) {
        Some(mapping) => is_unread_vdso(files.get(mapping.file)),
        None => false,
    }
}

/// Returns whether a file is the vdso, and nothing was read of it.
fn is_unread_vdso(file: Option<&NamedFile<'_>>) -> bool
    ensures { result ≡ is_unread_vdso (option_map (λ file. file.now) file.entry) }
{
    match file {
        Some(file) => is_vdso(file.name.as_slice()) && file.object.is_none(),
        None => false,
    }
}
