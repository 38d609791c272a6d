//! The files of the command line, one after another.
use crate::cores::{print_core, print_core_parts};
use crate::folded::add_folded;
use crate::form::{Form, are_folded};
use crate::minidumps::print_minidump;
use crate::misuse::misuse_of_kind;
use crate::output::{print_changed, print_folded};
use crate::recordings::{print_recording, print_recording_parts};
use crate::request::{Request, refuse, refuse_file};
use crate::statuses::greatest_status;
use framehop_cli::Result;
use framehop_disk::input::{Kind, kind_of, name_of, read_input};
use framehop_disk::listing::{Listed, files_at, is_recording_by_threads};
use framehop_disk::messages::say_of;
use framehop_folded::changes::Changes;
use framehop_folded::folded::Folded;

/// Prints the stacks of all files, those of recordings last, where they are folded. Returns the greatest status.
pub fn print_all(request: Request<'_, '_>, paths: &[&str]) -> Result<u8> {
    let mut folded = Folded::new(request.rt.alloc());
    let status = greatest_status(paths, |path| print_path(request, path, &mut folded))?;
    if are_folded(request.options, request.form) {
        Ok(status.max(print_folded(request, &folded)?))
    } else {
        Ok(status)
    }
}

/// Prints the folded stacks of two files or folders beside one another, or draws them, if both can be read to their ends.
pub fn print_changes(request: Request<'_, '_>, paths: &[&str]) -> Result<u8> {
    let [old_path, new_path] = paths else {
        let why = "--diff compares two files or folders, OLD and NEW";
        return refuse(request.rt, why, 2);
    };
    let alloc = request.rt.alloc();
    let (mut old, mut new) = (Folded::new(alloc), Folded::new(alloc));
    let each = Request {
        form: Form::Changes,
        ..request
    };
    let old_status = print_path(each, old_path, &mut old)?;
    let new_status = print_path(each, new_path, &mut new)?;
    let status = old_status.max(new_status);
    if status > 0 {
        return Ok(status);
    }
    print_changed(request, &Changes::between(alloc, old, new)?)
}

/// Prints the stacks of a file or of a folder's recordings, or adds them to the folded stacks so far. Returns the greatest
/// status.
fn print_path(request: Request<'_, '_>, path: &str, folded: &mut Folded) -> Result<u8> {
    match files_at(request.rt, path) {
        Ok(files) => print_listed(request, path, &files, folded),
        Err(error) => refuse_file(request.rt, path, error, 1),
    }
}

/// Prints the stacks of the files that a path stands for, or adds them to the folded stacks so far. Returns the greatest
/// status.
fn print_listed(
    request: Request<'_, '_>,
    path: &str,
    files: &Listed,
    folded: &mut Folded,
) -> Result<u8> {
    tell_left_out(request.rt, path, files.left_out)?;
    if files.paths.is_empty() {
        return refuse_folder(request.rt, path);
    }
    greatest_status(
        files.paths.as_slice(),
        |file| print_stacks(request, file.as_str(), folded),
    )
}

/// Says how many files of a folder are left out, if some are.
fn tell_left_out(rt: &HostRuntime, path: &str, count: u64) -> Result<()> {
    if count > 0 {
        let what = format_args!("{count} of its files left out: their names are no UTF-8");
        say_of(rt, path, what)?;
    }
    Ok(())
}

/// Says why nothing of a folder is read, and returns the status.
fn refuse_folder(rt: &HostRuntime, path: &str) -> Result<u8> {
    let why = if is_recording_by_threads(rt, path)? {
        "a recording of perf record --threads, which is not read; without --threads perf writes one file"
    } else {
        "no file in it has a name in .data"
    };
    refuse_file(rt, path, why, 1)
}

/// Prints the stacks of a file or of standard input, or adds them to the folded stacks so far.
fn print_stacks(request: Request<'_, '_>, path: &str, folded: &mut Folded) -> Result<u8> {
    if path != "-"
        && let Some(status) = print_parts(request, path, folded)?
    {
        return Ok(status);
    }
    match read_input(request.rt, path)? {
        Ok(bytes) => print_bytes(request, name_of(path), bytes.as_slice(), folded),
        Err(status) => Ok(status),
    }
}

/// Prints the stacks of a file that is read in parts, or adds them to the folded stacks so far. `None` of one that is to be read
/// whole.
fn print_parts(request: Request<'_, '_>, path: &str, folded: &mut Folded) -> Result<Option<u8>> {
    match print_core_parts(request, path)? {
        Some(status) => Ok(Some(status)),
        None => print_recording_parts(request, path, folded),
    }
}

/// Prints the stacks of a file, by its bytes, which tell what it is, or adds them to the folded stacks so far.
fn print_bytes(
    request: Request<'_, '_>,
    path: &str,
    bytes: &[u8],
    folded: &mut Folded,
) -> Result<u8> {
    let (rt, kind) = (request.rt, kind_of(bytes));
    if let Some(misuse) = misuse_of_kind(kind, request.options, request.form) {
        return refuse_misused(rt, path, kind, bytes, misuse);
    }
    match kind {
        Kind::Core => print_core(request, path, bytes),
        Kind::Minidump => print_minidump(request, path, bytes),
        Kind::Folded => add_folded(rt, path, bytes, folded),
        Kind::Compressed(program) => {
            let why = format_args!("a compressed file; {program} makes one that can be read");
            refuse_file(rt, path, why, 1)
        }
        Kind::Recording | Kind::Unknown => print_recording(request, path, bytes, folded),
    }
}

/// Says why a file is not printed as it is asked for, and returns the status: of a text that is no folded stacks why that can't
/// be read.
fn refuse_misused(
    rt: &HostRuntime,
    path: &str,
    kind: Kind,
    bytes: &[u8],
    misuse: &'static str,
) -> Result<u8> {
    if let Kind::Folded = kind {
        let status = add_folded(rt, path, bytes, &mut Folded::new(rt.alloc()))?;
        if status > 0 {
            return Ok(status);
        }
    }
    refuse_file(rt, path, misuse, 2)
}
