//! Where the files of a process lie on a disk.
ghost use Rattle.std.specs.Prelude.{◌≡◌, ◌++◌, IfOk, OnOk, flat_map};
ghost use Rattle.std.specs.String.{string_bytes};
ghost use Rattle.framehop_disk.specs.Paths.{after_drive, build_id_path, byte_digits, file_name, folder, id_digits, is_below, is_file_name, is_separator, windows_name, with_slashes};

use std::alloc::{AllocError, Global};
use std::fmt::Write;

/// Returns whether a path is that of a folder, or lies below it.
pub(crate) fn is_below(path: &[u8], folder: &[u8]) -> bool
    ensures { result ≡ is_below path.now folder.now }
{
    match path.strip_prefix(folder) {
        Some(rest) => rest.is_empty() || rest.starts_with(b"/") || folder.ends_with(b"/"),
        None => false,
    }
}

/// Returns whether a link names a file, and none in another folder.
pub(crate) fn is_file_name(link: &[u8]) -> bool
    ensures { result ≡ is_file_name link.now }
{
    !link.is_empty() && link != b".".as_slice() && link != b"..".as_slice() && !link.contains(&b'/')
}

/// Returns the name of a file without its folders, which `/` or `\` end.
pub(crate) fn file_name_of(path: &[u8]) -> &[u8]
    ensures { result.now ≡ file_name path.entry.now }
{
    let mut start = 0;
    for (at, byte) in path.iter().enumerate() {
        if is_separator(*byte) {
            start = at + 1;
        }
    }
    &path[start..]
}

/// Returns whether a byte separates folders.
fn is_separator(byte: u8) -> bool
    ensures { result ≡ is_separator byte }
{
    byte == b'/' || byte == b'\\'
}

/// Returns the folder of a path, without the `/` after it.
pub(crate) fn folder_of(path: &str) -> &str
    ensures { result.now ≡ folder path.entry.now }
{
    match path.rsplit_once('/') {
        Some((folder, _)) => folder,
        None => "",
    }
}

/// Returns the name of the file of a path of Windows.
pub(crate) fn windows_name(path: &str) -> &str
    ensures { result.now ≡ windows_name path.entry.now }
{
    match path.rsplit_once('\\') {
        Some((_, name)) => name,
        None => path,
    }
}

/// Appends the part of a path of Windows after its drive, with `/` for `\`.
pub(crate) fn push_after_drive(name: &str, path: &mut String) -> Result<(), AllocError>
    ensures { OnOk result (string_bytes path.new ≡ string_bytes path.old ++ after_drive name.now) }
{
    match name.split_once('\\') {
        Some((_, below)) => {
            path.push_str("/")?;
            push_with_slashes(below, path)?;
            Ok(())
        }
        None => Ok(()),
    }
}

/// Appends a part of a path of Windows, with `/` for `\`.
fn push_with_slashes(part: &str, path: &mut String) -> Result<(), AllocError>
    ensures { OnOk result (string_bytes path.new ≡ string_bytes path.old ++ with_slashes part.now) }
{
    let mut rest = part;
    while let Some((folder, below)) = rest.split_once('\\') {
        path.push_str(folder)?;
        path.push_str("/")?;
        rest = below;
    }
    path.push_str(rest)?;
    Ok(())
}

/// Returns the path of a build id below a folder: `.build-id/xx/yyyy`.
#[tactic(auto, unfolding(crate::specs::Paths::build_id_path))]
pub(crate) fn build_id_path(
    alloc: Global,
    folder: &str,
    build_id: &[u8],
) -> Result<String, AllocError>
    ensures { IfOk result (λ path. string_bytes path ≡ build_id_path folder.now build_id.now) }
{
    let mut path = format!(in alloc; "{folder}/.build-id/")?;
    push_id(build_id, &mut path)?;
    Ok(path)
}

/// Appends a build id in hexadecimal, with a `/` after its first byte.
fn push_id(build_id: &[u8], path: &mut String) -> Result<(), AllocError>
    ensures { OnOk result (string_bytes path.new ≡ string_bytes path.old ++ id_digits build_id.now) }
{
    match build_id {
        [] => Ok(()),
        [first, others @ ..] => {
            push_byte(*first, path)?;
            path.push_str("/")?;
            push_bytes(others, path)
        }
    }
}

/// Appends bytes in hexadecimal.
fn push_bytes(bytes: &[u8], path: &mut String) -> Result<(), AllocError>
    ensures { OnOk result (string_bytes path.new ≡ string_bytes path.old ++ flat_map byte_digits bytes.now) }
{
    for byte in bytes {
        push_byte(*byte, path)?;
    }
    Ok(())
}

/// Appends a byte in hexadecimal.
fn push_byte(byte: u8, path: &mut String) -> Result<(), AllocError>
    ensures { OnOk result (string_bytes path.new ≡ string_bytes path.old ++ byte_digits byte) }
{
    let (high, low) = (byte / 16, byte % 16);
    write!(path, "{high:x}{low:x}")
}
