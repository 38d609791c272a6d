//! The bytes of files and of standard input, and what they are.
ghost use Rattle.std.specs.Prelude.{◌≡◌, ◌≢◌, ◌+◌, ◌++◌, IfOk, OnOk, drop, length, min, replicate};
ghost use Rattle.std.specs.IoError.{error_kind};
ghost use Rattle.std.specs.declared.io.ErrorKind.TheVariants.{OutOfMemory};
ghost use Rattle.framehop_disk.specs.Inputs.{input_name, is_terminal_path, kind_of, kind_view};

use crate::messages::say_of;
use framehop_cli::Result;
use framehop_folded::text::is_text;
use std::alloc::{AllocError, Global};
use std::fs::File;
use std::io::{ErrorKind, Read, Seek, SeekFrom};
use std::{fs, io};

/// The size from which on a recording is told of before it is read, in bytes: 50 MB.
const LARGE_RECORDING: u64 = 50_000_000;

/// How many bytes of a file are read at a time.
const PART: usize = 0x4_0000;

/// How many zeros are written at a time.
const BLOCK: usize = 0x1000;

/// What a file is.
#[derive(Clone, Copy)]
pub enum Kind {
    Recording,
    Core,
    Minidump,
    /// Folded stacks as text.
    Folded,
    /// A file that is compressed, by the program that undoes it.
    Compressed(&'static str),
    /// Nothing that is read.
    Unknown,
}

/// Returns what a file is, by its first bytes.
pub fn kind_of(bytes: &[u8]) -> Kind
    ensures { kind_view result ≡ kind_of bytes.now }
{
    if bytes.starts_with(b"\x7fELF") {
        Kind::Core
    } else if bytes.starts_with(b"MDMP") {
        Kind::Minidump
    } else if bytes.starts_with(b"\x1f\x8b") {
        Kind::Compressed("gzip -d")
    } else if bytes.starts_with(b"\x28\xb5\x2f\xfd") {
        Kind::Compressed("zstd -d")
    } else if bytes.starts_with(b"\xfd7zXZ\0") {
        Kind::Compressed("xz -d")
    } else if bytes.starts_with(b"PERFILE2") {
        Kind::Recording
    } else if is_text(bytes) {
        Kind::Folded
    } else {
        Kind::Unknown
    }
}

/// Reads a regular file, or standard input for `-`. Where it can't be read, says why, and returns the status: 2 where memory
/// runs out, else 1.
pub fn read_input(rt: &HostRuntime, path: &str) -> Result<Result<Vec<u8>, u8>> {
    match read_regular_or_standard(rt, path) {
        Ok(Some(bytes)) => Ok(Ok(bytes)),
        Ok(None) => {
            let why = "not a regular file; for standard input write -";
            say_of(rt, path, why)?;
            Ok(Err(1))
        }
        Err(error) => {
            let status = status_of(&error);
            say_of(rt, name_of(path), error)?;
            Ok(Err(status))
        }
    }
}

/// Reads a regular file, or standard input for `-`. `None` of what is no regular file.
fn read_regular_or_standard(rt: &HostRuntime, path: &str) -> io::Result<Option<Vec<u8>>> {
    if path == "-" {
        return Ok(Some(read_standard_input(rt)?));
    }
    let metadata = fs::metadata(rt, path)?;
    if !metadata.is_file() {
        return Ok(None);
    }
    announce(rt, path, metadata.len())?;
    Ok(Some(read_sized(rt, path, metadata.len())?))
}

/// Returns the status for an error of the system: 2 where memory ran out, else 1.
fn status_of(error: &io::Error) -> u8
    ensures memory { error_kind error.now ≡ OutOfMemory → result ≡ 2 }
    ensures other { error_kind error.now ≢ OutOfMemory → result ≡ 1 }
{
    if error.kind() == ErrorKind::OutOfMemory {
        2
    } else {
        1
    }
}

/// Reads a file of a size, into memory that is asked for once. What is added to it meanwhile is not read. Each part is filled
/// with zeros right before it is read, so these stay in the processor's cache.
pub(crate) fn read_sized(rt: &HostRuntime, path: &str, size: u64) -> io::Result<Vec<u8>>
    ensures { IfOk result (λ bytes. length bytes.items ≡ size) }
{
    let size = size as usize;
    let mut file = File::open(rt, path)?;
    let mut bytes = Vec::with_capacity(rt.alloc(), size)?;
    for _part in 0..size.div_ceil(PART) {
        let count = (size.saturating_sub(bytes.len())).min(PART);
        read_part(&mut file, count, &mut bytes)?;
    }
    Ok(bytes)
}

/// Reads so many bytes of a file, after those that were read.
fn read_part(file: &mut File, count: usize, bytes: &mut Vec<u8>) -> io::Result<()>
    ensures { OnOk result (length bytes.new.items ≡ length bytes.old.items + count) }
{
    let start = bytes.len();
    append_zeros(bytes, count)?;
    match bytes.as_mut_slice().get_mut(start..) {
        Some(part) => file.read_exact(part),
        None => Ok(()),
    }
}

/// Reads so many bytes of a file from an offset on.
pub(crate) fn read_at(alloc: Global, file: &mut File, offset: u64, size: u64) -> io::Result<Vec<u8>>
    ensures { IfOk result (λ bytes. length bytes.items ≡ size) }
{
    let mut bytes = zeros(alloc, size as usize)?;
    fill_at(file, offset, bytes.as_mut_slice())?;
    Ok(bytes)
}

/// Returns so many zeros.
pub(crate) fn zeros(alloc: Global, count: usize) -> Result<Vec<u8>, AllocError>
    ensures { IfOk result (λ bytes. bytes.items ≡ replicate count 0) }
{
    let mut bytes = Vec::with_capacity(alloc, count)?;
    append_zeros(&mut bytes, count)?;
    Ok(bytes)
}

/// Appends so many zeros, a block at a time: one by one they take longer than the file's bytes that are read over them.
fn append_zeros(bytes: &mut Vec<u8>, count: usize) -> Result<(), AllocError>
    ensures { OnOk result (bytes.new.items ≡ bytes.old.items ++ replicate count 0) }
{
    let block = [0u8; BLOCK];
    for _block in 0..count / BLOCK {
        bytes.extend_from_slice(&block)?;
    }
    bytes.extend_from_slice(&block[..count % BLOCK])?;
    Ok(())
}

/// Reads so many bytes of a file from an offset on to the front of a slice, and returns the rest of it.
pub(crate) fn read_front<'a>(
    file: &mut File,
    offset: u64,
    size: u64,
    slice: &'a mut [u8],
) -> io::Result<&'a mut [u8]>
    ensures { IfOk result (λ rest. rest.now ≡ drop (min size (length slice.old)) slice.old) }
{
    let size = (size as usize).min(slice.len());
    let (front, rest) = slice.split_at_mut(size);
    if size > 0 {
        fill_at(file, offset, front)?;
    }
    Ok(rest)
}

/// Reads the bytes of a file from an offset on into a slice.
fn fill_at(file: &mut File, offset: u64, slice: &mut [u8]) -> io::Result<()> {
    file.seek(SeekFrom::Start(offset))?;
    file.read_exact(slice)
}

/// Reads standard input to its end.
fn read_standard_input(rt: &HostRuntime) -> io::Result<Vec<u8>> {
    let mut bytes = Vec::new(rt.alloc());
    rt.stdin().read_to_end(&mut bytes)?;
    Ok(bytes)
}

/// Says of a large recording that it is read, where someone sees it.
pub fn announce(rt: &HostRuntime, path: &str, size: u64) -> io::Result<()> {
    if size > LARGE_RECORDING && is_terminal(rt) {
        let megabytes = size / 1_000_000;
        say_of(rt, path, format_args!("reading {megabytes} MB"))?;
    }
    Ok(())
}

/// Returns whether standard error is a terminal, by where its descriptor leads.
fn is_terminal(rt: &HostRuntime) -> bool {
    match fs::read_link(rt, "/proc/self/fd/2") {
        Ok(path) => is_terminal_path(path.as_str().as_bytes()),
        Err(_) => false,
    }
}

/// Returns whether a path is that of a terminal.
fn is_terminal_path(path: &[u8]) -> bool
    ensures { result ≡ is_terminal_path path.now }
{
    path.starts_with(b"/dev/pts/") || path.starts_with(b"/dev/tty")
}

/// Returns the name of what is read by a path.
pub fn name_of(path: &str) -> &str
    ensures { result.now ≡ input_name path.entry.now }
{
    if path == "-" { "standard input" } else { path }
}
