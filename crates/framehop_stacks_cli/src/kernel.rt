//! The names of the kernel's functions.
use crate::command_line::word_of;
use crate::request::refuse_file;
use clap::ArgMatches;
use framehop_cli::Result;
use framehop_perf_stacks::kallsyms::read_kallsyms;
use framehop_perf_stacks::kernel::KernelNames;
use std::fs;
use std::io::ErrorKind;

/// Returns the names of the kernel's functions, where a file of them is given: none where it is not. Says why it can't be
/// read, if so, and returns `None`.
pub fn kernel_names(rt: &HostRuntime, matches: &ArgMatches<'_>) -> Result<Option<KernelNames>> {
    match word_of(matches, "kallsyms") {
        Some(path) => read_names(rt, path),
        None => Ok(Some(KernelNames::new(rt.alloc()))),
    }
}

/// Reads the names of the kernel's functions, or says why they can't be read.
fn read_names(rt: &HostRuntime, path: &str) -> Result<Option<KernelNames>> {
    match fs::read(rt, path) {
        Ok(text) => names_in(rt, path, text.as_slice()),
        Err(error) if error.kind() == ErrorKind::OutOfMemory => Err(error.into()),
        Err(error) => {
            refuse_file(rt, path, error, 1)?;
            Ok(None)
        }
    }
}

/// Returns the names of the kernel's functions in a text, or says that it has none.
fn names_in(rt: &HostRuntime, path: &str, text: &[u8]) -> Result<Option<KernelNames>> {
    let names = read_kallsyms(rt.alloc(), text)?;
    if names.by_start.is_empty() {
        let why = "it has no function with an address; /proc/kallsyms tells them to root";
        refuse_file(rt, path, why, 1)?;
        return Ok(None);
    }
    Ok(Some(names))
}
