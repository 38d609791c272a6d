//! The files that a path on the command line stands for.
ghost use Rattle.std.specs.Prelude.{◌≡◌, codes, nat_eq};
ghost use Rattle.std.specs.List.{ends_with};

use framehop_cli::Result;
use std::fs::DirEntry;
use std::io::ErrorKind;
use std::{fs, io};

/// The files that a path stands for.
#[derive(Drop)]
pub struct Listed {
    /// Their paths, in the order of their bytes.
    pub paths: Vec<String>,
    /// How many files of the folder are left out, since their names are no UTF-8.
    pub left_out: u64,
}

/// Returns the files that a path stands for: itself or, if it is a folder, those in it whose names end in `.data`.
pub fn files_at(rt: &HostRuntime, path: &str) -> Result<Listed> {
    let alloc = rt.alloc();
    let mut listed = Listed {
        paths: Vec::new(alloc),
        left_out: 0,
    };
    if !fs::metadata(rt, path).is_ok_and(|metadata| metadata.is_dir()) {
        listed.paths.push(String::from_str(alloc, path)?)?;
        return Ok(listed);
    }
    for entry in fs::read_dir(rt, path)? {
        add_entry(rt, entry, &mut listed)?;
    }
    listed.paths.sort()?;
    Ok(listed)
}

/// Adds an entry of a folder to the files, or counts it, if its name is no UTF-8.
fn add_entry(rt: &HostRuntime, entry: io::Result<DirEntry>, listed: &mut Listed) -> Result<()> {
    match entry {
        Ok(entry) if is_recording_name(entry.file_name().as_bytes()) => {
            let path = String::from_str(rt.alloc(), entry.path().as_str())?;
            listed.paths.push(path)?;
            Ok(())
        }
        Ok(_) => Ok(()),
        Err(error) if error.kind() == ErrorKind::InvalidFilename => {
            listed.left_out = listed.left_out.saturating_add(1);
            Ok(())
        }
        Err(error) => Err(error.into()),
    }
}

/// Returns whether a file is taken for a recording, by its name.
fn is_recording_name(name: &[u8]) -> bool
    ensures { result ≡ ends_with nat_eq name.now (codes ".data") }
{
    name.ends_with(b".data")
}

/// Returns whether a folder is a recording of `perf record --threads`: it has a file `data` beside those of the threads,
/// `data.0` and so on.
///
/// Source: Linux, `tools/perf/util/data.c`, `perf_data__create_dir`.
pub fn is_recording_by_threads(rt: &HostRuntime, path: &str) -> Result<bool> {
    let data = format!(in rt.alloc(); "{path}/data")?;
    Ok(fs::metadata(rt, data.as_str()).is_ok_and(|metadata| metadata.is_file()))
}
