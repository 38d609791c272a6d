//! The files that a program is given.
use crate::failure::{Failure, Result};
use crate::output::tell;
use std::{fs, io};

/// The size of the largest file that is read, in bytes: 4 GiB.
const LARGEST_FILE: u64 = 0x1_0000_0000;

/// Reads a file as [`read_regular`] does, or says why it can't be read, after the program's name, and returns `None`.
pub fn read_or_tell(rt: &HostRuntime, program: &str, path: &str) -> Result<Option<Vec<u8>>> {
    match read_regular(rt, path) {
        Ok(Some(bytes)) => Ok(Some(bytes)),
        Ok(None) => {
            tell(rt, program, path, "no regular file of at most 4 GiB")?;
            Ok(None)
        }
        Err(error) => match Failure::from(error) {
            Failure::Io(error) => {
                tell(rt, program, path, error)?;
                Ok(None)
            }
            failure => Err(failure),
        },
    }
}

/// Reads a regular file of at most 4 GiB. Returns `None` of any other, and of a larger one. One whose size is told as 0 is not
/// opened: to read a file that the kernel makes up may block.
pub fn read_regular(rt: &HostRuntime, path: &str) -> io::Result<Option<Vec<u8>>> {
    let metadata = fs::metadata(rt, path)?;
    if !metadata.is_file() || metadata.len() > LARGEST_FILE {
        return Ok(None);
    }
    if metadata.len() == 0 {
        return Ok(Some(Vec::new(rt.alloc())));
    }
    Ok(Some(fs::read(rt, path)?))
}
