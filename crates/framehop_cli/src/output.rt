//! Standard output, and what is said on standard error.
use crate::failure::Result;
use crate::printed::Printed;
use std::fmt::Display;
use std::io;
use std::io::{ErrorKind, Write};

/// Prints a text.
pub fn print_text(rt: &HostRuntime, text: &str) -> Result<()> {
    let mut out = StandardOutput { rt };
    io::Write::write_all(&mut out, text.as_bytes())?;
    io::Write::flush(&mut out)?;
    Ok(())
}

/// Says something of a file, by its path, in a line after the program's name.
pub fn tell<D: Display + Drop>(rt: &HostRuntime, program: &str, path: &str, what: D) -> Result<()> {
    eprintln!(rt; "{program}: {}: {what}", Printed(path))?;
    Ok(())
}

/// Standard output. What is written after its reader has closed it is lost, which is no error: the reader wants no more.
#[derive(Clone, Copy, Drop)]
pub struct StandardOutput<'a> {
    pub rt: &'a HostRuntime,
}

impl Write for StandardOutput<'_> {
    fn write(&mut self, bytes: &[u8]) -> io::Result<usize> {
        match io::writer(self.rt).write(bytes) {
            Err(error) if error.kind() == ErrorKind::BrokenPipe => Ok(bytes.len()),
            written => written,
        }
    }

    fn flush(&mut self) -> io::Result<()> {
        match io::writer(self.rt).flush() {
            Err(error) if error.kind() == ErrorKind::BrokenPipe => Ok(()),
            flushed => flushed,
        }
    }
}
