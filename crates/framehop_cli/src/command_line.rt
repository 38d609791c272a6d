//! Command lines that are no command.
use crate::failure::Result;
use crate::printed::Printed;
use std::io::Write;

/// Prints the help or the version that a command line asks for, or why it is refused, and returns the status. No character
/// of its words reaches a terminal that might take it for a command.
pub fn usage(rt: &HostRuntime, error: &clap::Error) -> Result<u8> {
    if !error.use_stderr() {
        error.print(rt)?;
        return Ok(0);
    }
    let text = format!(in rt.alloc(); "{error}")?;
    for line in text.lines() {
        writeln!(rt.stderr(), "{}", Printed(line))?;
    }
    Ok(2)
}
