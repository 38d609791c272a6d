//! What is said on standard error.
ghost use Rattle.std.specs.Prelude.{◌≡◌};
ghost use Rattle.framehop_disk.specs.Printed.{is_plain};

use crate::printed::printed_text;
use framehop_cli::Printed;
use std::fmt::Display;
use std::io;
use std::io::Write;

/// Standard error, where what can't be written is lost: the run goes on, and its output is whole. What is said has names of
/// files, of which no byte is written that a terminal might take for a command.
#[derive(Clone, Copy, Drop)]
pub struct Messages<'a> {
    pub rt: &'a HostRuntime,
}

/// Says something after the program's name, in a line.
pub fn say<D: Display + Drop>(rt: &HostRuntime, what: D) -> io::Result<()> {
    writeln!(Messages { rt }, "framehop-stacks: {what}")
}

/// Says something of a file, by its path, in a line.
pub fn say_of<D: Display + Drop>(rt: &HostRuntime, path: &str, what: D) -> io::Result<()> {
    writeln!(
        Messages { rt },
        "framehop-stacks: {}: {what}",
        Printed(path)
    )
}

impl Write for Messages<'_> {
    fn write(&mut self, bytes: &[u8]) -> io::Result<usize> {
        if is_plain(bytes) {
            let _written = self.rt.stderr().write_all(bytes);
        } else if let Ok(text) = printed_text(self.rt.alloc(), bytes) {
            let _written = self.rt.stderr().write_all(text.as_slice());
        }
        Ok(bytes.len())
    }

    fn flush(&mut self) -> io::Result<()> {
        Ok(())
    }
}

/// Returns whether a text has only characters of ASCII that are printed, and line feeds. Such a text takes no memory.
fn is_plain(text: &[u8]) -> bool
    ensures { result ≡ is_plain text.now }
{
    text.iter()
        .all(|byte| *byte == b'\n' || (*byte >= b' ' && *byte < 0x7f))
}
