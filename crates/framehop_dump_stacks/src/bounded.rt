//! Bytes that are kept up to a number.
ghost use Rattle.std.specs.Prelude.{◌≡◌, []};
ghost use Rattle.std.specs.Io.{WritesAtMost};
ghost use Rattle.std.specs.Io.KnownBytes.{WriteAppends};

use std::alloc::Global;
use std::io;
use std::io::Write;

/// How many bytes are kept.
const MOST_KEPT: usize = 16 << 20;

/// Bytes that are kept up to a number: a write beyond it fails.
#[derive(Drop)]
pub(crate) struct Bounded {
    bytes: Vec<u8>,
}

impl Bounded {
    /// Returns no bytes.
    pub(crate) fn new(alloc: Global) -> Self
        ensures { result.bytes.items ≡ [] }
    {
        Bounded {
            bytes: Vec::new(alloc),
        }
    }

    /// Returns the bytes.
    pub(crate) fn into_bytes(self) -> Vec<u8>
        ensures { result ≡ self.bytes }
    {
        self.bytes
    }
}

impl Write for Bounded {
    ghost use Rattle.std.specs.Prelude.{Some};

    ghost contents = { λ bounded. Some bounded.bytes.items };

    fn write(&mut self, buf: &[u8]) -> io::Result<usize> {
        if buf.len() > MOST_KEPT - self.bytes.len().min(MOST_KEPT) {
            return Err(io::Error::from(io::ErrorKind::FileTooLarge));
        }
        self.bytes.write(buf)
    }

    fn flush(&mut self) -> io::Result<()> {
        Ok(())
    }
}
