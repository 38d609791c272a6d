//! A writer that keeps whether a write to it has failed: so that what writes through it can say that it returns an error of a
//! write only where one failed.
//!
//! # Decisions
//!
//! - The fields are private, so that only a call that returns an error notes one.
//! - What a writer holds after a write that failed is not known: a part of the bytes may have been
//!   written.
#![tactic(auto)]

ghost use Rattle.std.specs.Prelude.{◌≡◌, is_err, is_ok, ◌||◌, OnOk, IfSome, false};
ghost use Rattle.std.specs.Io.{WritesAtMost};
ghost use Rattle.std.specs.Io.KnownBytes.{Keeps, Appends, WriteAppends};
ghost use Rattle.framehop_output.specs.Output.{output_over};

use std::fmt::Display;
use std::io;
use std::io::Write;
use std::marker::Model;

/// A writer that keeps whether a write to it has failed, and whether it was flushed after the last
/// write.
#[derive(Drop)]
pub struct Output<W: Write> {
    writer: W,
    has_failed: bool,
    is_flushed: bool,
}

impl<W: Write> Model for Output<W> {
    ghost use Rattle.framehop_output.specs.Output.{OutputView};

    ghost Value = { OutputView };

    ghost view = { λ o. record { bytes = W.contents o.writer; has_failed = o.has_failed; is_flushed = o.is_flushed } };
}

impl<W: Write> Output<W> {
    /// Returns an output over a writer, to which no write has failed.
    pub fn new(writer: W) -> Self
        ensures { result ≡ output_over (W.contents writer) }
    {
        Output {
            writer,
            has_failed: false,
            is_flushed: false,
        }
    }

    /// Returns whether a write or a flush has failed.
    pub fn has_failed(&self) -> bool
        ensures { result ≡ self.now.has_failed }
    {
        self.has_failed
    }

    /// Writes a text: `write!` and `writeln!` do so by this name.
    ///
    /// # Errors
    ///
    /// If a write fails.
    pub fn write_fmt<D: Display>(&mut self, text: D) -> io::Result<()>
    where
        D: Drop,
        ensures bytes { OnOk result (IfSome (D.output text) (Appends self.old.bytes self.new.bytes)) }
        ensures noted { self.new.has_failed ≡ (self.old.has_failed || is_err result) }
        ensures unflushed { self.new.is_flushed ≡ false }
    {
        let written = self.writer.write_fmt(text);
        self.has_failed = self.has_failed || written.is_err();
        self.is_flushed = false;
        written
    }

    /// Returns the writer.
    pub fn into_inner(self) -> W
        ensures { W.contents result ≡ self.bytes }
    {
        self.writer
    }
}

impl<W: Write> Write for Output<W> {
    ghost contents = { λ o. o.bytes };

    fn write(&mut self, buf: &[u8]) -> io::Result<usize>
        ensures bound { WritesAtMost result buf.now }
        ensures bytes { WriteAppends self.old.bytes self.new.bytes result buf.now }
        ensures noted { self.new.has_failed ≡ (self.old.has_failed || is_err result) }
        ensures unflushed { self.new.is_flushed ≡ false }
    {
        let written = self.writer.write(buf);
        self.has_failed = self.has_failed || written.is_err();
        self.is_flushed = false;
        written
    }

    fn flush(&mut self) -> io::Result<()>
        ensures bytes { Keeps self.old.bytes self.new.bytes }
        ensures noted { self.new.has_failed ≡ (self.old.has_failed || is_err result) }
        ensures flushed { self.new.is_flushed ≡ is_ok result }
    {
        let flushed = self.writer.flush();
        self.has_failed = self.has_failed || flushed.is_err();
        self.is_flushed = flushed.is_ok();
        flushed
    }

    fn write_all(&mut self, buf: &[u8]) -> io::Result<()>
        ensures bytes { OnOk result (Appends self.old.bytes self.new.bytes buf.now) }
        ensures noted { self.new.has_failed ≡ (self.old.has_failed || is_err result) }
        ensures unflushed { self.new.is_flushed ≡ false }
    {
        let written = self.writer.write_all(buf);
        self.has_failed = self.has_failed || written.is_err();
        self.is_flushed = false;
        written
    }
}
