//! A reader that keeps whether a read has failed, and what was read.
ghost use Rattle.std.specs.Prelude.{◌≡◌, is_err, ◌||◌, IfOk, IfSome};
ghost use Rattle.framehop_walk.specs.Streams.{input_over};

use serde_json::Value;
use std::alloc::Global;
use std::io;
use std::io::Read;
use std::marker::Model;

/// A reader that keeps whether a read from it has failed. It can keep the value that was read from it, too, so that the value is
/// freed only with it.
#[derive(Drop)]
pub struct Input<R: Read> {
    reader: R,
    has_failed: bool,
    value: Option<Value>,
}

impl<R: Read> Model for Input<R> {
    ghost use Rattle.framehop_walk.specs.Streams.{InputView};

    ghost Value = { InputView };

    ghost view = { λ i. record { remaining = R.remaining i.reader; has_failed = i.has_failed } };
}

impl<R: Read> Input<R> {
    /// Over the reader, from which no read has failed.
    pub fn new(reader: R) -> Self
        ensures { result ≡ input_over (R.remaining reader) }
    {
        Input {
            reader,
            has_failed: false,
            value: None,
        }
    }

    /// Returns whether a read has failed.
    pub fn has_failed(&self) -> bool
        ensures { result ≡ self.now.has_failed }
    {
        self.has_failed
    }

    /// Reads all bytes that are left.
    pub fn read_all(&mut self, alloc: Global) -> io::Result<Vec<u8>>
        ensures bytes { IfOk result (λ bytes. IfSome self.old.remaining (λ text. bytes.items ≡ text)) }
        ensures noted { self.new.has_failed ≡ (self.old.has_failed || is_err result) }
    {
        let mut bytes = Vec::new(alloc);
        match self.reader.read_to_end(&mut bytes) {
            Ok(_) => Ok(bytes),
            Err(error) => {
                self.has_failed = true;
                Err(error)
            }
        }
    }

    /// Keeps the value that was read.
    pub fn keep(&mut self, value: Value)
        ensures { self.new ≡ self.old }
    {
        self.value = Some(value);
    }
}
