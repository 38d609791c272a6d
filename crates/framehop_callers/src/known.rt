//! What a run knows of memory.
ghost use Rattle.std.specs.Prelude.{◌≡◌, [], not};
ghost use Rattle.std.specs.List.{filter};
ghost use Rattle.framehop_callers.specs.Known.{is_at, touches, said, written, unwritten, known_by, loaded, stored, left_by};

use crate::memory::WordMemory;
use arrayvec::ArrayVec;
use std::marker::Model;

/// Bytes that a run has written.
#[derive(Clone, Copy, PartialEq, Eq, Default)]
pub struct Write {
    /// AVMA.
    pub address: u64,
    /// How many bytes.
    pub bytes: u64,
    /// The little-endian number that was written, or `None` where it isn't known.
    pub value: Option<u64>,
}

/// What a run has written, the oldest first.
#[derive(Drop)]
pub struct Writes {
    kept: ArrayVec<Write, 128>,
}

impl Model for Writes {
    ghost use Rattle.std.specs.Prelude.{List};
    ghost use Rattle.framehop_callers.specs.declared.known.Write.{Write};

    ghost Value = { List Write };

    ghost view = { λ writes. writes.kept.items };
}

impl Writes {
    /// Returns no writes.
    pub(crate) fn new() -> Self
        ensures { result ≡ [] }
    {
        Writes {
            kept: ArrayVec::new(),
        }
    }

    /// Returns the same writes.
    pub(crate) fn copied(&self) -> Self
        ensures { result ≡ self.now }
    {
        let mut kept = ArrayVec::new();
        let _fits = kept.try_extend_from_slice(self.kept.as_slice()).is_ok();
        Writes { kept }
    }

    /// Returns the number of 8 or 4 bytes at an address (AVMA), or `None` where it isn't known.
    pub(crate) fn load<M: WordMemory>(&self, memory: &M, address: u64, bytes: u64) -> Option<u64>
        ensures { result ≡ loaded (M.memory memory.now) self.now address bytes }
    {
        match self.written(address, bytes) {
            Some(value) => value,
            None => unwritten(memory, address, bytes),
        }
    }

    /// Returns what the last write to any of so many bytes at an address (AVMA) says of them, if there was one.
    fn written(&self, address: u64, bytes: u64) -> Option<Option<u64>>
        ensures { result ≡ written self.now address bytes }
    {
        self.kept
            .as_slice()
            .iter()
            .fold(None, |before, write| said(address, bytes, before, write))
    }

    /// Keeps a write, in the place of those to the same bytes. Returns `false` where 128 others are kept.
    pub(crate) fn store(&mut self, address: u64, bytes: u64, value: Option<u64>) -> bool
        ensures { left_by result self.new ≡ stored self.old (record { address = address; bytes = bytes; value = value }) }
    {
        drop_writes_at(&mut self.kept, address, bytes);
        if self.kept.is_full() {
            return false;
        }
        self.kept.push(Write {
            address,
            bytes,
            value,
        });
        true
    }
}

/// Drops the writes to just so many bytes at an address (AVMA).
fn drop_writes_at(kept: &mut ArrayVec<Write, 128>, address: u64, bytes: u64)
    ensures { kept.new.items ≡ filter (λ write. not (is_at write address bytes)) kept.old.items }
{
    kept.retain(|write| !is_at(write, address, bytes));
}

/// Returns whether a write is to just so many bytes at an address (AVMA).
fn is_at(write: &Write, address: u64, bytes: u64) -> bool
    ensures { result ≡ is_at write.now address bytes }
{
    write.address == address && write.bytes == bytes
}

/// Returns whether a write is to any of so many bytes at an address (AVMA).
fn touches(write: &Write, address: u64, bytes: u64) -> bool
    ensures { result ≡ touches write.now address bytes }
{
    address.wrapping_sub(write.address) < write.bytes || write.address.wrapping_sub(address) < bytes
}

/// Returns what is said of so many bytes at an address (AVMA) after one more write.
fn said(address: u64, bytes: u64, before: Option<Option<u64>>, write: &Write) -> Option<Option<u64>>
    ensures { result ≡ said address bytes before write.now }
{
    if is_at(write, address, bytes) {
        return Some(write.value);
    }
    if touches(write, address, bytes) {
        return Some(None);
    }
    before
}

/// Returns the number of 8 or 4 bytes at an address (AVMA) of the memory before the run.
fn unwritten<M: WordMemory>(memory: &M, address: u64, bytes: u64) -> Option<u64>
    ensures { result ≡ unwritten (M.memory memory.now) address bytes }
{
    let word = memory.word(address)?;
    match bytes {
        8 => Some(word),
        4 => Some(word % 0x1_0000_0000),
        _ => None,
    }
}
