//! The function table, `.pdata` (Microsoft, "x64 exception handling", struct RUNTIME_FUNCTION).
ghost use Rattle.std.specs.Prelude.{◌≡◌, ◌<◌, ◌*◌, ◌/◌, drop, length};
ghost use Rattle.framehop_pe.specs.FunctionTable.{function_at, function_of, starts_of};

use framehop_bytes::place::{Starts, place};

/// An entry of the function table.
#[derive(Clone, Copy, PartialEq, Eq)]
pub struct RuntimeFunction {
    /// Where the function begins, a relative address.
    pub begin_address: u32,
    /// Where it ends, a relative address.
    pub end_address: u32,
    /// Where its unwind info lies, a relative address.
    pub unwind_info_address: u32,
}

impl RuntimeFunction {
    /// Reads the entry at the front of these bytes, or `None` where they are too short.
    #[inline(always)]
    pub fn parse(bytes: &[u8]) -> Option<RuntimeFunction>
        ensures { result ≡ function_at bytes.now }
    {
        let [b0, b1, b2, b3, e0, e1, e2, e3, i0, i1, i2, i3, ..] = *bytes else {
            return None;
        };
        Some(RuntimeFunction {
            begin_address: u32::from_le_bytes([b0, b1, b2, b3]),
            end_address: u32::from_le_bytes([e0, e1, e2, e3]),
            unwind_info_address: u32::from_le_bytes([i0, i1, i2, i3]),
        })
    }
}

/// The function table's entries, over the bytes of `.pdata`. Bytes after the last whole entry are
/// no entry.
#[derive(Clone, Copy)]
pub struct FunctionTableEntries<'a> {
    /// The bytes of `.pdata`.
    pub bytes: &'a [u8],
}

impl<'a> FunctionTableEntries<'a> {
    /// Returns the entry of the function that covers a relative address, found by halving.
    #[tactic(auto, unfolding(crate::specs::FunctionTable::function_of))]
    pub fn lookup(&self, address: u32) -> Option<RuntimeFunction>
        ensures { result ≡ function_of self.now.bytes.now address }
    {
        if self.count() == 0 {
            return None;
        }
        let function = self.entry(place(self, u64::from(address)))?;
        if function.begin_address <= address && address < function.end_address {
            Some(function)
        } else {
            None
        }
    }

    /// Returns the entry at an index.
    fn entry(&self, index: usize) -> Option<RuntimeFunction>
        requires { index < length self.now.bytes.now / 12 }
        ensures { result ≡ function_at (drop (12 * index) self.now.bytes.now) }
    {
        let (_, rest) = self.bytes.split_at(12 * index);
        RuntimeFunction::parse(rest)
    }
}

impl<'a> Starts for FunctionTableEntries<'a> {
    ghost starts = { λ entries. starts_of entries.bytes.now };

    fn count(&self) -> usize {
        self.bytes.len() / 12
    }

    fn start(&self, index: usize) -> u64 {
        match self.entry(index) {
            Some(function) => u64::from(function.begin_address),
            None => 0,
        }
    }
}
