//! How much room the rows of a call frame table have.
ghost use Rattle.std.specs.Prelude.{◌≡◌, Option, Some, None};
ghost use Rattle.framehop_cfi.specs.declared.storage.StorageLimits.{StorageLimits};

/// The most that a context holds.
#[derive(Clone, Copy)]
pub struct StorageLimits {
    /// The most register rules of a row.
    pub rules: usize,
    /// The most remembered rows.
    pub rows: usize,
}

/// Whether the rows of a context have limits, with their room made before, or grow as they are read.
pub trait UnwindContextStorage {
    ghost limits: { Option StorageLimits };

    /// Returns the limits; without limits the rows grow in memory.
    fn limits() -> Option<StorageLimits>
        ensures { result ≡ limits };
}

/// Rows grow in memory as they are read.
#[derive(Clone, Copy)]
pub struct StoreOnHeap;

impl UnwindContextStorage for StoreOnHeap {
    ghost limits = { None };

    fn limits() -> Option<StorageLimits> {
        None
    }
}

/// Rows have at most 192 register rules, and 3 of them can be remembered. Reading one never returns
/// `OutOfMemory`.
#[derive(Clone, Copy)]
pub struct StoreOnStack;

impl UnwindContextStorage for StoreOnStack {
    ghost limits = { Some (record { rules = 192; rows = 3 }) };

    fn limits() -> Option<StorageLimits> {
        Some(StorageLimits {
            rules: 192,
            rows: 3,
        })
    }
}
