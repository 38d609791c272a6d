//! The names of threads, looked up by their numbers.
ghost use Rattle.std.specs.Prelude.{◌≡◌, ℕ, IfOk, OnOk, Some, ◌==◌, if◌then◌else◌, option_map, map};
ghost use Rattle.framehop_dumps.specs.ThreadNames.{named_view, name_among, name_kept, HasNames};

use std::alloc::{AllocError, Global};
use std::collections::BTreeMap;

/// A thread and its name.
#[derive(Drop)]
pub struct NamedThread {
    /// Its number.
    pub tid: u32,
    /// Its name.
    pub name: Vec<u8>,
}

/// The names of threads.
#[derive(Drop)]
pub(crate) struct ThreadNames<'a> {
    listed: &'a [NamedThread],
    by_tid: BTreeMap<u32, &'a [u8]>,
    ghost known: { HasNames (map named_view listed.now) by_tid },
}

impl<'a> ThreadNames<'a> {
    /// Returns these names.
    pub(crate) fn new(alloc: Global, listed: &'a [NamedThread]) -> Result<Self, AllocError>
        ensures { IfOk result (λ names. names.listed.now ≡ listed.entry.now) }
    {
        let by_tid = names_by_tid(alloc, listed)?;
        Ok(ThreadNames { listed, by_tid })
    }

    /// Returns the name of a thread: the last that is listed for its number.
    pub(crate) fn name_of(&self, tid: u32) -> Option<&'a [u8]>
        ensures { option_map (λ name. name.now) result ≡ name_among (map named_view self.now.listed.now) tid }
    {
        self.by_tid.get(&tid).copied()
    }
}

/// Returns the names of threads by their numbers.
fn names_by_tid<'a>(
    alloc: Global,
    listed: &'a [NamedThread],
) -> Result<BTreeMap<u32, &'a [u8]>, AllocError>
    ensures { IfOk result (λ by_tid. HasNames (map named_view listed.entry.now) by_tid) }
{
    let mut by_tid = BTreeMap::new(alloc);
    for named in listed {
        put(&mut by_tid, named)?;
    }
    Ok(by_tid)
}

/// Keeps the name of a thread, in the place of what was kept for it.
fn put<'a>(by_tid: &mut BTreeMap<u32, &'a [u8]>, named: &'a NamedThread) -> Result<(), AllocError>
    ensures { OnOk result ((tid : ℕ) → name_kept by_tid.new tid
        ≡ (if named.entry.now.tid == tid then Some named.entry.now.name.items else name_kept by_tid.old tid)) }
{
    by_tid.insert(named.tid, named.name.as_slice())?;
    Ok(())
}
