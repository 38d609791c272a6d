//! The modules of an unwinder, in the order of their starts.
ghost use Rattle.std.specs.Prelude.{◌≡◌, ◌-◌, ◌<◌, ◌≤◌, IfOk, IfErr, OnOk, MatchOption, None, Some, true, false, [], length, take, drop, remove, nat_le, if◌then◌else◌};
ghost use Rattle.std.specs.List.Sorted.{IsNonDecreasing, IsPartitionPoint};
ghost use Rattle.framehop.specs.Loaded.{with_modules};
ghost use Rattle.framehop.specs.Modules.{starting_by, starting_above, with_module, has_start, without_module, starts_by, covering, greatest_end};

use crate::modules::Module;
use framehop_bytes::section::SectionBytes;
use std::alloc::{AllocError, Global};
use std::marker::Model;

/// Modules in the order of their starts. The starts (AVMAs) are in a list of their own, so that a search reads no
/// module but the one that it finds.
#[derive(Drop)]
pub(crate) struct ModuleList<D: SectionBytes> {
    modules: Vec<Module<D>>,
    starts: Vec<u64>,
}

impl<D: SectionBytes> Model for ModuleList<D> {
    ghost use Rattle.std.specs.Prelude.{◌≡◌, List};
    ghost use Rattle.framehop.specs.Modules.{ModuleView, AreInOrder, starts_of};

    ghost Value = { List ModuleView };

    ghost view = { λ list. list.modules.items };

    ghost invariant = { λ list. AreInOrder list.modules.items × (list.starts.items ≡ starts_of list.modules.items) };
}

impl<D: SectionBytes + Drop> Clone for ModuleList<D> {
    ghost is_clone = { λ list copy. copy ≡ list };

    fn clone(&self) -> Result<Self, AllocError> {
        Ok(ModuleList {
            modules: self.modules.clone()?,
            starts: self.starts.clone()?,
        })
    }
}

impl<D: SectionBytes + Drop> ModuleList<D> {
    /// Returns a list without modules. It takes no memory.
    pub fn new(alloc: Global) -> Self
        ensures { result ≡ [] }
    {
        ModuleList {
            modules: Vec::new(alloc),
            starts: Vec::new(alloc),
        }
    }

    /// Returns a list of these modules, each inserted after those that start at or below its start.
    pub(crate) fn of_modules(alloc: Global, modules: Vec<Module<D>>) -> Result<Self, AllocError>
        ensures { IfOk result (λ list. list ≡ with_modules modules.items []) }
    {
        let mut list = ModuleList::new(alloc);
        for module in modules {
            if list.insert(module).is_err() {
                return Err(AllocError);
            }
        }
        Ok(list)
    }

    /// Returns the modules, in the order of their starts.
    pub fn as_slice(&self) -> &[Module<D>]
        ensures { result.now ≡ self.now }
    {
        self.modules.as_slice()
    }

    /// Returns the allocator of the list.
    pub(crate) fn allocator(&self) -> Global {
        *self.modules.allocator()
    }

    /// Inserts a module after those that start at or below its start.
    ///
    /// # Errors
    ///
    /// The module, where an allocation fails. The list is unchanged.
    pub fn insert(&mut self, module: Module<D>) -> Result<(), Module<D>>
        ensures inserted { OnOk result (self.new ≡ with_module «module» self.old) }
        ensures refused { IfErr result (λ back. (back ≡ «module») × (self.new ≡ self.old)) }
    {
        let start = module.start();
        let index = self.place_after(start);
        if self.starts.insert(index, start).is_err() {
            return Err(module);
        }
        if let Err(refused) = self.modules.insert(index, module) {
            // Both lists are as they were.
            self.starts.remove(index);
            return Err(refused.value);
        }
        Ok(())
    }

    /// Removes the module at an index. It takes no memory.
    pub fn remove(&mut self, index: usize)
        requires { index < length self.old }
        ensures { self.new ≡ remove self.old index }
    {
        self.modules.remove(index);
        self.starts.remove(index);
    }

    /// Returns the index of the last module with this start (AVMA).
    pub(crate) fn last_with_start(&self, start: u64) -> Option<usize>
        ensures { MatchOption result (has_start start self.now ≡ false)
            (λ index. (index < length self.now) × (has_start start self.now ≡ true)
            × (remove self.now index ≡ without_module start self.now)) }
    {
        let index = self.place_after(start).checked_sub(1)?;
        if self.starts[index] == start {
            Some(index)
        } else {
            None
        }
    }

    /// Returns the covering module of an address (AVMA), and the relative address.
    pub fn covering(&self, address: u64) -> Option<(&Module<D>, u32)>
        ensures { MatchOption result (covering self.now address ≡ None)
            (λ found. (covering self.now address ≡ Some found.0.now)
            × (found.1 ≡ address - found.0.now.base_avma)) }
    {
        let index = self.place_after(address).checked_sub(1)?;
        let module = &self.modules[index];
        let relative_address = module.relative_address(address)?;
        Some((module, relative_address))
    }

    /// Returns the greatest end of a module (AVMA), or 0 without modules.
    pub fn greatest_end(&self) -> u64
        ensures { result ≡ greatest_end self.now }
    {
        let mut greatest = 0;
        for module in self.modules.iter() {
            greatest = module.end().max(greatest);
        }
        greatest
    }

    // the place after the modules that start at or below the address
    fn place_after(&self, address: u64) -> usize
        ensures within { result ≤ length self.now }
        ensures point { IsPartitionPoint (λ m. starts_by address m ≡ true)
            (λ m. starts_by address m ≡ false) self.now result }
        ensures before { take result self.now ≡ starting_by address self.now }
        ensures after { drop result self.now ≡ starting_above address self.now }
    {
        count_up_to(self.starts.as_slice(), address)
    }
}

/// Returns how many starts, which do not fall, are at or below an address.
///
/// A turn leaves a quarter: it compares three starts, which a processor reads at the same time, and branches on none
/// of them, since it could not foresee such a branch.
fn count_up_to(starts: &[u64], address: u64) -> usize
    requires { IsNonDecreasing starts.now }
    ensures within { result ≤ length starts.now }
    ensures point { IsPartitionPoint (λ start. start ≤ address) (λ start. address < start) starts.now result }
{
    let mut low = 0;
    let mut size = starts.len();
    while size > 3 {
        let quarter = size / 4;
        let passed = one_if_up_to(address, starts[low + quarter - 1])
            + one_if_up_to(address, starts[low + 2 * quarter - 1])
            + one_if_up_to(address, starts[low + 3 * quarter - 1]);
        low += passed * quarter;
        size -= 3 * quarter;
    }
    while size > 0 {
        low += one_if_up_to(address, starts[low]);
        size -= 1;
    }
    low
}

/// Returns 1 for a start at or below the address, else 0.
#[inline(always)]
fn one_if_up_to(address: u64, start: u64) -> usize
    ensures { result ≡ (if nat_le start address then 1 else 0) }
{
    usize::from(start <= address)
}
