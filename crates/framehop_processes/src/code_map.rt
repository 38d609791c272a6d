//! The names of functions whose code is in no file, as those that a JIT compiler makes, by their addresses.
ghost use Rattle.std.specs.Prelude.{ℕ, ◌≡◌, ◌≤◌, ◌<◌, ◌⊎◌, Option, None, IsSome, IfOk, OnOk, MatchOption, if◌then◌else◌, option_map};
ghost use Rattle.std.specs.BTreeMap.{get};
ghost use Rattle.std.specs.Ordering.{nat_cmp};
ghost use Rattle.framehop_processes.specs.CodeMap.{has_address_between, IsInForce, function_of, code_name_at};

use std::alloc::{AllocError, Global};
use std::collections::BTreeMap;
use std::marker::Model;

/// A function whose code is in no file.
#[derive(Drop)]
pub struct CodeFunction {
    /// Its first address (AVMA).
    pub start: u64,
    /// The address after its last (AVMA).
    pub end: u64,
    /// Its name.
    pub name: Vec<u8>,
}

/// Functions whose code is in no file, to be searched by address. A contract sees the list of them, in the order in which
/// they were told.
#[derive(Drop)]
pub struct CodeFunctions {
    functions: Vec<CodeFunction>,
    /// Of the addresses from one on, up to the next: the number of the last function that has them, if one has.
    by_address: BTreeMap<u64, Option<usize>>,
}

impl Model for CodeFunctions {
    ghost use Rattle.std.specs.Prelude.{List};
    ghost use Rattle.framehop_processes.specs.CodeMap.{AreNumbered};
    ghost use Rattle.framehop_processes.specs.declared.code_map.CodeFunction.{CodeFunction};

    ghost Value = { List CodeFunction };

    ghost view = { λ table. table.functions.items };

    ghost invariant = { λ table. AreNumbered table.functions.items table.by_address };
}

/// What was read of a map of code that is in no file.
#[derive(Drop)]
pub struct CodeMap {
    /// The functions that it tells.
    pub functions: CodeFunctions,
    /// How many of its lines tell none.
    pub left_out: usize,
}

impl CodeFunctions {
    /// Returns functions, to be searched, in the order in which they were told.
    pub fn new(alloc: Global, functions: Vec<CodeFunction>) -> Result<Self, AllocError>
        ensures { IfOk result (λ table. table ≡ functions.items) }
    {
        let mut by_address = BTreeMap::new(alloc);
        for (number, function) in functions.iter().enumerate() {
            put(&mut by_address, function.start, function.end, number)?;
        }
        Ok(CodeFunctions {
            functions,
            by_address,
        })
    }

    /// Returns the name of the function that has an address (AVMA), and how far the address is from its start: of the last
    /// that was told, where several have it.
    pub fn function_at(&self, address: u64) -> Option<(&[u8], u64)>
        ensures { option_map (λ found. (found.0.now, found.1)) result ≡ code_name_at self.now address }
    {
        let number = number_at(&self.by_address, address);
        let function = function_of(self.functions.as_slice(), number)?;
        Some((
            function.name.as_slice(),
            address.saturating_sub(function.start),
        ))
    }
}

/// Returns the number of the function that is in force at an address.
fn number_at(by_address: &BTreeMap<u64, Option<usize>>, address: u64) -> Option<usize>
    ensures { IsInForce by_address.now address result }
{
    match by_address.range(..=address).next_back() {
        Some((_, number)) => *number,
        None => None,
    }
}

/// Returns the function of a number, if there is one.
fn function_of(functions: &[CodeFunction], number: Option<usize>) -> Option<&CodeFunction>
    ensures { option_map (λ function. function.now) result ≡ function_of functions.entry.now number }
{
    functions.get(number?)
}

/// Puts a function in force at its addresses, in the place of those that had them.
fn put(
    by_address: &mut BTreeMap<u64, Option<usize>>,
    start: u64,
    end: u64,
    number: usize,
) -> Result<(), AllocError>
    ensures { OnOk result ((address : ℕ) (before : Option ℕ) → IsInForce by_address.old address before
        → IsInForce by_address.new address (if has_address_between start end address then Some number else before)) }
{
    if end <= start {
        return Ok(());
    }
    let after = number_at(by_address, end);
    clear(by_address, start, end);
    by_address.insert(start, Some(number))?;
    by_address.insert(end, after)?;
    Ok(())
}

/// Takes out what begins at an address between two, the second excluded.
fn clear(by_address: &mut BTreeMap<u64, Option<usize>>, start: u64, end: u64)
    requires { start ≤ end }
    ensures cleared { (key : ℕ) → start ≤ key → key < end → get nat_cmp by_address.new key ≡ None }
    ensures kept { (key : ℕ) → (key < start) ⊎ (end ≤ key) → get nat_cmp by_address.new key ≡ get nat_cmp by_address.old key }
{
    while let Some(key) = first_between(by_address, start, end) {
        by_address.remove(&key);
    }
}

/// Returns the first address between two, the second excluded, at which something begins.
fn first_between(by_address: &BTreeMap<u64, Option<usize>>, start: u64, end: u64) -> Option<u64>
    requires { start ≤ end }
    ensures { MatchOption result ((key : ℕ) → start ≤ key → key < end → get nat_cmp by_address.now key ≡ None)
        (λ key. (start ≤ key) × (key < end) × IsSome (get nat_cmp by_address.now key)) }
{
    let (key, _) = by_address.range(start..end).next()?;
    Some(*key)
}
