//! The names by which files of a disk are read.
ghost use Rattle.std.specs.Prelude.{◌≡◌, ◌≢◌, List, ℕ, [], IfOk, OnOk, map, nat_eq};
ghost use Rattle.std.specs.List.{list_any};
ghost use Rattle.std.specs.Cmp.Lexicographic.{pointwise};
ghost use Rattle.framehop_disk.specs.KnownNames.{is_allowed, names_of, noted};

use std::alloc::{AllocError, Global};
use std::cell::RefCell;
use std::collections::BTreeMap;

/// By how many names a file is read. It has more than one where links or `..` lead to it.
const MOST_NAMES: usize = 8;

/// The names by which files were read. A recording or a dump may name one file in any number of ways, as by `..`, each time
/// as another: it is not read and kept for each of them.
#[derive(Drop)]
pub struct KnownNames {
    names: RefCell<Names>,
}

/// The names by which each file was read, by its path without links.
#[derive(Drop)]
pub struct Names {
    by_file: BTreeMap<Vec<u8>, Vec<Vec<u8>>>,
}

impl KnownNames {
    /// Returns no names.
    pub fn new(alloc: Global) -> Self {
        KnownNames {
            names: RefCell::new(Names::new(alloc)),
        }
    }

    /// Returns whether a file, by its path without links, may be read by a name, as [`Names::allow`] does.
    pub fn allow(&self, alloc: Global, file: &[u8], name: &[u8]) -> Result<bool, AllocError> {
        match self.names.try_borrow_mut() {
            Ok(mut names) => names.allow(alloc, file, name),
            Err(_) => Ok(false),
        }
    }
}

impl Names {
    /// Returns no names.
    pub fn new(alloc: Global) -> Self
        ensures { (file : List ℕ) → names_of result file ≡ [] }
    {
        Names {
            by_file: BTreeMap::new(alloc),
        }
    }

    /// Returns whether a file, by its path without links, may be read by a name: by the first 8, as often as they are asked
    /// for.
    pub fn allow(&mut self, alloc: Global, file: &[u8], name: &[u8]) -> Result<bool, AllocError>
        ensures allowed { IfOk result (λ allowed. allowed ≡ is_allowed (names_of self.old file.now) name.now) }
        ensures noted { OnOk result (names_of self.new file.now ≡ noted (names_of self.old file.now) name.now) }
        ensures others { (other : List ℕ) → other ≢ file.now → names_of self.new other ≡ names_of self.old other }
    {
        let mut names = match self.by_file.remove(file) {
            Some(names) => names,
            None => Vec::new(alloc),
        };
        let is_allowed = note(alloc, &mut names, name)?;
        let key = Vec::from_slice(alloc, file)?;
        self.by_file.insert(key, names)?;
        Ok(is_allowed)
    }
}

/// Adds a name to those by which a file was read, if it may be read by it. Returns whether it may.
fn note(alloc: Global, names: &mut Vec<Vec<u8>>, name: &[u8]) -> Result<bool, AllocError>
    ensures allowed { IfOk result (λ allowed. allowed ≡ is_allowed (map (λ known. known.items) names.old.items) name.now) }
    ensures noted { OnOk result (map (λ known. known.items) names.new.items ≡ noted (map (λ known. known.items) names.old.items) name.now) }
{
    if has_name(names.as_slice(), name) {
        return Ok(true);
    }
    if names.len() >= MOST_NAMES {
        return Ok(false);
    }
    names.push(Vec::from_slice(alloc, name)?)?;
    Ok(true)
}

/// Returns whether a name is among names.
fn has_name(names: &[Vec<u8>], name: &[u8]) -> bool
    ensures { result ≡ list_any (λ known. pointwise nat_eq known.items name.now) names.now }
{
    names.iter().any(|known| is_same(known.as_slice(), name))
}

/// Returns whether two names are the same.
fn is_same(known: &[u8], name: &[u8]) -> bool
    ensures { result ≡ pointwise nat_eq known.now name.now }
{
    known == name
}
