//! The mappings by which memory has the unwind data of files: the first of each file.
ghost use Rattle.std.specs.Prelude.{◌≡◌, IfOk, find};
ghost use Rattle.framehop_dump_stacks.specs.Problems.{is_of_file, HasFirstMappings};

use framehop_processes::Mapping;
use std::alloc::{AllocError, Global};
use std::collections::BTreeMap;

/// The first mappings of files that have their unwind data.
#[derive(Drop)]
pub(crate) struct FirstMappings<'a> {
    /// All mappings.
    pub(crate) mappings: &'a [Mapping],
    by_file: BTreeMap<u32, Mapping>,
    ghost first: { HasFirstMappings mappings.now by_file },
}

impl<'a> FirstMappings<'a> {
    /// Returns those among mappings.
    pub(crate) fn new(alloc: Global, mappings: &'a [Mapping]) -> Result<Self, AllocError>
        ensures { IfOk result (λ first. first.mappings.now ≡ mappings.entry.now) }
    {
        let by_file = by_file(alloc, mappings)?;
        Ok(FirstMappings { mappings, by_file })
    }

    /// Returns that of the file of a number.
    pub(crate) fn of_file(&self, number: Option<u32>) -> Option<Mapping>
        ensures { result ≡ find (is_of_file number) self.now.mappings.now }
    {
        match number {
            Some(number) => self.by_file.get(&number).copied(),
            None => None,
        }
    }
}

/// Returns the first mapping of each file that has its unwind data, by the number of the file.
fn by_file(alloc: Global, mappings: &[Mapping]) -> Result<BTreeMap<u32, Mapping>, AllocError>
    ensures { IfOk result (λ by_file. HasFirstMappings mappings.now by_file) }
{
    let mut by_file = BTreeMap::new(alloc);
    let mut left = mappings.len();
    while left > 0 {
        left -= 1;
        let mapping = mappings[left];
        if mapping.has_sections {
            by_file.insert(mapping.file, mapping)?;
        }
    }
    Ok(by_file)
}
