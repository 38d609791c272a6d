//! Why no module covers an address.
ghost use Rattle.std.specs.Prelude.{◌≡◌};
ghost use Rattle.std.specs.Option.{option_copied};
ghost use Rattle.framehop.specs.Modules.{last_of, starting_by};
ghost use Rattle.framehop_explain.specs.Uncovered.{uncovered_by};

use framehop::Module;
use framehop_bytes::section::SectionBytes;

/// Why the last module that starts at or below an address does not cover it.
#[derive(Clone, Copy, PartialEq, Eq)]
pub enum Uncovered {
    /// No module starts at or below the address.
    NoModule,
    /// The address is at or past the module's end.
    PastEnd,
    /// The address is below the module's base.
    BelowBase,
    /// The address is 2^32 bytes or more above the module's base.
    FarAboveBase,
}

/// Returns the last module that starts at or below an address (AVMA), of modules in the order of
/// their starts.
pub(crate) fn last_module_by<D: SectionBytes + Drop>(
    modules: &[Module<D>],
    address: u64,
) -> Option<&Module<D>>
    ensures { option_copied result ≡ last_of (starting_by address modules.entry.now) }
{
    let mut last = None;
    for loaded in modules {
        if loaded.avma_range().start <= address {
            last = Some(loaded);
        }
    }
    last
}

impl Uncovered {
    /// Returns why an address (AVMA) that no module covers is not covered by the last module that
    /// starts at or below it.
    pub fn by<D: SectionBytes + Drop>(last: Option<&Module<D>>, address: u64) -> Self
        ensures { result ≡ uncovered_by (option_copied last.entry) address }
    {
        let Some(loaded) = last else {
            return Uncovered::NoModule;
        };
        let range = loaded.avma_range();
        if address != range.start && range.end <= address {
            return Uncovered::PastEnd;
        }
        if address < loaded.base_avma() {
            return Uncovered::BelowBase;
        }
        Uncovered::FarAboveBase
    }
}
