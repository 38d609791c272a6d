//! How the lookups of a cache have ended, by its counts.
ghost use Rattle.std.specs.Prelude.{◌≡◌};
ghost use Rattle.framehop_cache.specs.declared.rule_cache.CacheStats.{CacheStats};
ghost use Rattle.framehop_c.specs.Lookups.{lookup_between};

use framehop::aarch64::CacheAarch64;
use framehop::x86_64::CacheX86_64;
use framehop::{AllocationPolicy, CacheStats};

/// No lookup, or its count is at the end.
pub const FRAMEHOP_NO_LOOKUP: i32 = 0;

/// The rule was found.
pub const FRAMEHOP_LOOKUP_HIT: i32 = 1;

/// The rule was not found, and there was room for it.
pub const FRAMEHOP_LOOKUP_EMPTY_SLOT: i32 = 2;

/// The rule was not found, and in its place were those of other modules.
pub const FRAMEHOP_LOOKUP_WRONG_MODULES: i32 = 3;

/// The rule was not found, and in its place were those of other addresses.
pub const FRAMEHOP_LOOKUP_WRONG_ADDRESS: i32 = 4;

/// A cache that counts its lookups.
pub trait CountsLookups {
    ghost counts: { Self → CacheStats };

    /// Returns the counts.
    fn counts(&self) -> CacheStats
        ensures { result ≡ counts self.now };
}

impl<P: AllocationPolicy> CountsLookups for CacheX86_64<P> {
    ghost counts = { λ cache. cache.0.stats };

    fn counts(&self) -> CacheStats {
        self.stats()
    }
}

impl<P: AllocationPolicy> CountsLookups for CacheAarch64<P> {
    ghost counts = { λ cache. cache.0.stats };

    fn counts(&self) -> CacheStats {
        self.stats()
    }
}

/// Returns the number of how the one lookup between two counts has ended.
pub(crate) fn lookup_number(before: &CacheStats, after: &CacheStats) -> i32
    ensures { result ≡ lookup_between before.now after.now }
{
    if after.hit_count != before.hit_count {
        FRAMEHOP_LOOKUP_HIT
    } else if after.miss_empty_slot_count != before.miss_empty_slot_count {
        FRAMEHOP_LOOKUP_EMPTY_SLOT
    } else if after.miss_wrong_modules_count != before.miss_wrong_modules_count {
        FRAMEHOP_LOOKUP_WRONG_MODULES
    } else if after.miss_wrong_address_count != before.miss_wrong_address_count {
        FRAMEHOP_LOOKUP_WRONG_ADDRESS
    } else {
        FRAMEHOP_NO_LOOKUP
    }
}
