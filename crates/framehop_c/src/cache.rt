//! The caches of both architectures.
ghost use Rattle.std.specs.Prelude.{◌≡◌, ◌≢◌, ◌⊎◌, Some, MatchOption};
ghost use Rattle.framehop_cache.specs.Cache.{empty_cache};
ghost use Rattle.framehop_c.specs.Status.{ok, out_of_memory, wrong_handle};
ghost use Rattle.framehop_c.specs.Told.{IsStats};
ghost use Rattle.framehop_c.specs.Objects.{policy_for};
ghost use Rattle.framehop_c.specs.X86_64.{cache_in as cache_of_x86_64};
ghost use Rattle.framehop_c.specs.Aarch64.{cache_in as cache_of_aarch64};

use crate::calls::FramehopCacheStats;
use crate::handle::{Handle, HandlePlace, hand_out};
use crate::object::Object;
use crate::status::{FRAMEHOP_OK, FRAMEHOP_OUT_OF_MEMORY, FRAMEHOP_WRONG_HANDLE};
use framehop::aarch64::CacheAarch64;
use framehop::x86_64::CacheX86_64;
use std::alloc::Global;

/// Makes an empty cache for aarch64.
#[unsafe(no_mangle)]
pub extern "C" fn framehop_cache_aarch64_new(
    alloc: Global,
    may_allocate: bool,
    place: &mut HandlePlace,
) -> i32
    ensures made { result ≡ ok → cache_of_aarch64 place.new.object ≡ Some (policy_for may_allocate, empty_cache) }
    ensures kept { result ≢ ok → place.new ≡ place.old }
    ensures statuses { (result ≡ ok) ⊎ (result ≡ out_of_memory) }
{
    if may_allocate {
        match CacheAarch64::new(alloc) {
            Ok(cache) => hand_out(alloc, Object::CacheAarch64(cache), place),
            Err(_) => FRAMEHOP_OUT_OF_MEMORY,
        }
    } else {
        match CacheAarch64::new_in(alloc) {
            Ok(cache) => hand_out(alloc, Object::LimitedCacheAarch64(cache), place),
            Err(_) => FRAMEHOP_OUT_OF_MEMORY,
        }
    }
}

/// Writes the counts of a cache's lookups.
#[unsafe(no_mangle)]
pub extern "C" fn framehop_cache_aarch64_stats(
    cache: &mut Handle,
    stats: &mut FramehopCacheStats,
) -> i32
    ensures stats { MatchOption (cache_of_aarch64 cache.old.object) (result ≡ wrong_handle)
        (λ cache. (result ≡ ok) × IsStats stats.new cache.1.stats) }
    ensures unchanged { result ≡ wrong_handle → stats.new ≡ stats.old }
    ensures kept { cache.new.object ≡ cache.old.object }
{
    let counts = match cache.object_mut() {
        Object::CacheAarch64(cache) => cache.stats(),
        Object::LimitedCacheAarch64(cache) => cache.stats(),
        _ => return FRAMEHOP_WRONG_HANDLE,
    };
    stats.store(&counts);
    FRAMEHOP_OK
}

/// Makes an empty cache for x86_64.
#[unsafe(no_mangle)]
pub extern "C" fn framehop_cache_x86_64_new(
    alloc: Global,
    may_allocate: bool,
    place: &mut HandlePlace,
) -> i32
    ensures made { result ≡ ok → cache_of_x86_64 place.new.object ≡ Some (policy_for may_allocate, empty_cache) }
    ensures kept { result ≢ ok → place.new ≡ place.old }
    ensures statuses { (result ≡ ok) ⊎ (result ≡ out_of_memory) }
{
    if may_allocate {
        match CacheX86_64::new(alloc) {
            Ok(cache) => hand_out(alloc, Object::CacheX86_64(cache), place),
            Err(_) => FRAMEHOP_OUT_OF_MEMORY,
        }
    } else {
        match CacheX86_64::new_in(alloc) {
            Ok(cache) => hand_out(alloc, Object::LimitedCacheX86_64(cache), place),
            Err(_) => FRAMEHOP_OUT_OF_MEMORY,
        }
    }
}

/// Writes the counts of a cache's lookups.
#[unsafe(no_mangle)]
pub extern "C" fn framehop_cache_x86_64_stats(
    cache: &mut Handle,
    stats: &mut FramehopCacheStats,
) -> i32
    ensures stats { MatchOption (cache_of_x86_64 cache.old.object) (result ≡ wrong_handle)
        (λ cache. (result ≡ ok) × IsStats stats.new cache.1.stats) }
    ensures unchanged { result ≡ wrong_handle → stats.new ≡ stats.old }
    ensures kept { cache.new.object ≡ cache.old.object }
{
    let counts = match cache.object_mut() {
        Object::CacheX86_64(cache) => cache.stats(),
        Object::LimitedCacheX86_64(cache) => cache.stats(),
        _ => return FRAMEHOP_WRONG_HANDLE,
    };
    stats.store(&counts);
    FRAMEHOP_OK
}
