//! The unwinder cache of x86_64.
ghost use Rattle.std.specs.Prelude.{◌≡◌, IfOk};
ghost use Rattle.framehop_cache.specs.Cache.{empty_cache};
ghost use Rattle.framehop.specs.Modules.{UnwinderView};
ghost use Rattle.framehop.specs.Policy.{Policy};
ghost use Rattle.framehop.specs.X86_64.{IsSoundX86_64};

use crate::cache::{AllocationPolicy, Cache, MayAllocateDuringUnwind};
use framehop_cache::rule_cache::CacheStats;
use framehop_core::x86_64::UnwindRuleX86_64;
use std::alloc::{AllocError, Global};

/// The unwinder cache for x86_64.
#[derive(Drop)]
pub struct CacheX86_64<P: AllocationPolicy = MayAllocateDuringUnwind>(
    pub Cache<UnwindRuleX86_64, P>,
);

impl CacheX86_64<MayAllocateDuringUnwind> {
    /// Returns an empty cache for unwinding that may allocate. It changes no answer of any unwinder.
    ///
    /// # Errors
    ///
    /// `AllocError` where an allocation fails.
    ///
    /// # Examples
    ///
    /// ```
    /// let mut cache = CacheX86_64::new(alloc)?;
    /// ```
    pub fn new(alloc: Global) -> Result<Self, AllocError>
        ensures made { IfOk result (λ cache. cache.0 ≡ empty_cache) }
        ensures sound { IfOk result (λ cache. (policy : Policy) (unwinder : UnwinderView)
            → IsSoundX86_64 policy unwinder cache.0) }
    {
        Ok(CacheX86_64(Cache::new(alloc)?))
    }
}

impl<P: AllocationPolicy> CacheX86_64<P> {
    /// Returns an empty cache of any policy. It changes no answer of any unwinder.
    ///
    /// # Errors
    ///
    /// `AllocError` where an allocation fails.
    ///
    /// # Examples
    ///
    /// ```
    /// let mut cache = CacheX86_64::new_in(alloc)?;
    /// ```
    pub fn new_in(alloc: Global) -> Result<Self, AllocError>
        ensures made { IfOk result (λ cache. cache.0 ≡ empty_cache) }
        ensures sound { IfOk result (λ cache. (policy : Policy) (unwinder : UnwinderView)
            → IsSoundX86_64 policy unwinder cache.0) }
    {
        Ok(CacheX86_64(Cache::new(alloc)?))
    }

    /// Returns the counts of the lookups.
    pub fn stats(&self) -> CacheStats
        ensures { result ≡ self.now.0.stats }
    {
        self.0.stats()
    }
}
