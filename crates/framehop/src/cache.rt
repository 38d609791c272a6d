//! The unwinder cache, and the policies that say whether unwinding may take memory.
ghost use Rattle.std.specs.Prelude.{◌≡◌, Bool, true, false, refl, IfOk};
ghost use Rattle.framehop_cache.specs.Cache.{key_of, counted, empty_cache, found, inserted, ways};
ghost use Rattle.framehop_cache.specs.CacheResult.{result_of, HitRuns};
ghost use Rattle.framehop.specs.Modules.{UnwinderView};
ghost use Rattle.framehop.specs.Policy.{Policy, IsLimited, with_allocation, without_allocation};
ghost use Rattle.framehop.specs.Laws.Policy.{limited-with_allocation, limited-without_allocation};
ghost use Rattle.framehop.specs.Unwinding.{Unwinding};
ghost use Rattle.framehop.specs.Soundness.{IsSound};

use framehop_cache::rule_cache::{CacheHandle, CacheResult, CacheStats, RuleCache};
use framehop_cfi::context::UnwindContext;
use framehop_cfi::storage::{StoreOnHeap, StoreOnStack, UnwindContextStorage};
use framehop_core::unwind_rule::UnwindRule;
use framehop_dwarf::evaluation::EvaluationStorage;
use std::alloc::{AllocError, Global};
use std::marker::Model;

/// Whether unwinding may take memory. The two policies are [`MustNotAllocateDuringUnwind`] and
/// [`MayAllocateDuringUnwind`].
pub trait AllocationPolicy {
    /// The room for the rows of a call frame table.
    type GimliUnwindContextStorage: UnwindContextStorage;

    /// The room for the values of a DWARF expression.
    type GimliEvaluationStorage: EvaluationStorage;

    ghost MAY_ALLOCATE: { Bool };

    // what it lets unwinding use
    ghost policy: { Policy };

    // where nothing may be allocated, both storages have limits
    ghost is_policy: { (policy.may_allocate ≡ MAY_ALLOCATE)
        × (policy.rows ≡ Self.GimliUnwindContextStorage.limits)
        × (policy.values ≡ Self.GimliEvaluationStorage.Stack.limit)
        × IsLimited policy };

    const MAY_ALLOCATE: bool;
}

/// Unwinding takes no memory. What it needs is made with the cache, and is of fixed size, so that
/// some DWARF unwind information is too large for it.
pub struct MustNotAllocateDuringUnwind;

impl AllocationPolicy for MustNotAllocateDuringUnwind {
    type GimliUnwindContextStorage = StoreOnStack;

    type GimliEvaluationStorage = StoreOnStack;

    ghost MAY_ALLOCATE = { false };

    ghost policy = { without_allocation };

    ghost is_policy = { (refl, refl, refl, limited-without_allocation) };

    const MAY_ALLOCATE: bool = false;
}

/// Unwinding may take memory. This is the preferred policy: it takes less memory, and no DWARF
/// unwind information is too large for it.
pub struct MayAllocateDuringUnwind;

impl AllocationPolicy for MayAllocateDuringUnwind {
    type GimliUnwindContextStorage = StoreOnHeap;

    type GimliEvaluationStorage = StoreOnHeap;

    ghost MAY_ALLOCATE = { true };

    ghost policy = { with_allocation };

    ghost is_policy = { (refl, refl, refl, limited-with_allocation) };

    const MAY_ALLOCATE: bool = true;
}

/// The unwinder cache. It is made before unwinding, and unwinding needs exclusive access to it.
/// One cache can serve several unwinders in turn.
#[derive(Drop)]
pub struct Cache<R: UnwindRule, P: AllocationPolicy = MayAllocateDuringUnwind> {
    rule_cache: RuleCache<R>,
    /// Where rows of DWARF call frame tables are made, with its room made before.
    pub(crate) gimli_unwind_context: Box<UnwindContext<P::GimliUnwindContextStorage>>,
}

impl<R: UnwindRule, P: AllocationPolicy> Model for Cache<R, P> {
    ghost use Rattle.framehop_cache.specs.Cache.{CacheView};

    ghost Value = { CacheView R };

    ghost view = { λ c. c.rule_cache };
}

impl<R: UnwindRule, P: AllocationPolicy> Cache<R, P> {
    /// Returns an empty cache, which changes no answer of any unwinder, or an error if an allocation
    /// fails.
    pub fn new(alloc: Global) -> Result<Self, AllocError>
        ensures made { IfOk result (λ cache. cache ≡ empty_cache) }
        ensures sound { IfOk result (λ cache. (unwinding : Unwinding R R.UnwindRegs) (unwinder : UnwinderView)
            → IsSound unwinding unwinder cache.sets) }
    {
        let gimli_unwind_context = Box::new(alloc, UnwindContext::new_in(alloc)?)?;
        Ok(Cache {
            rule_cache: RuleCache::new(alloc)?,
            gimli_unwind_context,
        })
    }

    /// Looks for the rule of a lookup address (AVMA), and counts the lookup.
    #[inline]
    pub(crate) fn lookup(
        &mut self,
        address: u64,
        modules_generation: u64,
        is_first_frame: bool,
    ) -> CacheResult<R>
        ensures answer { result ≡ result_of (key_of address modules_generation is_first_frame)
            (found ways self.old.sets (key_of address modules_generation is_first_frame)) }
        ensures executable { HitRuns R.executable result }
        ensures kept { self.new.sets ≡ self.old.sets }
        ensures stats { self.new.stats ≡ counted self.old.stats
            (found ways self.old.sets (key_of address modules_generation is_first_frame)) }
    {
        self.rule_cache
            .lookup(address, modules_generation, is_first_frame)
    }

    /// Stores a rule for the lookup that gave the handle.
    #[inline]
    pub(crate) fn insert(&mut self, handle: CacheHandle, unwind_rule: R)
        requires { R.executable unwind_rule ≡ true }
        ensures { self.new
            ≡ record self.old { sets = inserted ways self.old.sets (record { key = handle; rule = unwind_rule }) } }
    {
        self.rule_cache.insert(handle, unwind_rule);
    }

    /// Returns the counts of the lookups.
    pub fn stats(&self) -> CacheStats
        ensures { result ≡ self.now.stats }
    {
        self.rule_cache.stats()
    }
}
