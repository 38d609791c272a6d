//! The cache of unwind rules by address, generation and kind of frame, and its counts.
//!
//! A set has two slots, the newest entry and an older one. A hit of the newest, which most are, writes no entry and
//! is inlined. Nothing is thrown out when modules change: a generation is part of the key.
ghost use Rattle.std.specs.Prelude.{◌≡◌, ◌^◌, ◌-◌, ◌+◌, ◌∷◌, [], ◌==◌, nat_le, nat_lt, min, true, IfOk, IfNone, IfSome, Some, length, get_or};
ghost use Rattle.std.specs.List.{list_any};
ghost use Rattle.framehop_cache.specs.Cache.{key_of, counted, empty_cache, no_stats, found, inserted, inserted_in, misses_of, total_of, set_number, ways};
ghost use Rattle.framehop_cache.specs.CacheResult.{result_of, rule_of, HitRuns};
ghost use Rattle.framehop_cache.specs.CacheSet.{rule_in_slot, entries_of_slot, entries_of, rule_under, HasOtherNewest, IsSet};

use framehop_core::unwind_rule::UnwindRule;
use std::alloc::{AllocError, Global};
use std::marker::Model;

/// How many sets the cache has.
pub(crate) const CACHE_SET_COUNT: usize = 509;

/// A cache of unwind rules by lookup address (AVMA), generation of the unwinder's modules, and
/// kind of frame. It has 509 sets of two entries; an address has its entries in one of them.
#[derive(Drop)]
pub struct RuleCache<R: UnwindRule> {
    sets: Vec<CacheSet<R>>,
    stats: CacheStats,
}

impl<R: UnwindRule> Model for RuleCache<R> {
    ghost use Rattle.std.specs.Prelude.{◌≡◌, map, length};
    ghost use Rattle.std.specs.List.{All};
    ghost use Rattle.framehop_cache.specs.Cache.{CacheView, set_count};

    ghost Value = { CacheView R };

    ghost use Rattle.framehop_cache.specs.CacheSet.{entries_of, IsSet};

    ghost view = { λ c. record { sets = map entries_of c.sets.items; stats = c.stats } };

    ghost invariant = { λ c. (length c.sets.items ≡ set_count)
        × All (IsSet R.executable) c.sets.items };
}

impl<R: UnwindRule> RuleCache<R> {
    /// Returns a cache with 509 empty sets, or an error if their allocation fails.
    pub fn new(alloc: Global) -> Result<Self, AllocError>
        ensures { IfOk result (λ cache. cache ≡ empty_cache) }
    {
        let mut sets = Vec::new(alloc);
        let slot = Slot {
            rule: SlotRule::Empty,
            address: 0,
            modules_generation: 0,
        };
        let empty = CacheSet {
            newest: slot,
            older: slot,
        };
        sets.resize(CACHE_SET_COUNT, empty)?;
        Ok(RuleCache {
            sets,
            stats: CacheStats::new(),
        })
    }

    /// Looks for the rule of a lookup address (AVMA), and counts the lookup. A handle for
    /// [`RuleCache::insert`] comes where there is none.
    #[inline(always)]
    #[tactic(auto, using(crate::proofs::SetLemmas::missed, crate::proofs::SetLemmas::set_at, crate::proofs::SetLemmas::empty_misses, crate::proofs::SetLemmas::no_rule))]
    pub fn lookup(
        &mut self,
        address: u64,
        modules_generation: u64,
        is_first_frame: bool,
    ) -> CacheResult<R>
        ensures answer { result ≡ result_of (key_of address modules_generation is_first_frame)
            (found ways self.old.sets (key_of address modules_generation is_first_frame)) }
        ensures executable { HitRuns R.executable result }
        ensures kept { self.new.sets ≡ self.old.sets }
        ensures stats { self.new.stats ≡ counted self.old.stats
            (found ways self.old.sets (key_of address modules_generation is_first_frame)) }
        ensures total { total_of self.new.stats ≡ min (total_of self.old.stats + 1) (2 ^ 64 - 1) }
    {
        let number = (address % CACHE_SET_COUNT as u64) as u16;
        let set = &self.sets[number as usize];
        if let Some(unwind_rule) = set.find_newest(address, modules_generation, is_first_frame) {
            self.stats.hit_count = self.stats.hit_count.saturating_add(1);
            return CacheResult::Hit(unwind_rule);
        }
        if set.is_empty() {
            self.stats.miss_empty_slot_count = self.stats.miss_empty_slot_count.saturating_add(1);
        } else if let Some(unwind_rule) = self.lookup_older(
            number,
            address,
            modules_generation,
            is_first_frame,
        ) {
            return CacheResult::Hit(unwind_rule);
        }
        CacheResult::Miss(CacheHandle {
            set: number,
            address,
            modules_generation,
            is_first_frame,
        })
    }

    /// Looks for the rule in the older entry of the set with that number, where the newest has another key, and
    /// counts the lookup. It is called, so that a hit of the newest entry and a miss at an empty set are inlined.
    #[inline(never)]
    #[tactic(auto, using(crate::proofs::SetLemmas::missed, crate::proofs::SetLemmas::set_at))]
    fn lookup_older(
        &mut self,
        number: u16,
        address: u64,
        modules_generation: u64,
        is_first_frame: bool,
    ) -> Option<R>
        requires number { number ≡ set_number address }
        requires newest { HasOtherNewest (key_of address modules_generation is_first_frame) (get_or self.old.sets number []) }
        ensures answer { result ≡ rule_of
            (found ways self.old.sets (key_of address modules_generation is_first_frame)) }
        ensures executable { IfSome result (λ rule. R.executable rule ≡ true) }
        ensures kept { self.new.sets ≡ self.old.sets }
        ensures stats { self.new.stats ≡ counted self.old.stats
            (found ways self.old.sets (key_of address modules_generation is_first_frame)) }
        ensures total { total_of self.new.stats ≡ min (total_of self.old.stats + 1) (2 ^ 64 - 1) }
    {
        let set = &self.sets[number as usize];
        if let Some(unwind_rule) = set.find_older(address, modules_generation, is_first_frame) {
            self.stats.hit_count = self.stats.hit_count.saturating_add(1);
            return Some(unwind_rule);
        }
        if !set.is_full() {
            self.stats.miss_empty_slot_count = self.stats.miss_empty_slot_count.saturating_add(1);
        } else if set.has_generation(modules_generation) {
            self.stats.miss_wrong_address_count = self
                .stats
                .miss_wrong_address_count
                .saturating_add(1);
        } else {
            self.stats.miss_wrong_modules_count = self
                .stats
                .miss_wrong_modules_count
                .saturating_add(1);
        }
        None
    }
}

impl<R: UnwindRule> RuleCache<R> {
    /// Stores a rule for the lookup that gave the handle, as the newest entry of its set. Of the
    /// others the set keeps the newest that has another key.
    #[tactic(auto, using(crate::proofs::SetLemmas::write_at, crate::proofs::SetLemmas::set_at))]
    pub fn insert(&mut self, handle: CacheHandle, unwind_rule: R)
        requires { R.executable unwind_rule ≡ true }
        ensures { self.new ≡ record self.old { sets = inserted ways self.old.sets (record { key = handle; rule = unwind_rule }) } }
    {
        let CacheHandle {
            set,
            address,
            modules_generation,
            is_first_frame,
        } = handle;
        self.sets[set as usize].insert(address, modules_generation, is_first_frame, unwind_rule);
    }

    /// Returns a snapshot of the counts.
    pub fn stats(&self) -> CacheStats
        ensures { result ≡ self.now.stats }
    {
        self.stats
    }
}

/// What a lookup returns.
#[derive(Drop)]
pub enum CacheResult<R> {
    Miss(CacheHandle),
    Hit(R),
}

/// The key of a lookup that missed, and the number of its set.
#[derive(Drop)]
pub struct CacheHandle {
    set: u16,
    address: u64,
    modules_generation: u64,
    is_first_frame: bool,
}

impl Model for CacheHandle {
    ghost use Rattle.std.specs.Prelude.{◌≡◌};
    ghost use Rattle.framehop_cache.specs.Cache.{Key, set_number};

    ghost Value = { Key };

    ghost view = { λ h. record { address = h.address; generation = h.modules_generation; is_first_frame = h.is_first_frame } };

    ghost invariant = { λ h. h.set ≡ set_number h.address };
}

/// The entries of the addresses of one remainder. The older slot is empty where the newest is.
#[derive(Clone, Copy, Debug)]
struct CacheSet<R> {
    newest: Slot<R>,
    older: Slot<R>,
}

impl<R: UnwindRule> CacheSet<R> {
    /// Returns the rule of the newest entry, if that is stored under a key.
    #[inline(always)]
    fn find_newest(&self, address: u64, modules_generation: u64, is_first_frame: bool) -> Option<R>
        ensures answer { IfSome result (λ rule. rule_under (key_of address modules_generation is_first_frame) (entries_of self.now) ≡ Some rule) }
        ensures none { IsSet R.executable self.now → IfNone result (HasOtherNewest (key_of address modules_generation is_first_frame) (entries_of self.now)) }
        ensures executable { IsSet R.executable self.now → IfSome result (λ rule. R.executable rule ≡ true) }
    {
        self.newest
            .find(address, modules_generation, is_first_frame)
    }

    /// Returns the rule that is stored under a key, which is not that of the newest entry.
    #[inline(always)]
    fn find_older(&self, address: u64, modules_generation: u64, is_first_frame: bool) -> Option<R>
        requires { HasOtherNewest (key_of address modules_generation is_first_frame) (entries_of self.now) }
        ensures answer { result ≡ rule_under (key_of address modules_generation is_first_frame) (entries_of self.now) }
        ensures executable { IsSet R.executable self.now → IfSome result (λ rule. R.executable rule ≡ true) }
    {
        self.older.find(address, modules_generation, is_first_frame)
    }

    /// Returns whether the set has no entry.
    #[inline(always)]
    fn is_empty(&self) -> bool
        requires { IsSet R.executable self.now }
        ensures { result ≡ (length (entries_of self.now) == 0) }
    {
        !self.newest.is_filled()
    }

    /// Returns whether the set has no room without dropping an entry.
    #[inline(always)]
    fn is_full(&self) -> bool
        requires { IsSet R.executable self.now }
        ensures { result ≡ nat_le ways (length (entries_of self.now)) }
    {
        self.older.is_filled()
    }

    /// Returns whether an entry has the generation.
    #[inline(always)]
    fn has_generation(&self, modules_generation: u64) -> bool
        ensures { result ≡ list_any (λ entry. entry.key.generation == modules_generation) (entries_of self.now) }
    {
        self.newest.has_generation(modules_generation)
            || self.older.has_generation(modules_generation)
    }

    /// Stores a rule under a key, as the newest entry. An entry of the same key is replaced, else the older one is
    /// dropped.
    #[inline(always)]
    fn insert(
        &mut self,
        address: u64,
        modules_generation: u64,
        is_first_frame: bool,
        unwind_rule: R,
    )
        requires executable { R.executable unwind_rule ≡ true }
        requires set { IsSet R.executable self.old }
        ensures stored { entries_of self.new ≡ inserted_in ways
            (record { key = key_of address modules_generation is_first_frame; rule = unwind_rule }) (entries_of self.old) }
        ensures set { IsSet R.executable self.new }
    {
        if !self.is_empty()
            && self
                .newest
                .find(address, modules_generation, is_first_frame)
                .is_none()
        {
            self.older = self.newest;
        }
        self.newest = Slot {
            rule: SlotRule::new(unwind_rule, is_first_frame),
            address,
            modules_generation,
        };
    }
}

/// The rule in a slot, with the kind of its frame.
#[derive(Clone, Copy, Debug)]
enum SlotRule<R> {
    /// The slot is empty.
    Empty,
    /// The rule of a first frame.
    FirstFrame(R),
    /// The rule of a caller's frame.
    CallerFrame(R),
}

impl<R: Copy> SlotRule<R> {
    /// Returns what holds the rule of a frame that is a first one, or a caller's.
    #[inline(always)]
    fn new(unwind_rule: R, is_first_frame: bool) -> Self
        ensures { result ≡ rule_in_slot is_first_frame unwind_rule }
    {
        if is_first_frame {
            SlotRule::FirstFrame(unwind_rule)
        } else {
            SlotRule::CallerFrame(unwind_rule)
        }
    }
}

/// A slot: empty, or with an entry. An empty one has zeros only, so that a new cache is filled quickly. The address
/// is compared first, which tells most others apart.
#[derive(Clone, Copy, Debug)]
struct Slot<R> {
    rule: SlotRule<R>,
    address: u64,
    modules_generation: u64,
}

impl<R: UnwindRule> Slot<R> {
    /// Returns the rule that is stored under a key.
    #[inline(always)]
    fn find(&self, address: u64, modules_generation: u64, is_first_frame: bool) -> Option<R>
        ensures { result ≡ rule_under (key_of address modules_generation is_first_frame) (entries_of_slot self.now) }
    {
        if self.address != address || self.modules_generation != modules_generation {
            return None;
        }
        match self.rule {
            SlotRule::FirstFrame(rule) if is_first_frame => Some(rule),
            SlotRule::CallerFrame(rule) if !is_first_frame => Some(rule),
            _ => None,
        }
    }

    /// Returns whether the slot holds an entry.
    #[inline(always)]
    fn is_filled(&self) -> bool
        ensures { result ≡ nat_lt 0 (length (entries_of_slot self.now)) }
    {
        !matches!(self.rule, SlotRule::Empty)
    }

    /// Returns whether the slot holds an entry of the generation.
    #[inline(always)]
    fn has_generation(&self, modules_generation: u64) -> bool
        ensures { result ≡ list_any (λ entry. entry.key.generation == modules_generation) (entries_of_slot self.now) }
    {
        self.is_filled() && self.modules_generation == modules_generation
    }
}

/// How many lookups have hit, and how many have missed for which reason. Each count stops at the largest `u64`.
#[derive(Default, Debug, Clone, Copy)]
pub struct CacheStats {
    /// How many lookups hit.
    pub hit_count: u64,

    /// How many lookups missed at a set that had room: none or one of its two entries.
    pub miss_empty_slot_count: u64,

    /// How many lookups missed at a full set without an entry of the unwinder's generation: its
    /// modules have changed since, or several unwinders share the cache.
    pub miss_wrong_modules_count: u64,

    /// How many lookups missed at a full set with an entry of the unwinder's generation, for another
    /// address or kind of frame.
    pub miss_wrong_address_count: u64,
}

impl CacheStats {
    /// Counts that are all 0.
    pub fn new() -> Self
        ensures { result ≡ no_stats }
    {
        Default::default()
    }

    /// Returns the number of lookups.
    pub fn total(&self) -> u64
        ensures { result ≡ total_of self.now }
    {
        self.hits().saturating_add(self.misses())
    }

    /// Returns the number of hits.
    pub fn hits(&self) -> u64
        ensures { result ≡ self.now.hit_count }
    {
        self.hit_count
    }

    /// Returns the number of misses.
    pub fn misses(&self) -> u64
        ensures { result ≡ misses_of self.now }
    {
        self.miss_empty_slot_count
            .saturating_add(self.miss_wrong_modules_count)
            .saturating_add(self.miss_wrong_address_count)
    }
}
