//! What a handle leads to.
use framehop::aarch64::{CacheAarch64, UnwinderAarch64};
use framehop::x86_64::{CacheX86_64, UnwinderX86_64};
use framehop::{Generations, MustNotAllocateDuringUnwind};

/// What a handle leads to: a counter of generations, or an unwinder or a cache of an architecture.
/// A limited one takes no memory while it unwinds.
#[derive(Drop)]
pub enum Object {
    Generations(Generations),
    UnwinderX86_64(UnwinderX86_64<&'static [u8]>),
    CacheX86_64(CacheX86_64),
    LimitedUnwinderX86_64(UnwinderX86_64<&'static [u8], MustNotAllocateDuringUnwind>),
    LimitedCacheX86_64(CacheX86_64<MustNotAllocateDuringUnwind>),
    UnwinderAarch64(UnwinderAarch64<&'static [u8]>),
    CacheAarch64(CacheAarch64),
    LimitedUnwinderAarch64(UnwinderAarch64<&'static [u8], MustNotAllocateDuringUnwind>),
    LimitedCacheAarch64(CacheAarch64<MustNotAllocateDuringUnwind>),
}
