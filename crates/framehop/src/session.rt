//! Lists of commands over unwinders that share caches.
ghost use Rattle.std.specs.Prelude.{◌≡◌, ◌≢◌, ◌+◌, ◌≤◌, map, IfOk, IfErr, length};
ghost use Rattle.framehop.specs.Memory.{Answering};
ghost use Rattle.framehop.specs.SessionView.{result_view, reply_view};
ghost use Rattle.framehop.specs.World.{empty_world, world_replies};
ghost use Rattle.framehop.specs.Soundness.{AreApart};
ghost use Rattle.framehop.specs.CachedWorld.{empty_cached_world, cached_replies, next_after_all, world_result, EachReply};
ghost use Rattle.framehop.specs.Fresh.{step};
ghost use Rattle.framehop.specs.Outcome.{answered};
ghost use Rattle.framehop.specs.Rise.{IsReplyWithinRise};
ghost use Rattle.framehop.specs.Meaning.{MeansAt};
ghost use Rattle.framehop.specs.Meant.{IsReplyMeant};
ghost use Rattle.framehop.specs.Modules.{UnwinderView};
ghost use Rattle.framehop.specs.Aarch64.{IsSoundAarch64, IsWalkToEnd};

pub mod commands;
mod walks;
mod world;

use crate::aarch64::{CacheAarch64, UnwindRegsAarch64, UnwinderAarch64};
use crate::cache::AllocationPolicy;
use crate::unwinder::{Unwinder, Unwinding};
pub use crate::walk::WalkEnd;
use crate::walk::push_next_frame;
pub use commands::{Command, Memory, Reply, SessionError};
use framehop_bytes::section::SectionBytes;
use framehop_cache::generations::Generations;
use std::alloc::Global;
use world::Session;

/// Carries out a list of commands, over so many caches that all its unwinders share, and returns
/// their replies in order. Generations are drawn from the counter.
///
/// The first command that names an unwinder or a cache that is not there, or that needs a
/// generation where the counter is at its end, refuses the session, and so does running out of memory.
/// Then its unwinders and caches are gone, and the generations that it drew stay drawn.
pub fn run<D: SectionBytes + Drop, A: Unwinding, P: AllocationPolicy>(
    alloc: Global,
    commands: Vec<Command<D, A::UnwindRegs>>,
    cache_count: usize,
    generations: &mut Generations,
) -> Result<Vec<Reply<A::UnwindRegs>>, SessionError>
    ensures transparent { result ≢ Err SessionError.OutOfMemory → world_result (result_view result)
        ≡ world_replies (step (A.unwinding P.policy)) cache_count (empty_world generations.old) commands.items }
    ensures counted { result ≢ Err SessionError.OutOfMemory → result_view result
        ≡ cached_replies (A.unwinding P.policy) (empty_cached_world cache_count generations.old) commands.items }
    ensures drawn { result ≢ Err SessionError.OutOfMemory → generations.new
        ≡ next_after_all (A.unwinding P.policy) (empty_cached_world cache_count generations.old) commands.items }
    ensures never_back { generations.old ≤ generations.new }
    ensures drawn_at_most { generations.new ≤ generations.old + length commands.items }
    ensures bounded { IfOk result (λ replies. EachReply (IsReplyWithinRise (A.unwinding P.policy))
        (empty_world generations.old) commands.items (map reply_view replies.items)) }
    ensures means { IfOk result (λ replies.
        EachReply (IsReplyMeant (λ modules location old memory address new.
        (step (A.unwinding P.policy) modules location old memory ≡ answered address new)
        × MeansAt A.readers A.meanings A.UnwindRule.outcome P.policy modules location old memory address new))
        (empty_world generations.old) commands.items (map reply_view replies.items)) }
{
    let mut session: Session<D, A, P> = Session::new(alloc, cache_count)?;
    let mut replies = Vec::new(alloc);
    for command in commands {
        let reply = session.serve(command, generations)?;
        if replies.push(reply).is_err() {
            return Err(SessionError::OutOfMemory);
        }
    }
    Ok(replies)
}

/// Walks a stack on aarch64 to its end, from an instruction pointer (AVMA) and initial registers
/// on: the `Walk` reply without a limit. `read_stack` reads the stack word at an address (AVMA).
/// It is refused only with `OutOfMemory`.
///
/// The walk ends whatever the callback replies: each frame after the second raises the stack
/// pointer.
pub fn walk_to_end_aarch64<D: SectionBytes + Drop, P: AllocationPolicy, F>(
    alloc: Global,
    unwinder: &UnwinderAarch64<D, P>,
    cache: &mut CacheAarch64<P>,
    pc: u64,
    regs: UnwindRegsAarch64,
    read_stack: &mut F,
) -> Result<Reply<UnwindRegsAarch64>, SessionError>
where
    F: FnMut(u64) -> Result<u64, ()>,
    requires { F.IsAlwaysCallable read_stack.old }
    ensures callable { F.IsAlwaysCallable read_stack.new }
    ensures stays_sound { (other : UnwinderView) → AreApart unwinder.now other
        → IsSoundAarch64 P.policy other cache.old.0 → IsSoundAarch64 P.policy other cache.new.0 }
    ensures refused { IfErr result (λ error. error ≡ SessionError.OutOfMemory) }
    ensures answers { IsSoundAarch64 P.policy unwinder.now cache.old.0
        → Answering F.FnMut read_stack.old read_stack.new (λ memory.
        IfOk result (λ reply.
        IsWalkToEnd P.policy unwinder.now memory pc regs (reply_view reply) cache.old cache.new)) }
{
    let mut frames = Vec::new(alloc);
    let mut unwinding = unwinder.iter_frames(pc, regs, cache, read_stack);
    loop {
        if let Some(end) = push_next_frame(&mut unwinding, &mut frames)? {
            let regs = *unwinding.regs();
            return Ok(Reply::Walk { frames, end, regs });
        }
    }
}
