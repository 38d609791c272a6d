//! Sessions: what they draw from the counter of generations, and the steps of a clone.
use crate::unwinders::{holds, module};
use crate::x86_64::{STACK, with_an_fde};
use framehop::aarch64::{ArchAarch64, UnwindRegsAarch64};
use framehop::session::{Command, Memory, Reply, SessionError, run};
use framehop::x86_64::{ArchX86_64, UnwindRegsX86_64};
use framehop::{
    AllocationPolicy, FrameAddress, Generations, MayAllocateDuringUnwind,
    MustNotAllocateDuringUnwind,
};
use std::alloc::{AllocError, Global};
use std::test::Fail;

type Commands = Vec<Command<Vec<u8>, UnwindRegsAarch64>>;

/// A removal of nothing, a module, a clone, and the removal of its module.
fn changes(alloc: Global) -> Result<Commands, Fail> {
    let module = module(alloc, "mybinary", 0x100000, 0x200000)?;
    Ok(vec![in alloc;
        Command::New,
        Command::Remove {
            unwinder: 0,
            start: 0x100000,
        },
        Command::Add {
            unwinder: 0,
            module,
        },
        Command::Clone { unwinder: 0 },
        Command::Remove {
            unwinder: 1,
            start: 0x100000,
        },
    ]?)
}

/// How many replies a session of these changes has, or why it is refused, and the generation after it.
fn carried_out(
    alloc: Global,
    first: u64,
) -> Result<(Result<usize, SessionError>, Option<u64>), Fail> {
    let commands = changes(alloc)?;
    let mut generations = Generations::starting_at(first);
    let count = match run::<Vec<u8>, ArchAarch64, MayAllocateDuringUnwind>(
        alloc,
        commands,
        1,
        &mut generations,
    ) {
        Ok(replies) => Ok(replies.len()),
        Err(refused) => Err(refused),
    };
    Ok((count, generations.next()))
}

/// Each change draws one; a clone has its original's, and a removal of nothing draws none.
#[test]
fn draws_a_generation_for_each_change(rt: HostRuntime) -> Result<(), Fail> {
    holds(carried_out(rt.alloc(), 0)? == (Ok(5), Some(3)))
}

#[test]
fn refuses_at_the_end_of_the_counter(rt: HostRuntime) -> Result<(), Fail> {
    let refused = Err(SessionError::GenerationsExhausted);
    holds(carried_out(rt.alloc(), 0xfffffffffffffffe)? == (refused, None))
}

type CommandX86_64 = Command<Vec<u8>, UnwindRegsX86_64>;

/// A step of an unwinder from 0x1000 over the stack.
fn step(alloc: Global, unwinder: usize) -> Result<CommandX86_64, AllocError> {
    let mut words = Vec::new(alloc);
    words.extend_from_slice(&STACK)?;
    Ok(Command::Step {
        unwinder,
        cache: 0,
        address: FrameAddress::from_instruction_pointer(0x1000),
        regs: UnwindRegsX86_64::new(0x1000, 0x10, 0x20),
        memory: Memory { base: 0, words },
    })
}

/// An unwinder with a module that has an FDE for 0x1000, its clone, steps of both, and again after the clone has lost the
/// module.
fn steps_of_a_clone(alloc: Global) -> Result<Vec<CommandX86_64>, Fail> {
    let module = with_an_fde(alloc)?;
    Ok(vec![in alloc;
        Command::New,
        Command::Add {
            unwinder: 0,
            module,
        },
        Command::Clone { unwinder: 0 },
        step(alloc, 0)?,
        step(alloc, 1)?,
        Command::Remove {
            unwinder: 1,
            start: 0x1000,
        },
        step(alloc, 1)?,
        step(alloc, 0)?,
        Command::Stats { cache: 0 },
    ]?)
}

/// Whether a step has this return address.
fn is_step(reply: Option<&Reply<UnwindRegsX86_64>>, return_address: u64) -> bool {
    match reply {
        Some(Reply::Step { result, .. }) => *result == Ok(Some(return_address)),
        _ => false,
    }
}

/// Whether the cache has these hits, and these misses: no entry, another generation, and another address.
fn is_stats(reply: Option<&Reply<UnwindRegsX86_64>>, counts: [u64; 4]) -> bool {
    match reply {
        Some(Reply::Stats(stats)) => {
            [
                stats.hit_count,
                stats.miss_empty_slot_count,
                stats.miss_wrong_modules_count,
                stats.miss_wrong_address_count,
            ] == counts
        }
        _ => false,
    }
}

/// Whether the clone steps by the module that it shares, with a hit, and without it by the frame pointer, while the other
/// still has it.
fn steps_by_a_clone<P: AllocationPolicy>(alloc: Global) -> Result<bool, Fail> {
    let commands = steps_of_a_clone(alloc)?;
    let mut generations = Generations::new();
    let replies = run::<Vec<u8>, ArchX86_64, P>(alloc, commands, 1, &mut generations)?;
    let replies = replies.as_slice();
    Ok(
        is_step(replies.get(3), 0x100300)
            && is_step(replies.get(4), 0x100300)
            && is_step(replies.get(6), 0x100200)
            && is_step(replies.get(7), 0x100300)
            && is_stats(replies.get(8), [2, 2, 0, 0]),
    )
}

#[test]
fn steps_a_clone_where_memory_may_be_taken(rt: HostRuntime) -> Result<(), Fail> {
    holds(steps_by_a_clone::<MayAllocateDuringUnwind>(rt.alloc())?)
}

#[test]
fn steps_a_clone_where_no_memory_may_be_taken(rt: HostRuntime) -> Result<(), Fail> {
    holds(steps_by_a_clone::<MustNotAllocateDuringUnwind>(rt.alloc())?)
}
