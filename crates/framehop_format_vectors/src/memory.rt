//! Allocations that fail. `checks/refuse_allocations_in_tests.sh` lets one after another fail in each of these tests.
use crate::cases::{Case, EXAMPLES};
use crate::sections::Sections;
use crate::steps::{Caches, Failing, SWEPT_STACK, Unwinders, frame_at, step};
use crate::totals::holds;
use crate::walks::first_calls;
use framehop::aarch64::{ArchAarch64, UnwindRegsAarch64, UnwinderAarch64};
use framehop::session::{Command, Memory, Reply, SessionError, WalkEnd, run};
use framehop::x86_64::UnwindRegsX86_64;
use framehop::{Error, Generations, MayAllocateDuringUnwind, Module, ModuleListError, Unwinder};
use std::alloc::{AllocError, Global};
use std::test::Fail;

/// Whether a step that may allocate gives what it is to. Where it runs out of memory nothing has changed, and the step
/// again is as one without a failure.
fn is_given_again(unwinders: &Unwinders, caches: &mut Caches, case: &Case) -> bool {
    let frame = frame_at(case.is_caller, case.lookup);
    let regs = UnwindRegsX86_64::new(frame.address(), case.sp, case.bp);
    let unwinder = &unwinders.may;
    let cache = &mut caches.may;
    let (end, after) = step(unwinder, frame, regs, cache, &case.stack, Failing::None);
    if end != Err(Error::OutOfMemory) {
        return end == case.given.0;
    }
    let (again, _) = step(unwinder, frame, regs, cache, &case.stack, Failing::None);
    after == regs && again == case.given.0 && cache.stats().hits() == 0
}

/// Whether a step that must not allocate gives what it is to.
fn is_given(unwinders: &Unwinders, caches: &mut Caches, case: &Case) -> bool {
    let frame = frame_at(case.is_caller, case.lookup);
    let regs = UnwindRegsX86_64::new(frame.address(), case.sp, case.bp);
    let cache = &mut caches.must;
    let (end, _) = step(
        &unwinders.must,
        frame,
        regs,
        cache,
        &case.stack,
        Failing::None,
    );
    end == case.given.0
}

/// Makes a module, unwinders and caches, and then steps with or without leave to allocate, or does not: whether the
/// step gives what it is to.
fn makes_and_steps(
    alloc: Global,
    case: &Case,
    may_allocate: Option<bool>,
) -> Result<bool, ModuleListError> {
    let mut unwinders = Unwinders::new(alloc)?;
    unwinders.set_module(case.sections.module(alloc)?)?;
    let mut caches = Caches::new(alloc)?;
    Ok(match may_allocate {
        None => true,
        Some(true) => is_given_again(&unwinders, &mut caches, case),
        Some(false) => is_given(&unwinders, &mut caches, case),
    })
}

/// Each example is made and stepped through: once more where an allocation fails.
#[test]
fn examples(rt: HostRuntime) -> Result<(), Fail> {
    for case in &EXAMPLES {
        let is_given = match makes_and_steps(rt.alloc(), case, Some(true)) {
            Ok(is_given) => is_given,
            Err(_) => makes_and_steps(rt.alloc(), case, Some(true))?,
        };
        holds(is_given, "an example gives what it is to")?;
    }
    Ok(())
}

/// Adds a module: whether one that is not added comes back, and the unwinder is as before.
fn adds(
    unwinder: &mut UnwinderAarch64<Vec<u8>>,
    module: Module<Vec<u8>>,
    generations: &mut Generations,
) -> bool {
    match unwinder.add_module(module, generations) {
        Ok(()) => true,
        Err(refused) => {
            refused.cause == ModuleListError::OutOfMemory
                && unwinder.max_known_code_address() == 0
                && unwinder.add_module(refused.module, generations).is_ok()
        }
    }
}

/// A module that is not added comes back, and unwinder and counter are as before; a clone that fails leaves its
/// original.
#[test]
fn adds_and_clones(rt: HostRuntime) -> Result<(), Fail> {
    let alloc = rt.alloc();
    let sections = Sections::UnwindInfo("");
    let module = match sections.module(alloc) {
        Ok(module) => module,
        Err(_) => sections.module(alloc)?,
    };
    let mut generations = Generations::starting_at(5);
    let mut unwinder: UnwinderAarch64<Vec<u8>> = UnwinderAarch64::new(alloc, &mut generations)?;
    let is_added = adds(&mut unwinder, module, &mut generations)
        && unwinder.max_known_code_address() == 0x104000
        && generations.next() == Some(7);
    let copy = match unwinder.clone() {
        Ok(copy) => copy,
        Err(_) => unwinder.clone()?,
    };
    let is_cloned = copy.max_known_code_address() == 0x104000
        && unwinder.max_known_code_address() == 0x104000;
    holds(is_added && is_cloned, "what fails has changed nothing")
}

/// Adds a module, clones, walks and removes.
fn commands(
    alloc: Global,
    module: Module<Vec<u8>>,
) -> Result<Vec<Command<Vec<u8>, UnwindRegsAarch64>>, AllocError> {
    let memory = Memory {
        base: 0,
        words: SWEPT_STACK.words.to_vec(alloc)?,
    };
    Ok(vec![in alloc;
        Command::New,
        Command::Add {
            unwinder: 0,
            module,
        },
        Command::Clone { unwinder: 0 },
        Command::Walk {
            unwinder: 1,
            cache: 0,
            pc: 0x100400,
            regs: UnwindRegsAarch64::new(0x100400, 0x10, 0x20),
            memory,
            limit: 9,
        },
        Command::Remove {
            unwinder: 0,
            start: 0x100000,
        },
    ]?)
}

/// Carries out a session.
fn carry_out(
    alloc: Global,
    commands: Vec<Command<Vec<u8>, UnwindRegsAarch64>>,
    generations: &mut Generations,
) -> Result<Vec<Reply<UnwindRegsAarch64>>, SessionError> {
    run::<Vec<u8>, ArchAarch64, MayAllocateDuringUnwind>(alloc, commands, 1, generations)
}

/// Whether these are the replies of the session.
fn are_replies(replies: &[Reply<UnwindRegsAarch64>]) -> bool {
    match replies {
        [
            Reply::Made(0),
            Reply::Done,
            Reply::Made(1),
            Reply::Walk { frames, end, regs },
            Reply::Done,
        ] => {
            frames.len() == 3
                && *end == WalkEnd::Root
                && (regs.lr(), regs.sp(), regs.fp()) == (0x100100, 0x50, 0x70)
        }
        _ => false,
    }
}

/// Carries out the session: its replies, or nothing where an allocation fails.
fn replies(
    alloc: Global,
    generations: &mut Generations,
) -> Option<Result<Vec<Reply<UnwindRegsAarch64>>, SessionError>> {
    let module = Sections::UnwindInfo("").module(alloc).ok()?;
    let commands = commands(alloc, module).ok()?;
    Some(carry_out(alloc, commands, generations))
}

/// A session that is refused keeps the generations that it drew, and what it replies the next time is the same.
#[test]
fn session(rt: HostRuntime) -> Result<(), Fail> {
    let mut generations = Generations::starting_at(5);
    for _again in 0..2u32 {
        match replies(rt.alloc(), &mut generations) {
            None => {}
            Some(Ok(replies)) => return holds(are_replies(replies.as_slice()), "the replies"),
            Some(Err(error)) => holds(
                error == SessionError::OutOfMemory && matches!(generations.next(), Some(5..=8)),
                "a session lacks memory alone",
            )?,
        }
    }
    Err(Fail::from("two allocations failed"))
}

/// Makes all examples and a walk, and steps and walks under the policy that must not allocate, or does not. The last
/// allocation is this function's own.
fn makes(alloc: Global, is_stepped: bool) -> Result<(), Fail> {
    let found = first_calls(alloc, Failing::None, is_stepped)?;
    let misses = if is_stepped { 3 } else { 0 };
    holds(found.misses == misses, "a walk of three frames, or none")?;
    let may_allocate = if is_stepped { Some(false) } else { None };
    for case in &EXAMPLES {
        let is_given = makes_and_steps(alloc, case, may_allocate)?;
        holds(is_given, "an example gives what it is to")?;
    }
    let _last: Vec<u8> = Vec::with_capacity(alloc, 1)?;
    Ok(())
}

/// This test and the next fail as often, where one allocation after another fails: steps and walks make none.
#[test]
fn requests_of_the_makers(rt: HostRuntime) -> Result<(), Fail> {
    makes(rt.alloc(), false)
}

#[test]
fn requests_of_the_makers_and_steps(rt: HostRuntime) -> Result<(), Fail> {
    makes(rt.alloc(), true)
}
