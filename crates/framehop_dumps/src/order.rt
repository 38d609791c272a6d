//! Threads in the order in which they are printed.
ghost use Rattle.std.specs.Prelude.{◌≡◌, ◌++◌, ◌∷◌, [], IfOk, OnOk, filter, map};
ghost use Rattle.framehop_dumps.specs.Dump.{thread_view, is_ended_by, crashed_first};

use crate::dump::Thread;
use std::alloc::{AllocError, Global};

/// Returns threads in their order, those before the others that ended their process.
pub(crate) fn crashed_first<'a>(
    alloc: Global,
    threads: &[Thread<'a>],
) -> Result<Vec<Thread<'a>>, AllocError>
    ensures { IfOk result (λ ordered. map thread_view ordered.items ≡ crashed_first (map thread_view threads.now)) }
{
    let mut ordered = Vec::new(alloc);
    push_those(&mut ordered, threads, true)?;
    push_those(&mut ordered, threads, false)?;
    Ok(ordered)
}

/// Appends those of the threads that ended their process, or those that did not.
fn push_those<'a>(
    ordered: &mut Vec<Thread<'a>>,
    threads: &[Thread<'a>],
    ended: bool,
) -> Result<(), AllocError>
    ensures { OnOk result (map thread_view ordered.new.items
        ≡ map thread_view ordered.old.items ++ filter (is_ended_by ended) (map thread_view threads.now)) }
{
    for thread in threads {
        push_if(ordered, *thread, ended)?;
    }
    Ok(())
}

/// Appends a thread that ended its process, or that did not.
fn push_if<'a>(
    ordered: &mut Vec<Thread<'a>>,
    thread: Thread<'a>,
    ended: bool,
) -> Result<(), AllocError>
    ensures { OnOk result (map thread_view ordered.new.items
        ≡ map thread_view ordered.old.items ++ filter (is_ended_by ended) (thread_view thread.entry ∷ [])) }
{
    if thread.cause.is_some() == ended {
        ordered.push(thread)?;
    }
    Ok(())
}
