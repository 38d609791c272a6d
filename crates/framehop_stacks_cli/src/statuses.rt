//! With which status the program ends.
ghost use Rattle.std.specs.Prelude.{◌≡◌, ℕ, IfOk};
ghost use Rattle.framehop_stacks_cli.specs.Statuses.{IsGreatestOf};

use framehop_cli::Result;
use framehop_dump_stacks::error::DumpStacksError;
use framehop_folded::error::{FoldedError, TextError};
use framehop_folded::flame_graph::error::FlameGraphError;
use framehop_perf_stacks::error::StacksError;
use std::fmt::Display;

/// Why something is not printed.
pub trait Refusal: Display + Drop {
    /// The status with which the program ends.
    ghost status_of: { Self → ℕ };

    /// Returns the status with which the program ends: 2 where memory or generations ran out, else 1.
    fn status(&self) -> u8
        ensures { result ≡ status_of self.now };
}

impl Refusal for StacksError {
    ghost use Rattle.framehop_stacks_cli.specs.Statuses.{stacks_status};

    ghost status_of = { stacks_status };

    fn status(&self) -> u8 {
        match self {
            StacksError::OutOfMemory | StacksError::GenerationsExhausted => 2,
            _ => 1,
        }
    }
}

impl Refusal for DumpStacksError {
    ghost use Rattle.framehop_stacks_cli.specs.Statuses.{dump_status};

    ghost status_of = { dump_status };

    fn status(&self) -> u8 {
        match self {
            DumpStacksError::OutOfMemory | DumpStacksError::GenerationsExhausted => 2,
            _ => 1,
        }
    }
}

impl Refusal for FlameGraphError {
    ghost use Rattle.framehop_stacks_cli.specs.Statuses.{graph_status};

    ghost status_of = { graph_status };

    fn status(&self) -> u8 {
        match self {
            FlameGraphError::OutOfMemory => 2,
            _ => 1,
        }
    }
}

impl Refusal for FoldedError {
    ghost use Rattle.framehop_stacks_cli.specs.Statuses.{folded_status};

    ghost status_of = { folded_status };

    fn status(&self) -> u8 {
        match self {
            FoldedError::OutOfMemory => 2,
            FoldedError::CountTooLarge => 1,
        }
    }
}

impl Refusal for TextError {
    ghost use Rattle.framehop_stacks_cli.specs.Statuses.{text_status};

    ghost status_of = { text_status };

    fn status(&self) -> u8 {
        match self {
            TextError::OutOfMemory => 2,
            _ => 1,
        }
    }
}

/// Returns the greatest status of items, by what gives that of one; 0 where there are none. Ends at the first failure.
pub fn greatest_status<T, F: FnMut(&T) -> Result<u8>>(items: &[T], mut status_of: F) -> Result<u8>
    requires { F.IsAlwaysCallable status_of }
    ensures { IfOk result (IsGreatestOf F.FnMut status_of items.now) }
{
    let mut greatest = 0;
    let mut rest = items;
    while let Some((item, others)) = rest.split_first() {
        greatest = greatest.max(status_of(item)?);
        rest = others;
    }
    Ok(greatest)
}
