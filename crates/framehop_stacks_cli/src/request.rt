//! What is asked for of each file, and why nothing of it is printed.
ghost use Rattle.std.specs.Prelude.{◌≡◌, IfOk};

use crate::form::Form;
use crate::samples::Asked;
use crate::sources::Sources;
use crate::statuses::Refusal;
use framehop_cli::Result;
use framehop_disk::messages::{say, say_of};
use framehop_perf_stacks::run::Options;
use std::fmt::Display;

/// What is asked for of each file, by words of the command line at `'w`.
#[derive(Clone, Copy)]
pub struct Request<'a, 'w> {
    pub rt: &'a HostRuntime,
    pub sources: &'a Sources<'a, 'w>,
    pub asked: &'a Asked<'w>,
    pub options: Options<'a>,
    pub form: Form<'w>,
}

/// Says why nothing is done, and returns a status.
pub fn refuse<D: Display + Drop>(rt: &HostRuntime, why: D, status: u8) -> Result<u8>
    ensures { IfOk result (λ given. given ≡ status) }
{
    say(rt, why)?;
    Ok(status)
}

/// Says why a file is not printed, and returns a status.
pub fn refuse_file<D: Display + Drop>(
    rt: &HostRuntime,
    path: &str,
    why: D,
    status: u8,
) -> Result<u8>
    ensures { IfOk result (λ given. given ≡ status) }
{
    say_of(rt, path, why)?;
    Ok(status)
}

/// Says why nothing, or no more, is printed, and returns the status.
pub fn refuse_by<E: Refusal>(rt: &HostRuntime, error: E) -> Result<u8>
    ensures { IfOk result (λ status. status ≡ E.status_of error) }
{
    let status = error.status();
    refuse(rt, error, status)
}

/// Says why nothing, or no more, is printed of a file, and returns the status.
pub fn refuse_file_by<E: Refusal>(rt: &HostRuntime, path: &str, error: E) -> Result<u8>
    ensures { IfOk result (λ status. status ≡ E.status_of error) }
{
    let status = error.status();
    refuse_file(rt, path, error, status)
}
