//! What a check found.
ghost use Rattle.std.specs.Prelude.{◌≡◌, [], ◌++◌, OnOk};
ghost use Rattle.framehop_check.specs.Report.{no_counts, list_of};

use crate::tracked::Fault;
use std::alloc::{AllocError, Global};

/// A contradiction between unwind data and code.
#[derive(Clone, Copy)]
pub struct Alarm {
    /// The address of the instruction that has the row, that returns or that jumps (SVMA).
    pub address: u64,
    /// The address of the instruction that the row follows (SVMA): of a jump, the jump.
    pub before: u64,
    pub fault: Fault,
}

/// How much has been checked.
#[derive(Clone, Copy, PartialEq, Eq)]
pub struct Counts {
    /// FDEs.
    pub functions: u64,
    /// FDEs of which a row or an instruction could not be read.
    pub unread: u64,
    /// Instructions, without padding that is passed over.
    pub instructions: u64,
    /// Rows that were compared with what the code tells.
    pub checked: u64,
    /// Rows that were believed.
    pub believed: u64,
    /// Jumps whose target's row was looked at.
    pub jumps: u64,
    /// Rows that were believed since they change after a call, which may not return.
    pub calls: u64,
    /// FDEs with alarms.
    pub alarmed: u64,
}

/// Counts and alarms, which are added to.
#[derive(Drop)]
pub struct Report {
    pub counts: Counts,
    pub alarms: Vec<Alarm>,
    /// The addresses of instructions inside which another row begins (SVMA).
    pub notes: Vec<u64>,
}

impl Report {
    /// Returns a report of nothing.
    pub fn new(alloc: Global) -> Report
        ensures counts { result.counts ≡ no_counts }
        ensures alarms { result.alarms.items ≡ [] }
        ensures notes { result.notes.items ≡ [] }
    {
        Report {
            counts: Counts {
                functions: 0,
                unread: 0,
                instructions: 0,
                checked: 0,
                believed: 0,
                jumps: 0,
                calls: 0,
                alarmed: 0,
            },
            alarms: Vec::new(alloc),
            notes: Vec::new(alloc),
        }
    }
}

/// Adds an alarm, if there is one.
pub(crate) fn add_alarm(alarms: &mut Vec<Alarm>, alarm: Option<Alarm>) -> Result<(), AllocError>
    ensures { OnOk result (alarms.new.items ≡ alarms.old.items ++ list_of alarm) }
{
    if let Some(alarm) = alarm {
        alarms.push(alarm)?;
    }
    Ok(())
}
