//! The names of threads at a time.
ghost use Rattle.std.specs.Prelude.{◌≡◌, ℕ, codes, OnOk, IfErr, false, None, Some};
ghost use Rattle.framehop_recording.specs.Records.{record_view};
ghost use Rattle.framehop_perf_stacks.specs.Ended.{naming_refusal, MayEnd};
ghost use Rattle.framehop_perf_stacks.specs.Names.{named_in, with_name, named_after};
ghost use Rattle.framehop_recording.specs.declared.error.RecordingError.{RecordingError};
ghost use Rattle.framehop_perf_stacks.specs.declared.error.StacksError.TheVariants.{OutOfMemory};

use crate::error::StacksError;
use framehop_recording::kind::{COMM, FORK};
use framehop_recording::records::Record;
use framehop_recording::tasks::{read_command, read_task};
use std::alloc::Global;
use std::collections::BTreeMap;
use std::rc::Rc;

/// The names of threads at a time.
#[derive(Drop)]
pub struct Names {
    // a thread shares its name with those that it begins
    by_tid: BTreeMap<u32, Rc<Vec<u8>>>,
}

impl Names {
    /// Returns no names.
    pub fn new(alloc: Global) -> Self
        ensures { (tid : ℕ) → named_in result tid ≡ codes "[unknown]" }
    {
        Names {
            by_tid: BTreeMap::new(alloc),
        }
    }

    /// Returns the name of a thread: `[unknown]` where it is not known.
    pub fn get(&self, tid: u32) -> &[u8]
        ensures { result.now ≡ named_in self.now tid }
    {
        match self.by_tid.get(&tid) {
            Some(name) => name.as_slice(),
            None => b"[unknown]",
        }
    }

    /// Gives a thread a name.
    fn put(&mut self, alloc: Global, tid: u32, name: &[u8]) -> Result<(), StacksError>
        ensures named { OnOk result ((thread : ℕ) → named_in self.new thread ≡ with_name tid name.now (named_in self.old) thread) }
        ensures refused { IfErr result (λ error. error ≡ OutOfMemory) }
    {
        let name = Rc::new(alloc, Vec::from_slice(alloc, name)?)?;
        self.by_tid.insert(tid, name)?;
        Ok(())
    }

    /// Gives a thread the name of another.
    fn copy(&mut self, tid: u32, parent: u32) -> Result<(), StacksError>
        ensures named { OnOk result ((thread : ℕ) → named_in self.new thread
            ≡ with_name tid (named_in self.old parent) (named_in self.old) thread) }
        ensures refused { IfErr result (λ error. error ≡ OutOfMemory) }
    {
        match self.by_tid.get(&parent) {
            Some(name) => {
                let name = name.clone()?;
                self.by_tid.insert(tid, name)?;
            }
            None => {
                self.by_tid.remove(&tid);
            }
        }
        Ok(())
    }

    /// Takes note of what a record says of names.
    ///
    /// # Errors
    ///
    /// `Recording` where a PERF_RECORD_COMM or PERF_RECORD_FORK is too short, and `OutOfMemory`.
    pub fn note(&mut self, alloc: Global, record: Record<'_>) -> Result<(), StacksError>
        ensures named { OnOk result ((thread : ℕ) → named_in self.new thread
            ≡ named_after (record_view «record».entry) (named_in self.old) thread) }
        ensures read { OnOk result (naming_refusal (record_view «record».entry) ≡ None) }
        ensures kept { (refusal : RecordingError) → naming_refusal (record_view «record».entry) ≡ Some refusal → self.new ≡ self.old }
        ensures refused { IfErr result (MayEnd false (naming_refusal (record_view «record».entry)) 0 0) }
    {
        match record.kind {
            COMM => {
                let command = read_command(record)?;
                self.put(alloc, command.tid, command.name)?;
            }
            FORK => {
                let task = read_task(record)?;
                self.copy(task.tid, task.parent_tid)?;
            }
            _ => {}
        }
        Ok(())
    }
}
