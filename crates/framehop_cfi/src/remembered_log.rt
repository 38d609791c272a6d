//! Remembered rows in memory that grows: a log of what changed since they were remembered (DWARF 5 section 6.4.2.4).
//!
//! A row is remembered by a note in the log, and each change of the rules after it by another. The changes are undone, the
//! latest first, when the row is restored. So the log grows with the instructions, whatever the number of rules.
ghost use Rattle.std.specs.Prelude.{◌≡◌, ◌≢◌, ◌++◌, ◌∷◌, [], true, IfOk, IfErr, IsErrOf, OnOk, None, Ok};
ghost use Rattle.framehop_cfi.specs.RememberedLog.{Rules, logged_rows};
ghost use Rattle.framehop_cfi.specs.Row.{with_rule, without_rule};

use crate::read_error::ReadError;
use crate::row::{RuleChange, UnwindTableRow};
use crate::rule::{CfaRule, Register, RegisterRule};
use crate::storage::UnwindContextStorage;
use std::alloc::Global;
use std::marker::Model;

/// What is noted of the row that instructions work on.
#[derive(Clone, Copy)]
pub(crate) enum Note {
    /// It was remembered, with this CFA.
    Remembered(CfaRule),
    /// Its rules were changed.
    Changed(RuleChange),
}

/// The rows that are remembered, as notes, the latest last.
#[derive(Drop)]
pub(crate) struct RememberedLog {
    notes: Vec<Note>,
}

impl Model for RememberedLog {
    ghost use Rattle.std.specs.Prelude.{List};
    ghost use Rattle.framehop_cfi.specs.RememberedLog.{BeginsWithRow};
    ghost use Rattle.framehop_cfi.specs.declared.remembered_log.Note.{Note};

    ghost Value = { List Note };

    ghost view = { λ log. log.notes.items };

    ghost invariant = { λ log. BeginsWithRow log.notes.items };
}

impl RememberedLog {
    /// Returns an empty log.
    pub(crate) fn new(alloc: Global) -> Self
        ensures { result ≡ [] }
    {
        RememberedLog {
            notes: Vec::new(alloc),
        }
    }

    /// Forgets all rows.
    pub(crate) fn clear(&mut self)
        ensures { self.new ≡ [] }
    {
        self.notes.clear();
    }

    /// Remembers a row with this CFA, and the rules of the row that instructions work on.
    pub(crate) fn push(&mut self, cfa: CfaRule) -> Result<(), ReadError>
        ensures remembered { OnOk result ((rules : Rules) →
            logged_rows self.new rules ≡ logged_rows self.old rules ++ (record { cfa = cfa; rules = rules }) ∷ []) }
        ensures error { IfErr result (λ error. error ≡ ReadError.OutOfMemory) }
    {
        self.notes.push(Note::Remembered(cfa))?;
        Ok(())
    }

    /// Notes what a row has of a register, before a rule of it is set there: the rows that are remembered stay as they are.
    #[inline(always)]
    pub(crate) fn keep_for_setting<S: UnwindContextStorage>(
        &mut self,
        row: &UnwindTableRow<S>,
        register: Register,
    ) -> Result<(), ReadError>
        ensures kept { OnOk result ((rule : RegisterRule) (rules : Rules) →
            with_rule S.limits register rule row.now.rules ≡ Ok rules →
            logged_rows self.new rules ≡ logged_rows self.old row.now.rules) }
        ensures error { IfErr result (λ error. error ≡ ReadError.OutOfMemory) }
    {
        if self.notes.is_empty() {
            return Ok(());
        }
        self.note_setting(row, register)
    }

    /// Notes what a row has of a register, before a rule of it is set there, in a log that is not empty.
    #[cold]
    #[inline(never)]
    fn note_setting<S: UnwindContextStorage>(
        &mut self,
        row: &UnwindTableRow<S>,
        register: Register,
    ) -> Result<(), ReadError>
        requires { self.old ≢ [] }
        ensures kept { OnOk result ((rule : RegisterRule) (rules : Rules) →
            with_rule S.limits register rule row.now.rules ≡ Ok rules →
            logged_rows self.new rules ≡ logged_rows self.old row.now.rules) }
        ensures error { IfErr result (λ error. error ≡ ReadError.OutOfMemory) }
    {
        let change = match row.place(register) {
            Some(place) => RuleChange::Set {
                place,
                was: row.registers()[place],
            },
            None => RuleChange::Added,
        };
        self.notes.push(Note::Changed(change))?;
        Ok(())
    }

    /// Notes what a row has of a register, before its rule is taken away there: the rows that are remembered stay as they are.
    pub(crate) fn keep_for_removal<S: UnwindContextStorage>(
        &mut self,
        row: &UnwindTableRow<S>,
        register: Register,
    ) -> Result<(), ReadError>
        ensures kept { OnOk result
            (logged_rows self.new (without_rule register row.now.rules) ≡ logged_rows self.old row.now.rules) }
        ensures error { IfErr result (λ error. error ≡ ReadError.OutOfMemory) }
    {
        if self.notes.is_empty() {
            return Ok(());
        }
        match row.place(register) {
            Some(place) => {
                let was = row.registers()[place];
                let change = RuleChange::Removed { place, was };
                self.notes.push(Note::Changed(change))?;
                Ok(())
            }
            None => Ok(()),
        }
    }

    /// Makes the row that instructions work on the one that was remembered last, which is forgotten: undoes the changes since.
    ///
    /// A rule that is put back has room where it was, so no memory is taken.
    pub(crate) fn pop<S: UnwindContextStorage>(
        &mut self,
        row: &mut UnwindTableRow<S>,
    ) -> Result<(), ReadError>
        requires { S.limits ≡ None }
        ensures popped { OnOk result
            (logged_rows self.old row.old.rules ≡ logged_rows self.new row.new.rules ++ row.new ∷ []) }
        ensures none { IfErr result (λ error. error ≢ ReadError.OutOfMemory →
            (error ≡ ReadError.NothingRemembered) × (logged_rows self.old row.old.rules ≡ [])) }
        ensures memory { IsErrOf result ReadError.OutOfMemory → logged_rows self.old row.old.rules ≢ [] }
    {
        while let Some(note) = self.notes.pop() {
            match note {
                Note::Remembered(cfa) => {
                    row.set_cfa(cfa);
                    return Ok(());
                }
                Note::Changed(change) => row.undo(change)?,
            }
        }
        Err(ReadError::NothingRemembered)
    }
}
