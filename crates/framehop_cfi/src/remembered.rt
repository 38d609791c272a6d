//! The rows that a context remembers (DWARF 5 section 6.4.2.4).
//!
//! A storage with limits copies their rules into room that is made before. One without limits has a log of what changed.
ghost use Rattle.std.specs.Prelude.{◌≡◌, ◌≢◌, ◌++◌, ◌∷◌, [], None, Ok, IfOk, IfErr, IsErrOf, OnOk, OnErr};
ghost use Rattle.framehop_cfi.specs.Outcome.{Becomes};
ghost use Rattle.framehop_cfi.specs.Remembered.{nothing_remembered, remembered_rows, remembering_row};
ghost use Rattle.framehop_cfi.specs.RememberedLog.{Rules};
ghost use Rattle.framehop_cfi.specs.Row.{with_rule, without_rule};

use crate::read_error::ReadError;
use crate::remembered_copies::RememberedCopies;
use crate::remembered_log::RememberedLog;
use crate::row::UnwindTableRow;
use crate::rule::{CfaRule, Register, RegisterRule};
use crate::storage::UnwindContextStorage;
use std::alloc::{AllocError, Global};
use std::marker::Model;

/// Rows that are remembered.
#[derive(Drop)]
pub(crate) struct RememberedRows<S: UnwindContextStorage> {
    /// Those of a storage without limits.
    log: RememberedLog,
    /// Those of a storage with limits.
    copies: RememberedCopies<S>,
}

impl<S: UnwindContextStorage> Model for RememberedRows<S> {
    ghost use Rattle.framehop_cfi.specs.Remembered.{Remembered};

    ghost Value = { Remembered };

    ghost view = { λ remembered. record { log = remembered.log; copies = remembered.copies } };
}

impl<S: UnwindContextStorage> RememberedRows<S> {
    /// Returns none, with the room that the storage wants.
    pub(crate) fn new(alloc: Global) -> Result<Self, AllocError>
        ensures { IfOk result (λ remembered. remembered ≡ nothing_remembered) }
    {
        Ok(RememberedRows {
            log: RememberedLog::new(alloc),
            copies: RememberedCopies::new(alloc)?,
        })
    }

    /// Forgets all rows.
    pub(crate) fn clear(&mut self)
        ensures { self.new ≡ nothing_remembered }
    {
        self.log.clear();
        self.copies.clear();
    }

    /// Remembers a row with this CFA, and the rules of the row that instructions work on.
    pub(crate) fn push(&mut self, cfa: CfaRule) -> Result<(), ReadError>
        ensures exact { (rules : Rules) → Becomes result (remembered_rows S.limits self.new rules)
            (remembering_row S.limits (record { cfa = cfa; rules = rules }) (remembered_rows S.limits self.old rules)) }
        ensures memory { IsErrOf result ReadError.OutOfMemory → S.limits ≡ None }
    {
        match S::limits() {
            Some(_) => self.copies.push(cfa),
            None => self.log.push(cfa),
        }
    }

    /// Keeps what a row has of a register, before a rule of it is set there: the rows that are remembered stay as they are.
    #[inline(always)]
    pub(crate) fn keep_for_setting(
        &mut self,
        row: &UnwindTableRow<S>,
        register: Register,
    ) -> Result<(), ReadError>
        ensures kept { OnOk result ((rule : RegisterRule) (rules : Rules) →
            with_rule S.limits register rule row.now.rules ≡ Ok rules →
            remembered_rows S.limits self.new rules ≡ remembered_rows S.limits self.old row.now.rules) }
        ensures error { IfErr result (λ error. error ≡ ReadError.OutOfMemory) }
        ensures memory { OnErr result (S.limits ≡ None) }
    {
        match S::limits() {
            Some(_) => self.copies.keep(row),
            None => self.log.keep_for_setting(row, register),
        }
    }

    /// Keeps what a row has of a register, before its rule is taken away there: the rows that are remembered stay as they are.
    pub(crate) fn keep_for_removal(
        &mut self,
        row: &UnwindTableRow<S>,
        register: Register,
    ) -> Result<(), ReadError>
        ensures kept { OnOk result (remembered_rows S.limits self.new (without_rule register row.now.rules)
            ≡ remembered_rows S.limits self.old row.now.rules) }
        ensures error { IfErr result (λ error. error ≡ ReadError.OutOfMemory) }
        ensures memory { OnErr result (S.limits ≡ None) }
    {
        match S::limits() {
            Some(_) => self.copies.keep(row),
            None => self.log.keep_for_removal(row, register),
        }
    }

    /// Makes the row that instructions work on the one that was remembered last, which is forgotten.
    pub(crate) fn pop(&mut self, row: &mut UnwindTableRow<S>) -> Result<(), ReadError>
        ensures popped { OnOk result (remembered_rows S.limits self.old row.old.rules
            ≡ remembered_rows S.limits self.new row.new.rules ++ row.new ∷ []) }
        ensures none { IfErr result (λ error. error ≢ ReadError.OutOfMemory →
            (error ≡ ReadError.NothingRemembered) × (remembered_rows S.limits self.old row.old.rules ≡ [])) }
        ensures memory { IsErrOf result ReadError.OutOfMemory → S.limits ≡ None }
        ensures some { IsErrOf result ReadError.OutOfMemory → remembered_rows S.limits self.old row.old.rules ≢ [] }
    {
        match S::limits() {
            Some(_) => self.copies.pop(row),
            None => self.log.pop(row),
        }
    }
}
