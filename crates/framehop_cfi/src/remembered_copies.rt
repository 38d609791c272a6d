//! Remembered rows in room that is made before, with copies of their rules (DWARF 5 section 6.4.2.4).
//!
//! A remembered row has no copy of its rules until they are written: until then they are those of the row that instructions
//! work on.
ghost use Rattle.std.specs.Prelude.{◌≡◌, true, ◌++◌, ◌∷◌, [], None, IfOk, IfErr, IsErrOf, OnOk, OnErr, vec_len};
ghost use Rattle.framehop_cfi.specs.Outcome.{Becomes};
ghost use Rattle.framehop_cfi.specs.RememberedCopies.{CopiedView, is_shared, pushed, kept, popped_row};

use crate::read_error::ReadError;
use crate::row::UnwindTableRow;
use crate::rule::CfaRule;
use crate::storage::UnwindContextStorage;
use std::alloc::{AllocError, Global};
use std::marker::Model;
use std::mem;

/// Rows that are remembered, the latest last.
#[derive(Drop)]
pub(crate) struct RememberedCopies<S: UnwindContextStorage> {
    /// Those, and after them some to be used for the next ones.
    rows: Vec<CopiedRow<S>>,
    /// How many are remembered.
    count: usize,
    alloc: Global,
}

/// A row that is remembered.
#[derive(Drop)]
pub(crate) struct CopiedRow<S: UnwindContextStorage> {
    row: UnwindTableRow<S>,
    /// Whether the rules are this row's. Else they are those of the next one, or of the row that instructions work on.
    has_rules: bool,
}

impl<S: UnwindContextStorage> Model for RememberedCopies<S> {
    ghost use Rattle.framehop_cfi.specs.Context.{HasSpareRows};
    ghost use Rattle.framehop_cfi.specs.RememberedCopies.{CopiedView, copied_view};
    ghost use Rattle.std.specs.Prelude.{List, map, take, vec_len};

    ghost Value = { List CopiedView };

    ghost view = { λ remembered. map (λ row. copied_view row.row row.has_rules) (take remembered.count remembered.rows.items) };

    ghost invariant = { λ remembered. HasSpareRows S.limits remembered.count (vec_len remembered.rows) };
}

impl<S: UnwindContextStorage> RememberedCopies<S> {
    /// Returns none, with the room that the storage wants.
    pub(crate) fn new(alloc: Global) -> Result<Self, AllocError>
        ensures { IfOk result (λ remembered. remembered ≡ []) }
    {
        let spare = match S::limits() {
            Some(limits) => limits.rows,
            None => 0,
        };
        let rows = spare_rows(alloc, spare)?;
        Ok(RememberedCopies {
            rows,
            count: 0,
            alloc,
        })
    }

    /// Forgets all rows.
    pub(crate) fn clear(&mut self)
        ensures { self.new ≡ [] }
    {
        self.count = 0;
    }

    /// Returns whether the latest row shares the rules of the row that instructions work on.
    #[inline(always)]
    fn is_shared(&self) -> bool
        ensures { result ≡ is_shared self.now }
    {
        self.count > 0 && !self.rows[self.count - 1].has_rules
    }

    /// Remembers a row with this CFA, which shares the rules of the row that instructions work on.
    pub(crate) fn push(&mut self, cfa: CfaRule) -> Result<(), ReadError>
        ensures exact { Becomes result self.new (pushed S.limits cfa self.old) }
        ensures memory { IsErrOf result ReadError.OutOfMemory → S.limits ≡ None }
    {
        if let Some(limits) = S::limits()
            && self.count >= limits.rows
        {
            return Err(ReadError::TooManyRows);
        }
        if self.count == self.rows.len() {
            let spare = spare_row(self.alloc)?;
            self.rows.push(spare)?;
        }
        let latest = &mut self.rows[self.count];
        latest.row.set_cfa(cfa);
        latest.has_rules = false;
        self.count += 1;
        Ok(())
    }

    /// Gives the latest row the rules of another, if it shares those of the row that instructions work on.
    #[inline(always)]
    pub(crate) fn keep(&mut self, row: &UnwindTableRow<S>) -> Result<(), ReadError>
        ensures kept { OnOk result (self.new ≡ kept row.now.rules self.old) }
        ensures error { IfErr result (λ error. error ≡ ReadError.OutOfMemory) }
        ensures memory { OnErr result (S.limits ≡ None) }
    {
        if self.is_shared() {
            return self.keep_rules(row);
        }
        Ok(())
    }

    /// Gives the latest row, which shares the rules of the row that instructions work on, those of another.
    #[cold]
    #[inline(never)]
    fn keep_rules(&mut self, row: &UnwindTableRow<S>) -> Result<(), ReadError>
        requires { is_shared self.old ≡ true }
        ensures kept { OnOk result (self.new ≡ kept row.now.rules self.old) }
        ensures error { IfErr result (λ error. error ≡ ReadError.OutOfMemory) }
        ensures memory { OnErr result (S.limits ≡ None) }
    {
        let latest = &mut self.rows[self.count - 1];
        latest.row.copy_rules(row)?;
        latest.has_rules = true;
        Ok(())
    }

    /// Makes the row that instructions work on the latest one, which is forgotten.
    pub(crate) fn pop(&mut self, row: &mut UnwindTableRow<S>) -> Result<(), ReadError>
        ensures popped { OnOk result ((latest : CopiedView) × (self.old ≡ self.new ++ latest ∷ [])
            × (row.new ≡ popped_row latest row.old.rules)) }
        ensures none { IfErr result (λ error. (error ≡ ReadError.NothingRemembered) × (self.old ≡ [])) }
    {
        if self.count == 0 {
            return Err(ReadError::NothingRemembered);
        }
        self.count -= 1;
        let latest = &mut self.rows[self.count];
        if latest.has_rules {
            mem::swap(row, &mut latest.row);
        } else {
            row.set_cfa(*latest.row.cfa());
        }
        Ok(())
    }
}

/// Returns so many rows to be used.
fn spare_rows<S: UnwindContextStorage>(
    alloc: Global,
    count: usize,
) -> Result<Vec<CopiedRow<S>>, AllocError>
    ensures { IfOk result (λ rows. vec_len rows ≡ count) }
{
    let mut rows = Vec::with_capacity(alloc, count)?;
    for _made in 0..count {
        rows.push(spare_row(alloc)?)?;
    }
    Ok(rows)
}

/// Returns a row to be used.
fn spare_row<S: UnwindContextStorage>(alloc: Global) -> Result<CopiedRow<S>, AllocError> {
    Ok(CopiedRow {
        row: UnwindTableRow::new(alloc)?,
        has_rules: false,
    })
}
