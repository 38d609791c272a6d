//! The rows that a walk keeps.
ghost use Rattle.std.specs.Prelude.{◌≡◌, ◌<◌, None, IfOk, IfErr, get_or, length};
ghost use Rattle.framehop_core.specs.CodeAddress.{location_of};
ghost use Rattle.framehop_cfi.specs.RowAt.{start};
ghost use Rattle.framehop_backtrace.specs.Rows.{finding_of};
ghost use Rattle.framehop_backtrace.specs.Kept.{AreFound, kept_rows};

use crate::rows::{RowFinding, Rows};
use framehop_cfi::context::UnwindContext;
use framehop_cfi::row::UnwindTableRow;
use framehop_cfi::storage::UnwindContextStorage;
use framehop_core::FrameAddress;
use std::alloc::{AllocError, Global};
use std::marker::Model;

/// How many rows are kept.
pub(crate) const KEPT_ROWS: usize = 64;

/// The room for the rows of walks. A walk keeps in it what it finds for its latest addresses, one for each remainder of 64: in
/// a recursion the row of an address is made once. The room is made once and used for any number of walks.
#[derive(Drop)]
pub struct RowRoom<S: UnwindContextStorage> {
    contexts: Vec<UnwindContext<S>>,
}

impl<S: UnwindContextStorage> Model for RowRoom<S> {
    ghost use Rattle.std.specs.Prelude.{◌≡◌, List, length};
    ghost use Rattle.framehop_cfi.specs.TableRows.{TableRows};
    ghost use Rattle.framehop_backtrace.specs.Kept.{kept_rows};

    ghost Value = { List TableRows };

    ghost view = { λ room. room.contexts.items };

    ghost invariant = { λ room. length room.contexts.items ≡ kept_rows };
}

/// What was found for a frame. Where it is a row, that is in the same place of the room.
#[derive(Clone, Copy)]
pub(crate) struct FoundRow<'a> {
    address: FrameAddress,
    finding: RowFinding<'a>,
}

impl<S: UnwindContextStorage> RowRoom<S> {
    /// Makes the room.
    ///
    /// # Errors
    ///
    /// An allocation failed.
    pub fn new_in(alloc: Global) -> Result<Self, AllocError> {
        let mut contexts = Vec::with_capacity(alloc, KEPT_ROWS)?;
        for _made in 0..KEPT_ROWS {
            contexts.push(UnwindContext::new_in(alloc)?)?;
        }
        Ok(RowRoom { contexts })
    }

    /// Looks for the row of a frame, or takes what was found for its address before. Returns it with the place of the row.
    ///
    /// # Errors
    ///
    /// An allocation failed. With limits of rows none is made.
    pub(crate) fn row_at<'a, W: Rows>(
        &mut self,
        rows: &'a W,
        found: &mut [Option<FoundRow<'a>>],
        address: FrameAddress,
    ) -> Result<(usize, RowFinding<'a>), AllocError>
        requires { length found.old ≡ kept_rows }
        ensures size { length found.new ≡ kept_rows }
        ensures kept { AreFound (W.rows rows.entry.now S.limits) found.old self.old
            → AreFound (W.rows rows.entry.now S.limits) found.new self.new }
        ensures within { IfOk result (λ answer. answer.0 < kept_rows) }
        ensures found { AreFound (W.rows rows.entry.now S.limits) found.old self.old → IfOk result (λ answer.
            finding_of answer.1 (get_or self.new answer.0 start).row ≡ W.rows rows.entry.now S.limits (location_of address)) }
        ensures refused { IfErr result (λ _. S.limits ≡ None) }
    {
        let place = place_of(address);
        if let Some(before) = found[place]
            && before.address == address
        {
            return Ok((place, before.finding));
        }
        found[place] = None;
        let finding = rows.row_at(&mut self.contexts[place], address)?;
        found[place] = Some(FoundRow { address, finding });
        Ok((place, finding))
    }

    /// Returns the row in a place.
    pub(crate) fn row(&self, place: usize) -> &UnwindTableRow<S>
        requires { place < kept_rows }
        ensures { result.now ≡ (get_or self.now place start).row }
    {
        self.contexts[place].row()
    }
}

/// Returns the place for a frame.
fn place_of(address: FrameAddress) -> usize
    ensures { result < kept_rows }
{
    (address.address() % KEPT_ROWS as u64) as usize
}
