//! Rows of the `.debug_frame` of files.
ghost use Rattle.std.specs.Prelude.{◌≡◌, IfOk, IfErr, None};

use crate::machine::Steps;
use framehop::FrameAddress;
use framehop::lookup::Lookup;
use framehop_backtrace::{RowFinding, Rows};
use framehop_cfi::context::UnwindContext;
use framehop_cfi::storage::UnwindContextStorage;
use framehop_processes::Process;
use framehop_processes::debug_frame::debug_frame_at;
use framehop_processes::files::Files;
use std::alloc::AllocError;

/// The rows of the `.debug_frame` that the files which a process maps have beside their `.eh_frame`.
#[derive(Clone, Copy, Drop)]
pub struct DebugFrames<'a, 'm, U: Steps> {
    pub files: &'a Files<'m>,
    pub process: &'a Process<U>,
}

impl<U: Steps> Rows for DebugFrames<'_, '_, U> {
    ghost use Rattle.framehop_frames.specs.Rows.{debug_rows};

    ghost rows = { λ frames limits. debug_rows (U.walker.row_in limits) frames.files.now frames.process.now.mappings };

    fn row_at<S: UnwindContextStorage>(
        &self,
        unwind_context: &mut UnwindContext<S>,
        address: FrameAddress,
    ) -> Result<RowFinding<'_>, AllocError> {
        let place = address.address_for_lookup();
        match debug_frame_at(self.files, self.process.mappings(), place) {
            Some((module, relative_address)) => {
                let lookup = Lookup {
                    relative_address,
                    is_first_frame: !address.is_return_address(),
                };
                U::row_in(module, unwind_context, lookup)
            }
            None => Ok(RowFinding::NoRow),
        }
    }
}
