//! Where the rows of frames come from.
ghost use Rattle.std.specs.Prelude.{◌≡◌, Option, None, IfOk, IfErr};
ghost use Rattle.framehop_core.specs.CodeAddress.{FrameLocation, location_of};
ghost use Rattle.framehop_cfi.specs.declared.storage.StorageLimits.{StorageLimits};
ghost use Rattle.framehop_backtrace.specs.Rows.{Finding, finding_of, finding_by_fde, finding_in, rows_of};

use framehop::lookup::{Lookup, SectionFde, UnwindEntry};
use framehop::unwinder::UnwinderInternal;
use framehop::{AllocationPolicy, Module, Unwinding};
use framehop_bytes::section::SectionBytes;
use framehop_cfi::context::UnwindContext;
use framehop_cfi::read_error::ReadError;
use framehop_cfi::storage::UnwindContextStorage;
use framehop_core::FrameAddress;
use framehop_dwarf::dwarf::DwarfUnwinderError;
use framehop_dwarf::unwinder::find_row;
use std::alloc::AllocError;

/// What call frame information has for a frame.
#[derive(Clone, Copy)]
pub enum RowFinding<'a> {
    /// A row, which is the context's. Its expressions lie in these bytes.
    Row(&'a [u8]),

    /// An FDE that has no row for the frame's address.
    Uncovered,

    /// Neither.
    NoRow,
}

/// Call frame information of the modules of a process.
pub trait Rows {
    ghost rows: { Self → Option StorageLimits → FrameLocation → Finding };

    /// Looks for the row of a frame, which is made in the context.
    ///
    /// # Errors
    ///
    /// An allocation failed. With limits of rows none is made.
    fn row_at<S: UnwindContextStorage>(
        &self,
        unwind_context: &mut UnwindContext<S>,
        address: FrameAddress,
    ) -> Result<RowFinding<'_>, AllocError>
        ensures found { IfOk result (λ found. finding_of found unwind_context.new.row ≡ rows self.entry.now S.limits (location_of address)) }
        ensures refused { IfErr result (λ _. S.limits ≡ None) };
}

impl<D: SectionBytes + Drop, A: Unwinding, P: AllocationPolicy> Rows for UnwinderInternal<D, A, P> {
    ghost use Rattle.framehop_backtrace.specs.Rows.{rows_of};

    ghost rows = { λ unwinder limits location. rows_of A.readers.compact limits unwinder.modules location };

    fn row_at<S: UnwindContextStorage>(
        &self,
        unwind_context: &mut UnwindContext<S>,
        address: FrameAddress,
    ) -> Result<RowFinding<'_>, AllocError> {
        match self.find_module_for_address(address.address_for_lookup()) {
            Some((module, relative_address)) => {
                let lookup = Lookup {
                    relative_address,
                    is_first_frame: !address.is_return_address(),
                };
                row_in_module::<D, A, S>(module, unwind_context, lookup)
            }
            None => Ok(RowFinding::NoRow),
        }
    }
}

/// Rows of a first source, and for frames of which that has none, those of a second.
#[derive(Clone, Copy, Drop)]
pub struct OrElse<'a, W, V> {
    pub first: &'a W,
    pub second: &'a V,
}

impl<W: Rows, V: Rows> Rows for OrElse<'_, W, V> {
    ghost use Rattle.framehop_backtrace.specs.Rows.{or_else};

    ghost rows = { λ both limits location. or_else (W.rows both.first.now limits location) (V.rows both.second.now limits location) };

    fn row_at<S: UnwindContextStorage>(
        &self,
        unwind_context: &mut UnwindContext<S>,
        address: FrameAddress,
    ) -> Result<RowFinding<'_>, AllocError> {
        let first = self.first.row_at(unwind_context, address)?;
        if let RowFinding::Row(section) = first {
            return Ok(RowFinding::Row(section));
        }
        match self.second.row_at(unwind_context, address)? {
            RowFinding::Row(section) => Ok(RowFinding::Row(section)),
            RowFinding::Uncovered | RowFinding::NoRow => Ok(first),
        }
    }
}

/// Looks for the row of a frame in a module, at an address relative to the module's base. It is made in the context.
///
/// # Errors
///
/// An allocation failed. With limits of rows none is made.
pub fn row_in_module<'a, D: SectionBytes + Drop, A: Unwinding, S: UnwindContextStorage>(
    module: &'a Module<D>,
    unwind_context: &mut UnwindContext<S>,
    lookup: Lookup,
) -> Result<RowFinding<'a>, AllocError>
    ensures found { IfOk result (λ found. finding_of found unwind_context.new.row
        ≡ finding_in A.readers.compact S.limits «module».entry.now.unwind_data lookup.relative_address lookup.is_first_frame) }
    ensures refused { IfErr result (λ _. S.limits ≡ None) }
{
    match module.unwind_entry::<A>(lookup) {
        Ok(UnwindEntry::Fde(fde)) => row_by_fde(fde, unwind_context, lookup.relative_address),
        Ok(UnwindEntry::Rule(_)) | Ok(UnwindEntry::Pe(_)) | Err(_) => Ok(RowFinding::NoRow),
    }
}

/// Looks for the row of a relative address by an FDE.
fn row_by_fde<'a, S: UnwindContextStorage>(
    fde: SectionFde<'a>,
    unwind_context: &mut UnwindContext<S>,
    relative_address: u32,
) -> Result<RowFinding<'a>, AllocError>
    ensures found { IfOk result (λ found. finding_of found unwind_context.new.row
        ≡ finding_by_fde S.limits relative_address fde.entry) }
    ensures refused { IfErr result (λ _. S.limits ≡ None) }
{
    match find_row(
        &fde.section,
        fde.base_svma,
        relative_address,
        fde.offset,
        unwind_context,
    ) {
        Ok(true) => Ok(RowFinding::Row(fde.section.bytes)),
        Ok(false) => Ok(RowFinding::Uncovered),
        Err(DwarfUnwinderError::UnwindInfoForAddressFailed(ReadError::OutOfMemory)) => Err(
            AllocError,
        ),
        Err(_) => Ok(RowFinding::NoRow),
    }
}
