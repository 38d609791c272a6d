//! What differs by the machine on which a process ran.
ghost use Rattle.std.specs.Prelude.{◌≡◌, ℕ, List, IfOk, IfErr, None, Result};
ghost use Rattle.framehop_core.specs.CodeAddress.{FrameLocation, location_of};
ghost use Rattle.framehop_core.specs.Memory.{Memory};
ghost use Rattle.framehop.specs.Modules.{ModuleView, UnwinderView};
ghost use Rattle.framehop_backtrace.specs.Rows.{finding_of};
ghost use Rattle.framehop_backtrace.specs.declared.frame.BacktraceEnd.{BacktraceEnd};
ghost use Rattle.framehop_backtrace.specs.declared.frame.FoundBy.{FoundBy};
ghost use Rattle.framehop_frames.specs.Walker.{Walker, row_limits};

use crate::note::frame_note;
use framehop::aarch64::{CacheAarch64, UnwindRegsAarch64, UnwinderAarch64};
use framehop::cache::MustNotAllocateDuringUnwind;
use framehop::lookup::Lookup;
use framehop::section::SectionBytes;
use framehop::walk::Words;
use framehop::x86_64::{CacheX86_64, UnwindRegsX86_64, UnwinderX86_64};
use framehop::{FrameAddress, Module, Unwinder};
use framehop_backtrace::rows::row_in_module;
use framehop_backtrace::{BacktraceEnd, BacktraceUnwinder, FoundBy, RowFinding, Rows};
use framehop_callers::register_file::RegisterFile;
use framehop_cfi::context::UnwindContext;
use framehop_cfi::storage::UnwindContextStorage;
use framehop_core::aarch64::ArchAarch64;
use framehop_core::x86_64::ArchX86_64;
use framehop_explain::Note;
use framehop_processes::ProcessUnwinder;
use std::alloc::{AllocError, Global};

/// The registers with which a walk begins.
#[derive(Clone, Copy, Drop)]
pub struct Start<R: Copy> {
    /// The instruction pointer (AVMA).
    pub pc: u64,
    /// The stack pointer (AVMA).
    pub sp: u64,
    /// The registers of the library's steps.
    pub regs: R,
    /// All registers by their columns, each known or not.
    pub columns: RegisterFile,
}

/// An unwinder for the stacks of its machine.
pub trait Steps: ProcessUnwinder + BacktraceUnwinder + Rows {
    // how stacks are walked by the bytes of modules, read afresh
    ghost walker: { Walker Self.UnwindRegs };

    // whether a note is that of a frame at a location, among modules and over a memory, from registers, by how its caller was
    // found or how the walk ended there
    ghost is_note: { List ModuleView → Memory → FrameLocation → Self.UnwindRegs → Result FoundBy BacktraceEnd → List ℕ → Type 0 };

    /// Returns an empty cache, which changes no answer of any unwinder.
    fn new_cache(alloc: Global) -> Result<Self::Cache, AllocError>
        ensures { IfOk result (λ cache. (view : UnwinderView) → Self.is_sound view cache) };

    /// Looks for the row of a frame in a module that lies at no address.
    ///
    /// # Errors
    ///
    /// An allocation failed. With limits of rows none is made.
    fn row_in<'a, E: SectionBytes + Drop, S: UnwindContextStorage>(
        module: &'a Module<E>,
        unwind_context: &mut UnwindContext<S>,
        lookup: Lookup,
    ) -> Result<RowFinding<'a>, AllocError>
        ensures found { IfOk result (λ found. finding_of found unwind_context.new.row
            ≡ walker.row_in S.limits «module».entry.now.unwind_data lookup.relative_address lookup.is_first_frame) }
        ensures refused { IfErr result (λ _. S.limits ≡ None) };

    /// Returns the note of a frame that is in no trampoline, over words: what its caller was found by. `caller` is how, or
    /// how the walk ended there.
    ///
    /// # Errors
    ///
    /// An allocation failed.
    fn frame_note<M: Words>(
        &self,
        alloc: Global,
        address: FrameAddress,
        regs: Self::UnwindRegs,
        caller: Result<FoundBy, BacktraceEnd>,
        words: &M,
    ) -> Result<Note, AllocError>
        ensures { IfOk result (λ note. is_note (Self.unwinder_view self.now).modules (M.memory words.now) (location_of address) regs caller note) };

    // an unwinder is of the machine, and what it finds is by the bytes of its modules
    ghost is_of_machine: { Self.machine ≡ walker.machine };

    ghost steps_by_modules: { (unwinder : Self) → Self.step unwinder ≡ walker.step (Self.unwinder_view unwinder).modules };

    ghost info_by_modules: { (unwinder : Self) → Self.is_by_info unwinder ≡ walker.is_by_info (Self.unwinder_view unwinder).modules };

    ghost rows_by_modules: { (unwinder : Self) → Self.rows unwinder row_limits ≡ walker.rows (Self.unwinder_view unwinder).modules };
}

impl<D: SectionBytes + Drop> Steps for UnwinderX86_64<D, MustNotAllocateDuringUnwind> {
    ghost use Rattle.std.specs.Prelude.{refl};
    ghost use Rattle.framehop_frames.specs.TakenText.{IsNoteX86_64};
    ghost use Rattle.framehop_frames.specs.Walker.{x86_64_walker};

    ghost walker = { x86_64_walker };

    ghost is_note = { IsNoteX86_64 };

    ghost is_of_machine = { refl };

    ghost steps_by_modules = { λ unwinder. refl };

    ghost info_by_modules = { λ unwinder. refl };

    ghost rows_by_modules = { λ unwinder. refl };

    fn new_cache(alloc: Global) -> Result<CacheX86_64<MustNotAllocateDuringUnwind>, AllocError> {
        CacheX86_64::new_in(alloc)
    }

    fn row_in<'a, E: SectionBytes + Drop, S: UnwindContextStorage>(
        module: &'a Module<E>,
        unwind_context: &mut UnwindContext<S>,
        lookup: Lookup,
    ) -> Result<RowFinding<'a>, AllocError> {
        row_in_module::<E, ArchX86_64, S>(module, unwind_context, lookup)
    }

    fn frame_note<M: Words>(
        &self,
        alloc: Global,
        address: FrameAddress,
        regs: UnwindRegsX86_64,
        caller: Result<FoundBy, BacktraceEnd>,
        words: &M,
    ) -> Result<Note, AllocError> {
        frame_note(alloc, self.inner(), address, regs, caller, words)
    }
}

impl<D: SectionBytes + Drop> Steps for UnwinderAarch64<D, MustNotAllocateDuringUnwind> {
    ghost use Rattle.std.specs.Prelude.{refl};
    ghost use Rattle.framehop_frames.specs.TakenText.{IsNoteAarch64};
    ghost use Rattle.framehop_frames.specs.Walker.{aarch64_walker};

    ghost walker = { aarch64_walker };

    ghost is_note = { IsNoteAarch64 };

    ghost is_of_machine = { refl };

    ghost steps_by_modules = { λ unwinder. refl };

    ghost info_by_modules = { λ unwinder. refl };

    ghost rows_by_modules = { λ unwinder. refl };

    fn new_cache(alloc: Global) -> Result<CacheAarch64<MustNotAllocateDuringUnwind>, AllocError> {
        CacheAarch64::new_in(alloc)
    }

    fn row_in<'a, E: SectionBytes + Drop, S: UnwindContextStorage>(
        module: &'a Module<E>,
        unwind_context: &mut UnwindContext<S>,
        lookup: Lookup,
    ) -> Result<RowFinding<'a>, AllocError> {
        row_in_module::<E, ArchAarch64, S>(module, unwind_context, lookup)
    }

    fn frame_note<M: Words>(
        &self,
        alloc: Global,
        address: FrameAddress,
        regs: UnwindRegsAarch64,
        caller: Result<FoundBy, BacktraceEnd>,
        words: &M,
    ) -> Result<Note, AllocError> {
        frame_note(alloc, self.inner(), address, regs, caller, words)
    }
}
