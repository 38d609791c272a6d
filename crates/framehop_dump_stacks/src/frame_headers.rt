//! Where memory has the unwind data of files whose code was mapped, looked up by their paths.
ghost use Rattle.std.specs.Prelude.{◌≡◌, ◌∷◌, [], List, ℕ, Some, None, IfOk, OnOk, cond, unwrap_or, nat_eq, map};
ghost use Rattle.std.specs.Cmp.Lexicographic.{pointwise};
ghost use Rattle.std.specs.Option.{option_or};
ghost use Rattle.framehop_dumps.specs.Dump.{dump_view, mapped_code_view};
ghost use Rattle.framehop_dump_stacks.specs.FrameHeaders.{kept_for, first_header, HasHeadersOf};

use framehop_dumps::dump::{Dump, MappedCode};
use framehop_dumps::image::{eh_frame_header, segments_in};
use framehop_object::elf::program_header::ProgramHeader;
use std::alloc::{AllocError, Global};
use std::collections::BTreeMap;

/// The segments of files that have `.eh_frame_hdr`, by the paths of the files.
#[derive(Drop)]
pub(crate) struct FrameHeaders<'a> {
    by_path: BTreeMap<&'a [u8], Option<ProgramHeader>>,
}

impl<'a> FrameHeaders<'a> {
    /// Returns those of the files whose code was mapped, by their first bytes in memory as their first mappings have them.
    fn new(alloc: Global, code: &[MappedCode<'a>]) -> Result<Self, AllocError>
        ensures { IfOk result (λ headers. HasHeadersOf (map mapped_code_view code.now) headers.by_path) }
    {
        let mut headers = FrameHeaders {
            by_path: BTreeMap::new(alloc),
        };
        for mapped in code {
            headers.keep(alloc, *mapped)?;
        }
        Ok(headers)
    }

    /// Returns that of the file of a path.
    pub(crate) fn header_at(&self, path: &[u8]) -> Option<ProgramHeader>
        ensures { result ≡ unwrap_or (kept_for self.now.by_path path.now) None }
    {
        match self.by_path.get(path) {
            Some(header) => *header,
            None => None,
        }
    }

    /// Keeps that of a file whose code was mapped, if nothing is kept for its path.
    fn keep(&mut self, alloc: Global, mapped: MappedCode<'a>) -> Result<(), AllocError>
        ensures { OnOk result ((path : List ℕ) → kept_for self.new.by_path path
            ≡ option_or (kept_for self.old.by_path path) (first_header (mapped_code_view mapped.entry ∷ []) path)) }
    {
        if self.by_path.contains_key(mapped.path) {
            return Ok(());
        }
        let segments = segments_in(alloc, mapped.head)?;
        self.insert(mapped.path, eh_frame_header(segments.as_slice()))?;
        Ok(())
    }

    /// Keeps that of the file of a path, in the place of what was kept.
    fn insert(&mut self, path: &'a [u8], header: Option<ProgramHeader>) -> Result<(), AllocError>
        ensures { OnOk result ((other : List ℕ) → kept_for self.new.by_path other
            ≡ cond (pointwise nat_eq path.entry.now other) (Some header) (kept_for self.old.by_path other)) }
    {
        self.by_path.insert(path, header)?;
        Ok(())
    }
}

/// Returns the segments that have `.eh_frame_hdr` of the files whose code was mapped, by their first bytes in memory.
pub(crate) fn headers_of<'a>(alloc: Global, dump: &Dump<'a>) -> Result<FrameHeaders<'a>, AllocError>
    ensures { IfOk result (λ headers. HasHeadersOf (dump_view dump.now).code headers.by_path) }
{
    FrameHeaders::new(alloc, dump.code.as_slice())
}
