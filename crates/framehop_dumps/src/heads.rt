//! What memory has of mapped files, looked up by their paths.
ghost use Rattle.std.specs.Prelude.{◌≡◌, ◌∷◌, [], List, ℕ, Some, None, IfOk, OnOk, cond, unwrap_or, nat_eq, map};
ghost use Rattle.std.specs.Cmp.Lexicographic.{pointwise};
ghost use Rattle.std.specs.Option.{option_or};
ghost use Rattle.framehop_dump_files.specs.Coredump.MappedFile.{mapped_file_view};
ghost use Rattle.framehop_memory.specs.Memory.{memory_view};
ghost use Rattle.framehop_dumps.specs.Heads.{file_head_view, file_head_of, kept_at, beginning_head, HasBeginnings};

use crate::image::{build_id_in, head_at, segments_in};
use framehop_dump_files::coredump::mapped_file::MappedFile;
use framehop_memory::memory::ProcessMemory;
use framehop_memory::segment::Segment;
use framehop_object::elf::segment::loaded_segments;
use std::alloc::{AllocError, Global};
use std::collections::BTreeMap;

/// What memory has of a file.
#[derive(Drop)]
pub(crate) struct FileHead<'a> {
    /// Its first bytes.
    pub(crate) head: &'a [u8],
    /// The build id in them, or no bytes.
    pub(crate) build_id: &'a [u8],
    /// The segments that they tell.
    pub(crate) segments: Vec<Segment>,
}

/// What memory has of files, by their paths.
#[derive(Drop)]
pub(crate) struct HeadsByPath<'a> {
    by_path: BTreeMap<&'a [u8], FileHead<'a>>,
    // for a path of which nothing is kept
    nothing: FileHead<'a>,
    ghost empty: { file_head_view nothing ≡ file_head_of [] },
}

impl<'a> HeadsByPath<'a> {
    /// Returns nothing of any file.
    fn new(alloc: Global) -> Result<Self, AllocError>
        ensures { IfOk result (λ heads. (path : List ℕ) → kept_at heads.by_path path ≡ None) }
    {
        Ok(HeadsByPath {
            by_path: BTreeMap::new(alloc),
            nothing: file_head(alloc, &[])?,
        })
    }

    /// Returns what memory has of mapped files: of each path at its first mapping that has the first byte of the
    /// file, which is read once.
    pub(crate) fn of_files(
        alloc: Global,
        memory: &ProcessMemory<'a>,
        files: &[MappedFile<'a>],
    ) -> Result<Self, AllocError>
        ensures { IfOk result (λ heads. HasBeginnings (memory_view memory.now) (map mapped_file_view files.now) heads.by_path) }
    {
        let mut heads = HeadsByPath::new(alloc)?;
        for mapped in files {
            heads.keep_beginning(alloc, memory, mapped)?;
        }
        Ok(heads)
    }

    /// Returns what memory has of the file of a path.
    pub(crate) fn file_at(&self, path: &[u8]) -> &FileHead<'a>
        ensures { file_head_view result.now ≡ unwrap_or (kept_at self.now.by_path path.now) (file_head_of []) }
    {
        self.by_path.get(path).unwrap_or(&self.nothing)
    }

    /// Keeps what memory has of a file, if the mapping has its first byte and nothing is kept for its path.
    fn keep_beginning(
        &mut self,
        alloc: Global,
        memory: &ProcessMemory<'a>,
        mapped: &MappedFile<'a>,
    ) -> Result<(), AllocError>
        ensures { OnOk result ((path : List ℕ) → kept_at self.new.by_path path
            ≡ option_or (kept_at self.old.by_path path) (beginning_head (memory_view memory.now) (mapped_file_view mapped.now ∷ []) path)) }
    {
        if mapped.offset != 0 {
            return Ok(());
        }
        if self.by_path.contains_key(mapped.path) {
            return Ok(());
        }
        let file = file_head(alloc, head_at(memory, mapped.start))?;
        self.insert(mapped.path, file)?;
        Ok(())
    }

    /// Keeps what memory has of the file of a path, in the place of what was kept.
    fn insert(&mut self, path: &'a [u8], file: FileHead<'a>) -> Result<(), AllocError>
        ensures { OnOk result ((other : List ℕ) → kept_at self.new.by_path other
            ≡ cond (pointwise nat_eq path.entry.now other) (Some (file_head_view file.entry)) (kept_at self.old.by_path other)) }
    {
        self.by_path.insert(path, file)?;
        Ok(())
    }
}

/// Returns what memory has of a file with these first bytes.
fn file_head<'a>(alloc: Global, head: &'a [u8]) -> Result<FileHead<'a>, AllocError>
    ensures { IfOk result (λ file. file_head_view file ≡ file_head_of head.entry.now) }
{
    let headers = segments_in(alloc, head)?;
    let segments = loaded_segments(alloc, headers.as_slice())?;
    Ok(FileHead {
        head,
        build_id: build_id_in(head, headers.as_slice()),
        segments,
    })
}
