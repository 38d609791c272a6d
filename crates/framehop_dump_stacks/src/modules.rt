//! The files whose code a process had mapped, and the modules of their mappings.
ghost use Rattle.std.specs.Prelude.{◌≡◌, true, false, None, Ok, IfOk, IfErr, OnOk, slice_get};
ghost use Rattle.framehop_processes.specs.Process.{HasModules};
ghost use Rattle.framehop_processes.specs.Files.{placed_at, is_left_out};
ghost use Rattle.framehop_processes.specs.MappedBytes.{mapped_sections_view};
ghost use Rattle.framehop_dumps.specs.Dump.{mapped_code_view, dump_view, head_of};
ghost use Rattle.framehop_dumps.specs.Image.{sections_in, sections_of};
ghost use Rattle.framehop_dump_stacks.specs.FrameHeaders.{HasHeadersOf};
ghost use Rattle.framehop_dump_stacks.specs.Ended.{drawn_in, MayEnd};
ghost use Rattle.framehop_dump_stacks.specs.Modules.{AreLeftOutOf, AreReadOf, base_in, mapping_based, mapping_in, mappings_in, module_with, sections_by, module_at};

use crate::error::DumpStacksError;
use crate::frame_headers::FrameHeaders;
use framehop::Module;
use framehop::generations::Generations;
use framehop::section::ExplicitModuleSectionInfo;
use framehop_dumps::dump::{Dump, MappedCode};
use framehop_dumps::image::sections_behind;
use framehop_processes::files::{FileSource, FileUnwinder, Files, placed_at};
use framehop_processes::mapped_bytes::MappedBytes;
use framehop_processes::{Mapping, ModuleMaker, Process, ProcessUnwinder};
use std::alloc::{AllocError, Global};

/// Returns the files whose code is mapped, each once, of which nothing is read before [`read_files_asked_for`].
pub(crate) fn leave_out_files<'m>(alloc: Global, dump: &Dump<'_>) -> Result<Files<'m>, AllocError>
    ensures { IfOk result (λ files. AreLeftOutOf (dump_view dump.now) files) }
{
    let mut files = Files::new(alloc)?;
    for code in &dump.code {
        files.leave_out(alloc, code.path)?;
    }
    Ok(files)
}

/// Reads the files whose code is mapped that were left out and of which something was asked for, each once; or all that were
/// left out. Returns whether any was read.
pub(crate) fn read_files_asked_for<S: FileSource>(
    alloc: Global,
    dump: &Dump<'_>,
    source: &S,
    all: bool,
    files: &mut Files<'_>,
) -> Result<bool, AllocError>
    ensures read { OnOk result (AreReadOf (S.source source.now) all (dump_view dump.now) files.old files.new) }
    ensures none { result ≡ Ok false → files.new ≡ files.old }
{
    let mut is_any_read = false;
    for code in &dump.code {
        if is_to_be_read(files, code.path, all) {
            files.read_left_out(alloc, source, code.path, code.build_id)?;
            is_any_read = true;
        }
    }
    Ok(is_any_read)
}

/// Returns whether the file of a path is to be read: it was left out, and something of it was asked for or all are to be.
fn is_to_be_read(files: &Files<'_>, path: &[u8], all: bool) -> bool
    ensures left_out { result ≡ true → is_left_out files.now path.now ≡ true }
    ensures all { result ≡ false → all ≡ true → is_left_out files.now path.now ≡ false }
{
    files.is_asked_for(path) || (all && files.is_left_out(path))
}

/// Makes the modules of mappings, by the files of a dump and by its memory, which lends its bytes for `'m`.
#[derive(Drop)]
pub(crate) struct DumpModules<'a, 'm> {
    pub dump: &'a Dump<'m>,
    pub files: &'a Files<'m>,
    /// Where memory has the unwind data of the files whose code the dump has.
    pub(crate) headers: FrameHeaders<'m>,
    /// The module of mappings without unwind data.
    pub(crate) bare: Module<MappedBytes<'m>>,
    ghost known: { HasHeadersOf (dump_view dump.now).code headers.by_path },
    ghost without: { bare ≡ module_with (sections_of None) },
}

impl<'m> DumpModules<'_, 'm> {
    /// Returns the unwind sections of a file whose code was mapped and that lies at a base, as memory has them.
    pub(crate) fn sections_in(
        &self,
        path: &[u8],
        base: u64,
    ) -> ExplicitModuleSectionInfo<MappedBytes<'m>>
        ensures { mapped_sections_view result
            ≡ sections_in (dump_view self.now.dump.now).memory (head_of (dump_view self.now.dump.now) path.now) base }
    {
        let header = self.headers.header_at(path);
        sections_behind(&self.dump.memory, header, base)
    }

    /// Returns the unwind sections of a mapping's file, as memory has them.
    fn sections(&self, mapping: &Mapping) -> ExplicitModuleSectionInfo<MappedBytes<'m>>
        ensures { mapped_sections_view result ≡ sections_by (dump_view self.now.dump.now)
            (slice_get self.now.files.now.list.items mapping.now.file) mapping.now.base_avma }
    {
        match self.files.get(mapping.file) {
            Some(file) => self.sections_in(file.name.as_slice(), mapping.base_avma),
            None => ExplicitModuleSectionInfo::default(),
        }
    }

    /// Returns the module of a mapping, by what memory has of its file.
    fn module_in_memory(
        &self,
        alloc: Global,
        mapping: &Mapping,
    ) -> Result<Module<MappedBytes<'m>>, AllocError>
        ensures { IfOk result (λ made. made ≡ placed_at (module_with (sections_by (dump_view self.now.dump.now)
            (slice_get self.now.files.now.list.items mapping.now.file) mapping.now.base_avma)) mapping.now) }
    {
        let info = self.sections(mapping);
        if info.eh_frame.is_none() {
            return placed_at(&self.bare, mapping);
        }
        placed_at(&module_with(alloc, info)?, mapping)
    }

    /// Returns the module of a mapping.
    fn module_at(
        &self,
        alloc: Global,
        mapping: &Mapping,
    ) -> Result<Module<MappedBytes<'m>>, AllocError>
        ensures { IfOk result (λ made. made ≡ module_at (dump_view self.now.dump.now) self.now.files.now mapping.now) }
    {
        if !mapping.has_sections {
            return placed_at(&self.bare, mapping);
        }
        match self.files.object(mapping.file) {
            Some(object) => placed_at(object.module(), mapping),
            None => self.module_in_memory(alloc, mapping),
        }
    }
}

/// Returns a module without unwind data that lies at no address.
pub(crate) fn bare_module<'m>(alloc: Global) -> Result<Module<MappedBytes<'m>>, AllocError>
    ensures { IfOk result (λ made. made ≡ module_with (sections_of None)) }
{
    module_with(alloc, ExplicitModuleSectionInfo::default())
}

/// Returns a module with these sections that lies at no address.
fn module_with<'m>(
    alloc: Global,
    info: ExplicitModuleSectionInfo<MappedBytes<'m>>,
) -> Result<Module<MappedBytes<'m>>, AllocError>
    ensures { IfOk result (λ made. made ≡ module_with (mapped_sections_view info.entry)) }
{
    match Module::new(alloc, String::new(alloc), 0..0, 0, info) {
        Ok(made) => Ok(made),
        Err(_) => Err(AllocError),
    }
}

impl<'m, U: FileUnwinder<MappedBytes<'m>>> ModuleMaker<U> for DumpModules<'_, 'm> {
    ghost use Rattle.std.specs.Prelude.{refl};

    ghost module_of = { λ maker mapping. module_at (dump_view maker.dump.now) maker.files.now mapping };

    ghost start_is = { λ maker mapping. refl };

    ghost end_is = { λ maker mapping. refl };

    fn make_module(
        &self,
        alloc: Global,
        mapping: &Mapping,
    ) -> Result<Module<MappedBytes<'m>>, AllocError> {
        self.module_at(alloc, mapping)
    }
}

/// Returns the process of a dump, with the mappings of its code in their order.
pub(crate) fn map_files<U: ProcessUnwinder, M: ModuleMaker<U>>(
    alloc: Global,
    maker: &M,
    dump: &Dump<'_>,
    files: &Files<'_>,
) -> Result<Process<U>, DumpStacksError>
where
    U::Module: Drop,
    ensures served { IfOk result (λ process. HasModules (M.module_of maker.now) process) }
    ensures mapped { IfOk result (λ process. process.mappings ≡ mappings_in (dump_view dump.now) files.now) }
    ensures refused { IfErr result (MayEnd false (drawn_in (dump_view dump.now) files.now)) }
{
    let mut generations = Generations::new();
    let mut process: Process<U> = Process::new(alloc, &mut generations)?;
    for code in &dump.code {
        if let Some(mapping) = mapping_in(files, *code) {
            process = process.mapped(alloc, maker, mapping, &mut generations)?;
        }
    }
    Ok(process)
}

/// Returns the mapping of mapped code, if it has an address.
fn mapping_in(files: &Files<'_>, code: MappedCode<'_>) -> Option<Mapping>
    ensures { result ≡ mapping_in files.now (mapped_code_view code.entry) }
{
    if code.end <= code.start {
        return None;
    }
    let number = files.number_of(code.path)?;
    let base = base_in(files, number, code);
    Some(mapping_based(code, number, base))
}

/// Returns where the stated address 0 of the file of mapped code is (AVMA): as it is known, by what was read of
/// the file, or else by what memory has of it.
fn base_in(files: &Files<'_>, number: u32, code: MappedCode<'_>) -> Option<u64>
    ensures { result ≡ base_in files.now number (mapped_code_view code.entry) }
{
    if let Some(base) = code.base {
        return Some(base);
    }
    match files.object(number) {
        Some(object) => {
            let size = code.end.saturating_sub(code.start);
            object.base(code.offset, size, code.start)
        }
        None => code.memory_base,
    }
}

/// Returns the mapping of mapped code: with its unwind data where its base is known.
fn mapping_based(code: MappedCode<'_>, number: u32, base: Option<u64>) -> Mapping
    ensures { result ≡ mapping_based (mapped_code_view code.entry) number base }
{
    match base {
        Some(base) => Mapping {
            start: code.start,
            end: code.end,
            base_avma: base,
            file: number,
            has_sections: true,
        },
        None => Mapping {
            start: code.start,
            end: code.end,
            base_avma: code.start.saturating_sub(code.offset),
            file: number,
            has_sections: false,
        },
    }
}
