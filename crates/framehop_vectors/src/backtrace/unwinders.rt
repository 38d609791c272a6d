//! Unwinders with the module of a program.
use framehop::aarch64::UnwinderAarch64;
use framehop::x86_64::UnwinderX86_64;
use framehop::{ExplicitModuleSectionInfo, Generations, Module, Unwinder};
use std::alloc::Global;
use std::ops::Range;
use std::test::Fail;

/// An unwinder of x86_64 whose modules lend their sections.
pub(crate) type LentX86_64 = UnwinderX86_64<&'static [u8]>;

/// An unwinder of aarch64 whose modules lend their sections.
pub(crate) type LentAarch64 = UnwinderAarch64<&'static [u8]>;

/// The sections of a file.
pub(crate) type Sections = ExplicitModuleSectionInfo<&'static [u8]>;

/// Returns the sections of a file with its base at an address (SVMA): `.eh_frame`, at a range of addresses (SVMA), and
/// `.debug_frame`.
pub(crate) fn sections_of(
    base_svma: u64,
    eh_frame: Option<&'static [u8]>,
    eh_frame_svma: Range<u64>,
    debug_frame: Option<&'static [u8]>,
) -> Sections {
    ExplicitModuleSectionInfo {
        base_svma,
        eh_frame,
        eh_frame_svma: Some(eh_frame_svma),
        debug_frame,
        ..ExplicitModuleSectionInfo::default()
    }
}

/// Returns the module of the program, whose code is from 0x401000 to 0x401200, with the sections of a file.
pub(crate) fn module_of(alloc: Global, sections: Sections) -> Result<Module<&'static [u8]>, Fail> {
    let name = String::from_str(alloc, "program")?;
    Ok(Module::new(alloc, name, 0x401000..0x401200, 0x400000, sections)?)
}

/// Returns an unwinder of x86_64 with the module of these sections.
pub(crate) fn unwinder_x86_64(
    alloc: Global,
    generations: &mut Generations,
    sections: Sections,
) -> Result<LentX86_64, Fail> {
    let module = module_of(alloc, sections)?;
    let mut unwinder = UnwinderX86_64::new(alloc, generations)?;
    match unwinder.add_module(module, generations) {
        Ok(()) => Ok(unwinder),
        Err(refused) => Err(refused.cause)?,
    }
}

/// Returns an unwinder of aarch64 with the module of these sections.
pub(crate) fn unwinder_aarch64(alloc: Global, sections: Sections) -> Result<LentAarch64, Fail> {
    let module = module_of(alloc, sections)?;
    let mut generations = Generations::new();
    let mut unwinder = UnwinderAarch64::new(alloc, &mut generations)?;
    match unwinder.add_module(module, &mut generations) {
        Ok(()) => Ok(unwinder),
        Err(refused) => Err(refused.cause)?,
    }
}
