//! The example of an ELF file of docs/EXAMPLES.md.
use crate::small::SMALL;
use framehop::x86_64::{CacheX86_64, UnwindRegsX86_64, UnwinderX86_64};
use framehop::{Error, Generations, Module, Unwinder};
use framehop_object::elf::elf_file::ElfFile;
use framehop_object::elf::unwind_sections::read_unwind_sections;
use std::alloc::Global;
use std::test::Fail;

/// A module of an ELF file that is loaded with its base at an address (AVMA).
fn module_of_file(alloc: Global, file: &[u8], base: u64) -> Result<Module<Vec<u8>>, anyhow::Error> {
    let elf = ElfFile::read(alloc, file)?;
    let sections = read_unwind_sections(alloc, &elf)?;
    // Where its code is in the process.
    let (start, end) = match &sections.text_svma {
        Some(text) => (text.start, text.end),
        None => (0, 0),
    };
    let avma_range = base.wrapping_add(start)..base.wrapping_add(end);
    let name = String::from_str(alloc, "program")?;
    Ok(Module::new(alloc, name, avma_range, base, sections)?)
}

/// The stack of the first instruction of `inner`, which `outer` called, which `_start` did: two return
/// addresses, and what the kernel leaves there for `_start`, which no function called.
static STACK: [u64; 3] = [0x10400115, 0x10400123, 0];

/// The addresses of what four calls of an iterator over the stack give; 0 where there is no frame.
fn addresses(
    unwinder: &UnwinderX86_64<Vec<u8>>,
    cache: &mut CacheX86_64,
) -> Result<[u64; 4], Error> {
    let mut read_stack = |address: u64| STACK.get((address / 8) as usize).copied().ok_or(());
    // no frame pointer: the unwind data leads on
    let regs = UnwindRegsX86_64::new(0x1040010c, 0, 1);
    let mut walk = unwinder.iter_frames(0x1040010c, regs, cache, &mut read_stack);
    let mut addresses = [0; 4];
    for address in &mut addresses {
        if let Some(frame) = walk.next()? {
            *address = frame.address_for_lookup();
        }
    }
    Ok(addresses)
}

/// Whether the frames of the stack are found, and then its root.
fn finds_the_frames(alloc: Global) -> Result<bool, Fail> {
    let mut generations = Generations::new();
    let mut cache = CacheX86_64::new(alloc)?;
    let mut unwinder = UnwinderX86_64::new(alloc, &mut generations)?;
    let module = module_of_file(alloc, &SMALL, 0x10000000)?;
    let is_added = unwinder.add_module(module, &mut generations).is_ok();
    let found = addresses(&unwinder, &mut cache);
    Ok(is_added && found == Ok([0x1040010c, 0x10400114, 0x10400122, 0]))
}

#[test]
fn walks_through_a_file(rt: HostRuntime) -> Result<(), Fail> {
    let is_found = finds_the_frames(rt.alloc())?;
    assert!(rt; is_found);
    Ok(())
}
