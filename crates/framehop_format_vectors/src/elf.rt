//! A program of three functions, and what `readelf` says of it. It is `small` of `checks/stacks`, whose `small.c` says how it
//! was made; what the programs print of it is in `checks/cases/elf_files`.
use crate::changed::changed;
use framehop_bytes::section::ExplicitModuleSectionInfo;
use framehop_bytes::string::string_at;
use framehop_memory::segment::Segment;
use framehop_object::elf::build_id::read_build_id;
use framehop_object::elf::elf_file::ElfFile;
use framehop_object::elf::error::ElfError;
use framehop_object::elf::header::{FileHeader, read_file_header};
use framehop_object::elf::program_header::{ProgramHeader, read_program_headers};
use framehop_object::elf::section::{read_contents, read_section_names};
use framehop_object::elf::section_header::{SectionHeader, read_section_headers};
use framehop_object::elf::segment::loaded_segments;
use framehop_object::elf::symbol::{SymbolTable, read_function_symbols, read_symbol_names};
use framehop_object::elf::unwind_sections::read_unwind_sections;
use std::alloc::{AllocError, Global};

/// The bytes of the program.
static SMALL: [u8; 1144] = *b"\x7fELF\x02\x01\x01\0\0\0\0\0\0\0\0\0\x02\0\x3e\0\x01\0\0\0\x19\x01\
    \x40\0\0\0\0\0\x40\0\0\0\0\0\0\0\xb8\x02\0\0\0\0\0\0\0\0\0\0\x40\0\x38\0\x03\0\x40\0\x07\0\
    \x06\0\x01\0\0\0\x05\0\0\0\0\0\0\0\0\0\0\0\0\0\x40\0\0\0\0\0\0\0\x40\0\0\0\0\0\x84\x01\0\0\0\
    \0\0\0\x84\x01\0\0\0\0\0\0\0\x10\0\0\0\0\0\0\x04\0\0\0\x04\0\0\0\xe8\0\0\0\0\0\0\0\xe8\0\x40\
    \0\0\0\0\0\xe8\0\x40\0\0\0\0\0\x24\0\0\0\0\0\0\0\x24\0\0\0\0\0\0\0\x04\0\0\0\0\0\0\0\x51\xe5\
    \x74\x64\x06\0\0\0\0\0\0\0\0\0\0\0\0\0\0\0\0\0\0\0\0\0\0\0\0\0\0\0\0\0\0\0\0\0\0\0\0\0\0\0\0\
    \0\0\0\x10\0\0\0\0\0\0\0\x04\0\0\0\x14\0\0\0\x03\0\0\0GNU\0\xa7\xfb\xa1\xf0\x56\x37\x86\xfc\
    \x7f\xac\x98\x41\xa1\x03\x03\xc1\xef\x55\x7b\xee\x8d\x04\x7f\xc3\xe8\xf7\xff\xff\xff\x83\xc0\
    \x01\xc3\xbf\x04\0\0\0\xe8\xe9\xff\xff\xff\x8d\x78\x01\xb8\x3c\0\0\0\x0f\x05\0\0\0\x14\0\0\0\
    \0\0\0\0\x01\x7a\x52\0\x01\x78\x10\x01\x1b\x0c\x07\x08\x90\x01\0\0\x10\0\0\0\x1c\0\0\0\xbc\
    \xff\xff\xff\x04\0\0\0\0\0\0\0\x10\0\0\0\x30\0\0\0\xac\xff\xff\xff\x09\0\0\0\0\0\0\0\x10\0\0\
    \0\x44\0\0\0\xa1\xff\xff\xff\x14\0\0\0\0\0\0\0\0\0\0\0\0\0\0\0\0\0\0\0\0\0\0\0\0\0\0\0\0\0\0\
    \0\0\0\0\0\x01\0\0\0\x04\0\xf1\xff\0\0\0\0\0\0\0\0\0\0\0\0\0\0\0\0\x09\0\0\0\x02\0\x02\0\x0c\
    \x01\x40\0\0\0\0\0\x04\0\0\0\0\0\0\0\x14\0\0\0\x12\0\x02\0\x19\x01\x40\0\0\0\0\0\x14\0\0\0\0\
    \0\0\0\x0f\0\0\0\x10\0\x03\0\x84\x11\x40\0\0\0\0\0\0\0\0\0\0\0\0\0\x1b\0\0\0\x12\0\x02\0\x10\
    \x01\x40\0\0\0\0\0\x09\0\0\0\0\0\0\0\x21\0\0\0\x10\0\x03\0\x84\x11\x40\0\0\0\0\0\0\0\0\0\0\0\
    \0\0\x28\0\0\0\x10\0\x03\0\x88\x11\x40\0\0\0\0\0\0\0\0\0\0\0\0\0\0small.c\0inner\0__bss_start\
    \0outer\0_edata\0_end\0\0.symtab\0.strtab\0.shstrtab\0.note.gnu.build-id\0.text\0.eh_frame\0\
    \0\0\0\0\0\0\0\0\0\0\0\0\0\0\0\0\0\0\0\0\0\0\0\0\0\0\0\0\0\0\0\0\0\0\0\0\0\0\0\0\0\0\0\0\0\0\
    \0\0\0\0\0\0\0\0\0\0\0\0\0\0\0\0\0\0\0\0\0\0\0\x1b\0\0\0\x07\0\0\0\x02\0\0\0\0\0\0\0\xe8\0\
    \x40\0\0\0\0\0\xe8\0\0\0\0\0\0\0\x24\0\0\0\0\0\0\0\0\0\0\0\0\0\0\0\x04\0\0\0\0\0\0\0\0\0\0\0\
    \0\0\0\0\x2e\0\0\0\x01\0\0\0\x06\0\0\0\0\0\0\0\x0c\x01\x40\0\0\0\0\0\x0c\x01\0\0\0\0\0\0\x21\
    \0\0\0\0\0\0\0\0\0\0\0\0\0\0\0\x01\0\0\0\0\0\0\0\0\0\0\0\0\0\0\0\x34\0\0\0\x01\0\0\0\x02\0\0\
    \0\0\0\0\0\x30\x01\x40\0\0\0\0\0\x30\x01\0\0\0\0\0\0\x54\0\0\0\0\0\0\0\0\0\0\0\0\0\0\0\x08\0\
    \0\0\0\0\0\0\0\0\0\0\0\0\0\0\x01\0\0\0\x02\0\0\0\0\0\0\0\0\0\0\0\0\0\0\0\0\0\0\0\x88\x01\0\0\
    \0\0\0\0\xc0\0\0\0\0\0\0\0\x05\0\0\0\x03\0\0\0\x08\0\0\0\0\0\0\0\x18\0\0\0\0\0\0\0\x09\0\0\0\
    \x03\0\0\0\0\0\0\0\0\0\0\0\0\0\0\0\0\0\0\0\x48\x02\0\0\0\0\0\0\x2d\0\0\0\0\0\0\0\0\0\0\0\0\0\
    \0\0\x01\0\0\0\0\0\0\0\0\0\0\0\0\0\0\0\x11\0\0\0\x03\0\0\0\0\0\0\0\0\0\0\0\0\0\0\0\0\0\0\0\
    \x75\x02\0\0\0\0\0\0\x3e\0\0\0\0\0\0\0\0\0\0\0\0\0\0\0\x01\0\0\0\0\0\0\0\0\0\0\0\0\0\0\0";

/// What `readelf -h` prints.
const HEADER: FileHeader = FileHeader {
    e_type: 2,
    e_machine: 62,
    e_entry: 0x400119,
    e_phoff: 64,
    e_shoff: 696,
    e_phentsize: 56,
    e_phnum: 3,
    e_shentsize: 64,
    e_shnum: 7,
    e_shstrndx: 6,
};

/// What `readelf -l` prints.
static PROGRAM_HEADERS: [ProgramHeader; 3] = [
    ProgramHeader {
        p_type: 1,
        p_flags: 5,
        p_offset: 0,
        p_vaddr: 0x400000,
        p_paddr: 0x400000,
        p_filesz: 0x184,
        p_memsz: 0x184,
        p_align: 0x1000,
    },
    ProgramHeader {
        p_type: 4,
        p_flags: 4,
        p_offset: 0xe8,
        p_vaddr: 0x4000e8,
        p_paddr: 0x4000e8,
        p_filesz: 0x24,
        p_memsz: 0x24,
        p_align: 4,
    },
    ProgramHeader {
        p_type: 0x6474e551,
        p_flags: 6,
        p_offset: 0,
        p_vaddr: 0,
        p_paddr: 0,
        p_filesz: 0,
        p_memsz: 0,
        p_align: 0x10,
    },
];

/// The first of them as memory.
static SEGMENTS: [Segment; 1] = [Segment {
    address: 0x400000,
    size: 0x184,
    offset: 0,
    file_size: 0x184,
    is_code: true,
}];

/// What `readelf -S` prints of `.eh_frame`. In the table of names its name begins at 0x34.
const EH_FRAME: SectionHeader = SectionHeader {
    sh_name: 0x34,
    sh_type: 1,
    sh_flags: 2,
    sh_addr: 0x400130,
    sh_offset: 0x130,
    sh_size: 0x54,
    sh_link: 0,
    sh_info: 0,
    sh_addralign: 8,
    sh_entsize: 0,
};

/// What it prints of `.symtab`.
const SYMTAB: SectionHeader = SectionHeader {
    sh_name: 1,
    sh_type: 2,
    sh_flags: 0,
    sh_addr: 0,
    sh_offset: 0x188,
    sh_size: 0xc0,
    sh_link: 5,
    sh_info: 3,
    sh_addralign: 8,
    sh_entsize: 0x18,
};

/// What `readelf -n` prints.
const BUILD_ID: &[u8] =
    b"\xa7\xfb\xa1\xf0\x56\x37\x86\xfc\x7f\xac\x98\x41\xa1\x03\x03\xc1\xef\x55\x7b\xee";

/// Whether the program has these program headers.
fn has_program_headers(alloc: Global) -> Result<bool, ElfError> {
    let headers = read_program_headers(alloc, &SMALL, HEADER)?;
    Ok(headers.as_slice() == PROGRAM_HEADERS.as_slice())
}

/// Whether that segment only is loaded.
fn has_segments(alloc: Global) -> Result<bool, AllocError> {
    let segments = loaded_segments(alloc, &PROGRAM_HEADERS)?;
    Ok(segments.as_slice() == SEGMENTS.as_slice())
}

#[test]
fn reads_the_headers(rt: HostRuntime) {
    assert!(rt; read_file_header(&SMALL) == Ok(HEADER));
    assert!(rt; has_program_headers(rt.alloc()) == Ok(true));
    assert!(rt; has_segments(rt.alloc()) == Ok(true));
}

#[test]
fn reads_what_a_section_and_a_segment_hold(rt: HostRuntime) {
    assert!(rt; read_contents(&SMALL, EH_FRAME).ok() == SMALL.get(0x130..0x184));
    assert!(rt; read_build_id(&SMALL, &PROGRAM_HEADERS, &[]) == Some(BUILD_ID));
}

/// Whether a file has the sections of the program, by some of their names.
fn are_sections(elf: &ElfFile<'_>) -> bool {
    elf.sections().len() == 7
        && elf.names().len() == 0x3e
        && elf.section(b".eh_frame") == Some(EH_FRAME)
        && elf.section(b".eh_fram").is_none()
        && elf.section(b".symtab") == Some(SYMTAB)
}

/// Whether these are the sections that an unwinder needs of the program.
fn are_unwind_sections(info: &ExplicitModuleSectionInfo<Vec<u8>>) -> bool {
    let size = match &info.eh_frame {
        Some(bytes) => bytes.len(),
        None => 0,
    };
    size == 0x54
        && info.eh_frame_svma == Some(0x400130..0x400184)
        && info.text_svma == Some(0x40010c..0x40012d)
        && info.got_svma.is_none()
        && info.debug_frame.is_none()
}

/// Whether a file has both.
fn has_sections_of(alloc: Global, elf: &ElfFile<'_>) -> Result<bool, ElfError> {
    let info = read_unwind_sections(alloc, elf)?;
    Ok(are_sections(elf) && are_unwind_sections(&info))
}

/// Whether the program has both.
fn has_sections(alloc: Global) -> Result<bool, ElfError> {
    let elf = ElfFile::read(alloc, &SMALL)?;
    has_sections_of(alloc, &elf)
}

#[test]
fn reads_sections_and_what_an_unwinder_needs(rt: HostRuntime) {
    assert!(rt; has_sections(rt.alloc()) == Ok(true));
}

/// The names of functions by addresses, as `readelf -s` prints them.
const NAMES: [(u64, Option<&'static [u8]>); 8] = [
    (0x40010b, None),
    (0x40010c, Some(b"inner")),
    (0x40010f, Some(b"inner")),
    (0x400110, Some(b"outer")),
    (0x400118, Some(b"outer")),
    (0x400119, Some(b"_start")),
    (0x40012c, Some(b"_start")),
    (0x40012d, None),
];

/// Whether a table of symbols has these names in a table of strings.
fn has_names(symbols: &SymbolTable, strings: &[u8]) -> bool {
    for (svma, name) in &NAMES {
        let found = match symbols.symbol_for(*svma) {
            Some(symbol) => Some(string_at(strings, symbol.st_name)),
            None => None,
        };
        if found != *name {
            return false;
        }
    }
    true
}

/// Whether a file has them.
fn has_functions_of(alloc: Global, elf: &ElfFile<'_>) -> Result<bool, ElfError> {
    let strings = read_symbol_names(elf, SYMTAB)?;
    let symbols = read_function_symbols(alloc, elf, SYMTAB)?;
    let table = SymbolTable::new(symbols)?;
    Ok(has_names(&table, strings))
}

/// Whether the program has them.
fn has_functions(alloc: Global) -> Result<bool, ElfError> {
    let elf = ElfFile::read(alloc, &SMALL)?;
    has_functions_of(alloc, &elf)
}

#[test]
fn finds_functions(rt: HostRuntime) {
    assert!(rt; has_functions(rt.alloc()) == Ok(true));
}

/// e_shnum 0, e_phnum PN_XNUM and e_shstrndx SHN_XINDEX, and in the first section header sh_size, sh_info
/// and sh_link. `readelf -hSl` prints the same sections and segments of it.
const IN_FIRST_SECTION: [(usize, u8); 8] = [
    (60, 0),
    (728, 7),
    (56, 0xff),
    (57, 0xff),
    (740, 3),
    (62, 0xff),
    (63, 0xff),
    (736, 6),
];

/// The header of that file.
const WITHOUT_NUMBERS: FileHeader = FileHeader {
    e_phnum: 0xffff,
    e_shnum: 0,
    e_shstrndx: 0xffff,
    ..HEADER
};

#[test]
fn has_no_numbers_in_the_header(rt: HostRuntime) {
    assert!(rt; read_file_header(&changed(&SMALL, &IN_FIRST_SECTION)) == Ok(WITHOUT_NUMBERS));
}

/// How many segments a file has.
fn segment_count(alloc: Global, file: &[u8]) -> Result<usize, ElfError> {
    let header = read_file_header(file)?;
    Ok(read_program_headers(alloc, file, header)?.len())
}

/// How many sections a file has.
fn section_count(alloc: Global, file: &[u8]) -> Result<usize, ElfError> {
    let header = read_file_header(file)?;
    Ok(read_section_headers(alloc, file, header)?.len())
}

/// How many bytes the names of its sections have.
fn names_size(alloc: Global, file: &[u8]) -> Result<usize, ElfError> {
    let header = read_file_header(file)?;
    let sections = read_section_headers(alloc, file, header)?;
    Ok(read_section_names(file, header, sections.as_slice())?.len())
}

/// The three.
type Sizes = [Result<usize, ElfError>; 3];

/// Those of the program with other bytes.
fn sizes_of(alloc: Global, changes: &[(usize, u8)]) -> Sizes {
    let file = changed(&SMALL, changes);
    [
        segment_count(alloc, &file),
        section_count(alloc, &file),
        names_size(alloc, &file),
    ]
}

/// The file ends before the section headers.
const CUT_OFF: Result<usize, ElfError> = Err(ElfError::Eof { offset: 0xffb8 });

/// Changes of the program, and its sizes then.
const SIZES: [(&'static [(usize, u8)], Sizes); 4] = [
    (&IN_FIRST_SECTION, [Ok(3), Ok(7), Ok(0x3e)]),
    // e_shoff is outside the file: the program headers are still read
    (&[(41, 0xff)], [Ok(3), CUT_OFF, CUT_OFF]),
    // so are the section headers where e_phentsize is another
    (
        &[(54, 55)],
        [Err(ElfError::BadEntrySize { offset: 54 }), Ok(7), Ok(0x3e)],
    ),
    // e_shstrndx names no section
    (
        &[(62, 7)],
        [Ok(3), Ok(7), Err(ElfError::NoSuchSection { offset: 62 })],
    ),
];

#[test]
fn reads_each_part_that_is_whole(rt: HostRuntime) {
    for (changes, sizes) in &SIZES {
        assert!(rt; sizes_of(rt.alloc(), *changes) == *sizes);
    }
}
