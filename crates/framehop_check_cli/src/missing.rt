//! The list of a file's code that no FDE covers.
ghost use Rattle.std.specs.Prelude.{◌≡◌, ◌++◌, nat_eq, string_bytes, IfOk, OnOk};
ghost use Rattle.framehop_check_cli.specs.Checked.{range_lines, listed_text, IsText};

use crate::file::{Checked, Opened, Options, Parts, Refusal, name_of, open};
use crate::text::{push_missing, push_shares};
use framehop_check::entries::{Fdes, ranges_of, read_fdes};
use framehop_check::missing::{Range, add_bounds, bytes_in, missing_ranges};
use framehop_check::sections::without_padding;
use framehop_code::aarch64::CodeAarch64;
use framehop_code::effect::Code;
use framehop_code::x86_64::CodeX86_64;
use framehop_object::elf::header::{EM_AARCH64, EM_X86_64};
use std::alloc::{AllocError, Global};

/// How many bytes of code a file has.
#[derive(Clone, Copy)]
pub struct Sizes {
    /// All of it.
    pub code: u64,
    /// What no FDE covers.
    pub missing: u64,
    /// What is listed of that, without padding.
    pub listed: u64,
    /// Entries that can't be read.
    pub unreadable: u64,
}

/// Returns the lines for the code of an ELF file that no FDE covers, and whether each entry was read, or why it can't be read.
pub fn list_missing(
    alloc: Global,
    path: &str,
    file: &[u8],
    options: Options,
) -> Result<Checked, AllocError> {
    match open(alloc, file) {
        Ok(opened) => match opened.machine {
            EM_X86_64 => list_opened::<CodeX86_64>(alloc, path, &opened, options),
            EM_AARCH64 => list_opened::<CodeAarch64>(alloc, path, &opened, options),
            machine => Ok(Checked::Refused(Refusal::Machine(machine))),
        },
        Err(refusal) => Ok(Checked::Refused(refusal)),
    }
}

/// Returns the lines for the code of a file that no FDE covers.
fn list_opened<C: Code>(
    alloc: Global,
    path: &str,
    opened: &Opened<'_>,
    options: Options,
) -> Result<Checked, AllocError> {
    let parts = &opened.parts;
    let fdes = fdes_of(alloc, opened)?;
    let mut covered = ranges_of(alloc, &fdes.list)?;
    let code = parts.code.ranges(alloc)?;
    add_bounds(&mut covered, &code)?;
    add_bounds(&mut covered, &parts.functions)?;
    let missing = missing_ranges(alloc, code, covered)?;
    let listed = without_padding::<C>(alloc, &parts.code, &missing)?;
    let sizes = Sizes {
        code: code_size(alloc, parts)?,
        missing: bytes_in(&missing),
        listed: bytes_in(&listed),
        unreadable: fdes.unreadable,
    };
    listed_text(alloc, path, parts, &listed, sizes, options)
}

/// Returns the FDEs of a file.
fn fdes_of(alloc: Global, opened: &Opened<'_>) -> Result<Fdes, AllocError> {
    match &opened.rows {
        Some(rows) => read_fdes(alloc, &rows.section()),
        None => Ok(Fdes {
            list: Vec::new(alloc),
            unreadable: 0,
        }),
    }
}

/// Returns how many bytes of code a file has; those that two sections have count once.
fn code_size(alloc: Global, parts: &Parts<'_>) -> Result<u64, AllocError> {
    let code = parts.code.ranges(alloc)?;
    let all = missing_ranges(alloc, code, Vec::new(alloc))?;
    Ok(bytes_in(&all))
}

/// Returns the lines for these ranges, and the summary.
fn listed_text(
    alloc: Global,
    path: &str,
    parts: &Parts<'_>,
    listed: &[Range],
    sizes: Sizes,
    options: Options,
) -> Result<Checked, AllocError>
    ensures { IfOk result (IsText (listed_text path.now parts.now listed.now sizes options) (nat_eq sizes.unreadable 0)) }
{
    let mut text = String::new(alloc);
    if !options.is_quiet {
        push_ranges(parts, listed, &mut text)?;
    }
    push_shares(path, sizes, &mut text)?;
    Ok(Checked::Text {
        text,
        is_good: sizes.unreadable == 0,
    })
}

/// Appends a line for each range.
fn push_ranges(parts: &Parts<'_>, ranges: &[Range], out: &mut String) -> Result<(), AllocError>
    ensures { OnOk result (string_bytes out.new ≡ string_bytes out.old ++ range_lines parts.now ranges.now) }
{
    for range in ranges {
        push_missing(name_of(parts, range.start), *range, out)?;
    }
    Ok(())
}
