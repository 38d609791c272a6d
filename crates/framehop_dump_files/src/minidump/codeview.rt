//! Which file a module is of.
ghost use Rattle.std.specs.Prelude.{◌≡◌, Ok, Err, MatchResult, option_map};
ghost use Rattle.framehop_dump_files.specs.Minidump.CodeView.{codeview_view, codeview_in, codeview_of};

use crate::minidump::error::MinidumpError;
use crate::minidump::location::{Location, read_located};
use framehop_bytes::bytes::{back, front, u32_at};
use framehop_bytes::string::string_at;

/// "RSDS" as a little-endian number.
const RSDS: u32 = 0x53445352;

/// `MD_CVINFOELF_SIGNATURE`, of Breakpad: "LEpB" as a little-endian number.
const ELF: u32 = 0x4270454c;

/// The size of what is before the path of a record "RSDS", in bytes.
const RSDS_SIZE: usize = 24;

/// The file that a module is of: a CodeView record.
#[derive(Clone, Copy, Drop)]
pub enum CodeView<'a> {
    /// A file with a program database: the record "RSDS".
    Pdb {
        /// The GUID of the database, 16 bytes as they are in the file.
        guid: &'a [u8],
        /// How often it was written since it was made.
        age: u32,
        /// Its path, without the 0 after it.
        path: &'a [u8],
        /// The GUID and the age, 20 bytes as they are in the file: what the module's file must have in common with it.
        guid_and_age: &'a [u8],
    },
    /// An ELF file, by Breakpad.
    Elf {
        /// Its build id.
        build_id: &'a [u8],
    },
}

/// Reads which file a module is of, from the location of its CodeView record, or `None` where it has none,
/// or one of another kind.
///
/// # Errors
///
/// `Eof` where the file ends before the record does, and `ShortCodeView` where it ends before its fields do.
///
/// Source: Breakpad, `minidump_format.h`, `MDCVInfoPDB70` and `MDCVInfoELF`.
#[tactic(auto, unfolding(crate::specs::Minidump::CodeView::codeview_of))]
pub fn read_codeview<'a>(
    file: &'a [u8],
    location: Location,
) -> Result<Option<CodeView<'a>>, MinidumpError>
    ensures { MatchResult result
        (λ found. codeview_of file.entry.now location ≡ Ok (option_map codeview_view found))
        (λ error. codeview_of file.entry.now location ≡ Err error) }
{
    if location.size == 0 {
        return Ok(None);
    }
    let bytes = read_located(file, location)?;
    codeview_in(u64::from(location.offset), bytes)
}

/// Returns the file that the bytes of a record name, which are at an offset of the file.
#[tactic(auto, unfolding(crate::specs::Minidump::CodeView::codeview_in))]
fn codeview_in<'a>(offset: u64, bytes: &'a [u8]) -> Result<Option<CodeView<'a>>, MinidumpError>
    ensures { MatchResult result
        (λ found. codeview_in offset bytes.entry.now ≡ Ok (option_map codeview_view found))
        (λ error. codeview_in offset bytes.entry.now ≡ Err error) }
{
    if bytes.len() < 4 {
        return Err(MinidumpError::ShortCodeView { offset });
    }
    match u32_at(bytes, 0) {
        RSDS if bytes.len() < RSDS_SIZE => Err(MinidumpError::ShortCodeView { offset }),
        RSDS => Ok(Some(CodeView::Pdb {
            guid: front(back(bytes, 4), 16),
            age: u32_at(bytes, 20),
            path: string_at(bytes, 24),
            guid_and_age: front(back(bytes, 4), 20),
        })),
        ELF => Ok(Some(CodeView::Elf {
            build_id: back(bytes, 4),
        })),
        _ => Ok(None),
    }
}
