//! Unwind info: its header, its codes and the info that it is chained to (Microsoft, "x64 exception
//! handling", struct UNWIND_INFO).
ghost use Rattle.std.specs.Prelude.{◌≡◌, Some, None, drop, MatchOption};
ghost use Rattle.std.specs.Iterator.{YieldsFirst, item_count};
ghost use Rattle.framehop_pe.specs.Codes.{read_codes};
ghost use Rattle.framehop_pe.specs.Info.{header_of, frame_register_of, shown, chained_of, info_of, read_by, is_stack_pointer, left_codes, from_first, sets_frame, skips_frame};

use super::function_table::RuntimeFunction;
use super::operation::{UnwindCode, UnwindOperation, read_code};
use super::register::register_of;
use framehop_core::x86_64::Reg;

const UNW_FLAG_CHAININFO: u8 = 4;

/// The frame register of unwind info: the frame's base is its value less the offset.
#[derive(Clone, Copy)]
pub struct FrameRegister {
    /// The register.
    pub register: Reg,
    /// The offset in bytes, a multiple of 16.
    pub offset: u8,
}

impl FrameRegister {
    /// Reads the byte of a header that has the frame register, or `None` where it has none.
    #[tactic(auto, unfolding(crate::specs::Info::frame_register_of))]
    fn parse(byte: u8) -> Option<FrameRegister>
        ensures { result ≡ frame_register_of byte }
    {
        if byte % 16 == 0 {
            return None;
        }
        Some(FrameRegister {
            register: register_of(byte % 16),
            offset: byte / 16 * 16,
        })
    }
}

/// The header of unwind info, and the bytes after it, which are not judged yet.
#[derive(Clone, Copy)]
pub struct UnwindInfo<'a> {
    /// Whether the info is chained to another.
    pub is_chained: bool,
    /// How many slots of two bytes its codes have.
    pub code_count: u8,
    /// The frame register.
    pub frame_register: Option<FrameRegister>,
    /// The bytes after the header: the codes, then what the info is chained to.
    pub bytes: &'a [u8],
}

impl<'a> UnwindInfo<'a> {
    /// Reads the header at the front of these bytes, or `None` where they are too short or the
    /// version is not 1.
    #[tactic(auto, unfolding(crate::specs::Info::header_of))]
    pub fn parse(bytes: &'a [u8]) -> Option<UnwindInfo<'a>>
        ensures { MatchOption result
            (header_of bytes.now ≡ None)
            (λ info. header_of bytes.now ≡ Some (shown info)) }
    {
        let [version_and_flags, _, code_count, frame_register, rest @ ..] = bytes else {
            return None;
        };
        if *version_and_flags % 8 != 1 {
            return None;
        }
        Some(UnwindInfo {
            is_chained: *version_and_flags / 8 / UNW_FLAG_CHAININFO % 2 == 1,
            code_count: *code_count,
            frame_register: FrameRegister::parse(*frame_register),
            bytes: rest,
        })
    }

    /// Returns where the info lies that this one is chained to, a relative address, or `None` inside
    /// where it is not chained. `None` where the bytes are too short.
    #[tactic(auto, unfolding(crate::specs::Info::chained_of))]
    fn chained(&self) -> Option<Option<u32>>
        ensures { result ≡ chained_of (shown self.now) }
    {
        if !self.is_chained {
            return Some(None);
        }
        let slots = usize::from(self.code_count) + usize::from(self.code_count % 2);
        let function = RuntimeFunction::parse(skip_bytes(self.bytes, 2 * slots))?;
        Some(Some(function.unwind_info_address))
    }

    /// Reads the rest of the info, or `None` where it is too short, a code is unknown or rsp is the
    /// frame register.
    #[tactic(auto, unfolding(crate::specs::Info::info_of))]
    pub fn read(&self) -> Option<PrologInfo<'a>>
        ensures { MatchOption result
            (info_of (shown self.now) ≡ None)
            (λ info. info_of (shown self.now) ≡ Some (read_by info)) }
    {
        let frame_register = self.frame_register;
        let size = 2 * usize::from(self.code_count);
        if is_stack_pointer(frame_register) || self.bytes.len() < size {
            return None;
        }
        let (codes, _) = self.bytes.split_at(size);
        let codes = UnwindCodes {
            bytes: codes,
            has_frame_register: frame_register.is_some(),
        };
        if !codes.are_known() {
            return None;
        }
        let chained = self.chained()?;
        Some(PrologInfo {
            frame_register,
            codes,
            chained,
        })
    }
}

/// Returns whether rsp is the frame register.
fn is_stack_pointer(frame_register: Option<FrameRegister>) -> bool
    ensures { result ≡ is_stack_pointer frame_register }
{
    match frame_register {
        Some(frame) => matches!(frame.register, Reg::RSP),
        None => false,
    }
}

/// Unwind info that has been read: its codes are known to their end.
#[derive(Clone, Copy)]
pub struct PrologInfo<'a> {
    /// The frame register.
    pub frame_register: Option<FrameRegister>,
    /// The codes.
    pub codes: UnwindCodes<'a>,
    /// Where the info lies that this one is chained to, a relative address.
    pub chained: Option<u32>,
}

/// The codes of unwind info that are left to be read.
#[derive(Clone, Copy, Drop)]
pub struct UnwindCodes<'a> {
    /// The bytes of these codes.
    pub bytes: &'a [u8],
    /// Whether the info has a frame register.
    pub has_frame_register: bool,
}

impl<'a> UnwindCodes<'a> {
    /// Returns whether these bytes are codes to their end.
    pub(crate) fn are_known(&self) -> bool
        ensures { result ≡ (read_codes self.now.has_frame_register 0 self.now.bytes.now).1 }
    {
        let mut bytes = self.bytes;
        while let Some((_, size)) = read_code(bytes, self.has_frame_register) {
            bytes = skip_bytes(bytes, size);
        }
        bytes.is_empty()
    }

    /// Skips the codes before the first one whose offset is not beyond the address's offset in the
    /// function, in bytes, and returns whether one of them sets the frame register.
    pub fn skip_beyond(&mut self, offset: u32) -> bool
        ensures left { left_codes self.new ≡ from_first offset (left_codes self.old) }
        ensures frame { result ≡ skips_frame offset (left_codes self.old) }
    {
        let mut skips_frame = false;
        while let Some((code, size)) = read_code(self.bytes, self.has_frame_register) {
            if u32::from(code.offset_in_prolog) <= offset {
                break;
            }
            skips_frame |= sets_frame(code.operation);
            self.bytes = skip_bytes(self.bytes, size);
        }
        skips_frame
    }
}

impl<'a> Iterator for UnwindCodes<'a> {
    type Item = UnwindCode;

    ghost next_gives = { YieldsFirst left_codes };

    ghost remaining = { item_count left_codes };

    fn next(&mut self) -> Option<UnwindCode> {
        let (code, size) = read_code(self.bytes, self.has_frame_register)?;
        self.bytes = skip_bytes(self.bytes, size);
        Some(code)
    }
}

/// Returns whether the operation undoes the code that sets the frame register.
fn sets_frame(operation: UnwindOperation) -> bool
    ensures { result ≡ sets_frame operation }
{
    matches!(operation, UnwindOperation::RestoreSp)
}

/// Returns the bytes after the first ones, of which there may be fewer.
#[inline(always)]
pub fn skip_bytes(bytes: &[u8], size: usize) -> &[u8]
    ensures { result.now ≡ drop size bytes.entry.now }
{
    if size > bytes.len() {
        return &[];
    }
    let (_, rest) = bytes.split_at(size);
    rest
}
