//! Encoded pointers, and the addresses that they count from (LSB, "DWARF Exception Header Encoding").
ghost use Rattle.std.specs.Prelude.{◌≡◌, ◌≢◌, Err, IfErr, ◌<◌, IfOk};
ghost use Rattle.framehop_cfi.specs.Refusal.{IsSliceRefusal};
ghost use Rattle.framehop_cfi.specs.Raw.{raw_at, format_of, sign_extended};

use crate::leb128::{read_sleb128, read_uleb128};
use crate::numbers::{read_u16, read_u32, read_u64};
use crate::read_error::ReadError;

/// Where a module's sections lie, as stated virtual memory addresses (SVMA); 0 for one that is not there.
#[derive(Clone, Copy, Default, PartialEq, Eq)]
pub struct BaseAddresses {
    /// The start of `.eh_frame`.
    pub eh_frame: u64,
    /// The start of `.eh_frame_hdr`.
    pub eh_frame_hdr: u64,
    /// The start of the text.
    pub text: u64,
    /// The start of the global offset table.
    pub got: u64,
}

/// The addresses that a section's pointers count from (SVMA).
#[derive(Clone, Copy, PartialEq, Eq)]
pub struct SectionBaseAddresses {
    /// The section's first byte.
    pub section: u64,
    /// The text.
    pub text: u64,
    /// The data.
    pub data: u64,
}

/// An address of eight bytes, which counts from nothing.
pub(crate) const DW_EH_PE_ABSPTR: u8 = 0x00;

/// An unsigned LEB128 number.
pub(crate) const DW_EH_PE_ULEB128: u8 = 0x01;

/// An unsigned number of two bytes.
pub(crate) const DW_EH_PE_UDATA2: u8 = 0x02;

/// An unsigned number of four bytes.
pub(crate) const DW_EH_PE_UDATA4: u8 = 0x03;

/// An unsigned number of eight bytes.
pub(crate) const DW_EH_PE_UDATA8: u8 = 0x04;

/// A signed LEB128 number.
pub(crate) const DW_EH_PE_SLEB128: u8 = 0x09;

/// A signed number of two bytes.
pub(crate) const DW_EH_PE_SDATA2: u8 = 0x0a;

/// A signed number of four bytes.
pub(crate) const DW_EH_PE_SDATA4: u8 = 0x0b;

/// A signed number of eight bytes.
pub(crate) const DW_EH_PE_SDATA8: u8 = 0x0c;

/// A pointer counts from its own address.
pub(crate) const DW_EH_PE_PCREL: u8 = 0x10;

/// A pointer counts from the text.
pub(crate) const DW_EH_PE_TEXTREL: u8 = 0x20;

/// A pointer counts from the data.
pub(crate) const DW_EH_PE_DATAREL: u8 = 0x30;

/// A pointer counts from the start of its function, which is not read here.
pub(crate) const DW_EH_PE_FUNCREL: u8 = 0x40;

/// From this encoding on a pointer is not the value but the place of it.
pub(crate) const DW_EH_PE_INDIRECT: u8 = 0x80;

/// The encoding of a pointer that is not there.
pub(crate) const DW_EH_PE_OMIT: u8 = 0xff;

impl SectionBaseAddresses {
    ghost use Rattle.framehop_cfi.specs.Pointer.{base_of, application_of, pointer_at};

    /// Returns a pointer of that encoding. Whether it is indirect is not looked at.
    #[tactic(auto, unfolding(crate::specs::Pointer::pointer_at))]
    pub(crate) fn read_pointer(
        &self,
        bytes: &[u8],
        at: usize,
        encoding: u8,
    ) -> Result<(u64, usize), ReadError>
        ensures exact { result ≡ pointer_at self.now encoding bytes.now at }
        ensures forward { IfOk result (λ read. at < read.1) }
        ensures refusal { IfErr result IsSliceRefusal }
        ensures memory { result ≢ Err ReadError.OutOfMemory }
    {
        let base = self.base(at, encoding)?;
        let (raw, next) = read_raw_pointer(bytes, at, encoding)?;
        Ok((base.wrapping_add(raw), next))
    }

    /// Returns what a pointer at that offset counts from.
    fn base(&self, at: usize, encoding: u8) -> Result<u64, ReadError>
        ensures exact { result ≡ base_of self.now at (application_of encoding) }
        ensures refusal { IfErr result IsSliceRefusal }
        ensures memory { result ≢ Err ReadError.OutOfMemory }
    {
        match encoding / 16 % 8 * 16 {
            DW_EH_PE_ABSPTR => Ok(0),
            DW_EH_PE_PCREL => Ok(self.section.wrapping_add(at as u64)),
            DW_EH_PE_TEXTREL => Ok(self.text),
            DW_EH_PE_DATAREL => Ok(self.data),
            _ => Err(ReadError::BadEncoding),
        }
    }
}

/// Returns a pointer by its format only (the encoding's low four bits), as a number of 64 bits.
#[tactic(auto, unfolding(crate::specs::Raw::raw_at))]
pub(crate) fn read_raw_pointer(
    bytes: &[u8],
    at: usize,
    encoding: u8,
) -> Result<(u64, usize), ReadError>
    ensures exact { result ≡ raw_at (format_of encoding) bytes.now at }
    ensures forward { IfOk result (λ read. at < read.1) }
    ensures refusal { IfErr result IsSliceRefusal }
    ensures memory { result ≢ Err ReadError.OutOfMemory }
{
    match encoding % 16 {
        DW_EH_PE_ABSPTR | DW_EH_PE_UDATA8 | DW_EH_PE_SDATA8 => read_u64(bytes, at),
        DW_EH_PE_ULEB128 => read_uleb128(bytes, at),
        DW_EH_PE_UDATA2 => {
            let (number, next) = read_u16(bytes, at)?;
            Ok((u64::from(number), next))
        }
        DW_EH_PE_UDATA4 => {
            let (number, next) = read_u32(bytes, at)?;
            Ok((u64::from(number), next))
        }
        DW_EH_PE_SLEB128 => {
            let (number, next) = read_sleb128(bytes, at)?;
            Ok((number.cast_unsigned(), next))
        }
        DW_EH_PE_SDATA2 => {
            let (number, next) = read_u16(bytes, at)?;
            Ok((sign_extend_16(number), next))
        }
        DW_EH_PE_SDATA4 => {
            let (number, next) = read_u32(bytes, at)?;
            Ok((sign_extend_32(number), next))
        }
        _ => Err(ReadError::BadEncoding),
    }
}

/// Returns the signed number as one of 64 bits.
fn sign_extend_16(number: u16) -> u64
    ensures { result ≡ sign_extended 16 number }
{
    i64::from(number.cast_signed()).cast_unsigned()
}

/// Returns the signed number as one of 64 bits.
pub(crate) fn sign_extend_32(number: u32) -> u64
    ensures { result ≡ sign_extended 32 number }
{
    i64::from(number.cast_signed()).cast_unsigned()
}
