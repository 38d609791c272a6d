//! The binary search table of `.eh_frame_hdr` (LSB, `.eh_frame_hdr`), read in place.
ghost use Rattle.std.specs.Prelude.{◌≡◌, ◌<◌, ◌≤◌, ◌+◌, ◌*◌, ◌^◌, IfOk, IfSome, IfNone, IsOk, IsErr};
ghost use Rattle.framehop_bytes.specs.Place.{place_of, IsPlace};
ghost use Rattle.framehop_cfi.specs.Header.{size_of_format, table_size, encoded_at, encodings_at, layout_of, start_of_row, fde_of_row, starts_of, fde_offset_of, fde_offset_in, IsOfRowFor, value_or_zero};
ghost use Rattle.framehop_cfi.specs.Pointer.{pointer_at};

use crate::numbers::{read_u8, read_u32};
use crate::pointer::{
    DW_EH_PE_DATAREL, DW_EH_PE_FUNCREL, DW_EH_PE_INDIRECT, DW_EH_PE_PCREL, DW_EH_PE_SDATA2,
    DW_EH_PE_SDATA4, DW_EH_PE_SDATA8, DW_EH_PE_UDATA2, DW_EH_PE_UDATA4, DW_EH_PE_UDATA8,
    SectionBaseAddresses, read_raw_pointer, sign_extend_32,
};
use crate::read_error::ReadError;
use framehop_bytes::place::{Starts, place};
use std::marker::Model;

/// Signed numbers of four bytes that count from the data: the encoding of the table that linkers write.
const LINKERS_ENCODING: u8 = DW_EH_PE_DATAREL | DW_EH_PE_SDATA4;

/// Where the header's table lies, and how it is encoded.
#[derive(Clone, Copy)]
pub struct TableLayout {
    /// Where `.eh_frame` begins, an SVMA.
    eh_frame_pointer: u64,
    /// The encoding of the table's addresses.
    encoding: u8,
    /// The size of each of them in bytes.
    size: usize,
    /// How many rows there are.
    count: usize,
    /// The offset of the first row.
    rows: usize,
}

impl Model for TableLayout {
    ghost use Rattle.framehop_cfi.specs.Layout.{Layout, HasRows};

    ghost Value = { Layout };

    ghost view = { λ layout. record {
      eh_frame_pointer = layout.eh_frame_pointer;
      encoding = layout.encoding;
      size = layout.size;
      count = layout.count;
      rows = layout.rows;
    } };

    ghost invariant = { λ layout. HasRows (record {
      eh_frame_pointer = layout.eh_frame_pointer;
      encoding = layout.encoding;
      size = layout.size;
      count = layout.count;
      rows = layout.rows;
    }) };

    ghost inverse = { λ layout. record {
      eh_frame_pointer = layout.eh_frame_pointer;
      encoding = layout.encoding;
      size = layout.size;
      count = layout.count;
      rows = layout.rows;
    } };
}

/// The table of a header, over the section's bytes.
#[derive(Clone, Copy)]
struct Table<'a> {
    bytes: &'a [u8],
    bases: SectionBaseAddresses,
    layout: TableLayout,
}

impl<'a> Starts for Table<'a> {
    ghost starts = { λ table. starts_of table.bases table.layout table.bytes.now };

    #[tactic(auto, unfolding(crate::specs::Header::starts_of))]
    fn count(&self) -> usize {
        self.layout.count()
    }

    #[tactic(auto, unfolding(crate::specs::Header::starts_of, crate::specs::Header::start_of_row))]
    fn start(&self, index: usize) -> u64 {
        self.number_at(self.layout.row(index))
    }
}

/// A header that can be read, over the section's bytes.
#[derive(Drop)]
pub struct EhFrameHdr<'a> {
    table: Table<'a>,
}

impl<'a> Model for EhFrameHdr<'a> {
    ghost use Rattle.framehop_cfi.specs.Header.{Header, layout_of};
    ghost use Rattle.std.specs.Prelude.{◌≡◌, Ok};

    ghost Value = { Header };

    ghost view = { λ header. record { bases = header.table.bases; bytes = header.table.bytes.now } };

    ghost invariant = { λ header. layout_of header.table.bases header.table.bytes.now ≡ Ok header.table.layout };
}

impl<'a> EhFrameHdr<'a> {
    /// Returns the header of a section, or `None` where it is not one that is read here.
    pub fn parse(bytes: &'a [u8], bases: SectionBaseAddresses) -> Option<EhFrameHdr<'a>>
        ensures read { IfSome result (λ header. header ≡ record { bases = bases; bytes = bytes.now }) }
        ensures some { IfSome result (λ _. IsOk (layout_of bases bytes.now)) }
        ensures none { IfNone result (IsErr (layout_of bases bytes.now)) }
    {
        match TableLayout::parse(bytes, &bases) {
            Ok(layout) => Some(EhFrameHdr {
                table: Table {
                    bytes,
                    bases,
                    layout,
                },
            }),
            Err(_) => None,
        }
    }

    /// Returns the offset in `.eh_frame` of the FDE in the row at an address's place. The FDE may not cover
    /// the address.
    #[tactic(auto, unfolding(crate::specs::Header::fde_offset_in))]
    pub fn fde_offset_for_address(&self, address: u64) -> Option<u32>
        ensures exact { result ≡ fde_offset_in self.now address }
        ensures law { IsOfRowFor self.now address result }
    {
        // apart: of the table it is proved for any layout, here for the one that the bytes have
        self.table.fde_offset_for_address(address)
    }
}

impl<'a> Table<'a> {
    /// Returns the offset in `.eh_frame` of the FDE in the row at an address's place. The FDE may not cover
    /// the address.
    fn fde_offset_for_address(&self, address: u64) -> Option<u32>
        ensures exact { result ≡ fde_offset_of self.now.bases self.now.layout self.now.bytes.now address }
        ensures law { IsPlace (starts_of self.now.bases self.now.layout self.now.bytes.now) address (place_of (starts_of self.now.bases self.now.layout self.now.bytes.now) address) }
    {
        let rows = self.layout.count();
        prove!(rows > 0);
        let fde = self.fde_address(place(self, address));
        let offset = fde.checked_sub(self.layout.eh_frame_pointer())?;
        u32::try_from(offset).ok()
    }

    /// Returns the address of the FDE in a row, an SVMA.
    #[tactic(auto, unfolding(crate::specs::Header::fde_of_row))]
    fn fde_address(&self, index: usize) -> u64
        requires { index < self.now.layout.count }
        ensures { result ≡ fde_of_row self.now.bases self.now.layout self.now.bytes.now index }
    {
        let row = self.layout.row(index);
        self.number_at(row + self.layout.size())
    }

    /// Returns the address that stands at an offset of the table.
    #[inline]
    fn number_at(&self, at: usize) -> u64
        ensures { result ≡ value_or_zero (pointer_at self.now.bases self.now.layout.encoding self.now.bytes.now at) }
    {
        if self.layout.encoding() == LINKERS_ENCODING {
            return data_relative_at(&self.bases, self.bytes, at);
        }
        match self
            .bases
            .read_pointer(self.bytes, at, self.layout.encoding())
        {
            Ok((address, _)) => address,
            Err(_) => 0,
        }
    }
}

impl TableLayout {
    /// Returns the layout that a header tells. Anything that is not read here is an error.
    #[tactic(auto, unfolding(crate::specs::Header::layout_of))]
    pub fn parse(bytes: &[u8], bases: &SectionBaseAddresses) -> Result<TableLayout, ReadError>
        ensures { result ≡ layout_of bases.now bytes.now }
    {
        let (version, next) = read_u8(bytes, 0)?;
        if version != 1 {
            return Err(ReadError::UnknownVersion);
        }
        TableLayout::parse_encodings(bytes, next, bases)
    }

    /// Returns the encodings after the version.
    #[tactic(auto, unfolding(crate::specs::Header::encodings_at))]
    fn parse_encodings(
        bytes: &[u8],
        at: usize,
        bases: &SectionBaseAddresses,
    ) -> Result<TableLayout, ReadError>
        ensures { result ≡ encodings_at bases.now bytes.now at }
    {
        let (pointer_encoding, next) = read_u8(bytes, at)?;
        let (count_encoding, next) = read_u8(bytes, next)?;
        let (table_encoding, next) = read_u8(bytes, next)?;
        if pointer_encoding >= DW_EH_PE_INDIRECT || count_encoding >= DW_EH_PE_PCREL {
            return Err(ReadError::BadEncoding);
        }
        TableLayout::parse_table(
            bytes,
            next,
            bases,
            pointer_encoding,
            count_encoding,
            table_encoding,
        )
    }

    /// Returns the pointer, the count and the table after the encodings.
    #[tactic(auto, unfolding(crate::specs::Header::encoded_at))]
    fn parse_table(
        bytes: &[u8],
        at: usize,
        bases: &SectionBaseAddresses,
        pointer_encoding: u8,
        count_encoding: u8,
        table_encoding: u8,
    ) -> Result<TableLayout, ReadError>
        ensures { result ≡ encoded_at bases.now pointer_encoding count_encoding table_encoding bytes.now at }
    {
        let (eh_frame_pointer, next) = bases.read_pointer(bytes, at, pointer_encoding)?;
        let (count, rows) = read_raw_pointer(bytes, next, count_encoding)?;
        let size = size_of_format(table_encoding)?;
        let count = count as usize;
        if count == 0 || rows > bytes.len() || count > (bytes.len() - rows) / (2 * size) {
            return Err(ReadError::Eof);
        }
        Ok(TableLayout {
            eh_frame_pointer,
            encoding: table_encoding,
            size,
            count,
            rows,
        })
    }

    /// Returns where `.eh_frame` begins, an SVMA.
    pub fn eh_frame_pointer(&self) -> u64
        ensures { result ≡ self.now.eh_frame_pointer }
    {
        self.eh_frame_pointer
    }

    /// Returns the encoding of the table's addresses.
    pub fn encoding(&self) -> u8
        ensures { result ≡ self.now.encoding }
    {
        self.encoding
    }

    /// Returns the size of the table's addresses in bytes.
    pub fn size(&self) -> usize
        ensures { result ≡ self.now.size }
    {
        self.size
    }

    /// Returns how many rows there are: one at least, and fewer than 2^63.
    pub fn count(&self) -> usize
        ensures count { result ≡ self.now.count }
        ensures some { 0 < result }
        ensures few { result < 2 ^ 63 }
    {
        self.count
    }

    /// Returns the offset of a row.
    pub fn row(&self, index: usize) -> usize
        requires { index < self.now.count }
        ensures row { result ≡ self.now.rows + 2 * self.now.size * index }
        ensures fits { result + self.now.size < 2 ^ 64 }
    {
        self.rows + 2 * self.size * index
    }
}

/// Returns the address at an offset of a table in the encoding that linkers write.
#[inline]
#[tactic(auto, unfolding(crate::specs::Pointer::pointer_at, crate::specs::Raw::raw_at))]
fn data_relative_at(bases: &SectionBaseAddresses, bytes: &[u8], at: usize) -> u64
    ensures { result ≡ value_or_zero (pointer_at bases.now LINKERS_ENCODING bytes.now at) }
{
    match read_u32(bytes, at) {
        Ok((number, _)) => bases.data.wrapping_add(sign_extend_32(number)),
        Err(_) => 0,
    }
}

/// Returns the size of a table's numbers, by their format.
fn size_of_format(encoding: u8) -> Result<usize, ReadError>
    ensures exact { result ≡ table_size encoding }
    ensures small { IfOk result (λ size. (0 < size) × (size ≤ 8)) }
{
    if encoding >= DW_EH_PE_FUNCREL {
        return Err(ReadError::BadEncoding);
    }
    match encoding % 16 {
        DW_EH_PE_UDATA2 | DW_EH_PE_SDATA2 => Ok(2),
        DW_EH_PE_UDATA4 | DW_EH_PE_SDATA4 => Ok(4),
        DW_EH_PE_UDATA8 | DW_EH_PE_SDATA8 => Ok(8),
        _ => Err(ReadError::BadEncoding),
    }
}
