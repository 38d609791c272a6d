//! The augmentation of a CIE (LSB, `.eh_frame`).
ghost use Rattle.std.specs.Prelude.{◌≡◌, ◌≢◌, Err, ◌≤◌, ◌<◌, ◌==◌, position, IfOk, IfSome, length};
ghost use Rattle.framehop_cfi.specs.Augmentation.{terminator_at, counted_at, letter_at, letters_at, augmentation_at, augmentation_data, personality_at};

use crate::leb128::read_uleb128;
use crate::numbers::read_u8;
use crate::pointer::{DW_EH_PE_OMIT, SectionBaseAddresses};
use crate::read_error::ReadError;

/// What a CIE's augmentation tells.
#[derive(Clone, Copy)]
pub(crate) struct Augmentation {
    /// How the FDEs encode their addresses.
    pub encoding: u8,
    /// Whether the FDEs have augmentation data.
    pub has_data: bool,
    /// The offset after the CIE's augmentation data.
    pub after_data: usize,
}

/// Returns where the zero byte stands that ends a text.
#[tactic(auto, unfolding(crate::specs::Augmentation::terminator_at))]
pub(crate) fn find_terminator(bytes: &[u8], at: usize) -> Result<usize, ReadError>
    ensures exact { result ≡ terminator_at bytes.now at }
    ensures within { IfOk result (λ terminator. (at ≤ terminator) × (terminator < length bytes.now)) }
    ensures memory { result ≢ Err ReadError.OutOfMemory }
{
    if at > bytes.len() {
        return Err(ReadError::Eof);
    }
    match first_zero(&bytes[at..]) {
        Some(count) => Ok(at + count),
        None => Err(ReadError::Eof),
    }
}

/// Returns the index of the first zero byte.
fn first_zero(bytes: &[u8]) -> Option<usize>
    ensures exact { result ≡ position (λ byte. byte == 0) bytes.now }
    ensures within { IfSome result (λ index. index < length bytes.now) }
{
    bytes.iter().position(|byte| *byte == 0)
}

impl SectionBaseAddresses {
    /// Returns the augmentation by its text's letters; `at` is where its data begins.
    pub(crate) fn read_augmentation(
        &self,
        letters: &[u8],
        bytes: &[u8],
        at: usize,
    ) -> Result<Augmentation, ReadError>
        ensures exact { result ≡ augmentation_at self.now letters.now bytes.now at }
        ensures memory { result ≢ Err ReadError.OutOfMemory }
    {
        match letters {
            [] => Ok(Augmentation {
                encoding: 0,
                has_data: false,
                after_data: at,
            }),
            [b'z', rest @ ..] => self.read_augmentation_data(rest, bytes, at),
            _ => Err(ReadError::UnknownAugmentation),
        }
    }

    /// Returns the augmentation data of the letters after `z`.
    #[tactic(auto, unfolding(crate::specs::Augmentation::augmentation_data))]
    fn read_augmentation_data(
        &self,
        letters: &[u8],
        bytes: &[u8],
        at: usize,
    ) -> Result<Augmentation, ReadError>
        ensures exact { result ≡ augmentation_data self.now letters.now bytes.now at }
        ensures memory { result ≢ Err ReadError.OutOfMemory }
    {
        let (start, end) = read_counted(bytes, at)?;
        let encoding = self.read_letters(letters, &bytes[..end], start)?;
        Ok(Augmentation {
            encoding,
            has_data: true,
            after_data: end,
        })
    }

    /// Returns the data of the letters, one after another: the pointer encoding that they leave.
    fn read_letters(&self, letters: &[u8], bytes: &[u8], at: usize) -> Result<u8, ReadError>
        ensures exact { result ≡ letters_at self.now letters.now bytes.now at 0 }
        ensures memory { result ≢ Err ReadError.OutOfMemory }
    {
        let mut encoding = 0;
        let mut next = at;
        for letter in letters {
            (encoding, next) = self.read_letter(*letter, bytes, next, encoding)?;
        }
        Ok(encoding)
    }

    /// Returns the data of one letter: the pointer encoding after it, and the offset after its data.
    fn read_letter(
        &self,
        letter: u8,
        bytes: &[u8],
        at: usize,
        encoding: u8,
    ) -> Result<(u8, usize), ReadError>
        ensures exact { result ≡ letter_at self.now letter bytes.now at encoding }
        ensures memory { result ≢ Err ReadError.OutOfMemory }
    {
        match letter {
            b'R' => read_u8(bytes, at),
            b'L' => {
                let (_, next) = read_u8(bytes, at)?;
                Ok((encoding, next))
            }
            b'P' => {
                let (_, next) = self.read_personality(bytes, at)?;
                Ok((encoding, next))
            }
            b'S' | b'B' | b'G' => Ok((encoding, at)),
            _ => Err(ReadError::UnknownAugmentation),
        }
    }

    /// Returns the personality routine's address, which is not used, and the offset after it.
    #[tactic(auto, unfolding(crate::specs::Augmentation::personality_at))]
    fn read_personality(&self, bytes: &[u8], at: usize) -> Result<(u64, usize), ReadError>
        ensures exact { result ≡ personality_at self.now bytes.now at }
        ensures memory { result ≢ Err ReadError.OutOfMemory }
    {
        let (encoding, next) = read_u8(bytes, at)?;
        if encoding == DW_EH_PE_OMIT {
            return Ok((0, next));
        }
        self.read_pointer(bytes, next, encoding)
    }
}

/// Returns data whose length stands before it: where it begins, and where it ends.
#[tactic(auto, unfolding(crate::specs::Augmentation::counted_at))]
pub(crate) fn read_counted(bytes: &[u8], at: usize) -> Result<(usize, usize), ReadError>
    ensures exact { result ≡ counted_at bytes.now at }
    ensures within { IfOk result (λ place. (at < place.0) × (place.0 ≤ place.1) × (place.1 ≤ length bytes.now)) }
    ensures memory { result ≢ Err ReadError.OutOfMemory }
{
    let (length, start) = read_uleb128(bytes, at)?;
    if start > bytes.len() || length > (bytes.len() - start) as u64 {
        return Err(ReadError::Eof);
    }
    Ok((start, start + length as usize))
}
