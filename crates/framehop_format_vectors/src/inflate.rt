//! Streams that zlib wrote, one for each kind of block, in ELF's compressed sections, and what they stand for.
use framehop_inflate::inflate_error::InflateError;
use framehop_inflate::section::inflate_section;
use std::alloc::Global;

const FIXED: [u8; 13] = [120, 1, 75, 76, 74, 78, 132, 33, 0, 29, 224, 4, 153];

const STORED: [u8; 19] = [
    120, 1, 1, 8, 0, 247, 255, 102, 114, 97, 109, 101, 104, 111, 112, 14, 215, 3, 83,
];

const DYNAMIC: [u8; 68] = [
    120, 218, 13, 203, 177, 9, 0, 48, 12, 3, 193, 151, 141, 192, 77, 74, 47, 160, 253, 135, 140,
    43, 241, 136, 227, 33, 108, 111, 223, 208, 253, 136, 21, 61, 10, 216, 161, 87, 29, 70, 246,
    168, 180, 178, 232, 217, 187, 34, 82, 201, 92, 73, 122, 158, 163, 39, 187, 151, 154, 108, 10,
    31, 231, 3, 133, 86, 3, 30,
];

const DYNAMIC_BYTES: [u8; 96] = [
    0, 13, 0, 1, 0, 5, 5, 5, 21, 3, 1, 0, 5, 0, 3, 3, 13, 0, 34, 5, 1, 34, 1, 13, 0, 2, 0, 0, 0,
    21, 8, 0, 3, 21, 1, 3, 34, 0, 8, 1, 5, 5, 8, 1, 2, 1, 21, 1, 5, 1, 0, 3, 8, 21, 0, 0, 21, 34,
    1, 0, 34, 2, 34, 34, 8, 3, 8, 21, 1, 1, 1, 13, 5, 8, 3, 13, 0, 5, 1, 34, 3, 3, 21, 0, 2, 8, 34,
    21, 34, 2, 0, 5, 21, 8, 0, 0,
];

/// The header of a compressed section of zlib's kind, `Elf64_Chdr`, that stands for so many bytes.
fn header(size: u8) -> [u8; 24] {
    let mut header = [0; 24];
    header[0] = 1;
    header[8] = size;
    header
}

/// What a section of a stream stands for.
fn inflate(alloc: Global, stream: &[u8], size: u8) -> Result<Vec<u8>, InflateError> {
    let mut section = Vec::from_slice(alloc, &header(size))?;
    section.extend_from_slice(stream)?;
    inflate_section(alloc, section.as_slice())
}

#[test]
fn fixed_codes_and_copies(rt: HostRuntime) {
    let out = inflate(rt.alloc(), &FIXED, 12);
    assert!(rt; matches!(&out, Ok(bytes) if bytes.as_slice() == b"abcabcabcabc".as_slice()));
    assert!(rt; inflate(rt.alloc(), &FIXED, 11) == Err(InflateError::WrongSize));
    assert!(rt; inflate(rt.alloc(), &FIXED, 13) == Err(InflateError::WrongSize));
    assert!(rt; inflate(rt.alloc(), &FIXED[..5], 12) == Err(InflateError::Truncated));
}

#[test]
fn stored_bytes(rt: HostRuntime) {
    let out = inflate(rt.alloc(), &STORED, 8);
    assert!(rt; matches!(&out, Ok(bytes) if bytes.as_slice() == b"framehop".as_slice()));
}

#[test]
fn codes_at_the_head(rt: HostRuntime) {
    let out = inflate(rt.alloc(), &DYNAMIC, 96);
    assert!(rt; matches!(&out, Ok(bytes) if bytes.as_slice() == DYNAMIC_BYTES.as_slice()));
}

#[test]
fn kinds_of_section(rt: HostRuntime) {
    let mut section = [0; 43];
    section[0] = 1;
    section[8] = 8;
    section[24..].copy_from_slice(&STORED);
    let out = inflate_section(rt.alloc(), &section);
    assert!(rt; matches!(&out, Ok(bytes) if bytes.as_slice() == b"framehop".as_slice()));
    section[0] = 2;
    assert!(rt; inflate_section(rt.alloc(), &section) == Err(InflateError::BadHeader));
    section[0] = 1;
    section[24 + 19 - 1] ^= 1;
    assert!(rt; inflate_section(rt.alloc(), &section) == Err(InflateError::WrongChecksum));
}
