//! Compressed sections: a zlib stream (RFC 1950) of deflate blocks (RFC 1951), as ELF's compressed sections have it.
#![tactic(auto)]

mod adler;
mod bits;
mod block;
mod codes;
mod copies;
mod dynamic;
pub mod inflate_error;
pub mod section;
mod stored;
mod zlib;
