//! Worked examples of rows over whole register files, with the values that are to come out.

mod aarch64;
mod expressions;
mod frames;
mod runs;
mod x86_64;
