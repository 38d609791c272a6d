//! Signal frames and trampolines as other tools print them.

mod aarch64;
mod trampoline;
mod x86_64;
