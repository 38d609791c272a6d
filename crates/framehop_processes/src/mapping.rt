//! Mappings of files into the memory of a process.
/// A mapping of a part of a file, that can be executed, into the memory of a process.
#[derive(Clone, Copy, PartialEq, Eq)]
pub struct Mapping {
    /// The first address (AVMA).
    pub start: u64,
    /// The address after the last (AVMA).
    pub end: u64,
    /// The base of its module's relative addresses (AVMA), which a part of the mapping has too.
    pub base_avma: u64,
    /// The number of the file, by which its module is made.
    pub file: u32,
    /// Whether its module has the unwind sections of the file.
    pub has_sections: bool,
}
