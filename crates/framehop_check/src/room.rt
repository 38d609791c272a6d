//! How much of a file is checked: as much as FDEs take that do not share code, and few instructions of CIEs.
ghost use Rattle.std.specs.Prelude.{◌≡◌};
ghost use Rattle.framehop_check.specs.Room.{room_of, instructions_of, is_enough, room_after};

use framehop_cfi::entry::FrameDescriptionEntry;

/// How much is checked yet.
#[derive(Clone, Copy)]
pub struct Room {
    /// Bytes of code.
    pub code: usize,
    /// Bytes of instructions of CIEs, those of an FDE's at each FDE.
    pub instructions: usize,
}

impl Room {
    /// Returns the room for a file whose section of rows has a size, in bytes as the file's. In a file that a linker wrote no
    /// FDE shares code with another, and the instructions of a CIE take fewer bytes than an FDE.
    pub fn new(file_size: usize, section_size: usize) -> Self
        ensures { result ≡ room_of file_size section_size }
    {
        Room {
            code: file_size.saturating_mul(2),
            instructions: section_size.saturating_mul(4),
        }
    }

    /// Takes the room that an FDE needs with its code, in bytes. Returns whether there is so much; if not, none is taken.
    pub fn take(&mut self, fde: &FrameDescriptionEntry, code_size: usize) -> bool
        ensures taken { result ≡ is_enough self.old fde.now code_size }
        ensures left { self.new ≡ room_after self.old fde.now code_size }
    {
        let instructions = instructions_of(fde);
        if code_size > self.code || instructions > self.instructions {
            return false;
        }
        self.code -= code_size;
        self.instructions -= instructions;
        true
    }
}

/// Returns how many bytes the instructions of an FDE's CIE take.
fn instructions_of(fde: &FrameDescriptionEntry) -> usize
    ensures { result ≡ instructions_of fde.now }
{
    fde.cie.end.saturating_sub(fde.cie.instructions)
}
