//! Why a file is not given.
ghost use Rattle.std.specs.Prelude.{◌≡◌};
ghost use Rattle.framehop_processes.specs.ReadRefusal.{refusal_text};

/// Why a source does not give the bytes of a file.
#[derive(Clone, Copy, Debug, PartialEq, Eq)]
pub enum ReadRefusal {
    /// There is no file of its name.
    NotThere,
    /// It was deleted, and no build id tells it from a later file of its path.
    Deleted,
    /// It is no regular file, or it is empty.
    NotRegular,
    /// A link leads out of the root, or it is in a folder of files that the kernel makes up.
    Outside,
    /// It was read by too many other names.
    ManyNames,
    /// Its name is not UTF-8.
    NotUtf8,
    /// The system refuses it, or it is too large: the source has said why.
    Refused,
}

impl ReadRefusal {
    /// Returns why, in words.
    pub fn text(self) -> &'static str
        ensures { result.now ≡ refusal_text self }
    {
        match self {
            ReadRefusal::NotThere => "there is no such file",
            ReadRefusal::Deleted => "it was deleted, and no build id tells its copies",
            ReadRefusal::NotRegular => "it is no regular file, or it is empty",
            ReadRefusal::Outside => "it is not below the root, or the kernel makes it up",
            ReadRefusal::ManyNames => "it was read by too many other names",
            ReadRefusal::NotUtf8 => "its name is not UTF-8",
            ReadRefusal::Refused => "it can't be read",
        }
    }
}
