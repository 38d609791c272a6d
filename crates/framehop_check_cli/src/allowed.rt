//! Functions of which no alarm is told.
ghost use Rattle.std.specs.Prelude.{◌≡◌, nat_eq, option_map};
ghost use Rattle.std.specs.Cmp.Lexicographic.{pointwise};
ghost use Rattle.framehop_check_cli.specs.Findings.{is_allowed, is_listed};

use std::alloc::{AllocError, Global};

/// Names of functions, as a file has them: one a line. Empty lines and those that begin with `#` name none.
#[derive(Drop)]
pub struct Allowed<'a> {
    names: Vec<&'a [u8]>,
}

impl<'a> Allowed<'a> {
    /// Returns the names of a file.
    pub fn new(alloc: Global, list: &'a [u8]) -> Result<Self, AllocError> {
        let mut names = Vec::new(alloc);
        for line in list.split(|byte| *byte == b'\n') {
            let name = trimmed(line);
            if !name.is_empty() && name[0] != b'#' {
                names.push(name)?;
            }
        }
        Ok(Allowed { names })
    }

    /// Returns whether a function may have alarms: one whose name is among them.
    pub fn allows(&self, function: Option<(&str, u64)>) -> bool
        ensures { result ≡ is_allowed self.now (option_map (λ name. (name.0.now, name.1)) function.entry) }
    {
        match function {
            Some((name, _)) => self.has(name.as_bytes()),
            None => false,
        }
    }

    /// Returns whether a name is among them.
    fn has(&self, name: &[u8]) -> bool
        ensures { result ≡ is_listed self.now name.now }
    {
        self.names.iter().any(|one| is_same(one, name))
    }
}

/// Returns whether two names are the same.
fn is_same(one: &[u8], other: &[u8]) -> bool
    ensures { result ≡ pointwise nat_eq one.now other.now }
{
    one == other
}

/// Returns the bytes without spaces, tabs and carriage returns around them.
fn trimmed(line: &[u8]) -> &[u8] {
    line.trim_ascii()
}
