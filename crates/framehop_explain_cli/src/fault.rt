//! Where the input is wrong, and how.
ghost use Rattle.std.specs.Prelude.{◌≡◌, Some, option_map};
ghost use Rattle.framehop_explain_cli.specs.Faults.{holder_view, fault_view, wrong, wrong_item, within, in_command as in_this_command};
ghost use Rattle.framehop_explain_cli.specs.FaultText.{cause_text, item_text, holder_text, fault_text};

use std::fmt;

/// What is wrong with a value of the input.
#[derive(Clone, Copy)]
pub enum Cause {
    /// There is no such field.
    Missing,
    /// It is no text.
    NoText,
    /// It is no list.
    NoList,
    /// It is no object.
    NoObject,
    /// It is no whole number of 64 bits.
    NoNumber,
    /// It is not below a limit.
    NotBelow(u64),
    /// It is no text of 1 to 16 hexadecimal digits.
    NoAddress,
    /// It is a text of an odd number of digits.
    OddDigits,
    /// It has another character than hexadecimal digits.
    NoDigits,
    /// It is no list of a start and an end.
    NoRange,
    /// Another item of the list has the name.
    SameName,
    /// It is none of the words that are known.
    Unknown,
    /// A return address is 0.
    NullReturnAddress,
    /// There are only so many unwinders.
    NoUnwinder(u64),
    /// There are only so many caches.
    NoCache(u64),
}

impl fmt::Display for Cause {
    ghost output = { λ cause. Some (cause_text cause) };

    #[tactic(auto, unfolding(crate::specs::FaultText::cause_text))]
    fn fmt<W: fmt::Write>(&self, f: &mut fmt::Formatter<W>) -> fmt::Result {
        match *self {
            Cause::Missing => write!(f, "missing"),
            Cause::NoText => write!(f, "not a text"),
            Cause::NoList => write!(f, "not a list"),
            Cause::NoObject => write!(f, "not an object"),
            Cause::NoNumber => write!(f, "not a whole number of 64 bits"),
            Cause::NotBelow(limit) => write!(f, "not below {limit}"),
            Cause::NoAddress => write!(f, "not a text of 1 to 16 hexadecimal digits"),
            Cause::OddDigits => write!(f, "odd number of digits"),
            Cause::NoDigits => write!(f, "not hexadecimal digits"),
            Cause::NoRange => write!(f, "not a list of a start and an end"),
            Cause::SameName => write!(f, "the name of an item before it"),
            Cause::Unknown => write!(f, "not a word that is known here"),
            Cause::NullReturnAddress => write!(f, "a return address is not 0"),
            Cause::NoUnwinder(count) => write!(f, "no such unwinder: {count} were made before"),
            Cause::NoCache(count) => write!(f, "no such cache: there are {count}"),
        }
    }
}

/// What has a field: an object, or an item of a list.
#[derive(Clone, Copy)]
pub struct Parent {
    pub name: &'static str,
    pub item: Option<usize>,
}

/// A field of the input that is missing or wrong.
#[derive(Clone, Copy)]
pub struct Fault {
    /// The number of the command that has it.
    pub command: Option<usize>,
    /// What in the command has it, if not the command itself.
    pub parent: Option<Parent>,
    pub field: &'static str,
    /// The number of the item of the field that is wrong.
    pub item: Option<usize>,
    pub cause: Cause,
}

impl Fault {
    /// Returns a field that is missing or wrong.
    pub fn of(field: &'static str, cause: Cause) -> Self
        ensures { fault_view result ≡ wrong field.entry.now cause }
    {
        Fault {
            command: None,
            parent: None,
            field,
            item: None,
            cause,
        }
    }

    /// Returns an item of a list that is wrong.
    pub(crate) fn of_item(field: &'static str, item: usize, cause: Cause) -> Self
        ensures { fault_view result ≡ wrong_item field.entry.now item cause }
    {
        Fault {
            command: None,
            parent: None,
            field,
            item: Some(item),
            cause,
        }
    }

    /// Returns the same fault, in a field that is an object or in an item of one that is a list.
    pub fn below(self, name: &'static str, item: Option<usize>) -> Self
        ensures { fault_view result ≡ within name.entry.now item (fault_view self) }
    {
        Fault {
            parent: Some(Parent { name, item }),
            ..self
        }
    }

    /// Returns the same fault, in a command.
    pub(crate) fn in_command(self, command: usize) -> Self
        ensures { fault_view result ≡ in_this_command command (fault_view self) }
    {
        Fault {
            command: Some(command),
            ..self
        }
    }
}

/// The number of an item, if there is one.
#[derive(Clone, Copy)]
struct ItemNumber(Option<usize>);

impl fmt::Display for ItemNumber {
    ghost output = { λ item. Some (item_text item.0) };

    #[tactic(auto, unfolding(crate::specs::FaultText::item_text))]
    fn fmt<W: fmt::Write>(&self, f: &mut fmt::Formatter<W>) -> fmt::Result {
        match self.0 {
            Some(number) => write!(f, "[{number}]"),
            None => Ok(()),
        }
    }
}

/// What has a field, if it is not the command itself.
#[derive(Clone, Copy)]
struct Holder(Option<Parent>);

impl fmt::Display for Holder {
    ghost output = { λ holder. Some (holder_text (option_map holder_view holder.0)) };

    #[tactic(auto, unfolding(crate::specs::FaultText::holder_text))]
    fn fmt<W: fmt::Write>(&self, f: &mut fmt::Formatter<W>) -> fmt::Result {
        match self.0 {
            Some(parent) => {
                let item = ItemNumber(parent.item);
                write!(f, "{}{item}.", parent.name)
            }
            None => Ok(()),
        }
    }
}

impl fmt::Display for Fault {
    ghost output = { λ fault. Some (fault_text (fault_view fault)) };

    #[tactic(auto, unfolding(crate::specs::FaultText::fault_text))]
    fn fmt<W: fmt::Write>(&self, f: &mut fmt::Formatter<W>) -> fmt::Result {
        let holder = Holder(self.parent);
        let item = ItemNumber(self.item);
        write!(f, "{holder}{}{item}: {}", self.field, self.cause)
    }
}
