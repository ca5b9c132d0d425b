ghost use Rattle.std.specs.Prelude.{◌≡◌, Some};
ghost use Rattle.rules.specs.declared.refusal.Refusal.TheVariants.{BadEntry};
ghost use Rattle.rules.specs.Refusals.{numbered, name_of, cause_name, fault_text, refusal_text};

use std::error::Error;
use std::fmt;

// Why an entry is refused, in the order in which the causes are tested.
#[derive(Clone, Copy, PartialEq, Eq, Debug)]
pub enum Cause {
    // the first entry too many
    Count,
    // it lies outside its text
    Place,
    // a static text of more than 24 bytes, or a name of none or more than 24
    Length,
    // a static text with a slash after its first byte
    Slash,
}

// The first entry at fault in a list, or the first too many: its number from 0, and the cause.
#[derive(Clone, Copy, PartialEq, Eq, Debug)]
pub struct EntryFault {
    pub number: usize,
    pub cause: Cause,
}

// Why a call is refused.
#[derive(Clone, Copy, PartialEq, Eq, Debug)]
pub enum Refusal {
    // the path has more than 2,048 bytes
    LongPath,
    // the path is not empty and does not begin with a slash
    Unrooted,
    // a buffer has fewer records than the bound of levels or entries
    ShortOut,
    // no kept list is spelled
    NoRoute,
    // the id of a new route is 0, or stands in the book already
    BadId,
    // the named parent or route does not stand in the book
    NotStanding,
    // the parent is on a book's eighth level, or a nest would be a seventeenth
    TooDeep,
    // 128 routes stand in the book
    BookFull,
    // a list is too long, an entry breaks a rule, or it or a value record lies outside its text
    BadEntry(EntryFault),
    // a route that is given children has an OptionalParam beside another entry
    MixedParent,
    // an edit would leave more than 128 lines
    ManyLines,
    // the route to withdraw has children
    HasChildren,
    // the number of a line is not below their count
    NoLine,
    // a list to expand has more than 16 OptionalParams
    ManyOptionals,
    // the number of a variant or of a kept list is not below their count
    NoVariant,
    // a list to write has an OptionalParam
    HasOptional,
    // there are more than 65,535 paths
    ManyPaths,
    // the number of a path is not below their count
    NoPath,
    // the written path has more than 2,048 bytes, or more than its buffer
    NoFit,
}

impl Cause {
    // Its name, as it is shown: in small letters, other than by `Debug`.
    pub fn name(self) -> &'static str
        ensures { result.now ≡ cause_name self }
    {
        match self {
            Cause::Count => "count",
            Cause::Place => "place",
            Cause::Length => "length",
            Cause::Slash => "slash",
        }
    }
}

impl Refusal {
    // Its fixed number. A `match`, since a case that carries a value has no cast to a number.
    pub fn number(self) -> u8
        ensures { result ≡ (numbered self).0 }
    {
        match self {
            Refusal::LongPath => 1,
            Refusal::Unrooted => 2,
            Refusal::ShortOut => 3,
            Refusal::NoRoute => 4,
            Refusal::BadId => 5,
            Refusal::NotStanding => 6,
            Refusal::TooDeep => 7,
            Refusal::BookFull => 8,
            Refusal::BadEntry(_) => 9,
            Refusal::MixedParent => 10,
            Refusal::ManyLines => 11,
            Refusal::HasChildren => 12,
            Refusal::NoLine => 13,
            Refusal::ManyOptionals => 14,
            Refusal::NoVariant => 15,
            Refusal::HasOptional => 16,
            Refusal::ManyPaths => 17,
            Refusal::NoPath => 18,
            Refusal::NoFit => 19,
        }
    }

    // Its name, as it is shown: without the fault, other than by `Debug`.
    pub fn name(self) -> &'static str
        ensures { result.now ≡ name_of self }
    {
        match self {
            Refusal::LongPath => "LongPath",
            Refusal::Unrooted => "Unrooted",
            Refusal::ShortOut => "ShortOut",
            Refusal::NoRoute => "NoRoute",
            Refusal::BadId => "BadId",
            Refusal::NotStanding => "NotStanding",
            Refusal::TooDeep => "TooDeep",
            Refusal::BookFull => "BookFull",
            Refusal::BadEntry(_) => "BadEntry",
            Refusal::MixedParent => "MixedParent",
            Refusal::ManyLines => "ManyLines",
            Refusal::HasChildren => "HasChildren",
            Refusal::NoLine => "NoLine",
            Refusal::ManyOptionals => "ManyOptionals",
            Refusal::NoVariant => "NoVariant",
            Refusal::HasOptional => "HasOptional",
            Refusal::ManyPaths => "ManyPaths",
            Refusal::NoPath => "NoPath",
            Refusal::NoFit => "NoFit",
        }
    }
}

// The name. By hand, here and below: a derive would spell names and numbers a second time.
impl fmt::Display for Cause {
    ghost output = { λ c. Some (cause_name c) };

    fn fmt<W: fmt::Write>(&self, f: &mut fmt::Formatter<W>) -> fmt::Result {
        write!(f, "{}", self.name())
    }
}

// The number and the cause, as in `entry 2: slash`.
impl fmt::Display for EntryFault {
    ghost output = { λ e. Some (fault_text e) };

    fn fmt<W: fmt::Write>(&self, f: &mut fmt::Formatter<W>) -> fmt::Result {
        write!(f, "entry {}: {}", self.number, self.cause)
    }
}

// The number, the name and what is carried, as in `9 BadEntry (entry 2: slash)`.
impl fmt::Display for Refusal {
    ghost output = { λ r. Some (refusal_text r) };

    fn fmt<W: fmt::Write>(&self, f: &mut fmt::Formatter<W>) -> fmt::Result {
        write!(f, "{} {}", self.number(), self.name())?;
        // the bracket and the fault begin in one piece: a writer that has no room for it is left with the name alone
        if let Refusal::BadEntry(EntryFault { number, cause }) = self {
            write!(f, " (entry {number}: {cause})")?;
        }
        Ok(())
    }
}

impl Error for Refusal {}

// A fault in a list is refusal 9.
impl From<EntryFault> for Refusal {
    ghost from_gives = { λ e r. r ≡ BadEntry e };

    fn from(fault: EntryFault) -> Refusal {
        Refusal::BadEntry(fault)
    }
}
