ghost use Rattle.std.specs.Prelude.{◌≡◌, []};
ghost use Rattle.entries.specs.Listed.{listed};
ghost use Rattle.rules.specs.Entries.{is_optional};
ghost use Rattle.rules.specs.Keeping.{optionals};
ghost use Rattle.rules.specs.Places.{entry_of, entry_at};
ghost use Rattle.rules.specs.Writing.{is_silent, all_silent};

use entries::list::EntryList;
use rules::segment::{EntryPlace, SegmentKind};

// An entry of a list, with its text or name.
#[derive(Clone, Copy)]
pub(crate) struct Entry<'a> {
    pub kind: SegmentKind,
    pub text: &'a [u8],
}

// The entry at a place of a text.
pub(crate) fn entry_at(entry: EntryPlace, text: &[u8]) -> Entry<'_>
    ensures { entry_of result.kind result.text.now ≡ entry_at text.now entry }
{
    Entry {
        kind: entry.kind,
        text: entry.place.bytes_in(text),
    }
}

impl Entry<'_> {
    // Whether it writes nothing: Unit, and the empty static.
    fn is_silent(self) -> bool
        ensures { result ≡ is_silent (entry_of self.entry.kind self.entry.text.now) }
    {
        match self.kind {
            SegmentKind::Unit => true,
            SegmentKind::Static => self.text.is_empty(),
            SegmentKind::Param | SegmentKind::OptionalParam | SegmentKind::Splat => false,
        }
    }
}

// Whether all entries of a list do.
pub(crate) fn all_silent(list: EntryList) -> bool
    ensures { result ≡ all_silent (listed list.entry) }
{
    list.entries
        .iter()
        .all(|entry| entry_at(*entry, list.text).is_silent())
}

// Whether entries of a kind are optional.
fn is_optional(kind: SegmentKind) -> bool
    ensures { result ≡ is_optional (entry_of kind []) }
{
    matches!(kind, SegmentKind::OptionalParam)
}

// How many entries of a list are optional.
pub(crate) fn count_optionals(list: EntryList) -> usize
    ensures { result ≡ optionals (listed list.entry) }
{
    list.entries
        .iter()
        .filter(|entry| is_optional(entry.kind))
        .count()
}
