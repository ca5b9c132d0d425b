ghost use Rattle.std.specs.Prelude.{◌≡◌, min, length, map, filter, None, slice_get, slice_index_or};
ghost use Rattle.std.specs.Str.{bytes_eq};
ghost use Rattle.std.specs.Option.{option_map};
ghost use Rattle.std.specs.Result.{result_err};
ghost use Rattle.rules.specs.Places.{entry_of};
ghost use Rattle.entries.specs.Listed.{listed};
ghost use Rattle.rules.specs.TextParts.{bytes_in};
ghost use Rattle.rules.specs.Values.{value_fault, named_from, value_of, choices_for, path_choices};

use crate::entry::{Entry, entry_at};
use entries::list::EntryList;
use entries::record::kind_has_value;
use rules::refusal::{Cause, EntryFault};
use rules::values::ValueRecord;

// One path more than can be numbered: counts stop there.
pub const MANY_PATHS: usize = 65536;

// A table of values: its records, and the text that their places are in.
#[derive(Clone, Copy)]
pub struct ValueTable<'a> {
    pub records: &'a [ValueRecord],
    pub text: &'a [u8],
}

impl<'a> ValueTable<'a> {
    // The first record of which a place lies outside the text.
    pub(crate) fn check(self) -> Result<(), EntryFault>
        ensures { result_err result ≡ value_fault self.entry.text.now 0 self.entry.records.now }
    {
        let first = self
            .records
            .iter()
            .position(|record| record.is_outside(self.text));
        match first {
            Some(number) => Err(EntryFault {
                number,
                cause: Cause::Place,
            }),
            None => Ok(()),
        }
    }

    // How many records have a name.
    fn count_named(self, name: &[u8]) -> usize
        ensures { result ≡ length (named_from self.entry.text.now name.now 0 self.entry.records.now) }
    {
        self.records
            .iter()
            .filter(|record| record.is_named(self.text, name))
            .count()
    }

    // The value of the n-th record that has a name.
    fn nth_value(self, name: &[u8], n: usize) -> Option<&'a [u8]>
        ensures { option_map (λ x. x.now) result ≡ slice_get (map (λ r. bytes_in self.entry.text.now r.value) (filter (λ r. bytes_eq (bytes_in self.entry.text.now r.name) name.now) self.entry.records.now)) n }
    {
        self.records
            .iter()
            .filter(|record| record.is_named(self.text, name))
            .map(|record| record.value.bytes_in(self.text))
            .nth(n)
    }

    // How many choices an entry has: the records of its name, or one where it has no value.
    #[tactic(auto, using(crate::proofs::Steps::valued, rules::proofs::Named::somes_length))]
    pub(crate) fn choice_count(self, one: Entry) -> usize
        ensures { result ≡ length (choices_for self.entry.text.now self.entry.records.now (entry_of one.entry.kind one.entry.text.now)) }
    {
        if kind_has_value(one.kind) {
            self.count_named(one.text)
        } else {
            1
        }
    }

    // The value of the choice of a number for an entry; an entry without a value has none.
    // Not inlined: it is called at each step of a path, whose frame would hold the search through the table while the rest is written.
    #[inline(never)]
    #[tactic(auto, using(crate::proofs::Steps::valued, crate::proofs::Tables::nth_named))]
    pub(crate) fn chosen_value(self, one: Entry, n: usize) -> &'a [u8]
        ensures { result.now ≡ value_of self.entry.text.now self.entry.records.now (slice_index_or (choices_for self.entry.text.now self.entry.records.now (entry_of one.entry.kind one.entry.text.now)) n None) }
    {
        if kind_has_value(one.kind) {
            self.nth_value(one.text, n).unwrap_or(b"")
        } else {
            b""
        }
    }

    // How many choices a list has, or 65,536 where there are more. It goes once over the list, however many there are.
    #[tactic(auto, using(crate::proofs::Steps::choices_at, crate::proofs::Steps::capped_more))]
    pub(crate) fn count_choices(self, list: EntryList) -> usize
        ensures { result ≡ min (length (path_choices self.entry.text.now self.entry.records.now (listed list.entry))) 65536 }
    {
        let mut count = 1usize;
        for entry in list.entries {
            let own = self.choice_count(entry_at(*entry, list.text));
            count = count.saturating_mul(own).min(MANY_PATHS);
        }
        count
    }
}
