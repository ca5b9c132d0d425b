ghost use Rattle.std.specs.Prelude.{◌≡◌};
ghost use Rattle.std.specs.Result.{result_err};
ghost use Rattle.rules.specs.Places.{place_fault, numbered_fault, list_fault};

use crate::check::{check_segment, is_unit};
use rules::refusal::{Cause, EntryFault};
use rules::segment::EntryPlace;

// One entry that is handed over, beside its list's text: `EntryList` holds both. A Unit's place is ignored.
fn check_place(entry: EntryPlace, text: &[u8]) -> Result<(), Cause>
    ensures { result_err result ≡ place_fault text.now entry }
{
    if is_unit(entry.kind) {
        return Ok(());
    }
    let part = entry.place.part_of(text).ok_or(Cause::Place)?;
    check_segment(entry.kind, part)
}

// The same with the entry's number.
fn check_entry(number: usize, entry: EntryPlace, text: &[u8]) -> Result<(), EntryFault>
    ensures { result_err result ≡ numbered_fault text.now number entry }
{
    check_place(entry, text).map_err(|cause| EntryFault { number, cause })
}

// A list that is handed over: its entries, and the text that their places are in.
#[derive(Clone, Copy)]
pub struct EntryList<'a> {
    pub entries: &'a [EntryPlace],
    pub text: &'a [u8],
}

impl EntryList<'_> {
    // No more entries than `limit`, and then each of them, the first at fault told.
    #[tactic(auto, using(crate::proofs::FirstFault::first_faults))]
    pub fn check(self, limit: usize) -> Result<(), EntryFault>
        ensures { result_err result ≡ list_fault limit self.entry.text.now self.entry.entries.now }
    {
        if self.entries.len() > limit {
            return Err(EntryFault {
                number: limit,
                cause: Cause::Count,
            });
        }
        for (i, entry) in self.entries.iter().enumerate() {
            check_entry(i, *entry, self.text)?;
        }
        Ok(())
    }
}
