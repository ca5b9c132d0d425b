ghost use Rattle.std.specs.Prelude.{◌≡◌, ◌≤◌, true, IfOk};
ghost use Rattle.rules.specs.Entries.{lawful_entry};
ghost use Rattle.rules.specs.Records.{record_of, text_in};
ghost use Rattle.rules.specs.Refusals.{told, read_off};
ghost use Rattle.rules.specs.Places.{entry_in, entry_made, fault_alone};

use crate::check::{check_segment, is_unit};
use crate::record::record_of;
use rules::refusal::{Cause, EntryFault, Refusal};
use rules::segment::{PathSegment, SegmentKind};

// A lawful entry of any kind, held as the record that is given out of it.
#[derive(Clone, Copy)]
pub struct Segment {
    given: PathSegment,
    ghost short: { given.len ≤ 24 },
    ghost whole: { given ≡ record_of (entry_in given) },
    ghost lawful: { lawful_entry (entry_in given) ≡ true },
}

impl Segment {
    // An entry of a kind with a text or name, which a Unit has none of; or what is wrong with it.
    pub fn new(kind: SegmentKind, text: &[u8]) -> Result<Segment, Cause>
        ensures { read_off (λ s. entry_in s.given) result ≡ entry_made kind text.now }
    {
        check_segment(kind, text)?;
        if is_unit(kind) {
            return Ok(Segment {
                given: PathSegment::ZERO,
            });
        }
        Ok(Segment {
            given: record_of(kind, text),
        })
    }

    // The same for an entry that is handed over alone: refusal 9, with number 0 and the cause.
    pub fn alone(kind: SegmentKind, text: &[u8]) -> Result<Segment, Refusal>
        ensures made { told (read_off (λ s. entry_in s.given) result) ≡ fault_alone (entry_made kind text.now) }
        ensures kind { IfOk result (λ s. s.given.kind ≡ kind) }
    {
        Segment::new(kind, text).map_err(|cause| Refusal::BadEntry(EntryFault { number: 0, cause }))
    }

    // The record that is given out.
    pub fn record(&self) -> PathSegment
        ensures { result ≡ self.now.given }
    {
        self.given
    }

    // The kind.
    pub fn kind(&self) -> SegmentKind
        ensures { result ≡ self.now.given.kind }
    {
        self.given.kind
    }

    // The text or name.
    pub fn text(&self) -> &[u8]
        ensures { result.now ≡ text_in self.now.given }
    {
        let len = self.given.len as usize;
        &self.given.text[..len]
    }
}
