ghost use Rattle.std.specs.Prelude.{◌≡◌, ⊤, Some};
ghost use Rattle.rules.specs.Records.{text_in};
ghost use Rattle.rules.specs.Refusals.{told, read_off};
ghost use Rattle.rules.specs.Places.{entry_of, entry_made, fault_alone};
ghost use Rattle.rules.proofs.RecordOf.{lawful_by_kind};

use crate::fixed_kind::{FixedKind, NamedKind};
use crate::kind::PossibleRouteMatch;
use entries::path::is_lawful;
use entries::record::append_record;
use entries::segment::Segment;
use rules::refusal::Refusal;
use rules::segment::PathSegment;
use std::alloc::AllocError;
use std::marker::PhantomData;

// A lawful entry whose kind its type tells.
pub struct OfKind<K: FixedKind> {
    segment: Segment,
    kind: PhantomData<K>,
    ghost named: { segment.given.kind ≡ K.KIND },
}

// By hand: no derive goes over a ghost field that cites a bound.
impl<K: FixedKind> Clone for OfKind<K> {
    ghost is_clone = { λ s r. r ≡ s };

    ghost is_infallible = { λ _. ⊤ };

    fn clone(&self) -> Result<OfKind<K>, AllocError> {
        Ok(*self)
    }
}

impl<K: FixedKind> Copy for OfKind<K> {}

impl<K: FixedKind> OfKind<K> {
    // Refusal 9 where a name has not 1 to 24 bytes, or a static text has more than 24, or a slash after its first.
    pub fn new(text: &[u8]) -> Result<OfKind<K>, Refusal>
        ensures { told (read_off (λ s. entry_of K.KIND (text_in s.segment.given)) result) ≡ fault_alone (entry_made K.KIND text.now) }
    {
        let segment = Segment::alone(K::KIND, text)?;
        Ok(OfKind {
            segment,
            kind: PhantomData,
        })
    }

    // Its text or name.
    pub(crate) fn text(&self) -> &[u8]
        ensures { result.now ≡ text_in self.now.segment.given }
    {
        self.segment.text()
    }
}

// What a named entry takes follows from its kind alone.
impl<K: NamedKind> PossibleRouteMatch for OfKind<K> {
    ghost meaning = { λ s. Some (entry_of K.KIND (text_in s.segment.given)) };

    ghost abides = { λ s. lawful_by_kind s.segment.given K.KIND s.named s.segment.lawful };

    fn optional(&self) -> bool {
        K::optional()
    }

    fn test(&self, path: &[u8]) -> Option<(usize, usize, usize)> {
        if is_lawful(path) { K::take(path) } else { None }
    }

    fn generate_path(&self, path: &mut [PathSegment], at: usize) -> usize {
        append_record(path, at, self.segment.record())
    }

    fn entry_count(&self) -> usize {
        1
    }

    fn has_value(&self) -> bool {
        true
    }

    fn is_bare(&self) -> bool {
        false
    }
}
