ghost use Rattle.std.specs.Prelude.{◌≡◌, true, Option};
ghost use Rattle.rules.specs.Entries.{Entry, lawful_meaning, means_optional, means_count, means_value, means_bare};
ghost use Rattle.rules.specs.Taking.{testing};
ghost use Rattle.rules.specs.Records.{appended};

use entries::record::{kind_has_value, record_is_bare};
use rules::segment::PathSegment;

// A segment kind. Its meaning is one entry, or none. Of an implementation only `optional`, `test` and `generate_path` are asked.
pub trait PossibleRouteMatch {
    // the entry that it means, or none
    ghost meaning: { Self → Option Entry };

    // the entry keeps the rules of texts and names
    ghost abides: { (s : Self) → lawful_meaning (meaning s) ≡ true };

    // Whether it means an OptionalParam.
    fn optional(&self) -> bool
        ensures { result ≡ means_optional (meaning self.now) };

    // The reading law: on a lawful path what the entry takes, as the bytes taken with the start and length of the value, both 0
    // without one; on any other path nothing but a refusal. With no entry, no bytes. Plain numbers, so that nothing is copied.
    fn test(&self, path: &[u8]) -> Option<(usize, usize, usize)>
        ensures { result ≡ testing (meaning self.now) path.now };

    // Appends its entry to the `at` entries of `path`, if it has one and the buffer has room, and answers how many it has.
    // The place stands beside the buffer, since it may be any, past the end too: without it a caller would have to cut the buffer.
    fn generate_path(&self, path: &mut [PathSegment], at: usize) -> usize
        ensures count { result ≡ means_count (meaning self.now) }
        ensures entries { path.new ≡ appended path.old at (meaning self.now) };

    // How many entries it has, 0 or 1.
    fn entry_count(&self) -> usize
        ensures { result ≡ means_count (meaning self.now) }
    {
        self.generate_path(&mut [], 0)
    }

    // Whether its entry has a value.
    fn has_value(&self) -> bool
        ensures { result ≡ means_value (meaning self.now) }
    {
        let mut entry = [PathSegment::ZERO];
        let _ = self.generate_path(&mut entry, 0);
        kind_has_value(entry[0].kind)
    }

    // Whether its entry is the bare slash.
    fn is_bare(&self) -> bool
        ensures { result ≡ means_bare (meaning self.now) }
    {
        let mut entry = [PathSegment::ZERO];
        let _ = self.generate_path(&mut entry, 0);
        record_is_bare(entry[0])
    }
}
