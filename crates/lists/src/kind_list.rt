ghost use Rattle.std.specs.Prelude.{◌≡◌, ◌+◌, ◌^◌, ◌<◌, ◌≤◌, true, List, length, is_some};
ghost use Rattle.rules.specs.Entries.{Entry, lawful_entries};
ghost use Rattle.rules.specs.Keeping.{optionals, kept_from, has_optional};
ghost use Rattle.rules.specs.Numbers.{capped};
ghost use Rattle.rules.specs.Records.{records_of, overlaid};
ghost use Rattle.rules.specs.Steps.{kept_entries, has_bare, list_takes, list_reads, read_into, room_after};

use entries::rest::Rest;
use rules::records::ParamRecord;
use rules::segment::PathSegment;

// A flat list of kinds. Its meaning is the list of their entries.
pub trait KindList {
    ghost entries: { Self → List Entry };

    // each entry keeps the rules of texts and names
    ghost abides: { (s : Self) → lawful_entries (entries s) ≡ true };

    // What is left of some room behind the entries, or None where there are more of them.
    fn room_after(&self, room: usize) -> Option<usize>
        ensures { result ≡ room_after (length (entries self.now)) room };

    // Whether a bare slash is among the entries.
    fn has_bare(&self) -> bool
        ensures { result ≡ has_bare (entries self.now) };

    // Whether an optional entry is among them.
    fn has_optional(&self) -> bool
        ensures { result ≡ has_optional (entries self.now) };

    // How many of the entries are optional, or the largest number where there are more.
    fn optional_count(&self) -> usize
        ensures { result ≡ capped (optionals (entries self.now)) };

    // How many bytes and how many values the list takes with `keep` of its optional entries kept, or None where one refuses.
    fn take(&self, keep: usize, rest: Rest<'_>) -> Option<(usize, usize)>
        requires { length (entries self.now) < 2 ^ 64 }
        ensures { result ≡ list_takes (kept_entries keep (entries self.now)) rest.entry.bytes.now };

    // Writes the records of the values over the front of `params`, or nothing and answers None where the list refuses the path. The
    // entries are numbered from `number`.
    fn read(
        &self,
        keep: usize,
        rest: Rest<'_>,
        number: usize,
        level: usize,
        params: &mut [ParamRecord],
    ) -> Option<()>
        requires room { length (entries self.now) ≤ length params.old }
        requires numbered { number + length (entries self.now) < 2 ^ 64 }
        ensures test { is_some result ≡ is_some (list_reads (kept_from number keep (entries self.now)) level rest.entry.start rest.entry.bytes.now) }
        ensures written { params.new ≡ read_into (list_reads (kept_from number keep (entries self.now)) level rest.entry.start rest.entry.bytes.now) params.old };

    // Writes the entries' records over the front of a buffer, and answers how many they are.
    fn generate(&self, out: &mut [PathSegment]) -> usize
        requires { length (entries self.now) ≤ length out.old }
        ensures count { result ≡ length (entries self.now) }
        ensures written { out.new ≡ overlaid out.old (records_of (entries self.now)) };

    // The same with `keep` of the optional entries kept, as parameters, and the others dropped.
    fn generate_kept(&self, keep: usize, out: &mut [PathSegment]) -> usize
        requires { length (entries self.now) ≤ length out.old }
        ensures count { result ≡ length (kept_entries keep (entries self.now)) }
        ensures written { out.new ≡ overlaid out.old (records_of (kept_entries keep (entries self.now))) };
}
