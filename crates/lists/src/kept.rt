ghost use Rattle.std.specs.Prelude.{◌≡◌, ◌≤◌, length, if◌then◌else◌};
ghost use Rattle.rules.specs.Entries.{means_value, means_count};
ghost use Rattle.rules.specs.Taking.{testing};
ghost use Rattle.rules.specs.Keeping.{still_kept};
ghost use Rattle.rules.specs.Records.{put_front};
ghost use Rattle.rules.specs.Steps.{meaning_kept};

use entries::record::kept_record;
use rules::segment::PathSegment;
use segments::kind::PossibleRouteMatch;

// How many optional kinds are still to keep behind a kind, of `keep` before it, or None where it is dropped itself.
pub(crate) fn still_kept(optional: bool, keep: usize) -> Option<usize>
    ensures { result ≡ still_kept optional keep }
{
    if optional {
        keep.checked_sub(1)
    } else {
        Some(keep)
    }
}

// What a kind reads where it is kept: an OptionalParam as a Param.
pub(crate) fn test_kept<K: PossibleRouteMatch>(
    kind: &K,
    path: &[u8],
) -> Option<(usize, usize, usize)>
    ensures { result ≡ testing (meaning_kept (K.PossibleRouteMatch.meaning kind.now)) path.now }
{
    let (taken, start, len) = kind.test(path)?;
    if taken == 0 && kind.optional() {
        None
    } else {
        Some((taken, start, len))
    }
}

// How many values a kind has, 0 or 1: a number, as the records of values are counted with it.
pub(crate) fn value_count<K: PossibleRouteMatch>(kind: &K) -> usize
    ensures { result ≡ (if means_value (K.PossibleRouteMatch.meaning kind.now) then 1 else 0) }
{
    usize::from(kind.has_value())
}

// Puts the record of a kind, as it is kept, at the front of a buffer, and answers how many records that are.
pub(crate) fn put_kept<K: PossibleRouteMatch>(kind: &K, out: &mut [PathSegment]) -> usize
    requires { means_count (K.PossibleRouteMatch.meaning kind.now) ≤ length out.old }
    ensures count { result ≡ means_count (K.PossibleRouteMatch.meaning kind.now) }
    ensures entries { out.new ≡ put_front out.old (meaning_kept (K.PossibleRouteMatch.meaning kind.now)) }
{
    let own = kind.generate_path(out, 0);
    if own > 0 {
        out[0] = kept_record(out[0]);
    }
    own
}
