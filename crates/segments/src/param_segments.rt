ghost use Rattle.std.specs.Prelude.{◌≡◌, refl};
ghost use Rattle.std.specs.List.{prefix_len};
ghost use Rattle.rules.specs.declared.segment.SegmentKind.TheVariants.{Param as AParam, OptionalParam as AnOptionalParam, Splat as ASplat};
ghost use Rattle.rules.specs.Paths.{plain};
ghost use Rattle.rules.specs.Taking.{value_length, take_param, or_nothing, take_splat};

use crate::fixed_kind::{FixedKind, NamedKind};
use crate::of_kind::OfKind;
use rules::segment::SegmentKind;

// How many bytes come before the next slash, or the end. A loop with the index, by the project's rule for this place.
fn value_len(rest: &[u8]) -> usize
    ensures { result ≡ prefix_len plain rest.now }
{
    for (i, b) in rest.iter().enumerate() {
        if *b == b'/' {
            return i;
        }
    }
    rest.len()
}

// Whether the value of a parameter may have so many bytes.
fn value_fits(len: usize) -> bool
    ensures { result ≡ value_length len }
{
    len >= 1
}

// A slash and a value.
pub(crate) fn take_param(path: &[u8]) -> Option<(usize, usize, usize)>
    ensures { result ≡ take_param path.now }
{
    let [b'/', rest @ ..] = path else {
        return None;
    };
    let len = value_len(rest);
    value_fits(len).then_some((len + 1, 1, len))
}

// The same, or nothing in the place of a refusal.
pub(crate) fn take_optional(path: &[u8]) -> Option<(usize, usize, usize)>
    ensures { result ≡ or_nothing (take_param path.now) }
{
    take_param(path).or(Some((0, 0, 0)))
}

// Everything.
pub(crate) fn take_splat(path: &[u8]) -> Option<(usize, usize, usize)>
    ensures { result ≡ take_splat path.now }
{
    match path {
        [] => Some((0, 0, 0)),
        [_, rest @ ..] => Some((path.len(), 1, rest.len())),
    }
}

// A parameter that has to be there.
pub type ParamSegment = OfKind<Param>;

// Its kind.
#[derive(Clone, Copy)]
pub struct Param;

impl FixedKind for Param {
    ghost KIND = { AParam };

    const KIND: SegmentKind = SegmentKind::Param;
}

impl NamedKind for Param {
    ghost valued = { λ _. refl };

    ghost never_bare = { λ _. refl };

    fn optional() -> bool {
        false
    }

    fn take(path: &[u8]) -> Option<(usize, usize, usize)> {
        take_param(path)
    }
}

// A parameter that may be left out.
pub type OptionalParamSegment = OfKind<OptionalParam>;

// Its kind.
#[derive(Clone, Copy)]
pub struct OptionalParam;

impl FixedKind for OptionalParam {
    ghost KIND = { AnOptionalParam };

    const KIND: SegmentKind = SegmentKind::OptionalParam;
}

impl NamedKind for OptionalParam {
    ghost valued = { λ _. refl };

    ghost never_bare = { λ _. refl };

    fn optional() -> bool {
        true
    }

    fn take(path: &[u8]) -> Option<(usize, usize, usize)> {
        take_optional(path)
    }
}

// All that is left of a path.
pub type WildcardSegment = OfKind<Splat>;

// Its kind.
#[derive(Clone, Copy)]
pub struct Splat;

impl FixedKind for Splat {
    ghost KIND = { ASplat };

    const KIND: SegmentKind = SegmentKind::Splat;
}

impl NamedKind for Splat {
    ghost valued = { λ _. refl };

    ghost never_bare = { λ _. refl };

    fn optional() -> bool {
        false
    }

    fn take(path: &[u8]) -> Option<(usize, usize, usize)> {
        take_splat(path)
    }
}
