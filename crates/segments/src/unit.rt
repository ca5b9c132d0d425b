ghost use Rattle.std.specs.Prelude.{None, refl};

use crate::kind::PossibleRouteMatch;
use rules::segment::PathSegment;

// No entry at all.
impl PossibleRouteMatch for () {
    ghost meaning = { λ _. None };

    ghost abides = { λ _. refl };

    fn optional(&self) -> bool {
        false
    }

    fn test(&self, _path: &[u8]) -> Option<(usize, usize, usize)> {
        Some((0, 0, 0))
    }

    fn generate_path(&self, _path: &mut [PathSegment], _at: usize) -> usize {
        0
    }

    fn has_value(&self) -> bool {
        false
    }

    fn is_bare(&self) -> bool {
        false
    }
}
