ghost use Rattle.std.specs.Prelude.{Some};
ghost use Rattle.rules.specs.Places.{entry_in};

use crate::kind::PossibleRouteMatch;
use crate::param_segments::{take_optional, take_param, take_splat};
use crate::static_segment::take_static;
use entries::path::is_lawful;
use entries::record::{append_record, kind_has_value};
use entries::segment::Segment;
use rules::segment::{PathSegment, SegmentKind};

// A lawful entry of any kind is a kind itself: lists that are made while the program runs are made of these.
impl PossibleRouteMatch for Segment {
    ghost meaning = { λ s. Some (entry_in s.given) };

    ghost abides = { λ s. s.lawful };

    fn optional(&self) -> bool {
        matches!(self.kind(), SegmentKind::OptionalParam)
    }

    fn test(&self, path: &[u8]) -> Option<(usize, usize, usize)> {
        if !is_lawful(path) {
            return None;
        }
        // a match, since these are all kinds, and which it is is known only now
        match self.kind() {
            SegmentKind::Unit => Some((0, 0, 0)),
            SegmentKind::Static => take_static(self.text(), path),
            SegmentKind::Param => take_param(path),
            SegmentKind::OptionalParam => take_optional(path),
            SegmentKind::Splat => take_splat(path),
        }
    }

    fn generate_path(&self, path: &mut [PathSegment], at: usize) -> usize {
        append_record(path, at, self.record())
    }

    fn entry_count(&self) -> usize {
        1
    }

    fn has_value(&self) -> bool {
        kind_has_value(self.kind())
    }

    fn is_bare(&self) -> bool {
        match self.kind() {
            SegmentKind::Static => matches!(self.text(), [b'/']),
            _ => false,
        }
    }
}
