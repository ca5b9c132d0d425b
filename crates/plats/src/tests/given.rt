// What a call that gives out records tells and leaves in its buffers, and what it should.
use entries::record::record_of;
use rules::refusal::Refusal;
use rules::segment::{PathSegment, SegmentKind};

#[derive(Clone, Copy, PartialEq, Eq, Debug)]
pub struct Given<R, B> {
    pub told: Result<R, Refusal>,
    pub left: B,
}

// An entry that stands in a buffer before a call.
pub fn old_entry() -> PathSegment {
    record_of(SegmentKind::Splat, b"old")
}
