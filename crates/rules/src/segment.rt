use crate::values::TextPlace;

// The kinds of entries.
#[derive(Clone, Copy, PartialEq, Eq, Debug)]
pub enum SegmentKind {
    Unit,
    Static,
    Param,
    OptionalParam,
    Splat,
}

// An entry as it is given out: its kind, the length of its text or name, and 24 bytes of it, zero-filled.
// The length stands beside the bytes, since this is the fixed format of records, which need no heap.
#[derive(Clone, Copy, PartialEq, Eq, Debug)]
pub struct PathSegment {
    pub kind: SegmentKind,
    pub len: u8,
    pub text: [u8; 24],
}

impl PathSegment {
    // what an unused record holds, named for the same reason
    pub const ZERO: PathSegment = PathSegment {
        kind: SegmentKind::Unit,
        len: 0,
        text: [0; 24],
    };
}

// An entry as it is handed over: its kind, and the place of its text or name in a text beside it. A Unit has none: its place
// is ignored.
#[derive(Clone, Copy, PartialEq, Eq, Debug)]
pub struct EntryPlace {
    pub kind: SegmentKind,
    pub place: TextPlace,
}
