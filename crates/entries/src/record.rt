ghost use Rattle.std.specs.Prelude.{◌≡◌, take, slice_set};
ghost use Rattle.rules.specs.Entries.{longest_text};
ghost use Rattle.rules.specs.Records.{record_with, kind_has_value, record_is_bare, kind_as_kept};

use crate::filled::filled;
use rules::segment::{PathSegment, SegmentKind};

// The most bytes of a text or a name.
pub const LONGEST_TEXT: usize = 24;

// An entry's record: its kind and its text or name, zero-filled. Of a text that is too long it has the first 24 bytes.
pub fn record_of(kind: SegmentKind, text: &[u8]) -> PathSegment
    ensures { result ≡ record_with kind (take longest_text text.now) }
{
    PathSegment {
        kind,
        len: LONGEST_TEXT.min(text.len()) as u8,
        text: filled(text, 0),
    }
}

// Puts one record behind the `at` records of a buffer, if that has room, and answers how many there are: 1, as a kind answers it.
// The place stands beside the buffer for a kind's sake, which takes any.
pub fn append_record(path: &mut [PathSegment], at: usize, segment: PathSegment) -> usize
    ensures count { result ≡ 1 }
    ensures entries { path.new ≡ slice_set path.old at segment }
{
    if at < path.len() {
        path[at] = segment;
    }
    1
}

// The same at the front of a buffer.
pub fn put_record(path: &mut [PathSegment], segment: PathSegment) -> usize
    ensures count { result ≡ 1 }
    ensures entries { path.new ≡ slice_set path.old 0 segment }
{
    append_record(path, 0, segment)
}

// Whether entries of a kind have a value.
pub fn kind_has_value(kind: SegmentKind) -> bool
    ensures { result ≡ kind_has_value kind }
{
    match kind {
        SegmentKind::Unit | SegmentKind::Static => false,
        SegmentKind::Param | SegmentKind::OptionalParam | SegmentKind::Splat => true,
    }
}

// Whether a record is that of the bare slash.
pub fn record_is_bare(segment: PathSegment) -> bool
    ensures { result ≡ record_is_bare segment }
{
    match segment.kind {
        SegmentKind::Static => segment.len == 1 && segment.text[0] == b'/',
        _ => false,
    }
}

// The record of an entry where it is kept: an OptionalParam as a Param.
pub fn kept_record(segment: PathSegment) -> PathSegment
    ensures { result ≡ record { kind = kind_as_kept segment.kind; len = segment.len; text = segment.text } }
{
    let kind = match segment.kind {
        SegmentKind::OptionalParam => SegmentKind::Param,
        kind => kind,
    };
    PathSegment { kind, ..segment }
}
