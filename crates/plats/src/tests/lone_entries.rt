// Entries that are made one by one.
use entries::record::record_of;
use entries::segment::Segment;
use rules::refusal::{Cause, EntryFault, Refusal};
use rules::segment::SegmentKind;
use segments::param_segments::{OptionalParamSegment, ParamSegment, WildcardSegment};
use segments::static_segment::Text;
use std::test::Fail;

const LETTERS: &[u8] = b"abcdefghijklmnopqrstuvwxy";

// The refusal of an entry that is handed over alone, if there is a cause.
fn alone(cause: Option<Cause>) -> Option<Refusal> {
    cause.map(|cause| Refusal::BadEntry(EntryFault { number: 0, cause }))
}

// A name has 1 to 24 bytes of any kind.
#[test]
fn names(rt: HostRuntime) {
    let cases: [(&[u8], Option<Cause>); 5] = [
        (b"", Some(Cause::Length)),
        (b"a", None),
        (b"/\xff/", None),
        (&LETTERS[0..24], None),
        (LETTERS, Some(Cause::Length)),
    ];
    for (name, cause) in cases {
        assert_eq!(rt; ParamSegment::new(name).err(), alone(cause));
        assert_eq!(rt; OptionalParamSegment::new(name).err(), alone(cause));
        assert_eq!(rt; WildcardSegment::new(name).err(), alone(cause));
    }
}

// A static text has at most 24 bytes, and no slash after its first; the length is tested first.
#[test]
fn texts(rt: HostRuntime) {
    let cases: [(&[u8], Option<Cause>); 9] = [
        (b"", None),
        (b"/", None),
        (b"/a", None),
        (b"//", Some(Cause::Slash)),
        (b"a/", Some(Cause::Slash)),
        (b"/a/b", Some(Cause::Slash)),
        (&LETTERS[0..24], None),
        (LETTERS, Some(Cause::Length)),
        (b"abcdefghijkl/nopqrstuvwxy", Some(Cause::Length)),
    ];
    for (text, cause) in cases {
        assert_eq!(rt; Text::new(text).err(), alone(cause));
        assert_eq!(rt; Segment::new(SegmentKind::Static, text).err(), cause);
    }
}

// An entry of any kind gives out its kind, its text and its record; a Unit has no text.
#[test]
fn segments_are_given_out(rt: HostRuntime) -> Result<(), Fail> {
    let year = Segment::new(SegmentKind::OptionalParam, b"year")?;
    assert_eq!(rt; year.kind(), SegmentKind::OptionalParam);
    assert_eq!(rt; year.text(), b"year".as_slice());
    assert_eq!(rt;
        year.record(),
        record_of(SegmentKind::OptionalParam, b"year")
    );
    let unit = Segment::new(SegmentKind::Unit, b"a/b")?;
    assert_eq!(rt; unit.record(), record_of(SegmentKind::Unit, b""));
    Ok(())
}
