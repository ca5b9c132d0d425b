// Lists that are handed over as kinds and places in a text.
use entries::check::{LIST_LIMIT, ROUTE_LIMIT};
use entries::list::EntryList;
use rules::refusal::{Cause, EntryFault};
use rules::segment::{EntryPlace, SegmentKind};
use rules::values::TextPlace;

// 26 bytes with a slash at 2
const TEXT: &[u8] = b"ab/defghijklmnopqrstuvwxyz";

fn place(kind: SegmentKind, start: usize, len: usize) -> EntryPlace {
    EntryPlace {
        kind,
        place: TextPlace { start, len },
    }
}

fn in_text(entries: &[EntryPlace]) -> EntryList<'_> {
    EntryList {
        entries,
        text: TEXT,
    }
}

fn fault(number: usize, cause: Cause) -> Result<(), EntryFault> {
    Err(EntryFault { number, cause })
}

// The count is tested before any entry.
#[test]
fn counts(rt: HostRuntime) {
    let good = [place(SegmentKind::Param, 0, 2); 97];
    let bad = [place(SegmentKind::Param, 99, 2); 7];
    assert_eq!(rt; in_text(&good[0..6]).check(ROUTE_LIMIT), Ok(()));
    assert_eq!(rt;
        in_text(&good[0..7]).check(ROUTE_LIMIT),
        fault(6, Cause::Count)
    );
    assert_eq!(rt; in_text(&bad).check(ROUTE_LIMIT), fault(6, Cause::Count));
    assert_eq!(rt; in_text(&good[0..96]).check(LIST_LIMIT), Ok(()));
    assert_eq!(rt; in_text(&good).check(LIST_LIMIT), fault(96, Cause::Count));
}

// One entry behind a good one: the place is tested first, then the length, then the slash.
#[test]
fn places(rt: HostRuntime) {
    let cases: [(EntryPlace, Result<(), EntryFault>); 16] = [
        (place(SegmentKind::Static, 27, 0), fault(1, Cause::Place)),
        (place(SegmentKind::Param, 25, 2), fault(1, Cause::Place)),
        (place(SegmentKind::Param, 0, 27), fault(1, Cause::Place)),
        (
            place(SegmentKind::Splat, usize::MAX, 2),
            fault(1, Cause::Place),
        ),
        (
            place(SegmentKind::Splat, 1, usize::MAX),
            fault(1, Cause::Place),
        ),
        (place(SegmentKind::Unit, 99, usize::MAX), Ok(())),
        (place(SegmentKind::Static, 26, 0), Ok(())),
        (
            place(SegmentKind::OptionalParam, 26, 0),
            fault(1, Cause::Length),
        ),
        (place(SegmentKind::Param, 1, 25), fault(1, Cause::Length)),
        (place(SegmentKind::Static, 1, 25), fault(1, Cause::Length)),
        (place(SegmentKind::Static, 1, 24), fault(1, Cause::Slash)),
        (place(SegmentKind::Static, 1, 2), fault(1, Cause::Slash)),
        (place(SegmentKind::Static, 2, 24), Ok(())),
        (place(SegmentKind::Splat, 1, 24), Ok(())),
        (place(SegmentKind::Static, 2, 1), Ok(())),
        (place(SegmentKind::Static, 25, 1), Ok(())),
    ];
    let good = place(SegmentKind::Param, 0, 2);
    for (entry, answer) in cases {
        assert_eq!(rt; in_text(&[good, entry]).check(ROUTE_LIMIT), answer);
    }
}

// The first entry at fault is told, whatever the cause of a later one.
#[test]
fn first_fault(rt: HostRuntime) {
    let unit = place(SegmentKind::Unit, 0, 0);
    let slashed = place(SegmentKind::Static, 0, 4);
    let outside = place(SegmentKind::Param, 26, 1);
    assert_eq!(rt;
        in_text(&[unit, slashed, outside]).check(6),
        fault(1, Cause::Slash)
    );
    assert_eq!(rt;
        in_text(&[unit, unit, outside, slashed]).check(6),
        fault(2, Cause::Place)
    );
    assert_eq!(rt;
        EntryList {
            entries: &[],
            text: b""
        }
        .check(0),
        Ok(())
    );
    assert_eq!(rt;
        EntryList {
            entries: &[unit],
            text: b""
        }
        .check(0),
        fault(0, Cause::Count)
    );
}
