// Lines by their numbers.
use crate::tests::firm::{clients, jobs, word};
use crate::tests::given::{Given, old_entry};
use entries::record::record_of;
use rows::pair::Pair;
use rows::row::Row;
use rules::mode::SsrMode;
use rules::records::{LineRecord, RouteId};
use rules::refusal::Refusal;
use rules::segment::{PathSegment, SegmentKind};
use std::test::Fail;
use trees::tree::MatchNestedRoutes;

// The buffers of a line.
#[derive(Clone, Copy, PartialEq, Eq, Debug)]
struct Buffers {
    ids: [RouteId; 4],
    entries: [PathSegment; 4],
    hooks: [u16; 4],
}

type GivenLine = Given<LineRecord, Buffers>;

// What the buffers hold before a call.
fn old_buffers() -> Buffers {
    Buffers {
        ids: [77; 4],
        entries: [old_entry(); 4],
        hooks: [77; 4],
    }
}

// A call that is lent the first so many records of each buffer.
fn line_in<T: MatchNestedRoutes>(tree: &T, n: u32, i: usize, e: usize, h: usize) -> GivenLine {
    let mut left = old_buffers();
    let told = tree.generate_routes(
        n,
        &mut left.ids[0..i.min(4)],
        &mut left.entries[0..e.min(4)],
        &mut left.hooks[0..h.min(4)],
    );
    Given { told, left }
}

fn refused(refusal: Refusal) -> GivenLine {
    Given {
        told: Err(refusal),
        left: old_buffers(),
    }
}

// A line of 3 routes and 3 entries.
fn third_level(last: RouteId, entry: PathSegment, hooks: usize, second_hook: u16) -> GivenLine {
    Given {
        told: Ok(LineRecord {
            ids: 3,
            entries: 3,
            hooks,
            mode: SsrMode::Static,
        }),
        left: Buffers {
            ids: [1, 2, last, 0],
            entries: [
                record_of(SegmentKind::OptionalParam, b"client"),
                record_of(SegmentKind::Static, b"parcel"),
                entry,
                PathSegment::ZERO,
            ],
            hooks: [10, second_hook, 0, 0],
        },
    }
}

// The hooks are those of the Static routes that have one.
#[test]
fn lines_have_numbers(rt: HostRuntime) -> Result<(), Fail> {
    let plan = record_of(SegmentKind::Static, b"plan");
    let lot = record_of(SegmentKind::Param, b"lot");
    let tree = Pair {
        first: jobs()?,
        second: clients()?,
    };
    assert_eq!(rt; tree.line_count(), 3);
    assert_eq!(rt; line_in(&tree, 1, 4, 4, 4), third_level(3, plan, 1, 0));
    assert_eq!(rt; line_in(&tree, 2, 4, 4, 4), third_level(4, lot, 2, 40));
    assert_eq!(rt; line_in(&tree, 3, 4, 4, 4), refused(Refusal::NoLine));
    Ok(())
}

// A childless route's line; only the records that were lent are written.
#[test]
fn line_of_one_route(rt: HostRuntime) -> Result<(), Fail> {
    assert_eq!(rt;
        line_in(&jobs()?, 0, 2, 3, 1),
        Given {
            told: Ok(LineRecord {
                ids: 1,
                entries: 3,
                hooks: 0,
                mode: SsrMode::OutOfOrder,
            }),
            left: Buffers {
                ids: [5, 0, 77, 77],
                entries: [
                    record_of(SegmentKind::Static, b"job"),
                    record_of(SegmentKind::OptionalParam, b"year"),
                    record_of(SegmentKind::OptionalParam, b"sheet"),
                    old_entry(),
                ],
                hooks: [0, 77, 77, 77],
            },
        }
    );
    Ok(())
}

// Each buffer is asked for, before the number of the line is looked at; nothing is changed.
#[test]
fn line_buffers_are_short(rt: HostRuntime) -> Result<(), Fail> {
    let tree = clients()?;
    for (i, e, h) in [(2, 3, 3), (3, 2, 3), (3, 3, 2)] {
        assert_eq!(rt; line_in(&tree, 0, i, e, h), refused(Refusal::ShortOut));
        assert_eq!(rt; line_in(&tree, 2, i, e, h), refused(Refusal::ShortOut));
    }
    assert_eq!(rt; line_in(&tree, 2, 3, 3, 3), refused(Refusal::NoLine));
    Ok(())
}

// A line has the highest-ranked mode of its routes.
#[test]
fn modes_are_highest(rt: HostRuntime) -> Result<(), Fail> {
    let modes = [
        (SsrMode::InOrder, SsrMode::Async, SsrMode::Async),
        (
            SsrMode::InOrder,
            SsrMode::PartiallyBlocked,
            SsrMode::InOrder,
        ),
        (SsrMode::Static, SsrMode::Async, SsrMode::Static),
    ];
    for (above, below, line) in modes {
        let child = word(2, b"plan")?.ssr_mode(below, 0);
        let tree = word(1, b"hill")?.ssr_mode(above, 0).child(child)?;
        assert_eq!(rt;
            line_in(&tree, 0, 4, 4, 4).told,
            Ok(LineRecord {
                ids: 2,
                entries: 2,
                hooks: 0,
                mode: line,
            })
        );
    }
    Ok(())
}

// A row's lines are its items' lines; a route over no routes has none.
#[test]
fn lines_of_rows(rt: HostRuntime) -> Result<(), Fail> {
    let items = [word(1, b"hill")?, word(2, b"dale")?, word(3, b"plan")?];
    let row = Row { items: &items };
    assert_eq!(rt; row.line_count(), 3);
    assert_eq!(rt; line_in(&row, 1, 4, 4, 4).left.ids, [2, 0, 0, 0]);
    assert_eq!(rt; line_in(&row, 2, 4, 4, 4).left.ids, [3, 0, 0, 0]);
    let over_none = word(1, b"hill")?.child(Row {
        items: &items[0..0],
    })?;
    assert_eq!(rt; over_none.line_count(), 0);
    assert_eq!(rt; line_in(&over_none, 0, 4, 4, 4), refused(Refusal::NoLine));
    Ok(())
}
