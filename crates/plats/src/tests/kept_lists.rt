// Kept lists by the numbers of their lines and their own.
use crate::tests::firm::{clients_and_jobs, jobs};
use crate::tests::given::{Given, old_entry};
use entries::record::record_of;
use lists::kind_list::KindList;
use rules::refusal::Refusal;
use rules::segment::{PathSegment, SegmentKind};
use std::array::from_fn;
use std::test::Fail;
use trees::tree::MatchNestedRoutes;

type GivenKept = Given<usize, [PathSegment; 4]>;

// A call that is lent the first so many records of a buffer of 4.
fn kept_in<T: MatchNestedRoutes>(tree: &T, line: u32, n: u32, count: usize) -> GivenKept {
    let mut left = [old_entry(); 4];
    let told = tree.generate_kept(line, n, &mut left[0..count.min(4)]);
    Given { told, left }
}

fn refused(refusal: Refusal) -> GivenKept {
    Given {
        told: Err(refusal),
        left: [old_entry(); 4],
    }
}

// Some kept entries, and zero records behind them.
fn kept(segments: &[PathSegment]) -> GivenKept {
    Given {
        told: Ok(segments.len()),
        left: from_fn(|i| segments.get(i).copied().unwrap_or(PathSegment::ZERO)),
    }
}

// The list that keeps all comes first, and a kept optional entry is a Param.
#[test]
fn kept_lists_have_numbers(rt: HostRuntime) -> Result<(), Fail> {
    let job = record_of(SegmentKind::Static, b"job");
    let year = record_of(SegmentKind::Param, b"year");
    let sheet = record_of(SegmentKind::Param, b"sheet");
    let client = record_of(SegmentKind::Param, b"client");
    let parcel = record_of(SegmentKind::Static, b"parcel");
    let plan = record_of(SegmentKind::Static, b"plan");
    let lot = record_of(SegmentKind::Param, b"lot");
    let none = refused(Refusal::NoVariant);
    let tree = clients_and_jobs()?;
    let cases = [
        (0, 0, kept(&[client, parcel, plan])),
        (0, 1, kept(&[parcel, plan])),
        (0, 2, none),
        (1, 0, kept(&[client, parcel, lot])),
        (1, 1, kept(&[parcel, lot])),
        (1, 2, none),
        (2, 0, kept(&[job, year, sheet])),
        (2, 1, kept(&[job, year])),
        (2, 2, kept(&[job])),
        (2, 3, none),
        (3, 0, refused(Refusal::NoLine)),
    ];
    for (line, n, given) in cases {
        assert_eq!(rt; kept_in(&tree, line, n, 4), given, "{line} {n}");
    }
    Ok(())
}

#[test]
fn kept_lists_are_counted(rt: HostRuntime) -> Result<(), Fail> {
    let tree = clients_and_jobs()?;
    for (line, count) in [(0, 2), (1, 2), (2, 3), (3, 0)] {
        assert_eq!(rt; tree.kept_count(line), count);
    }
    Ok(())
}

// The buffer is asked for first, then the line, then the kept list; nothing is changed.
#[test]
fn kept_lists_are_refused(rt: HostRuntime) -> Result<(), Fail> {
    let tree = jobs()?;
    let job = record_of(SegmentKind::Static, b"job");
    let mut only_job = kept(&[job]);
    only_job.left[3] = old_entry();
    assert_eq!(rt; kept_in(&tree, 0, 2, 3), only_job);
    assert_eq!(rt; kept_in(&tree, 0, 2, 2), refused(Refusal::ShortOut));
    assert_eq!(rt; kept_in(&tree, 1, 3, 2), refused(Refusal::ShortOut));
    assert_eq!(rt; kept_in(&tree, 1, 3, 3), refused(Refusal::NoLine));
    assert_eq!(rt; kept_in(&tree, 0, 3, 3), refused(Refusal::NoVariant));
    Ok(())
}
