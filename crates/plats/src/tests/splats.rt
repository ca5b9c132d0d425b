// Splats: last, alone, and in front of other entries.
use crate::tests::outcome::{admitted, check_links, declined, fixed};
use lists::kinds;
use nests::nested_route::NestedRoute;
use segments::param_segments::{OptionalParamSegment, WildcardSegment};
use std::test::Fail;

// A splat owes a record also where nothing is left for it: an empty value where the path ends.
#[test]
fn splat_is_last() -> Result<(), Fail> {
    let rest = WildcardSegment::new(b"rest")?;
    check_links(
        &NestedRoute::new(5, kinds![fixed(b"job")?, rest])?,
        &[
            (b"/job", admitted(5, 4, &[(1, 4, 0)])),
            (b"/job/", admitted(5, 5, &[(1, 5, 0)])),
            (b"/job/a/b/", admitted(5, 9, &[(1, 5, 4)])),
            (b"/job//", admitted(5, 6, &[(1, 5, 1)])),
            (b"/jobs", declined()),
        ],
    )?;
    check_links(
        &NestedRoute::new(6, kinds![rest])?,
        &[
            (b"", admitted(6, 0, &[(0, 0, 0)])),
            (b"/", admitted(6, 1, &[(0, 1, 0)])),
            (b"/a/b", admitted(6, 4, &[(0, 1, 3)])),
        ],
    )
}

// Behind a splat nothing is left, so only an entry that takes nothing may follow.
#[test]
fn splat_is_not_last() -> Result<(), Fail> {
    let rest = WildcardSegment::new(b"rest")?;
    let sheet = OptionalParamSegment::new(b"sheet")?;
    check_links(
        &NestedRoute::new(5, kinds![rest, fixed(b"plan")?])?,
        &[
            (b"/a/plan", declined()),
            (b"/plan", declined()),
            (b"", declined()),
        ],
    )?;
    check_links(
        &NestedRoute::new(6, kinds![rest, sheet, fixed(b"")?])?,
        &[
            (b"/a/7", admitted(6, 4, &[(0, 1, 3)])),
            (b"", admitted(6, 0, &[(0, 0, 0)])),
        ],
    )?;
    check_links(
        &NestedRoute::new(7, kinds![rest, rest])?,
        &[(b"/a/b", admitted(7, 4, &[(0, 1, 3), (1, 4, 0)]))],
    )
}
