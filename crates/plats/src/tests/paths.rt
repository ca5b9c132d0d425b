// Any bytes, paths that are too long, and paths that are not rooted.
use crate::tests::outcome::{admitted, check_links, declined, fixed, refused};
use lists::kinds;
use nests::nested_route::NestedRoute;
use rules::refusal::Refusal;
use segments::param_segments::ParamSegment;
use std::test::Fail;

#[test]
fn bytes_are_any() -> Result<(), Fail> {
    let lot = ParamSegment::new(b"\xff")?;
    check_links(
        &NestedRoute::new(8, kinds![fixed(b"\xc3\x28")?, lot])?,
        &[
            (b"/\xc3\x28/\xfe\x00", admitted(8, 6, &[(1, 4, 2)])),
            (b"/\xc3\x29/\xfe\x00", declined()),
        ],
    )
}

// The length is told before the root.
#[test]
fn paths_are_lawful() -> Result<(), Fail> {
    let bare = [b'9'; 2049];
    let mut path = [b'9'; 2049];
    path[0] = b'/';
    let lot = ParamSegment::new(b"lot")?;
    check_links(
        &NestedRoute::new(9, kinds![lot])?,
        &[
            (&path[0..2048], admitted(9, 2048, &[(0, 1, 2047)])),
            (&path, refused(Refusal::LongPath)),
            (&bare[0..2048], refused(Refusal::Unrooted)),
            (&bare, refused(Refusal::LongPath)),
            (b"9", refused(Refusal::Unrooted)),
            (b"9/", refused(Refusal::Unrooted)),
        ],
    )
}
