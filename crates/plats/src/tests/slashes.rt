// The bare slash, the empty static text, and no entries at all.
use crate::tests::outcome::{admitted, check_links, declined, fixed};
use lists::kinds;
use nests::nested_route::NestedRoute;
use segments::param_segments::OptionalParamSegment;
use std::test::Fail;

// A bare slash takes nothing, and asks for a byte that is still to come.
#[test]
fn bare_slash_stands_before() -> Result<(), Fail> {
    check_links(
        &NestedRoute::new(2, kinds![fixed(b"/")?, fixed(b"a")?])?,
        &[
            (b"/a", admitted(2, 2, &[])),
            (b"/a/", admitted(2, 2, &[])),
            (b"//a", declined()),
            (b"/", declined()),
            (b"", declined()),
        ],
    )?;
    let lot = OptionalParamSegment::new(b"lot")?;
    check_links(
        &NestedRoute::new(3, kinds![fixed(b"/")?, lot])?,
        &[
            (b"/7", admitted(3, 2, &[(1, 1, 1)])),
            (b"/", admitted(3, 1, &[])),
            (b"", declined()),
        ],
    )
}

#[test]
fn bare_slash_stands_behind() -> Result<(), Fail> {
    check_links(
        &NestedRoute::new(2, kinds![fixed(b"a")?, fixed(b"/")?])?,
        &[
            (b"/a", declined()),
            (b"/a/", admitted(2, 2, &[])),
            (b"/a//", declined()),
            (b"/", declined()),
        ],
    )?;
    check_links(
        &NestedRoute::new(3, kinds![fixed(b"/")?])?,
        &[
            (b"/", admitted(3, 1, &[])),
            (b"/a", declined()),
            (b"/a/", declined()),
            (b"//", declined()),
            (b"", declined()),
        ],
    )
}

// A text's own leading slash is no other one; an empty text and `()` take nothing.
#[test]
fn texts_take_their_words() -> Result<(), Fail> {
    check_links(
        &NestedRoute::new(4, kinds![fixed(b"/plan")?, fixed(b"")?, ()])?,
        &[
            (b"/plan", admitted(4, 5, &[])),
            (b"/plan/", admitted(4, 5, &[])),
            (b"//plan", declined()),
            (b"/", declined()),
        ],
    )?;
    check_links(
        &NestedRoute::new(5, kinds![])?,
        &[
            (b"", admitted(5, 0, &[])),
            (b"/", admitted(5, 0, &[])),
            (b"//", declined()),
        ],
    )
}
