// The kind of this crate, alone and in lists with others.
use crate::plat_segment::PlatSegment;
use crate::tests::outcome::{admitted, check_links, declined};
use lists::kinds;
use nests::nested_route::NestedRoute;
use rules::segment::{PathSegment, SegmentKind};
use segments::kind::PossibleRouteMatch;
use segments::param_segments::{OptionalParamSegment, ParamSegment};
use std::test::Fail;

const PLAT: PlatSegment = PlatSegment { replat: false };

const REPLAT: PlatSegment = PlatSegment { replat: true };

// `:client? plat :lot` and `:client? replat :lot`
#[test]
fn plat_links() -> Result<(), Fail> {
    let client = OptionalParamSegment::new(b"client")?;
    let lot = ParamSegment::new(b"lot")?;
    check_links(
        &NestedRoute::new(1, kinds![client, PLAT, lot])?,
        &[
            (b"/hill/plat/12", admitted(1, 13, &[(0, 1, 4), (2, 11, 2)])),
            (b"/plat/12/", admitted(1, 8, &[(2, 6, 2)])),
            (b"/plat/plat/12", admitted(1, 13, &[(0, 1, 4), (2, 11, 2)])),
            (b"/hill/replat/12", declined()),
            (b"/plats/12", declined()),
            (b"/plat", declined()),
        ],
    )?;
    check_links(
        &NestedRoute::new(2, kinds![client, REPLAT, lot])?,
        &[
            (
                b"/hill/replat/12",
                admitted(2, 15, &[(0, 1, 4), (2, 13, 2)]),
            ),
            (b"/replat/12", admitted(2, 10, &[(2, 8, 2)])),
            (b"/plat/12", declined()),
        ],
    )
}

// What it reads of a path: a slash and its word, where the path then ends or goes on with a slash.
#[test]
fn plat_reads(rt: HostRuntime) {
    let cases: [(&[u8], Option<(usize, usize, usize)>); 7] = [
        (b"/plat", Some((5, 0, 0))),
        (b"/plat/12", Some((5, 0, 0))),
        (b"/plats", None),
        (b"/pla", None),
        (b"/", None),
        (b"plat", None),
        (b"", None),
    ];
    for (path, taken) in cases {
        assert_eq!(rt; PLAT.test(path), taken);
    }
    assert_eq!(rt; REPLAT.test(b"/replat"), Some((7, 0, 0)));
    assert_eq!(rt; REPLAT.test(b"/plat"), None);
}

// What it gives out, and what follows for it by the trait's own bodies.
#[test]
fn plat_is_given_out(rt: HostRuntime) {
    let record = PathSegment {
        kind: SegmentKind::Static,
        len: 6,
        text: *b"replat\0\0\0\0\0\0\0\0\0\0\0\0\0\0\0\0\0\0",
    };
    let mut path = [PathSegment::ZERO; 2];
    assert_eq!(rt; REPLAT.generate_path(&mut path, 2), 1);
    assert_eq!(rt; path, [PathSegment::ZERO; 2]);
    assert_eq!(rt; REPLAT.generate_path(&mut path, 1), 1);
    assert_eq!(rt; path, [PathSegment::ZERO, record]);
    assert_eq!(rt; PLAT.entry_count(), 1);
    assert!(rt; !PLAT.optional() && !PLAT.has_value() && !PLAT.is_bare());
}
