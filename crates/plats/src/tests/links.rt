// The firm's links.
use crate::tests::outcome::{admitted, check_links, declined, fixed};
use lists::kinds;
use nests::nested_route::NestedRoute;
use segments::param_segments::OptionalParamSegment;
use std::test::Fail;

// `:client? parcel plan`
#[test]
fn client_links() -> Result<(), Fail> {
    let client = OptionalParamSegment::new(b"client")?;
    let route = NestedRoute::new(1, kinds![client, fixed(b"parcel")?, fixed(b"plan")?])?;
    let with_client = admitted(1, 17, &[(0, 1, 4)]);
    let without_client = admitted(1, 12, &[]);
    check_links(
        &route,
        &[
            (b"/hill/parcel/plan", with_client),
            (b"/hill/parcel/plan/", with_client),
            (b"/parcel/plan", without_client),
            (b"/parcel/plan/", without_client),
            (b"/parcel/parcel/plan", admitted(1, 19, &[(0, 1, 6)])),
            (b"/parcel/plan//", declined()),
            (b"//parcel/plan", declined()),
            (b"/hill//parcel/plan", declined()),
            (b"/parcel/plans", declined()),
            (b"/hill/parcel", declined()),
            (b"/hill/parcel/plan/9", declined()),
            (b"/", declined()),
            (b"", declined()),
        ],
    )
}

// `job :year? :sheet?`, where dropping the last may be enough
#[test]
fn job_links() -> Result<(), Fail> {
    let year = OptionalParamSegment::new(b"year")?;
    let sheet = OptionalParamSegment::new(b"sheet")?;
    let route = NestedRoute::new(3, kinds![fixed(b"job")?, year, sheet])?;
    check_links(
        &route,
        &[
            (b"/job/2019/3", admitted(3, 11, &[(1, 5, 4), (2, 10, 1)])),
            (b"/job/2019/3/", admitted(3, 11, &[(1, 5, 4), (2, 10, 1)])),
            (b"/job/2019", admitted(3, 9, &[(1, 5, 4)])),
            (b"/job/2019/", admitted(3, 9, &[(1, 5, 4)])),
            (b"/job", admitted(3, 4, &[])),
            (b"/job/", admitted(3, 4, &[])),
            (b"/job//3", declined()),
            (b"/job/2019//", declined()),
            (b"/job/2019/3/4", declined()),
            (b"/jobs", declined()),
        ],
    )
}
