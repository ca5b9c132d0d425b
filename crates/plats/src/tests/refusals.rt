// Short buffers, and routes that are refused.
use crate::tests::outcome::{admitted, declined, fixed, matched_in, refused};
use lists::kinds;
use nests::nested_route::NestedRoute;
use rules::refusal::{Cause, EntryFault, Refusal};
use segments::param_segments::OptionalParamSegment;
use std::test::Fail;

// A buffer needs as many records as the route has levels and entries, also where the answer has fewer.
#[test]
fn buffers_are_short(rt: HostRuntime) -> Result<(), Fail> {
    let client = OptionalParamSegment::new(b"client")?;
    let route = NestedRoute::new(1, kinds![client, fixed(b"plan")?])?;
    let short = refused(Refusal::ShortOut);
    assert_eq!(rt; matched_in(&route, b"/plan", 0, 2), short);
    assert_eq!(rt; matched_in(&route, b"/plan", 1, 1), short);
    assert_eq!(rt; matched_in(&route, b"/map", 1, 1), short);
    assert_eq!(rt;
        matched_in(&route, b"plan", 0, 0),
        refused(Refusal::Unrooted)
    );
    Ok(())
}

// Only the records that were lent are written: the used ones, and zero ones behind them.
#[test]
fn buffers_are_lent(rt: HostRuntime) -> Result<(), Fail> {
    let client = OptionalParamSegment::new(b"client")?;
    let route = NestedRoute::new(1, kinds![client, fixed(b"plan")?])?;
    assert_eq!(rt;
        matched_in(&route, b"/hill/plan", 1, 2),
        admitted(1, 10, &[(0, 1, 4)]).lent(1, 2)
    );
    assert_eq!(rt; matched_in(&route, b"/map", 1, 2), declined().lent(1, 2));
    Ok(())
}

// An id is not 0, and a route has at most 6 entries; `()` is none.
#[test]
fn routes_are_refused(rt: HostRuntime) -> Result<(), Fail> {
    let a = fixed(b"a")?;
    let many = Refusal::BadEntry(EntryFault {
        number: 6,
        cause: Cause::Count,
    });
    let seven = kinds![a, a, a, a, a, a, a];
    assert_eq!(rt; NestedRoute::new(0, seven).err(), Some(Refusal::BadId));
    assert_eq!(rt; NestedRoute::new(1, seven).err(), Some(many));
    assert_eq!(rt;
        NestedRoute::new(1, kinds![a, a, a, (), a, a, a]).err(),
        None
    );
    Ok(())
}
