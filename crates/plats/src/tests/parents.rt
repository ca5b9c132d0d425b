// Routes that are given children.
use crate::tests::firm::word;
use crate::tests::outcome::fixed;
use entries::segment::Segment;
use lists::kind_list::KindList;
use lists::kinds;
use nests::nested_route::NestedRoute;
use rules::records::RouteId;
use rules::refusal::Refusal;
use rules::segment::SegmentKind;
use segments::param_segments::OptionalParamSegment;
use std::test::Fail;

// Why a route of a list is given no child, if it is not.
fn childless<L: KindList + Drop>(id: RouteId, list: L) -> Result<Option<Refusal>, Refusal> {
    let plan = word(9, b"plan")?;
    Ok(NestedRoute::new(id, list)?.child(&plan).err())
}

// An optional entry stands alone in a route that is given children; `()` is no entry, and a Unit is one.
#[test]
fn parents_are_not_mixed(rt: HostRuntime) -> Result<(), Fail> {
    let year = OptionalParamSegment::new(b"year")?;
    let job = fixed(b"job")?;
    let unit = Segment::new(SegmentKind::Unit, b"")?;
    let mixed = Some(Refusal::MixedParent);
    assert_eq!(rt; childless(1, kinds![year, year])?, mixed);
    assert_eq!(rt; childless(2, kinds![unit, year])?, mixed);
    assert_eq!(rt; childless(3, kinds![year, job])?, mixed);
    assert_eq!(rt; childless(4, kinds![(), year])?, None);
    assert_eq!(rt; childless(5, kinds![unit, job])?, None);
    Ok(())
}
