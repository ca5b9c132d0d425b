// A tree's own match, which refuses nothing and zeroes nothing.
use crate::tests::firm::jobs;
use crate::tests::outcome::{OLD_LEVEL, OLD_PARAM};
use rules::records::{LevelRecord, ParamRecord};
use std::test::Fail;
use trees::tree::MatchNestedRoutes;

// Only the records of the answer are written.
#[test]
fn other_records_are_left(rt: HostRuntime) -> Result<(), Fail> {
    let tree = jobs()?;
    let mut levels = [OLD_LEVEL; 2];
    let mut params = [OLD_PARAM; 4];
    assert_eq!(rt; tree.match_nested(b"/map", &mut levels, &mut params), None);
    assert_eq!(rt; tree.match_nested(b"job", &mut levels, &mut params), None);
    assert_eq!(rt;
        tree.match_nested(b"/job", &mut levels[0..0], &mut params),
        None
    );
    assert_eq!(rt;
        tree.match_nested(b"/job", &mut levels, &mut params[0..2]),
        None
    );
    assert_eq!(rt; levels, [OLD_LEVEL; 2]);
    assert_eq!(rt; params, [OLD_PARAM; 4]);
    let used = tree.match_nested(b"/job/2019", &mut levels, &mut params);
    let job = LevelRecord {
        id: 5,
        start: 0,
        len: 9,
    };
    let year = ParamRecord {
        level: 0,
        entry: 1,
        start: 5,
        len: 4,
    };
    assert_eq!(rt; used, Some((1, 1)));
    assert_eq!(rt; levels, [job, OLD_LEVEL]);
    assert_eq!(rt; params, [year, OLD_PARAM, OLD_PARAM, OLD_PARAM]);
    Ok(())
}
