// What a call of `match_route` tells and leaves in its buffers, and what it should. The firm's crate has the like for its own tree,
// which this crate does not stand on.
use rules::records::{LevelRecord, ParamRecord, RouteId};
use rules::refusal::Refusal;
use segments::static_segment::{StaticSegment, Text};
use std::array::from_fn;
use std::test::Fail;
use trees::route::match_route;
use trees::tree::MatchNestedRoutes;

// What the buffers hold before a call.
pub const OLD_LEVEL: LevelRecord = LevelRecord {
    id: 77,
    start: 7,
    len: 70,
};

pub const OLD_PARAM: ParamRecord = ParamRecord {
    level: 7,
    entry: 70,
    start: 77,
    len: 777,
};

#[derive(Clone, Copy, PartialEq, Eq, Debug)]
pub struct Outcome {
    told: Result<(usize, usize), Refusal>,
    levels: [LevelRecord; 3],
    params: [ParamRecord; 4],
}

impl Outcome {
    // The same where only the first so many records were lent.
    pub fn lent(self, level_count: usize, param_count: usize) -> Outcome {
        let mut outcome = self;
        for level in outcome.levels.iter_mut().skip(level_count) {
            *level = OLD_LEVEL;
        }
        for param in outcome.params.iter_mut().skip(param_count) {
            *param = OLD_PARAM;
        }
        outcome
    }
}

// A call that is lent the first so many records of buffers of 3 and 4.
pub fn matched_in<T: MatchNestedRoutes>(
    tree: &T,
    path: &[u8],
    level_count: usize,
    param_count: usize,
) -> Outcome {
    let mut levels = [OLD_LEVEL; 3];
    let mut params = [OLD_PARAM; 4];
    let l = level_count.min(3);
    let p = param_count.min(4);
    let told = match_route(tree, path, &mut levels[0..l], &mut params[0..p]);
    Outcome {
        told,
        levels,
        params,
    }
}

// A call with all records, as many as any tree of the tests needs.
fn matched<T: MatchNestedRoutes>(tree: &T, path: &[u8]) -> Outcome {
    matched_in(tree, path, 3, 4)
}

// A static segment.
pub fn fixed(text: &[u8]) -> Result<StaticSegment<Text>, Refusal> {
    Ok(StaticSegment {
        text: Text::new(text)?,
    })
}

// An answer: the id, start and length of each level, and the level, entry, start and length of each value.
pub fn nested(
    parts: &[(RouteId, usize, usize)],
    values: &[(usize, usize, usize, usize)],
) -> Outcome {
    Outcome {
        told: Ok((parts.len(), values.len())),
        levels: from_fn(|i| match parts.get(i) {
            Some(&(id, start, len)) => LevelRecord { id, start, len },
            None => LevelRecord::ZERO,
        }),
        params: from_fn(|i| match values.get(i) {
            Some(&(level, entry, start, len)) => ParamRecord {
                level,
                entry,
                start,
                len,
            },
            None => ParamRecord::ZERO,
        }),
    }
}

// An answer of one route: its id, the length of its part, and the entry, start and length of each value.
pub fn admitted(id: RouteId, len: usize, values: &[(usize, usize, usize)]) -> Outcome {
    Outcome {
        told: Ok((1, values.len())),
        params: from_fn(|i| match values.get(i) {
            Some(&(entry, start, len)) => ParamRecord {
                level: 0,
                entry,
                start,
                len,
            },
            None => ParamRecord::ZERO,
        }),
        ..nested(&[(id, 0, len)], &[])
    }
}

// No route: both buffers are zeroed.
pub fn declined() -> Outcome {
    Outcome {
        told: Err(Refusal::NoRoute),
        levels: [LevelRecord::ZERO; 3],
        params: [ParamRecord::ZERO; 4],
    }
}

// A refusal that leaves both buffers as they were.
pub fn refused(refusal: Refusal) -> Outcome {
    Outcome {
        told: Err(refusal),
        levels: [OLD_LEVEL; 3],
        params: [OLD_PARAM; 4],
    }
}

// Each path of a table, with what it should bring about.
pub fn check_links<T: MatchNestedRoutes>(tree: &T, links: &[(&[u8], Outcome)]) -> Result<(), Fail> {
    for (i, (path, outcome)) in links.iter().enumerate() {
        let told = matched(tree, path);
        if told != *outcome {
            return Err(Fail::new(format_args!("link {i}: {told:?} in place of {outcome:?}")));
        }
    }
    Ok(())
}
