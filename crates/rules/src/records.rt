use crate::mode::SsrMode;

// A route's id, from 1 on; 0 is no id. It is a number, as callers hand it over: that it is not 0 is told by a refusal.
pub type RouteId = u16;

// One matched route: its id, and the start and length of the part of the path that it matched.
#[derive(Clone, Copy, PartialEq, Eq, Debug)]
pub struct LevelRecord {
    pub id: RouteId,
    pub start: usize,
    pub len: usize,
}

impl LevelRecord {
    // what an unused record holds: a name that says it, where a default would not
    pub const ZERO: LevelRecord = LevelRecord {
        id: 0,
        start: 0,
        len: 0,
    };
}

// One parameter: its route's level from 0, its entry's number from 0 in that route, and the start and length of its value.
#[derive(Clone, Copy, PartialEq, Eq, Debug)]
pub struct ParamRecord {
    pub level: usize,
    pub entry: usize,
    pub start: usize,
    pub len: usize,
}

impl ParamRecord {
    // what an unused record holds, likewise
    pub const ZERO: ParamRecord = ParamRecord {
        level: 0,
        entry: 0,
        start: 0,
        len: 0,
    };
}

// A line as it is given out into buffers: how many ids, entries and hooks it has there, and its mode.
#[derive(Clone, Copy, PartialEq, Eq, Debug)]
pub struct LineRecord {
    pub ids: usize,
    pub entries: usize,
    pub hooks: usize,
    pub mode: SsrMode,
}
