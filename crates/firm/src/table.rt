ghost use Rattle.std.specs.Prelude.{◌≡◌, slice_index_or};
ghost use Rattle.firm.specs.Firm.{Stands};
ghost use Rattle.firm.specs.Links.{said_by, firm_links, last_link};

use rules::records::{LevelRecord, ParamRecord};
use rules::refusal::Refusal;

// What opens with a link: its routes from the root down, and its parameters, root first.
#[derive(Clone, Copy, PartialEq, Eq, Debug)]
pub struct RowAnswer {
    pub levels: &'static [LevelRecord],
    pub params: &'static [ParamRecord],
}

// A link of the firm's tree, and what is told of it.
#[derive(Clone, Copy, PartialEq, Eq, Debug)]
pub struct LinkRow {
    pub link: &'static [u8],
    pub told: Result<RowAnswer, Refusal>,
}

macro_rules! level {
    ($id:expr, $start:expr, $len:expr) => {
        LevelRecord { id: $id, start: $start, len: $len }
    };
}

macro_rules! param {
    ($level:expr, $entry:expr, $start:expr, $len:expr) => {
        ParamRecord { level: $level, entry: $entry, start: $start, len: $len }
    };
}

macro_rules! admitted {
    ($link:literal => [$($level:tt)*] [$($param:tt)*]) => {
        LinkRow {
            link: $link,
            told: Ok(RowAnswer { levels: &[$(level! $level),*], params: &[$(param! $param),*] }),
        }
    };
}

macro_rules! declined {
    ($link:literal => $refusal:ident) => {
        LinkRow { link: $link, told: Err(Refusal::$refusal) }
    };
}

// How many rows there are.
pub const ROWS: usize = 13;

// The links that open a page, and those that are declined.
const LINKS: [LinkRow; ROWS] = [
    admitted!(b"/hill/parcel/plan" => [(1, 0, 5) (2, 5, 7) (3, 12, 5)] [(0, 0, 1, 4)]),
    admitted!(b"/parcel/plan" => [(1, 0, 0) (2, 0, 7) (3, 7, 5)] []),
    admitted!(b"/parcel/plan/" => [(1, 0, 0) (2, 0, 7) (3, 7, 5)] []),
    admitted!(b"/parcel/12" => [(1, 0, 0) (2, 0, 7) (4, 7, 3)] [(2, 0, 8, 2)]),
    admitted!(b"/job/parcel/12" => [(1, 0, 4) (2, 4, 7) (4, 11, 3)] [(0, 0, 1, 3) (2, 0, 12, 2)]),
    admitted!(b"/job" => [(5, 0, 4)] []),
    admitted!(b"/job/2019" => [(5, 0, 9)] [(0, 1, 5, 4)]),
    declined!(b"/job/2019/3/x" => NoRoute),
    declined!(b"/jobs" => NoRoute),
    declined!(b"/parcel" => NoRoute),
    declined!(b"" => NoRoute),
    declined!(b"//job" => NoRoute),
    declined!(b"job" => Unrooted),
];

// A row by its number from 0; past the last it is the last. What it says of its link is what the rules say.
pub fn row(n: usize) -> LinkRow
    ensures listed { said_by result ≡ slice_index_or firm_links n last_link }
    ensures stands { Stands (said_by result) }
{
    LINKS[n.min(ROWS - 1)]
}
