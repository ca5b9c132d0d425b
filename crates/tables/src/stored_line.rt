use rules::mode::Rendering;
use rules::records::RouteId;

// The most levels of a book.
pub const BOOK_LEVELS: usize = 8;

// One route of a stored line: what a line shows of it. Its entries are read from the table.
#[derive(Clone, Copy)]
pub struct LineStep {
    pub id: RouteId,
    pub rendering: Rendering,
}

impl LineStep {
    // what an unused step holds, named as in records
    pub const ZERO: LineStep = LineStep {
        id: 0,
        rendering: Rendering::PLAIN,
    };
}

// A line as a book stores it: its first `count` steps, from the root down.
// An array with a count, as in a route's record.
#[derive(Clone, Copy)]
pub struct StoredLine {
    pub count: u8,
    pub steps: [LineStep; BOOK_LEVELS],
}
