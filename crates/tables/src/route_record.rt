ghost use Rattle.std.specs.Prelude.{◌≡◌, take};
ghost use Rattle.tables.specs.Remoding.{with_mode_of};

use entries::check::ROUTE_LIMIT;
use entries::segment::Segment;
use rules::mode::{Rendering, SsrMode};
use rules::records::RouteId;

// One route of a book: how many routes stand above it, which places it in the one table of a book, and the route itself. Its first `count` entries are in use.
// An array with a count: an edit of a book may find no memory, and a vector of fixed capacity is not `Copy`, as records are.
#[derive(Clone, Copy)]
pub struct RouteRecord {
    pub id: RouteId,
    pub depth: u8,
    pub rendering: Rendering,
    pub count: u8,
    pub entries: [Segment; ROUTE_LIMIT],
}

impl RouteRecord {
    // Its list of entries.
    pub fn list(&self) -> &[Segment]
        ensures { result.now ≡ take self.now.count self.now.entries }
    {
        self.entries
            .get(..self.count as usize)
            .unwrap_or(&self.entries)
    }

    // Another mode and hook.
    pub fn remode(&mut self, mode: SsrMode, hook: u16)
        ensures { self.new ≡ with_mode_of mode hook self.old }
    {
        self.rendering = Rendering { mode, hook };
    }
}
