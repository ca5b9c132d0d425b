ghost use Rattle.std.specs.Prelude.{◌≡◌, not, ◌&&◌, Some, None, ◌==◌, if◌then◌else◌};
ghost use Rattle.rules.specs.Modes.{rank, higher, is_static};

// How a page is rendered, in the order of rank, the lowest first.
#[derive(Clone, Copy, PartialEq, Eq, PartialOrd, Ord, Debug)]
pub enum SsrMode {
    OutOfOrder = 0,
    PartiallyBlocked = 1,
    InOrder = 2,
    Async = 3,
    Static = 4,
}

impl SsrMode {
    // Its rank, from 0.
    pub fn rank(self) -> u8
        ensures { result ≡ rank self }
    {
        self as u8
    }

    // The one of higher rank.
    pub fn higher(self, other: SsrMode) -> SsrMode
        ensures { result ≡ higher self other }
    {
        self.max(other)
    }
}

// How a route is rendered: its mode, and a hook, 0 for none, which counts only under Static.
// The hook is a number, 0 too, as callers hand it over and lines give it out.
#[derive(Clone, Copy, PartialEq, Eq, Debug)]
pub struct Rendering {
    pub mode: SsrMode,
    pub hook: u16,
}

impl Rendering {
    // what a route has until another is set
    pub const PLAIN: Rendering = Rendering {
        mode: SsrMode::OutOfOrder,
        hook: 0,
    };

    // Its hook, if it counts.
    pub fn counted_hook(self) -> Option<u16>
        ensures { result ≡ (if is_static self.mode && not (self.hook == 0) then Some self.hook else None) }
    {
        match self.mode {
            SsrMode::Static if self.hook != 0 => Some(self.hook),
            _ => None,
        }
    }
}
