ghost use Rattle.std.specs.Prelude.{◌≡◌};
ghost use Rattle.std.specs.Option.{option_map};
ghost use Rattle.rules.specs.Forests.{forest_of};
ghost use Rattle.rules.specs.Bounds.{largest};
ghost use Rattle.rules.specs.Steps.{line_in};
ghost use Rattle.rules.proofs.Lawfully.{row_lawful};
ghost use Rattle.rules.proofs.Bounded.{enough_row};

use crate::behind::behind;
use entries::rest::Rest;
use rules::records::{LevelRecord, LineRecord, ParamRecord, RouteId};
use rules::segment::PathSegment;
use trees::tree::MatchNestedRoutes;

// A read-only slice of trees of one type, tried one after another.
#[derive(Drop)]
pub struct Row<'a, T> {
    pub items: &'a [T],
}

// The item that has a line, and the line's number there. A loop, since what is left of the number goes on from item to item.
fn find_line<T: MatchNestedRoutes>(items: &[T], line: u32) -> Option<(&T, u32)>
    ensures { option_map (λ u. (u.0.now, u.1)) result ≡ line_in T.MatchNestedRoutes.routes items.now line }
{
    let mut left = line;
    for item in items {
        let Some(more) = behind(item, left) else {
            return Some((item, left));
        };
        left = more;
    }
    None
}

impl<'a, T: MatchNestedRoutes> MatchNestedRoutes for Row<'a, T> {
    ghost routes = { λ s. forest_of T.MatchNestedRoutes.routes s.items.now };

    ghost bounds = { λ s. largest T.MatchNestedRoutes.bounds s.items.now };

    ghost enough = { λ s. enough_row T.MatchNestedRoutes.routes T.MatchNestedRoutes.bounds T.MatchNestedRoutes.enough s.items.now };

    ghost abides = { λ s. row_lawful T.MatchNestedRoutes.routes T.MatchNestedRoutes.abides s.items.now };

    fn fits_levels(&self, levels: usize) -> bool {
        self.items.iter().all(|item| item.fits_levels(levels))
    }

    fn fits_entries(&self, entries: usize) -> bool {
        self.items.iter().all(|item| item.fits_entries(entries))
    }

    fn match_at(
        &self,
        rest: Rest<'_>,
        level: usize,
        levels: &mut [LevelRecord],
        params: &mut [ParamRecord],
    ) -> Option<(usize, usize)> {
        // a loop, for the same reason as in a pair
        for item in self.items {
            if let Some(used) = item.match_at(rest, level, levels, params) {
                return Some(used);
            }
        }
        None
    }

    fn line_count(&self) -> u64 {
        let mut count = 0u64;
        for item in self.items {
            count = count.saturating_add(item.line_count());
        }
        count
    }

    fn kept_count(&self, line: u32) -> u64 {
        match find_line(self.items, line) {
            Some((item, left)) => item.kept_count(left),
            None => 0,
        }
    }

    fn line_at(
        &self,
        n: u32,
        ids: &mut [RouteId],
        entries: &mut [PathSegment],
        hooks: &mut [u16],
    ) -> LineRecord {
        match find_line(self.items, n) {
            Some((item, left)) => item.line_at(left, ids, entries, hooks),
            None => unreachable(),
        }
    }

    fn kept_at(&self, line: u32, n: u32, entries: &mut [PathSegment]) -> usize {
        match find_line(self.items, line) {
            Some((item, left)) => item.kept_at(left, n, entries),
            None => unreachable(),
        }
    }
}
