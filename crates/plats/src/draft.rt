use entries::rest::Rest;
use rules::records::{LevelRecord, LineRecord, ParamRecord, RouteId};
use rules::segment::PathSegment;
use trees::tree::MatchNestedRoutes;

// A tree that is still a draft: the number of its sheet goes with it, and it means what the tree means. It stands here for a tree
// of another crate, which writes each step, as here it hands each on.
#[derive(Drop)]
pub struct Draft<T> {
    pub sheet: u16,
    pub tree: T,
}

impl<T: MatchNestedRoutes> MatchNestedRoutes for Draft<T> {
    ghost routes = { λ s. T.MatchNestedRoutes.routes s.tree };

    ghost bounds = { λ s. T.MatchNestedRoutes.bounds s.tree };

    ghost enough = { λ s. T.MatchNestedRoutes.enough s.tree };

    ghost abides = { λ s. T.MatchNestedRoutes.abides s.tree };

    fn fits_levels(&self, levels: usize) -> bool {
        self.tree.fits_levels(levels)
    }

    fn fits_entries(&self, entries: usize) -> bool {
        self.tree.fits_entries(entries)
    }

    fn match_at(
        &self,
        rest: Rest<'_>,
        level: usize,
        levels: &mut [LevelRecord],
        params: &mut [ParamRecord],
    ) -> Option<(usize, usize)> {
        self.tree.match_at(rest, level, levels, params)
    }

    fn line_count(&self) -> u64 {
        self.tree.line_count()
    }

    fn kept_count(&self, line: u32) -> u64 {
        self.tree.kept_count(line)
    }

    fn line_at(
        &self,
        n: u32,
        ids: &mut [RouteId],
        entries: &mut [PathSegment],
        hooks: &mut [u16],
    ) -> LineRecord {
        self.tree.line_at(n, ids, entries, hooks)
    }

    fn kept_at(&self, line: u32, n: u32, entries: &mut [PathSegment]) -> usize {
        self.tree.kept_at(line, n, entries)
    }
}
