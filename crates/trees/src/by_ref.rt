use crate::tree::MatchNestedRoutes;
use entries::rest::Rest;
use rules::records::{LevelRecord, LineRecord, ParamRecord, RouteId};
use rules::segment::PathSegment;

// A tree behind a reference is that tree: so a pair of references is a pair.
// The steps are handed on one by one: an impl for a reference has none of its own type's.
impl<'a, T: MatchNestedRoutes> MatchNestedRoutes for &'a T {
    ghost routes = { λ s. T.MatchNestedRoutes.routes s.now };

    ghost bounds = { λ s. T.MatchNestedRoutes.bounds s.now };

    ghost enough = { λ s. T.MatchNestedRoutes.enough s.now };

    ghost abides = { λ s. T.MatchNestedRoutes.abides s.now };

    fn fits_levels(&self, levels: usize) -> bool {
        (**self).fits_levels(levels)
    }

    fn fits_entries(&self, entries: usize) -> bool {
        (**self).fits_entries(entries)
    }

    fn match_at(
        &self,
        rest: Rest<'_>,
        level: usize,
        levels: &mut [LevelRecord],
        params: &mut [ParamRecord],
    ) -> Option<(usize, usize)> {
        (**self).match_at(rest, level, levels, params)
    }

    fn line_count(&self) -> u64 {
        (**self).line_count()
    }

    fn kept_count(&self, line: u32) -> u64 {
        (**self).kept_count(line)
    }

    fn line_at(
        &self,
        n: u32,
        ids: &mut [RouteId],
        entries: &mut [PathSegment],
        hooks: &mut [u16],
    ) -> LineRecord {
        (**self).line_at(n, ids, entries, hooks)
    }

    fn kept_at(&self, line: u32, n: u32, entries: &mut [PathSegment]) -> usize {
        (**self).kept_at(line, n, entries)
    }
}
