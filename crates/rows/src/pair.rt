ghost use Rattle.rules.specs.Forests.{beside};
ghost use Rattle.rules.specs.Bounds.{larger};
ghost use Rattle.rules.proofs.Lawfully.{beside_lawful};
ghost use Rattle.rules.proofs.Bounded.{enough_beside};

use crate::behind::behind;
use entries::rest::Rest;
use rules::records::{LevelRecord, LineRecord, ParamRecord, RouteId};
use rules::segment::PathSegment;
use trees::tree::MatchNestedRoutes;

// Two trees, the first of which is tried before the second.
#[derive(Drop)]
pub struct Pair<A, B> {
    pub first: A,
    pub second: B,
}

impl<A: MatchNestedRoutes, B: MatchNestedRoutes> MatchNestedRoutes for Pair<A, B> {
    ghost routes = { λ s. beside (A.MatchNestedRoutes.routes s.first) (B.MatchNestedRoutes.routes s.second) };

    ghost bounds = { λ s. larger (A.MatchNestedRoutes.bounds s.first) (B.MatchNestedRoutes.bounds s.second) };

    ghost enough = { λ s. enough_beside (A.MatchNestedRoutes.routes s.first) (B.MatchNestedRoutes.routes s.second) (A.MatchNestedRoutes.bounds s.first) (B.MatchNestedRoutes.bounds s.second) (A.MatchNestedRoutes.enough s.first) (B.MatchNestedRoutes.enough s.second) };

    ghost abides = { λ s. beside_lawful (A.MatchNestedRoutes.routes s.first) (B.MatchNestedRoutes.routes s.second) (A.MatchNestedRoutes.abides s.first) (B.MatchNestedRoutes.abides s.second) };

    fn fits_levels(&self, levels: usize) -> bool {
        self.first.fits_levels(levels) && self.second.fits_levels(levels)
    }

    fn fits_entries(&self, entries: usize) -> bool {
        self.first.fits_entries(entries) && self.second.fits_entries(entries)
    }

    fn match_at(
        &self,
        rest: Rest<'_>,
        level: usize,
        levels: &mut [LevelRecord],
        params: &mut [ParamRecord],
    ) -> Option<(usize, usize)> {
        // a match, since a closure that writes what was lent would leave unsaid what it wrote
        match self.first.match_at(rest, level, levels, params) {
            Some(used) => Some(used),
            None => self.second.match_at(rest, level, levels, params),
        }
    }

    fn line_count(&self) -> u64 {
        self.first
            .line_count()
            .saturating_add(self.second.line_count())
    }

    fn kept_count(&self, line: u32) -> u64 {
        match behind(&self.first, line) {
            None => self.first.kept_count(line),
            Some(left) => self.second.kept_count(left),
        }
    }

    fn line_at(
        &self,
        n: u32,
        ids: &mut [RouteId],
        entries: &mut [PathSegment],
        hooks: &mut [u16],
    ) -> LineRecord {
        match behind(&self.first, n) {
            None => self.first.line_at(n, ids, entries, hooks),
            Some(left) => self.second.line_at(left, ids, entries, hooks),
        }
    }

    fn kept_at(&self, line: u32, n: u32, entries: &mut [PathSegment]) -> usize {
        match behind(&self.first, line) {
            None => self.first.kept_at(line, n, entries),
            Some(left) => self.second.kept_at(left, n, entries),
        }
    }
}
