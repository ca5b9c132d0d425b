ghost use Rattle.std.specs.Prelude.{◌≡◌, ◌+◌, ◌^◌, ◌<◌, ◌≤◌, true, List, [], ◌∷◌, length, nat_le, slice_index_or};
ghost use Rattle.rules.specs.Entries.{lawful_entries};
ghost use Rattle.rules.specs.Forests.{Route, Forest, none, leaf, nest, lawful_forest};
ghost use Rattle.rules.specs.KeptLists.{KeptList, kept_over, childless, kept, of_line, no_list};
ghost use Rattle.rules.specs.Bounds.{Bounds, no_bounds, level_over, Enough};
ghost use Rattle.rules.specs.Steps.{first_read, Matched, GivenOut, KeptOut};
ghost use Rattle.rules.specs.Lines.{Line, no_line, lines_under, lines};
ghost use Rattle.rules.specs.Numbers.{capped};
ghost use Rattle.rules.proofs.LinesMore.{lines_leaf, lines_nest};
ghost use Rattle.rules.proofs.Lawfully.{leaf_lawful, nest_lawful};
ghost use Rattle.rules.proofs.Bounded.{enough_leaf, enough_nest};
ghost use Rattle.rules.proofs.Keepings.{kept_leaf, kept_nest};

use crate::tree::MatchNestedRoutes;
use entries::rest::Rest;
use rules::mode::SsrMode;
use rules::records::{LevelRecord, LineRecord, ParamRecord, RouteId};
use rules::segment::PathSegment;

// What stands below a route.
pub trait Below {
    // the kept lists of it, each of which goes on where the route's own entries end
    ghost lists: { Self → List KeptList };

    // the rests of lines, each of which goes on behind the route's own part
    ghost rests: { Self → List Line };

    ghost bounds: { Self → Bounds };

    // a route over it
    ghost over: { Self → Route → Forest };

    ghost listing: { (s : Self) (r : Route) → kept (over s r) ≡ kept_over r (lists s) };

    ghost lining: { (s : Self) (r : Route) → lines (over s r) ≡ lines_under r (rests s) };

    ghost enough: { (s : Self) (r : Route) → Enough (over s r) (level_over (length r.entries) (bounds s)) };

    ghost abides: { (s : Self) (r : Route) → lawful_entries r.entries ≡ true → lawful_forest (over s r) ≡ true };

    // Whether it may answer with at most so many levels, and with at most so many entries.
    fn levels_below(&self, levels: usize) -> bool
        ensures { result ≡ nat_le (bounds self.now).levels levels };

    fn entries_below(&self, entries: usize) -> bool
        ensures { result ≡ nat_le (bounds self.now).entries entries };

    // A step of a route's match: the same as a tree's, for what is left of the path behind the route's own entries.
    fn match_below(
        &self,
        rest: Rest<'_>,
        level: usize,
        levels: &mut [LevelRecord],
        params: &mut [ParamRecord],
    ) -> Option<(usize, usize)>
        requires numbered { level + (bounds self.now).levels < 2 ^ 64 }
        requires deep { (bounds self.now).levels ≤ length levels.old }
        requires wide { (bounds self.now).entries ≤ length params.old }
        ensures { Matched (first_read (lists self.now) level rest.entry.start rest.entry.bytes.now) result levels.old levels.new params.old params.new };

    // How many lines go on below it, or the largest number where there are more.
    fn lines_below(&self) -> u64
        ensures { result ≡ capped (length (rests self.now)) };

    // How many kept lists one of them has, likewise.
    fn kept_lists_below(&self, line: u32) -> u64
        ensures { result ≡ capped (length (of_line line (lists self.now))) };

    // The rest of a line by its number, as for a tree.
    fn line_below(
        &self,
        n: u32,
        ids: &mut [RouteId],
        entries: &mut [PathSegment],
        hooks: &mut [u16],
    ) -> LineRecord
        requires there { n < length (rests self.now) }
        requires deep { (bounds self.now).levels ≤ length ids.old }
        requires wide { (bounds self.now).entries ≤ length entries.old }
        requires hooked { (bounds self.now).levels ≤ length hooks.old }
        ensures { GivenOut (slice_index_or (rests self.now) n no_line) result ids.old ids.new entries.old entries.new hooks.old hooks.new };

    // The rest of a kept list by the numbers of its line and its own, as for a tree.
    fn kept_below(&self, line: u32, n: u32, entries: &mut [PathSegment]) -> usize
        requires there { n < length (of_line line (lists self.now)) }
        requires wide { (bounds self.now).entries ≤ length entries.old }
        ensures { KeptOut (slice_index_or (of_line line (lists self.now)) n no_list).routes result entries.old entries.new };
}

// A tree of routes below a route: the remainder of the path is handed on to it.
// One impl hands on for all trees; a tree that had these steps itself would state the eight members above once more.
impl<T: MatchNestedRoutes> Below for T {
    ghost lists = { λ s. kept (T.MatchNestedRoutes.routes s) };

    ghost rests = { λ s. lines (T.MatchNestedRoutes.routes s) };

    ghost bounds = { λ s. T.MatchNestedRoutes.bounds s };

    ghost over = { λ s r. nest r (T.MatchNestedRoutes.routes s) none };

    ghost listing = { λ s r. kept_nest r (T.MatchNestedRoutes.routes s) };

    ghost lining = { λ s r. lines_nest r (T.MatchNestedRoutes.routes s) };

    ghost enough = { λ s r. enough_nest r (T.MatchNestedRoutes.routes s) (T.MatchNestedRoutes.bounds s) (T.MatchNestedRoutes.enough s) };

    ghost abides = { λ s r h. nest_lawful r (T.MatchNestedRoutes.routes s) h (T.MatchNestedRoutes.abides s) };

    fn levels_below(&self, levels: usize) -> bool {
        self.fits_levels(levels)
    }

    fn entries_below(&self, entries: usize) -> bool {
        self.fits_entries(entries)
    }

    fn match_below(
        &self,
        rest: Rest<'_>,
        level: usize,
        levels: &mut [LevelRecord],
        params: &mut [ParamRecord],
    ) -> Option<(usize, usize)> {
        self.match_at(rest, level, levels, params)
    }

    fn lines_below(&self) -> u64 {
        self.line_count()
    }

    fn kept_lists_below(&self, line: u32) -> u64 {
        self.kept_count(line)
    }

    fn line_below(
        &self,
        n: u32,
        ids: &mut [RouteId],
        entries: &mut [PathSegment],
        hooks: &mut [u16],
    ) -> LineRecord {
        self.line_at(n, ids, entries, hooks)
    }

    fn kept_below(&self, line: u32, n: u32, entries: &mut [PathSegment]) -> usize {
        self.kept_at(line, n, entries)
    }
}

// Stands in the place of the children of a childless route: only an ending may be left of the path.
#[derive(Clone, Copy, Drop)]
pub struct Childless;

impl Below for Childless {
    ghost lists = { λ _. childless };

    ghost rests = { λ _. no_line ∷ [] };

    ghost bounds = { λ _. no_bounds };

    ghost over = { λ _ r. leaf r none };

    ghost listing = { λ _ r. kept_leaf r };

    ghost lining = { λ _ r. lines_leaf r };

    ghost enough = { λ _ r. enough_leaf r };

    ghost abides = { λ _ r h. leaf_lawful r h };

    fn levels_below(&self, _levels: usize) -> bool {
        true
    }

    fn entries_below(&self, _entries: usize) -> bool {
        true
    }

    fn match_below(
        &self,
        rest: Rest<'_>,
        _level: usize,
        _levels: &mut [LevelRecord],
        _params: &mut [ParamRecord],
    ) -> Option<(usize, usize)> {
        match rest.bytes() {
            [] | [b'/'] => Some((0, 0)),
            _ => None,
        }
    }

    fn lines_below(&self) -> u64 {
        1
    }

    fn kept_lists_below(&self, line: u32) -> u64 {
        u64::from(line == 0)
    }

    fn line_below(
        &self,
        _n: u32,
        _ids: &mut [RouteId],
        _entries: &mut [PathSegment],
        _hooks: &mut [u16],
    ) -> LineRecord {
        LineRecord {
            ids: 0,
            entries: 0,
            hooks: 0,
            mode: SsrMode::OutOfOrder,
        }
    }

    fn kept_below(&self, _line: u32, _n: u32, _entries: &mut [PathSegment]) -> usize {
        0
    }
}
