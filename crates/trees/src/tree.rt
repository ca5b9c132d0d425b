ghost use Rattle.std.specs.Prelude.{◌≡◌, ◌+◌, ◌^◌, ◌<◌, ◌≤◌, true, length, nat_le, slice_index_or};
ghost use Rattle.rules.specs.Forests.{Forest, lawful_forest};
ghost use Rattle.rules.specs.KeptLists.{kept, of_line, no_list};
ghost use Rattle.rules.specs.Bounds.{Bounds, Enough, reaches};
ghost use Rattle.rules.specs.Lines.{lines, no_line};
ghost use Rattle.rules.specs.Numbers.{capped};
ghost use Rattle.rules.specs.Refusals.{told};
ghost use Rattle.trees.specs.Routed.{Nested};
ghost use Rattle.trees.specs.Lined.{Lined, KeptGiven};
ghost use Rattle.rules.specs.Steps.{first_read, Matched, GivenOut, KeptOut};

use entries::rest::Rest;
use rules::records::{LevelRecord, LineRecord, ParamRecord, RouteId};
use rules::refusal::Refusal;
use rules::segment::PathSegment;

// A tree of routes. Its meaning is an ordered list of routes.
pub trait MatchNestedRoutes {
    ghost routes: { Self → Forest };

    // as many levels and entries as it may answer with
    ghost bounds: { Self → Bounds };

    ghost enough: { (s : Self) → Enough (routes s) (bounds s) };

    // each entry keeps the rules of texts and names
    ghost abides: { (s : Self) → lawful_forest (routes s) ≡ true };

    // Whether it may answer with at most so many levels.
    // Two questions, since refusal 7 asks for levels alone, and a kept list for entries alone.
    fn fits_levels(&self, levels: usize) -> bool
        ensures { result ≡ nat_le (bounds self.now).levels levels };

    // Whether it may answer with at most so many entries.
    fn fits_entries(&self, entries: usize) -> bool
        ensures { result ≡ nat_le (bounds self.now).entries entries };

    // Whether buffers of so many level and parameter records reach its bounds.
    fn fits(&self, levels: usize, params: usize) -> bool
        ensures { result ≡ reaches (bounds self.now) levels params }
    {
        self.fits_levels(levels) && self.fits_entries(params)
    }

    // The answer of the first kept list that `path` spells, from the start of both buffers, and how many records it has; or none.
    // It changes nothing where the path is not lawful, the buffers are too short, or no kept list is spelled.
    // The buffers are lent side by side: a struct of `&mut` slices would be made anew, by reborrows, at each attempt and step.
    fn match_nested(
        &self,
        path: &[u8],
        levels: &mut [LevelRecord],
        params: &mut [ParamRecord],
    ) -> Option<(usize, usize)>
        ensures { Nested (routes self.now) (bounds self.now) path.now levels.old params.old result levels.new params.new }
    {
        let rest = Rest::whole(path)?;
        if self.fits(levels.len(), params.len()) {
            self.match_at(rest, 0, levels, params)
        } else {
            None
        }
    }

    // A line by its number: its ids, entries and hooks from the start of the buffers, zero records behind them, how many there are,
    // and its mode. Refusal 3 where a buffer is too short, and 13 where there is no such line. Three buffers are lent side by side, as
    // two are for a match.
    fn generate_routes(
        &self,
        n: u32,
        ids: &mut [RouteId],
        entries: &mut [PathSegment],
        hooks: &mut [u16],
    ) -> Result<LineRecord, Refusal>
        ensures { Lined (routes self.now) (bounds self.now) n ids.old entries.old hooks.old (told result) ids.new entries.new hooks.new }
    {
        if !self.fits_levels(ids.len())
            || !self.fits_levels(hooks.len())
            || !self.fits_entries(entries.len())
        {
            return Err(Refusal::ShortOut);
        }
        if n as u64 >= self.line_count() {
            return Err(Refusal::NoLine);
        }
        ids.fill(0);
        entries.fill(PathSegment::ZERO);
        hooks.fill(0);
        Ok(self.line_at(n, ids, entries, hooks))
    }

    // A line's kept list by the numbers of the line and its own: its entries from the start of the buffer, zero records behind them,
    // and how many there are. Refusal 3 where the buffer is too short, 13 where there is no such line, and 15 where it has no such
    // kept list. The two numbers stay two arguments, here and in the steps: a struct of them would have no method.
    fn generate_kept(
        &self,
        line: u32,
        n: u32,
        entries: &mut [PathSegment],
    ) -> Result<usize, Refusal>
        ensures { KeptGiven (routes self.now) (bounds self.now) line n entries.old (told result) entries.new }
    {
        if !self.fits_entries(entries.len()) {
            return Err(Refusal::ShortOut);
        }
        if line as u64 >= self.line_count() {
            return Err(Refusal::NoLine);
        }
        if n as u64 >= self.kept_count(line) {
            return Err(Refusal::NoVariant);
        }
        entries.fill(PathSegment::ZERO);
        Ok(self.kept_at(line, n, entries))
    }

    // A step of `match_route`, with the tree's roots on the level of a number: finds the first kept list that the rest of a path
    // spells, writes its records over the front of both buffers, and answers how many there are. Where there is none, it changes
    // nothing.
    fn match_at(
        &self,
        rest: Rest<'_>,
        level: usize,
        levels: &mut [LevelRecord],
        params: &mut [ParamRecord],
    ) -> Option<(usize, usize)>
        requires numbered { level + (bounds self.now).levels < 2 ^ 64 }
        requires deep { (bounds self.now).levels ≤ length levels.old }
        requires wide { (bounds self.now).entries ≤ length params.old }
        ensures { Matched (first_read (kept (routes self.now)) level rest.entry.start rest.entry.bytes.now) result levels.old levels.new params.old params.new };

    // How many lines there are, or the largest number where there are more.
    fn line_count(&self) -> u64
        ensures { result ≡ capped (length (lines (routes self.now))) };

    // How many kept lists a line has, likewise; none where there is no such line.
    fn kept_count(&self, line: u32) -> u64
        ensures { result ≡ capped (length (of_line line (kept (routes self.now)))) };

    // A step of `generate_routes`: writes a line by its number over the front of the buffers, and answers how much it has, with its
    // mode.
    fn line_at(
        &self,
        n: u32,
        ids: &mut [RouteId],
        entries: &mut [PathSegment],
        hooks: &mut [u16],
    ) -> LineRecord
        requires there { n < length (lines (routes self.now)) }
        requires deep { (bounds self.now).levels ≤ length ids.old }
        requires wide { (bounds self.now).entries ≤ length entries.old }
        requires hooked { (bounds self.now).levels ≤ length hooks.old }
        ensures { GivenOut (slice_index_or (lines (routes self.now)) n no_line) result ids.old ids.new entries.old entries.new hooks.old hooks.new };

    // A step of `generate_kept`: writes the entries of a line's kept list by its number over the front of the buffer, and answers
    // how many they are.
    fn kept_at(&self, line: u32, n: u32, entries: &mut [PathSegment]) -> usize
        requires there { n < length (of_line line (kept (routes self.now))) }
        requires wide { (bounds self.now).entries ≤ length entries.old }
        ensures { KeptOut (slice_index_or (of_line line (kept (routes self.now))) n no_list).routes result entries.old entries.new };
}
