ghost use Rattle.std.specs.Prelude.{◌≡◌, ◌+◌, ◌^◌, ◌<◌, ◌≤◌, length};
ghost use Rattle.rules.specs.Forests.{route_of};
ghost use Rattle.rules.specs.KeptLists.{keeping, under};
ghost use Rattle.rules.specs.Bounds.{level_over};
ghost use Rattle.rules.specs.Answers.{part_length};
ghost use Rattle.rules.specs.Lines.{hook_of};
ghost use Rattle.rules.specs.Records.{overlaid};
ghost use Rattle.rules.specs.Refusals.{told, read_off};
ghost use Rattle.rules.specs.Steps.{has_bare, first_read, Matched};
ghost use Rattle.nests.specs.Making.{route_made, nest_made};
ghost use Rattle.nests.specs.Own.{own_route};

use entries::check::ROUTE_LIMIT;
use entries::rest::Rest;
use lists::kind_list::KindList;
use rules::mode::{Rendering, SsrMode};
use rules::records::{LevelRecord, LineRecord, ParamRecord, RouteId};
use rules::refusal::{Cause, EntryFault, Refusal};
use rules::segment::PathSegment;
use trees::below::{Below, Childless};
use trees::tree::MatchNestedRoutes;

// The most levels of a tree that is made of nests.
pub const LEVEL_LIMIT: usize = 16;

// One route over any tree of children: its id, its list of kinds, its mode and hook, and what stands below it.
#[derive(Drop)]
pub struct NestedRoute<L, C> {
    id: RouteId,
    list: L,
    rendering: Rendering,
    children: C,
}

impl<L: KindList + Drop> NestedRoute<L, Childless> {
    // A childless route with the mode OutOfOrder and no hook. Refusal 5 where the id is 0, and 9 where the list has more than 6
    // entries.
    pub fn new(id: RouteId, list: L) -> Result<NestedRoute<L, Childless>, Refusal>
        ensures { told (read_off (own_route L.KindList.entries) result) ≡ route_made id (L.KindList.entries list) }
    {
        if id == 0 {
            return Err(Refusal::BadId);
        }
        if list.room_after(ROUTE_LIMIT).is_none() {
            return Err(Refusal::BadEntry(EntryFault {
                number: ROUTE_LIMIT,
                cause: Cause::Count,
            }));
        }
        Ok(NestedRoute {
            id,
            list,
            rendering: Rendering::PLAIN,
            children: Childless,
        })
    }

    // The same route with a mode and a hook, which counts only under Static. They are set before the children are given.
    pub fn ssr_mode(self, mode: SsrMode, hook: u16) -> NestedRoute<L, Childless>
        ensures { own_route L.KindList.entries result ≡ route_of self.id (L.KindList.entries self.list) mode hook }
    {
        NestedRoute {
            rendering: Rendering { mode, hook },
            ..self
        }
    }

    // The same route over a tree of children. Refusal 7 where it would be the seventeenth level, and 10 where it has an
    // OptionalParam beside another entry.
    pub fn child<C: MatchNestedRoutes + Drop>(
        self,
        children: C,
    ) -> Result<NestedRoute<L, C>, Refusal>
        ensures { told (read_off (λ s. (own_route L.KindList.entries s, C.MatchNestedRoutes.routes s.children)) result) ≡ nest_made (own_route L.KindList.entries self) (C.MatchNestedRoutes.routes children) (C.MatchNestedRoutes.bounds children) }
    {
        // taken apart, since the route over children is of another type
        let NestedRoute {
            id,
            list,
            rendering,
            children: Childless,
        } = self;
        if !children.fits_levels(LEVEL_LIMIT - 1) {
            return Err(Refusal::TooDeep);
        }
        if list.has_optional() && list.room_after(1).is_none() {
            return Err(Refusal::MixedParent);
        }
        Ok(NestedRoute {
            id,
            list,
            rendering,
            children,
        })
    }
}

// How long a route's part is: what its list takes or, where that is nothing and it has a bare slash, the next byte.
fn part_len<L: KindList>(list: &L, taken: usize) -> usize
    ensures { result ≡ part_length (has_bare (L.KindList.entries list.now)) taken }
{
    if taken == 0 && list.has_bare() {
        1
    } else {
        taken
    }
}

// Puts a route's hook at the front of a buffer, if it counts, and answers how many hooks that are.
fn put_hook(rendering: Rendering, hooks: &mut [u16]) -> usize
    requires { 0 < length hooks.old }
    ensures count { result ≡ length (hook_of rendering.mode rendering.hook) }
    ensures written { hooks.new ≡ overlaid hooks.old (hook_of rendering.mode rendering.hook) }
{
    match rendering.counted_hook() {
        Some(hook) => {
            hooks[0] = hook;
            1
        }
        None => 0,
    }
}

impl<L: KindList, C: Below> NestedRoute<L, C> {
    // Matches with `keep` of the optional entries kept: takes the list's part, hands what is left on, and writes the route's own
    // records only once all below it has answered.
    fn match_keeping(
        &self,
        keep: usize,
        rest: Rest<'_>,
        level: usize,
        levels: &mut [LevelRecord],
        params: &mut [ParamRecord],
    ) -> Option<(usize, usize)>
        requires numbered { level + (level_over (length (L.KindList.entries self.now.list)) (C.Below.bounds self.now.children)).levels < 2 ^ 64 }
        requires deep { (level_over (length (L.KindList.entries self.now.list)) (C.Below.bounds self.now.children)).levels ≤ length levels.old }
        requires wide { (level_over (length (L.KindList.entries self.now.list)) (C.Below.bounds self.now.children)).entries ≤ length params.old }
        ensures { Matched (first_read (under (keeping (own_route L.KindList.entries self.now) keep) (C.Below.lists self.now.children)) level rest.entry.start rest.entry.bytes.now) result levels.old levels.new params.old params.new }
    {
        let (taken, values) = self.list.take(keep, rest)?;
        let (routes, more) = self.children.match_below(
            rest.behind(taken),
            level + 1,
            &mut levels[1..],
            &mut params[values..],
        )?;
        let _ = self.list.read(keep, rest, 0, level, params);
        levels[0] = LevelRecord {
            id: self.id,
            start: rest.start(),
            len: part_len(&self.list, taken),
        };
        Some((routes + 1, more + values))
    }
}

impl<L: KindList, C: Below> MatchNestedRoutes for NestedRoute<L, C> {
    ghost routes = { λ s. C.Below.over s.children (own_route L.KindList.entries s) };

    ghost bounds = { λ s. level_over (length (L.KindList.entries s.list)) (C.Below.bounds s.children) };

    ghost enough = { λ s. C.Below.enough s.children (own_route L.KindList.entries s) };

    ghost abides = { λ s. C.Below.abides s.children (own_route L.KindList.entries s) (L.KindList.abides s.list) };

    fn fits_levels(&self, levels: usize) -> bool {
        levels
            .checked_sub(1)
            .is_some_and(|left| self.children.levels_below(left))
    }

    fn fits_entries(&self, entries: usize) -> bool {
        self.list
            .room_after(entries)
            .is_some_and(|left| self.children.entries_below(left))
    }

    fn match_at(
        &self,
        rest: Rest<'_>,
        level: usize,
        levels: &mut [LevelRecord],
        params: &mut [ParamRecord],
    ) -> Option<(usize, usize)> {
        let count = self.list.optional_count();
        // a loop: a closure that writes what was lent would leave unsaid what it wrote
        for keep in (0..=count).rev() {
            if let Some(used) = self.match_keeping(keep, rest, level, levels, params) {
                return Some(used);
            }
        }
        None
    }

    fn line_count(&self) -> u64 {
        self.children.lines_below()
    }

    fn kept_count(&self, line: u32) -> u64 {
        let kept = (self.list.optional_count() as u64).saturating_add(1);
        kept.saturating_mul(self.children.kept_lists_below(line))
    }

    fn line_at(
        &self,
        n: u32,
        ids: &mut [RouteId],
        entries: &mut [PathSegment],
        hooks: &mut [u16],
    ) -> LineRecord {
        ids[0] = self.id;
        let own_entries = self.list.generate(entries);
        let own_hooks = put_hook(self.rendering, hooks);
        let below = self.children.line_below(
            n,
            &mut ids[1..],
            &mut entries[own_entries..],
            &mut hooks[own_hooks..],
        );
        LineRecord {
            ids: below.ids + 1,
            entries: below.entries + own_entries,
            hooks: below.hooks + own_hooks,
            mode: self.rendering.mode.higher(below.mode),
        }
    }

    fn kept_at(&self, line: u32, n: u32, entries: &mut [PathSegment]) -> usize {
        let below = self.children.kept_lists_below(line);
        let dropped = n as u64 / below;
        let rest = n as u64 % below;
        let keep = self.list.optional_count() - dropped as usize;
        let own = self.list.generate_kept(keep, entries);
        own + self
            .children
            .kept_below(line, rest as u32, &mut entries[own..])
    }
}
