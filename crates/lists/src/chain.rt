ghost use Rattle.std.specs.Prelude.{[], refl};
ghost use Rattle.rules.specs.Entries.{with_entry};
ghost use Rattle.rules.proofs.Lawfully.{with_lawful};

use crate::kept::{put_kept, still_kept, test_kept, value_count};
use crate::kind_list::KindList;
use entries::rest::Rest;
use rules::records::ParamRecord;
use rules::segment::PathSegment;
use segments::kind::PossibleRouteMatch;

// The end of a list, and so the list of no kinds.
#[derive(Clone, Copy, Drop)]
pub struct End;

// A first kind, and the list of the others.
#[derive(Clone, Copy, Drop)]
pub struct Chain<K, R> {
    pub head: K,
    pub tail: R,
}

// The list of some kinds, in order: `kinds![a, b]` is a chain of `a`, `b` and the end.
#[macro_export]
macro_rules! kinds {
    () => { $crate::chain::End };
    ($head:expr $(, $tail:expr)* $(,)?) => {
        $crate::chain::Chain { head: $head, tail: $crate::kinds!($($tail),*) }
    };
}

impl KindList for End {
    ghost entries = { λ _. [] };

    ghost abides = { λ _. refl };

    fn room_after(&self, room: usize) -> Option<usize> {
        Some(room)
    }

    fn has_bare(&self) -> bool {
        false
    }

    fn has_optional(&self) -> bool {
        false
    }

    fn optional_count(&self) -> usize {
        0
    }

    fn take(&self, _keep: usize, _rest: Rest<'_>) -> Option<(usize, usize)> {
        Some((0, 0))
    }

    fn read(
        &self,
        _keep: usize,
        _rest: Rest<'_>,
        _number: usize,
        _level: usize,
        _params: &mut [ParamRecord],
    ) -> Option<()> {
        Some(())
    }

    fn generate(&self, _out: &mut [PathSegment]) -> usize {
        0
    }

    fn generate_kept(&self, _keep: usize, _out: &mut [PathSegment]) -> usize {
        0
    }
}

impl<K: PossibleRouteMatch, R: KindList> KindList for Chain<K, R> {
    ghost entries = { λ s. with_entry (K.PossibleRouteMatch.meaning s.head) (R.KindList.entries s.tail) };

    ghost abides = { λ s. with_lawful (K.PossibleRouteMatch.meaning s.head) (R.KindList.entries s.tail) (K.PossibleRouteMatch.abides s.head) (R.KindList.abides s.tail) };

    fn room_after(&self, room: usize) -> Option<usize> {
        self.tail
            .room_after(room.checked_sub(self.head.entry_count())?)
    }

    fn has_bare(&self) -> bool {
        self.head.is_bare() || self.tail.has_bare()
    }

    fn has_optional(&self) -> bool {
        self.head.optional() || self.tail.has_optional()
    }

    fn optional_count(&self) -> usize {
        self.tail
            .optional_count()
            .saturating_add(usize::from(self.head.optional()))
    }

    fn take(&self, keep: usize, rest: Rest<'_>) -> Option<(usize, usize)> {
        let Some(left) = still_kept(self.head.optional(), keep) else {
            return self.tail.take(0, rest);
        };
        let (taken, _, _) = test_kept(&self.head, rest.bytes())?;
        let (more, values) = self.tail.take(left, rest.behind(taken))?;
        let own = value_count(&self.head);
        Some((taken + more, values + own))
    }

    fn read(
        &self,
        keep: usize,
        rest: Rest<'_>,
        number: usize,
        level: usize,
        params: &mut [ParamRecord],
    ) -> Option<()> {
        let next = number + self.head.entry_count();
        let Some(left) = still_kept(self.head.optional(), keep) else {
            return self.tail.read(0, rest, next, level, params);
        };
        let (taken, start, len) = test_kept(&self.head, rest.bytes())?;
        let own = value_count(&self.head);
        self.tail
            .read(left, rest.behind(taken), next, level, &mut params[own..])?;
        if own > 0 {
            params[0] = ParamRecord {
                level,
                entry: number,
                start: rest.start() + start,
                len,
            };
        }
        Some(())
    }

    fn generate(&self, out: &mut [PathSegment]) -> usize {
        let own = self.head.generate_path(out, 0);
        own + self.tail.generate(&mut out[own..])
    }

    fn generate_kept(&self, keep: usize, out: &mut [PathSegment]) -> usize {
        let Some(left) = still_kept(self.head.optional(), keep) else {
            return self.tail.generate_kept(0, out);
        };
        let own = put_kept(&self.head, out);
        own + self.tail.generate_kept(left, &mut out[own..])
    }
}
