ghost use Rattle.std.specs.Prelude.{◌≡◌, take, replicate};
ghost use Rattle.rules.specs.Records.{zero_level, zero_param, padded};
ghost use Rattle.rules.specs.Refusals.{told};
ghost use Rattle.trees.specs.Routed.{Routed};
ghost use Rattle.firm.specs.Outcomes.{counts_of, levels_of, params_of};

use crate::pages::{ENTRIES, LEVELS};
use crate::table::LinkRow;
use entries::filled::filled;
use rules::records::{LevelRecord, ParamRecord};
use rules::refusal::Refusal;
use trees::route::match_route;
use trees::tree::MatchNestedRoutes;

// What a tree tells of a link, and what it leaves in buffers that were zero.
#[derive(Clone, Copy, PartialEq, Eq, Debug)]
pub struct Outcome {
    pub told: Result<(usize, usize), Refusal>,
    pub levels: [LevelRecord; LEVELS],
    pub params: [ParamRecord; ENTRIES],
}

impl Outcome {
    pub fn of<T: MatchNestedRoutes>(tree: &T, link: &[u8]) -> Outcome
        ensures { Routed (T.MatchNestedRoutes.routes tree.now) (T.MatchNestedRoutes.bounds tree.now) link.now (replicate LEVELS zero_level) (replicate ENTRIES zero_param) (told result.told) result.levels result.params }
    {
        let mut levels = [LevelRecord::ZERO; LEVELS];
        let mut params = [ParamRecord::ZERO; ENTRIES];
        let told = match_route(tree, link, &mut levels, &mut params);
        Outcome {
            told,
            levels,
            params,
        }
    }
}

impl LinkRow {
    // What the row says of its link, as a call should leave it. Of more records than a buffer has the first are there.
    pub fn outcome(&self) -> Outcome
        ensures tells { result.told ≡ counts_of self.now.told }
        ensures levels { result.levels ≡ padded (take LEVELS (levels_of self.now.told)) zero_level LEVELS }
        ensures params { result.params ≡ padded (take ENTRIES (params_of self.now.told)) zero_param ENTRIES }
    {
        match self.told {
            Ok(answer) => Outcome {
                told: Ok((answer.levels.len(), answer.params.len())),
                levels: filled(answer.levels, LevelRecord::ZERO),
                params: filled(answer.params, ParamRecord::ZERO),
            },
            Err(refusal) => Outcome {
                told: Err(refusal),
                levels: [LevelRecord::ZERO; LEVELS],
                params: [ParamRecord::ZERO; ENTRIES],
            },
        }
    }
}
