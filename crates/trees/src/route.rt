ghost use Rattle.std.specs.Prelude.{◌≡◌, IfOk};
ghost use Rattle.rules.specs.Refusals.{told, read_off};
ghost use Rattle.trees.specs.Routed.{Routed};
ghost use Rattle.trees.specs.Paths.{path_fault};

use crate::tree::MatchNestedRoutes;
use entries::path::LONGEST_PATH;
use entries::rest::Rest;
use rules::records::{LevelRecord, ParamRecord};
use rules::refusal::Refusal;

// The whole of a path, or refusals 1 and 2.
fn check_path(path: &[u8]) -> Result<Rest<'_>, Refusal>
    ensures fault { read_off (λ _. tt) result ≡ path_fault path.now }
    ensures whole { IfOk result (λ r. (r.start ≡ 0) × (r.bytes.now ≡ path.now)) }
{
    if path.len() > LONGEST_PATH {
        return Err(Refusal::LongPath);
    }
    Rest::whole(path).ok_or(Refusal::Unrooted)
}

// Finds the first kept list of `tree` that `path` spells, writes one level record for each of its routes and one parameter record
// for each of its values, root first, and answers how many of each there are. Records that are not used are zero.
pub fn match_route<T: MatchNestedRoutes>(
    tree: &T,
    path: &[u8],
    levels: &mut [LevelRecord],
    params: &mut [ParamRecord],
) -> Result<(usize, usize), Refusal>
    ensures { Routed (T.MatchNestedRoutes.routes tree.now) (T.MatchNestedRoutes.bounds tree.now) path.now levels.old params.old (told result) levels.new params.new }
{
    let rest = check_path(path)?;
    if !tree.fits(levels.len(), params.len()) {
        return Err(Refusal::ShortOut);
    }
    levels.fill(LevelRecord::ZERO);
    params.fill(ParamRecord::ZERO);
    tree.match_at(rest, 0, levels, params)
        .ok_or(Refusal::NoRoute)
}
