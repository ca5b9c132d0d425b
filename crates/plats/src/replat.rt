ghost use Rattle.std.specs.Prelude.{◌≡◌};
ghost use Rattle.rules.specs.Refusals.{told, read_off};
ghost use Rattle.plats.specs.Replats.{replat_made};

use crate::plat_segment::PlatSegment;
use lists::chain::{Chain, End};
use lists::kinds;
use nests::nested_route::NestedRoute;
use rules::mode::SsrMode;
use rules::records::RouteId;
use rules::refusal::Refusal;
use trees::below::Childless;
use trees::tree::MatchNestedRoutes;

// A list of the one word.
pub type Word = Chain<PlatSegment, End>;

// A route of the word over another.
pub type Replat = NestedRoute<Word, NestedRoute<Word, Childless>>;

// A replat's route over its plat's. Refusal 5 where an id is 0. The mode is set first, then the child is given, and after that
// neither can be done again: a route with children has no such calls.
pub fn replat_over_plat(replat: RouteId, plat: RouteId) -> Result<Replat, Refusal>
    ensures { told (read_off ⟦<Replat as MatchNestedRoutes>⟧.routes result) ≡ replat_made replat plat }
{
    let below = NestedRoute::new(plat, kinds![PlatSegment { replat: false }])?;
    NestedRoute::new(replat, kinds![PlatSegment { replat: true }])?
        .ssr_mode(SsrMode::Static, 1)
        .child(below)
}
