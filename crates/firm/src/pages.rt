ghost use Rattle.std.specs.Prelude.{◌≡◌, true, IfOk};
ghost use Rattle.rules.specs.Bounds.{reaches};
ghost use Rattle.rules.specs.Refusals.{read_off};
ghost use Rattle.firm.specs.Firm.{firm};
ghost use Rattle.firm.specs.Names.{name_in};

use crate::texts::{Job, Parcel, Plan};
use lists::chain::{Chain, End};
use lists::kinds;
use nests::nested_route::NestedRoute;
use rows::pair::Pair;
use rules::records::RouteId;
use rules::refusal::Refusal;
use segments::param_segments::{OptionalParamSegment, ParamSegment};
use segments::static_segment::StaticSegment;
use trees::below::Childless;
use trees::tree::MatchNestedRoutes;

pub type PlanPage = NestedRoute<Chain<StaticSegment<Plan>, End>, Childless>;

pub type LotPage = NestedRoute<Chain<ParamSegment, End>, Childless>;

pub type ParcelPages = NestedRoute<Chain<StaticSegment<Parcel>, End>, Pair<PlanPage, LotPage>>;

pub type ClientPages = NestedRoute<Chain<OptionalParamSegment, End>, ParcelPages>;

pub type JobPage = NestedRoute<
    Chain<StaticSegment<Job>, Chain<OptionalParamSegment, Chain<OptionalParamSegment, End>>>,
    Childless,
>;

pub type Pages = Pair<ClientPages, JobPage>;

// As many records as any of its answers needs.
pub const LEVELS: usize = 3;

pub const ENTRIES: usize = 3;

// Route 1 is the optional client, over 2, the parcels, over 3, a plan, and 4, a lot. Route 5, declared after 1, is a job with an
// optional year and an optional sheet.
pub fn pages() -> Result<Pages, Refusal>
    ensures means { read_off ⟦<Pages as MatchNestedRoutes>⟧.routes result ≡ Ok firm }
    ensures fits { IfOk result (λ p. reaches (⟦<Pages as MatchNestedRoutes>⟧.bounds p) LEVELS ENTRIES ≡ true) }
{
    let plan = NestedRoute::new(3, kinds![StaticSegment { text: Plan }])?;
    let lot = NestedRoute::new(4, kinds![ParamSegment::new(b"lot")?])?;
    let parcel = NestedRoute::new(2, kinds![StaticSegment { text: Parcel }])?.child(Pair {
        first: plan,
        second: lot,
    })?;
    let client = NestedRoute::new(1, kinds![OptionalParamSegment::new(b"client")?])?.child(parcel)?;
    let year = OptionalParamSegment::new(b"year")?;
    let sheet = OptionalParamSegment::new(b"sheet")?;
    let job = NestedRoute::new(5, kinds![StaticSegment { text: Job }, year, sheet])?;
    Ok(Pair {
        first: client,
        second: job,
    })
}

// What a parameter of a page stands for, by its route and its entry's number there. A match, as all pages are known here.
pub fn name_of(id: RouteId, entry: usize) -> &'static str
    ensures { result.now ≡ name_in firm id entry }
{
    match (id, entry) {
        (1, 0) => "client",
        (4, 0) => "lot",
        (5, 1) => "year",
        (5, 2) => "sheet",
        _ => "value",
    }
}
