// The firm's routes as nests.
use crate::tests::outcome::fixed;
use lists::chain::{Chain, End};
use lists::kinds;
use nests::nested_route::NestedRoute;
use rows::pair::Pair;
use rules::mode::SsrMode;
use rules::records::RouteId;
use rules::refusal::Refusal;
use segments::param_segments::{OptionalParamSegment, ParamSegment};
use segments::static_segment::{StaticSegment, Text};
use trees::below::Childless;

// A childless route of one static text.
pub type Word = NestedRoute<Chain<StaticSegment<Text>, End>, Childless>;

pub type Lot = NestedRoute<Chain<ParamSegment, End>, Childless>;

pub type Parcel = NestedRoute<Chain<StaticSegment<Text>, End>, Pair<Word, Lot>>;

pub type Clients = NestedRoute<Chain<OptionalParamSegment, End>, Parcel>;

pub type Jobs = NestedRoute<
    Chain<StaticSegment<Text>, Chain<OptionalParamSegment, Chain<OptionalParamSegment, End>>>,
    Childless,
>;

pub fn word(id: RouteId, text: &[u8]) -> Result<Word, Refusal> {
    NestedRoute::new(id, kinds![fixed(text)?])
}

// 1 `:client?` over 2 `parcel` over 3 `plan` and 4 `:lot`
pub fn clients() -> Result<Clients, Refusal> {
    let plan = word(3, b"plan")?.ssr_mode(SsrMode::Async, 30);
    let lot = NestedRoute::new(4, kinds![ParamSegment::new(b"lot")?])?;
    let parcel = word(2, b"parcel")?
        .ssr_mode(SsrMode::Static, 0)
        .child(Pair {
            first: plan,
            second: lot.ssr_mode(SsrMode::Static, 40),
        })?;
    let client = OptionalParamSegment::new(b"client")?;
    NestedRoute::new(1, kinds![client])?
        .ssr_mode(SsrMode::Static, 10)
        .child(parcel)
}

// The clients, and then the jobs.
pub fn clients_and_jobs() -> Result<Pair<Clients, Jobs>, Refusal> {
    Ok(Pair {
        first: clients()?,
        second: jobs()?,
    })
}

// 5 `job :year? :sheet?`
pub fn jobs() -> Result<Jobs, Refusal> {
    let year = OptionalParamSegment::new(b"year")?;
    let sheet = OptionalParamSegment::new(b"sheet")?;
    NestedRoute::new(5, kinds![fixed(b"job")?, year, sheet])
}
