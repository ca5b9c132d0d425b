// Routes over others, pairs, and rows.
use crate::tests::firm::{clients, jobs, word};
use crate::tests::outcome::{check_links, declined, nested};
use rows::pair::Pair;
use rows::row::Row;
use std::test::Fail;

// Each level reads on where the one above it ended.
#[test]
fn levels_read_on() -> Result<(), Fail> {
    let client = (0, 0, 1, 4);
    let plan = nested(&[(1, 0, 5), (2, 5, 7), (3, 12, 5)], &[client]);
    let unnamed_plan = nested(&[(1, 0, 0), (2, 0, 7), (3, 7, 5)], &[]);
    check_links(
        &clients()?,
        &[
            (b"/hill/parcel/plan", plan),
            (b"/hill/parcel/plan/", plan),
            (b"/parcel/plan", unnamed_plan),
            (b"/parcel/plan/", unnamed_plan),
            (
                b"/hill/parcel/7",
                nested(
                    &[(1, 0, 5), (2, 5, 7), (4, 12, 2)],
                    &[client, (2, 0, 13, 1)],
                ),
            ),
            (b"/hill/parcel", declined()),
            (b"/hill/parcel/", declined()),
            (b"/hill/parcel/plan/9", declined()),
            (b"/hill/plan", declined()),
            (b"", declined()),
        ],
    )
}

// The client is `parcel`, where that suffices; where not, nothing of it is left in the records.
#[test]
fn client_is_tried_first() -> Result<(), Fail> {
    check_links(
        &clients()?,
        &[
            (
                b"/parcel/parcel/plan",
                nested(&[(1, 0, 7), (2, 7, 7), (3, 14, 5)], &[(0, 0, 1, 6)]),
            ),
            (
                b"/parcel/parcel",
                nested(&[(1, 0, 0), (2, 0, 7), (4, 7, 7)], &[(2, 0, 8, 6)]),
            ),
        ],
    )
}

// The first of a pair is preferred, also where both are lent.
#[test]
fn pairs_are_ordered() -> Result<(), Fail> {
    let clients = clients()?;
    let jobs = jobs()?;
    let job = nested(&[(5, 0, 16)], &[(0, 1, 5, 6), (0, 2, 12, 4)]);
    let plan = nested(&[(1, 0, 4), (2, 4, 7), (3, 11, 5)], &[(0, 0, 1, 3)]);
    let year = nested(&[(5, 0, 9)], &[(0, 1, 5, 4)]);
    check_links(
        &Pair {
            first: &clients,
            second: &jobs,
        },
        &[(b"/job/parcel/plan", plan), (b"/job/2019", year)],
    )?;
    check_links(
        &Pair {
            first: jobs,
            second: clients,
        },
        &[(b"/job/parcel/plan", job), (b"/job/2019", year)],
    )
}

// Items of a row are tried one after another.
#[test]
fn rows_are_ordered() -> Result<(), Fail> {
    let items = [
        word(1, b"hill")?.child(word(2, b"plan")?)?,
        word(3, b"dale")?.child(word(4, b"plan")?)?,
        word(5, b"hill")?.child(word(6, b"map")?)?,
        word(7, b"dale")?.child(word(8, b"plan")?)?,
    ];
    check_links(
        &Row { items: &items },
        &[
            (b"/hill/plan", nested(&[(1, 0, 5), (2, 5, 5)], &[])),
            (b"/dale/plan", nested(&[(3, 0, 5), (4, 5, 5)], &[])),
            (b"/hill/map", nested(&[(5, 0, 5), (6, 5, 4)], &[])),
            (b"/dale/map", declined()),
            (b"/hill", declined()),
        ],
    )
}

// A route over no routes is not childless: it admits nothing.
#[test]
fn no_children() -> Result<(), Fail> {
    let items = [word(2, b"plan")?];
    let over_none = word(1, b"hill")?.child(Row {
        items: &items[0..0],
    })?;
    check_links(
        &over_none,
        &[(b"/hill", declined()), (b"/hill/plan", declined())],
    )?;
    let over_one = word(1, b"hill")?.child(Row { items: &items })?;
    check_links(
        &over_one,
        &[
            (b"/hill", declined()),
            (b"/hill/plan", nested(&[(1, 0, 5), (2, 5, 5)], &[])),
        ],
    )
}
