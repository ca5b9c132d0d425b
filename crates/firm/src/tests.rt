// The table, run against the tree.
use crate::outcome::Outcome;
use crate::pages::pages;
use crate::table::{ROWS, row};
use std::test::Fail;

#[test]
fn every_row_is_answered(rt: HostRuntime) -> Result<(), Fail> {
    let tree = pages()?;
    for row in (0..ROWS).map(row) {
        assert_eq!(rt; Outcome::of(&tree, row.link), row.outcome());
    }
    Ok(())
}
