// The table of links, run against the tree.
use firm::outcome::Outcome;
use firm::table::{ROWS, row};
use trees::tree::MatchNestedRoutes;

// How many rows the tree answers as they say, with their records and zero ones behind them.
pub fn print_rows<T: MatchNestedRoutes>(rt: &HostRuntime, tree: &T) -> anyhow::Result<()> {
    let right = (0..ROWS)
        .map(row)
        .filter(|row| Outcome::of(tree, row.link) == row.outcome())
        .count();
    println!(rt; "{right} of the {ROWS} links of the table are answered as it says")?;
    Ok(())
}
