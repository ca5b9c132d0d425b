// Prints the index of the firm's pages, and then, for each link of standard input, one to a line, which page it opens, or why it
// is declined.
#![tactic(auto)]

use firm::pages::pages;
use index::print_index;
use links::print_link;
use std::fmt;
use std::io::{BufRead, BufReader};
use table_rows::print_rows;
use trees::tree::MatchNestedRoutes;

mod index;
mod links;
mod shown;
mod table_rows;

// How many links came, and how many of them open a page.
#[derive(Clone, Copy, Default)]
struct Count {
    read: u64,
    admitted: u64,
}

impl fmt::Display for Count {
    fn fmt<W: fmt::Write>(&self, f: &mut fmt::Formatter<W>) -> fmt::Result {
        let Count { read, admitted } = *self;
        let declined = read.saturating_sub(admitted);
        write!(
            f,
            "{read} links read, {admitted} admitted, {declined} declined"
        )
    }
}

// All links of standard input.
fn print_links<T: MatchNestedRoutes>(rt: &HostRuntime, tree: &T) -> anyhow::Result<Count> {
    let mut count = Count::default();
    for line in BufReader::new(rt.alloc(), rt.stdin())?.split(rt.alloc(), b'\n') {
        let link = line?;
        count.read = count.read.saturating_add(1);
        if print_link(rt, tree, link.as_slice())? {
            count.admitted = count.admitted.saturating_add(1);
        }
    }
    Ok(count)
}

// The runtime is handed to each function that prints, beside what it prints, and not held in a struct: so it is seen which print.
fn run(rt: &HostRuntime) -> anyhow::Result<()> {
    let tree = pages()?;
    print_rows(rt, &tree)?;
    print_index(rt, &tree)?;
    let count = print_links(rt, &tree)?;
    println!(rt; "{count}")?;
    Ok(())
}

fn main(rt: HostRuntime) -> anyhow::Result<()> {
    run(&rt)
}
