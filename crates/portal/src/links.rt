// What becomes of a link: its routes, their parts and its parameters, or its refusal.
use crate::shown::Shown;
use firm::outcome::Outcome;
use firm::pages::name_of;
use rules::records::{LevelRecord, ParamRecord};
use rules::values::TextPlace;
use trees::tree::MatchNestedRoutes;

// A part of the link.
fn part(link: &[u8], start: usize, len: usize) -> Shown {
    Shown {
        bytes: TextPlace { start, len }.bytes_in(link),
    }
}

// The routes from the root down, each with its part of the link.
fn print_levels(rt: &HostRuntime, link: &[u8], levels: &[LevelRecord]) -> anyhow::Result<()> {
    for level in levels {
        let id = level.id;
        let text = part(link, level.start, level.len);
        print!(rt; " {id}[{text}]")?;
    }
    Ok(())
}

// The optional parts that the link leaves out: a route whose part is empty.
fn print_left_out(rt: &HostRuntime, levels: &[LevelRecord]) -> anyhow::Result<()> {
    for level in levels.iter().filter(|level| level.len == 0) {
        let name = name_of(level.id, 0);
        print!(rt; ", {name} left out")?;
    }
    Ok(())
}

// The parameters by name, root first.
fn print_params(
    rt: &HostRuntime,
    link: &[u8],
    levels: &[LevelRecord],
    params: &[ParamRecord],
) -> anyhow::Result<()> {
    for param in params {
        let id = levels.get(param.level).map_or(0, |level| level.id);
        let name = name_of(id, param.entry);
        let value = part(link, param.start, param.len);
        print!(rt; ", {name} {value}")?;
    }
    Ok(())
}

// One link. True where it opens a page.
pub fn print_link<T: MatchNestedRoutes>(
    rt: &HostRuntime,
    tree: &T,
    link: &[u8],
) -> anyhow::Result<bool> {
    let path = Shown { bytes: link };
    print!(rt; "{path}:")?;
    let Outcome {
        told,
        levels,
        params,
    } = Outcome::of(tree, link);
    match told {
        Ok((routes, values)) => {
            let used = levels.get(0..routes).unwrap_or(&levels);
            print_levels(rt, link, used)?;
            print_left_out(rt, used)?;
            print_params(rt, link, used, params.get(0..values).unwrap_or(&params))?;
            println!(rt; "")?;
            Ok(true)
        }
        Err(refusal) => {
            println!(rt; " declined, {refusal}")?;
            Ok(false)
        }
    }
}
