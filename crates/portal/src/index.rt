// The index of pages: one line for each childless route.
use crate::shown::Shown;
use firm::pages::{ENTRIES, LEVELS};
use rules::records::RouteId;
use rules::segment::{PathSegment, SegmentKind};
use std::fmt;
use trees::tree::MatchNestedRoutes;

// An entry as it is written in a route: `parcel`, `:lot`, `:client?`, `*rest`.
#[derive(Clone, Copy)]
struct ShownEntry<'a>(&'a PathSegment);

impl<'a> fmt::Display for ShownEntry<'a> {
    fn fmt<W: fmt::Write>(&self, f: &mut fmt::Formatter<W>) -> fmt::Result {
        let (before, after) = match self.0.kind {
            SegmentKind::Unit => (".", ""),
            SegmentKind::Static => ("", ""),
            SegmentKind::Param => (":", ""),
            SegmentKind::OptionalParam => (":", "?"),
            SegmentKind::Splat => ("*", ""),
        };
        let len = self.0.len as usize;
        let text = Shown {
            bytes: self.0.text.get(0..len).unwrap_or(b""),
        };
        write!(f, "{before}{text}{after}")
    }
}

fn print_line<T: MatchNestedRoutes>(rt: &HostRuntime, tree: &T, n: u32) -> anyhow::Result<()> {
    let mut ids: [RouteId; LEVELS] = [0; LEVELS];
    let mut entries = [PathSegment::ZERO; ENTRIES];
    let mut hooks = [0u16; LEVELS];
    let line = tree.generate_routes(n, &mut ids, &mut entries, &mut hooks)?;
    print!(rt; "page {n}, routes")?;
    for id in ids.iter().take(line.ids) {
        print!(rt; " {id}")?;
    }
    print!(rt; ":")?;
    for entry in entries.iter().take(line.entries).map(ShownEntry) {
        print!(rt; " {entry}")?;
    }
    let mode = line.mode;
    let forms = tree.kept_count(n);
    println!(rt; "; {mode:?}, forms of its link: {forms}")?;
    Ok(())
}

pub fn print_index<T: MatchNestedRoutes>(rt: &HostRuntime, tree: &T) -> anyhow::Result<()> {
    for n in 0..u32::try_from(tree.line_count()).unwrap_or(u32::MAX) {
        print_line(rt, tree, n)?;
    }
    Ok(())
}
