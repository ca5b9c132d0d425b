ghost use Rattle.std.specs.Prelude.{◌≡◌, length};
ghost use Rattle.rules.specs.Lines.{lines};
ghost use Rattle.rules.specs.Steps.{line_behind};

use trees::tree::MatchNestedRoutes;

// The number of a line behind those of a tree, or None where it is one of these.
pub(crate) fn behind<T: MatchNestedRoutes>(tree: &T, line: u32) -> Option<u32>
    ensures { result ≡ line_behind (length (lines (T.MatchNestedRoutes.routes tree.now))) line }
{
    let left = (line as u64).checked_sub(tree.line_count())?;
    Some(left as u32)
}
