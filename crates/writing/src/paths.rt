ghost use Rattle.std.specs.Prelude.{◌≡◌, ◌<◌, not, ◌&&◌, length};
ghost use Rattle.entries.specs.Listed.{listed};
ghost use Rattle.rules.specs.Refusals.{told};
ghost use Rattle.rules.specs.Values.{path_choices, path_values, path_of};
ghost use Rattle.rules.specs.Writing.{all_silent, written_after};
ghost use Rattle.writing.specs.Told.{paths_told, path_told, left_by};
ghost use Rattle.writing.specs.Puts.{Put};

use crate::entry::{all_silent, count_optionals, entry_at};
use crate::piece::Piece;
use crate::values::{MANY_PATHS, ValueTable};
use entries::check::LIST_LIMIT;
use entries::list::EntryList;
use entries::path::LONGEST_PATH;
use rules::refusal::Refusal;

// How many paths a list has with the values of a table. Refusal 9 for the list and then for the value records, 16 where an entry is
// optional, and 17 where there are more than 65,535.
pub fn count_paths(list: EntryList, values: ValueTable) -> Result<u32, Refusal>
    ensures { told result ≡ paths_told list.entry.text.now list.entry.entries.now values.entry.text.now values.entry.records.now }
{
    list.check(LIST_LIMIT)?;
    values.check()?;
    if count_optionals(list) > 0 {
        return Err(Refusal::HasOptional);
    }
    let count = values.count_choices(list);
    if count >= MANY_PATHS {
        return Err(Refusal::ManyPaths);
    }
    Ok(count as u32)
}

// Whether a bare slash in front of some entries is written: nothing is written behind it, and the path does not end so already.
fn is_due(rest: EntryList, ended: bool) -> bool
    ensures { result ≡ (all_silent (listed rest.entry) && not ended) }
{
    all_silent(rest) && !ended
}

// A step of `path_by_number`: writes what the entries of `list` write with the choice `n` of `total`, behind a path that ends with a
// slash or does not, over the front of `out`, and answers how many bytes. Where `out` has fewer, it writes nothing.
// `n` and `total` stay two numbers: both are made anew at each step, so that a struct of them is no plainer.
fn put_path(
    list: EntryList,
    values: ValueTable,
    n: usize,
    total: usize,
    ended: bool,
    out: &mut [u8],
) -> Option<usize>
    requires count { total ≡ length (path_choices values.text.now values.records.now (listed list)) }
    requires number { n < total }
    ensures { Put (written_after ended (listed list.entry) (path_values values.entry.text.now values.entry.records.now (listed list.entry) n)) result out.old out.new }
{
    let [first, rest @ ..] = list.entries else {
        return Some(0);
    };
    let first = entry_at(*first, list.text);
    let rest = EntryList {
        entries: rest,
        ..list
    };
    let own = values.choice_count(first);
    let left = total / own;
    let value = values.chosen_value(first, n / left);
    let piece = Piece::of(first, value, is_due(rest, ended));
    let ends = piece.ends_slash(ended);
    let (front, back) = out.split_at_mut_checked(piece.len())?;
    let more = put_path(rest, values, n % left, left, ends, back)?;
    piece.put(front);
    Some(piece.len() + more)
}

// The path of a number, from the start of `out`, and how long it is. Refusals as for the count, 18 where the number is not below the
// count, and 19 where the path has more than 2,048 bytes or more than `out`. What lies behind the path stays, and after a refusal
// all of `out`.
#[tactic(auto, using(crate::proofs::Parts::put_left))]
pub fn path_by_number(
    list: EntryList,
    values: ValueTable,
    n: u32,
    out: &mut [u8],
) -> Result<usize, Refusal>
    ensures tells { told result ≡ path_told list.entry.text.now list.entry.entries.now values.entry.text.now values.entry.records.now n (length out.old) }
    ensures bytes { out.new ≡ left_by (path_told list.entry.text.now list.entry.entries.now values.entry.text.now values.entry.records.now n (length out.old)) (path_of values.entry.text.now values.entry.records.now (listed list.entry) n) out.old }
{
    let count = count_paths(list, values)?;
    if n >= count {
        return Err(Refusal::NoPath);
    }
    let room = out.len().min(LONGEST_PATH);
    put_path(
        list,
        values,
        n as usize,
        count as usize,
        false,
        &mut out[..room],
    )
    .ok_or(Refusal::NoFit)
}
