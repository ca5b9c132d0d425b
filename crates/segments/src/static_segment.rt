ghost use Rattle.std.specs.Prelude.{◌≡◌, ◌&&◌, length, drop, Some};
ghost use Rattle.rules.specs.declared.segment.SegmentKind.TheVariants.{Static as AStatic};
ghost use Rattle.rules.specs.Paths.{rooted};
ghost use Rattle.rules.specs.Entries.{static};
ghost use Rattle.rules.specs.Taking.{begins, word_of, take_word, take_static};
ghost use Rattle.rules.specs.Records.{text_in};
ghost use Rattle.rules.proofs.RecordOf.{lawful_by_kind};

use crate::as_path::AsPath;
use crate::fixed_kind::FixedKind;
use crate::kind::PossibleRouteMatch;
use crate::of_kind::OfKind;
use entries::path::{is_lawful, is_rooted};
use entries::record::{append_record, record_of};
use rules::segment::{PathSegment, SegmentKind};

// A text without its own leading slash.
fn word_of(text: &[u8]) -> &[u8]
    ensures { result.now ≡ word_of text.now }
{
    match text {
        [b'/', word @ ..] => word,
        word => word,
    }
}

// Whether some bytes are a word and then end, or go on with a slash.
fn begins_with(rest: &[u8], word: &[u8]) -> bool
    ensures { result ≡ (begins word.now rest.now && rooted (drop (length word.now) rest.now)) }
{
    rest.strip_prefix(word).is_some_and(is_rooted)
}

// A slash and a word, if the path begins so and then ends or goes on with a slash.
pub fn take_word(word: &[u8], path: &[u8]) -> Option<(usize, usize, usize)>
    ensures { result ≡ take_word word.now path.now }
{
    match path {
        [b'/', rest @ ..] if begins_with(rest, word) => Some((word.len() + 1, 0, 0)),
        _ => None,
    }
}

// The same with the word of a text. The empty static takes nothing, and so does the bare slash where a byte is still to come.
pub(crate) fn take_static(text: &[u8], path: &[u8]) -> Option<(usize, usize, usize)>
    ensures { result ≡ take_static text.now path.now }
{
    let word = word_of(text);
    // an arm for each shape of a path, the bare slash too, as the rule has them
    match path {
        [] => text.is_empty().then_some((0, 0, 0)),
        [b'/'] => word.is_empty().then_some((0, 0, 0)),
        [b'/', ..] if !word.is_empty() => take_word(word, path),
        _ => word.is_empty().then_some((0, 0, 0)),
    }
}

// A static text that is held in a record.
pub type Text = OfKind<Static>;

// Its kind.
#[derive(Clone, Copy)]
pub struct Static;

impl FixedKind for Static {
    ghost KIND = { AStatic };

    const KIND: SegmentKind = SegmentKind::Static;
}

impl AsPath for OfKind<Static> {
    ghost text = { λ s. text_in s.segment.given };

    ghost abides = { λ s. lawful_by_kind s.segment.given AStatic s.named s.segment.lawful };

    fn as_path(&self) -> &[u8] {
        self.text()
    }
}

// A static text.
#[derive(Clone, Copy, Drop)]
pub struct StaticSegment<T> {
    pub text: T,
}

impl<T: AsPath> PossibleRouteMatch for StaticSegment<T> {
    ghost meaning = { λ s. Some (static (T.AsPath.text s.text)) };

    ghost abides = { λ s. T.AsPath.abides s.text };

    fn optional(&self) -> bool {
        false
    }

    fn test(&self, path: &[u8]) -> Option<(usize, usize, usize)> {
        if is_lawful(path) {
            take_static(self.text.as_path(), path)
        } else {
            None
        }
    }

    fn generate_path(&self, path: &mut [PathSegment], at: usize) -> usize {
        append_record(
            path,
            at,
            record_of(SegmentKind::Static, self.text.as_path()),
        )
    }

    fn entry_count(&self) -> usize {
        1
    }

    fn has_value(&self) -> bool {
        false
    }

    fn is_bare(&self) -> bool {
        matches!(self.text.as_path(), [b'/'])
    }
}
