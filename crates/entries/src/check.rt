ghost use Rattle.std.specs.Prelude.{◌≡◌};
ghost use Rattle.std.specs.Result.{result_err};
ghost use Rattle.rules.specs.Paths.{slash_free};
ghost use Rattle.rules.specs.Places.{text_fault, name_fault, kind_fault, is_unit};

use crate::record::LONGEST_TEXT;
use rules::refusal::Cause;
use rules::segment::SegmentKind;

// The most entries of a route's list, and of any other list.
pub const ROUTE_LIMIT: usize = 6;

pub const LIST_LIMIT: usize = 96;

#[tactic(auto, using(crate::proofs::SlashFree::slash_free_is))]
fn is_slash_free(bytes: &[u8]) -> bool
    ensures { result ≡ slash_free bytes.now }
{
    !bytes.contains(&b'/')
}

// A static text has at most 24 bytes, and no slash after its first.
fn check_text(text: &[u8]) -> Result<(), Cause>
    ensures { result_err result ≡ text_fault text.now }
{
    if text.len() > LONGEST_TEXT {
        return Err(Cause::Length);
    }
    match text {
        [_, rest @ ..] if !is_slash_free(rest) => Err(Cause::Slash),
        _ => Ok(()),
    }
}

// A name has 1 to 24 bytes.
fn check_name(name: &[u8]) -> Result<(), Cause>
    ensures { result_err result ≡ name_fault name.now }
{
    match name.len() {
        1..=LONGEST_TEXT => Ok(()),
        _ => Err(Cause::Length),
    }
}

pub fn is_unit(kind: SegmentKind) -> bool
    ensures { result ≡ is_unit kind }
{
    matches!(kind, SegmentKind::Unit)
}

// What a kind asks of its text or name; a Unit has none. The two come apart until a `Segment` holds both.
pub fn check_segment(kind: SegmentKind, text: &[u8]) -> Result<(), Cause>
    ensures { result_err result ≡ kind_fault kind text.now }
{
    match kind {
        SegmentKind::Unit => Ok(()),
        SegmentKind::Static => check_text(text),
        SegmentKind::Param | SegmentKind::OptionalParam | SegmentKind::Splat => check_name(text),
    }
}
