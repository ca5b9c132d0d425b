ghost use Rattle.std.specs.Prelude.{◌≡◌, Some};
ghost use Rattle.rules.specs.Entries.{static};
ghost use Rattle.plats.specs.Words.{plat_word, plat_lawful};

use entries::path::is_lawful;
use entries::record::{append_record, record_of};
use rules::segment::{PathSegment, SegmentKind};
use segments::kind::PossibleRouteMatch;
use segments::static_segment::take_word;

// The word of a subdivision plat, or of its replat.
fn plat_word(replat: bool) -> &'static [u8]
    ensures { result.now ≡ plat_word replat }
{
    if replat { b"replat" } else { b"plat" }
}

// The word `plat`, or `replat` for a plat that was drawn again.
#[derive(Clone, Copy)]
pub struct PlatSegment {
    pub replat: bool,
}

impl PossibleRouteMatch for PlatSegment {
    ghost meaning = { λ s. Some (static (plat_word s.replat)) };

    ghost abides = { λ s. plat_lawful s.replat };

    fn optional(&self) -> bool {
        false
    }

    fn test(&self, path: &[u8]) -> Option<(usize, usize, usize)> {
        if is_lawful(path) {
            take_word(plat_word(self.replat), path)
        } else {
            None
        }
    }

    fn generate_path(&self, path: &mut [PathSegment], at: usize) -> usize {
        append_record(
            path,
            at,
            record_of(SegmentKind::Static, plat_word(self.replat)),
        )
    }
}
