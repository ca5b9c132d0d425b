ghost use Rattle.std.specs.Prelude.{◌≡◌, length};
ghost use Rattle.rules.specs.Places.{entry_of};
ghost use Rattle.rules.specs.Writing.{with_slash, bytes_of, ends_slash};
ghost use Rattle.rules.specs.Entries.{static};
ghost use Rattle.writing.specs.Told.{piece_bytes};

use crate::entry::Entry;
use rules::segment::SegmentKind;

// What one entry writes: a slash or none, and a text.
#[derive(Clone, Copy)]
pub(crate) struct Piece<'a> {
    pub slash: bool,
    pub body: &'a [u8],
}

impl<'a> Piece<'a> {
    const NOTHING: Piece<'static> = Piece {
        slash: false,
        body: b"",
    };

    // A text with a slash in front, unless it begins with one.
    fn with_slash(text: &'a [u8]) -> Piece<'a>
        ensures { piece_bytes result.slash result.body.now ≡ with_slash text.now }
    {
        Piece {
            slash: !matches!(text, [b'/', ..]),
            body: text,
        }
    }

    // What a static writes; a bare slash only where it is due.
    fn of_static(text: &'a [u8], due: bool) -> Piece<'a>
        ensures { piece_bytes result.slash result.body.now ≡ bytes_of (static text.now) text.now due }
    {
        match text {
            [] => Piece::NOTHING,
            [b'/'] => Piece {
                slash: due,
                body: b"",
            },
            _ => Piece::with_slash(text),
        }
    }

    // What an entry writes with its value.
    pub(crate) fn of(one: Entry<'a>, value: &'a [u8], due: bool) -> Piece<'a>
        ensures { piece_bytes result.slash result.body.now ≡ bytes_of (entry_of one.entry.kind one.entry.text.now) value.now due }
    {
        match one.kind {
            SegmentKind::Unit | SegmentKind::OptionalParam => Piece::NOTHING,
            SegmentKind::Static => Piece::of_static(one.text, due),
            SegmentKind::Param | SegmentKind::Splat => Piece::with_slash(value),
        }
    }

    // How many bytes it has.
    pub(crate) fn len(self) -> usize
        ensures { result ≡ length (piece_bytes self.entry.slash self.entry.body.now) }
    {
        usize::from(self.slash) + self.body.len()
    }

    // Whether a path ends with a slash behind it, where it does or does not before it.
    #[tactic(auto, using(crate::proofs::Parts::ends_body))]
    pub(crate) fn ends_slash(self, ended: bool) -> bool
        ensures { result ≡ ends_slash ended (piece_bytes self.entry.slash self.entry.body.now) }
    {
        match self.body {
            [] => self.slash || ended,
            [.., last] => *last == b'/',
        }
    }

    // Writes it over a buffer that is as long.
    #[tactic(auto, using(crate::proofs::Parts::put_slash))]
    pub(crate) fn put(self, out: &mut [u8])
        requires { length out.old ≡ length (piece_bytes self.slash self.body.now) }
        ensures { out.new ≡ piece_bytes self.entry.slash self.entry.body.now }
    {
        if self.slash {
            out[0] = b'/';
            out[1..].copy_from_slice(self.body);
        } else {
            out.copy_from_slice(self.body);
        }
    }
}
