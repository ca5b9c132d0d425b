ghost use Rattle.std.specs.Prelude.{◌≡◌, ℕ, ◌+◌, ◌^◌, ◌<◌, ◌≤◌, true, List, length, drop, Some, None, if◌then◌else◌};
ghost use Rattle.std.specs.Option.{option_map};
ghost use Rattle.rules.specs.Paths.{lawful, rooted};

use crate::path::is_lawful;

// What is left of a path: its bytes, a lawful path again, and where they start in the whole.
#[derive(Clone, Copy)]
pub struct Rest<'a> {
    bytes: &'a [u8],
    start: usize,
    ghost lawful: { lawful bytes.now ≡ true },
    ghost placed: { start + length bytes.now < 2 ^ 64 },
}

impl<'a> Rest<'a> {
    // What is left of a path from a place on.
    pub fn at(bytes: &'a [u8], start: usize) -> Rest<'a>
        requires lawful { lawful bytes.now ≡ true }
        requires placed { start + length bytes.now < 2 ^ 64 }
        ensures start { result.start ≡ start }
        ensures bytes { result.bytes.now ≡ bytes.now }
    {
        Rest { bytes, start }
    }

    // The whole of a path, if it is lawful.
    pub fn whole(path: &'a [u8]) -> Option<Rest<'a>>
        ensures { option_map {U = ℕ × List ℕ} (λ r. (r.start, r.bytes.now)) result ≡ (if lawful path.now then Some (0, path.now) else None) }
    {
        if is_lawful(path) {
            Some(Rest::at(path, 0))
        } else {
            None
        }
    }

    // Its bytes.
    pub fn bytes(self) -> &'a [u8]
        ensures { result.now ≡ self.entry.bytes.now }
    {
        self.bytes
    }

    // Where it starts.
    pub fn start(self) -> usize
        ensures { result ≡ self.entry.start }
    {
        self.start
    }

    // What is left behind some bytes that were taken.
    pub fn behind(self, taken: usize) -> Rest<'a>
        requires within { taken ≤ length self.bytes.now }
        requires rooted { rooted (drop taken self.bytes.now) ≡ true }
        ensures start { result.start ≡ self.entry.start + taken }
        ensures bytes { result.bytes.now ≡ drop taken self.entry.bytes.now }
    {
        Rest::at(&self.bytes[taken..], self.start + taken)
    }
}
