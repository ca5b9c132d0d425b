ghost use Rattle.std.specs.Prelude.{◌≡◌};
ghost use Rattle.rules.specs.Paths.{lawful, rooted};

// The most bytes of a path.
pub const LONGEST_PATH: usize = 2048;

// Whether a path is empty or begins with a slash.
pub fn is_rooted(path: &[u8]) -> bool
    ensures { result ≡ rooted path.now }
{
    match path {
        [] => true,
        [b'/', ..] => true,
        _ => false,
    }
}

// Whether a path is lawful: at most 2,048 bytes, and empty or begun by a slash.
pub fn is_lawful(path: &[u8]) -> bool
    ensures { result ≡ lawful path.now }
{
    path.len() <= LONGEST_PATH && is_rooted(path)
}
