use std::fmt;

// The most bytes that are shown.
const SHOWN: usize = 60;

// Bytes of a link as they are shown: printable ASCII as it is, and any other byte, and a backslash, as \xHH. Of a long text the
// first bytes are shown, with its length.
#[derive(Clone, Copy)]
pub struct Shown<'a> {
    pub bytes: &'a [u8],
}

impl<'a> fmt::Display for Shown<'a> {
    fn fmt<W: fmt::Write>(&self, f: &mut fmt::Formatter<W>) -> fmt::Result {
        for b in self.bytes.iter().take(SHOWN) {
            let c = *b;
            if c >= b' ' && c <= b'~' && c != b'\\' {
                f.write_char(char::from(c))?;
            } else {
                write!(f, "\\x{c:02x}")?;
            }
        }
        let len = self.bytes.len();
        if len > SHOWN {
            write!(f, "... ({len} bytes)")?;
        }
        Ok(())
    }
}
