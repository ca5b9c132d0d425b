ghost use Rattle.std.specs.Prelude.{◌≡◌, ℕ, true, List};
ghost use Rattle.rules.specs.Entries.{lawful_text};

// One lawful static text, the same at each call: a fixed one, or one held in a record.
pub trait AsPath {
    // the text
    ghost text: { Self → List ℕ };

    // it has at most 24 bytes, and no slash after the first
    ghost abides: { (s : Self) → lawful_text (text s) ≡ true };

    fn as_path(&self) -> &[u8]
        ensures { result.now ≡ text self.now };
}
