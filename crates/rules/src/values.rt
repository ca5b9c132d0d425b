ghost use Rattle.std.specs.Prelude.{◌≡◌, ◌||◌};
ghost use Rattle.std.specs.Str.{bytes_eq};
ghost use Rattle.std.specs.Option.{option_map};
ghost use Rattle.rules.specs.TextParts.{bytes_in, outside, part_of};

// A place in a text.
#[derive(Clone, Copy, PartialEq, Eq, Debug)]
pub struct TextPlace {
    pub start: usize,
    pub len: usize,
}

impl TextPlace {
    // The part of a text there, if it lies within it.
    pub fn part_of(self, text: &[u8]) -> Option<&[u8]>
        ensures { option_map (λ x. x.now) result ≡ part_of text.now self }
    {
        text.get(self.start..)?.get(..self.len)
    }

    // Whether it does not lie within a text.
    pub fn is_outside(self, text: &[u8]) -> bool
        ensures { result ≡ outside text.now self }
    {
        self.part_of(text).is_none()
    }

    // The bytes of a text from its start on, as many as it is long or as the text goes.
    pub fn bytes_in(self, text: &[u8]) -> &[u8]
        ensures { result.now ≡ bytes_in text.now self }
    {
        let rest = &text[self.start.min(text.len())..];
        &rest[..self.len.min(rest.len())]
    }
}

// One value of a name: the places of both in a text beside the table.
#[derive(Clone, Copy, PartialEq, Eq, Debug)]
pub struct ValueRecord {
    pub name: TextPlace,
    pub value: TextPlace,
}

impl ValueRecord {
    // Whether its name or its value does not lie within a text.
    pub fn is_outside(self, text: &[u8]) -> bool
        ensures { result ≡ (outside text.now self.name || outside text.now self.value) }
    {
        self.name.is_outside(text) || self.value.is_outside(text)
    }

    // Whether its name in a text is this one.
    pub fn is_named(self, text: &[u8], name: &[u8]) -> bool
        ensures { result ≡ bytes_eq (bytes_in text.now self.name) name.now }
    {
        self.name.bytes_in(text) == name
    }
}
