ghost use Rattle.std.specs.Prelude.{◌≡◌, ℕ, true, false, List};
ghost use Rattle.rules.specs.declared.segment.SegmentKind.{SegmentKind as AKind};
ghost use Rattle.rules.specs.Entries.{is_optional, has_value, is_bare};
ghost use Rattle.rules.specs.Taking.{taking};
ghost use Rattle.rules.specs.Places.{entry_of};

use rules::segment::SegmentKind;

// A type that stands for one of the kinds of entries.
pub trait FixedKind {
    // the kind
    ghost KIND: { AKind };

    const KIND: SegmentKind;
}

// One that stands for a kind whose entries have a name and a value, and are never bare; what they take is the same for each name.
pub trait NamedKind: FixedKind {
    // Whether it is OptionalParam.
    fn optional() -> bool
        ensures { (name : List ℕ) → result ≡ is_optional (entry_of Self.KIND name) };

    // What an entry of it takes of a path.
    fn take(path: &[u8]) -> Option<(usize, usize, usize)>
        ensures { (name : List ℕ) → result ≡ taking (entry_of Self.KIND name) path.now };

    // its entries have a value
    ghost valued: { (name : List ℕ) → has_value (entry_of Self.KIND name) ≡ true };

    // none of them is the bare slash
    ghost never_bare: { (name : List ℕ) → is_bare (entry_of Self.KIND name) ≡ false };
}
