ghost use Rattle.rules.specs.KeptLists.{KeptOnLines};
ghost use Rattle.rules.specs.Values.{PathsApart};
ghost use Rattle.rules.specs.Variants.{VariantsNumbered};
ghost use Rattle.rules.specs.Writing.{WritingSpells, WritingReadBack};
ghost use Rattle.rules.specs.Admission.{OneSpelling, SpelledInPieces, ReaderAdmits};

// The laws of spelling: a spelled path is the joining of its pieces and an ending; it spells a list in at most one way, with at
// most one answer; and the reader answers for the first kept list that is spelled, or for none.
pub fn spelling_stands()
    ensures pieces { SpelledInPieces }
    ensures once { OneSpelling }
    ensures reader { ReaderAdmits }
{}

// The law of keeping: each kept list of a forest stands on the line of its number, which is there and has its ids.
pub fn keeping_stands()
    ensures { KeptOnLines }
{}

// The laws of writing: a path that is written with fitting values spells its list, and one that is written from a kept list of a
// tree is admitted there, by that list or an earlier one; two different numbers choose different value records for some entry; the
// bits of a variant's number, one for each OptionalParam, make that number.
pub fn writing_stands()
    ensures spells { WritingSpells }
    ensures read { WritingReadBack }
    ensures apart { PathsApart }
    ensures numbered { VariantsNumbered }
{}
