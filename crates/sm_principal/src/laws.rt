//! Laws of persons.
ghost use Rattle.sm_principal.specs.Bounds.{ReadsShort, AsksShort};
ghost use Rattle.sm_principal.specs.Spellings.{ReadsLines, ReadsNoOther};

/// The keys, ARNs and secrets of a people text are short, and so is the key of whoever asks.
pub fn persons_are_short()
    ensures read { ReadsShort }
    ensures callers { AsksShort }
{}

/// A line of a person whose parts are in their forms is read as that person, and one of which a person is read is that
/// person's.
pub fn lines_are_read()
    ensures spelled { ReadsLines }
    ensures no_other { ReadsNoOther }
{}
