//! Laws of signatures.
ghost use Rattle.sm_sigv4.specs.Laws.{ReadsSpellings, ReadsNoOther, ByNamesAlone};

/// An Authorization field that is spelled is read, however many spaces stand behind its commas, and one that is read is
/// spelled.
pub fn spellings_are_read()
    ensures spellings { ReadsSpellings }
    ensures no_other { ReadsNoOther }
{}

/// The canonical text of a message depends on its method, path, body and signed fields alone.
pub fn texts_depend_on_names()
    ensures { ByNamesAlone }
{}
