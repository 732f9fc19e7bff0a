//! Laws of runs.
ghost use Rattle.sm_drive.specs.Laws.{EntriesStay, RunsJoin, EnteredIsThere};

/// Later calls lose or change no entry of a run; a run and one that goes on from it are one run; and an entry that was
/// acknowledged has its place among the entries at the end.
pub fn keep_entries()
    ensures stay { EntriesStay }
    ensures join { RunsJoin }
    ensures there { EnteredIsThere }
{}
