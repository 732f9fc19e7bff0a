//! Laws of runs that follow one another.
ghost use Rattle.sm_server.specs.Stored.{VouchedAgain};

/// The law that a run over what another left begins with vouched secrets if the other did.
pub fn keep_vouched_over_restarts()
    ensures { VouchedAgain }
{}
