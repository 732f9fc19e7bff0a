//! When something is asked or done.
ghost use Rattle.std.specs.Prelude.{◌≡◌};
ghost use Rattle.sm_versions.specs.Prune.{pruning};

use sm_model::Moment;
use std::marker::Model;

/// When something is asked or done, and whether versions that need not be kept are dropped with it.
#[derive(Clone, Copy)]
pub struct When {
    pub moment: Moment,
    pub prunes: bool,
}

impl Model for When {
    ghost use Rattle.sm_model.specs.Versions.{When};

    ghost Value = { When };

    ghost view = { λ when. record { moment = when.moment; prunes = when.prunes } };

    ghost inverse = { λ when. record { moment = when.moment; prunes = when.prunes } };
}

impl When {
    /// At the moment, and versions that need not be kept are dropped with it.
    pub fn pruning(moment: Moment) -> When
        ensures { result ≡ pruning moment }
    {
        When {
            moment,
            prunes: true,
        }
    }
}
