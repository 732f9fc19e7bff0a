//! The replica.
ghost use Rattle.std.specs.Prelude.{◌≡◌, ◌≤◌, false, None, IfOk};
ghost use Rattle.sm_base.specs.Outcomes.{OrMemory};
ghost use Rattle.sm_base.specs.declared.moment.TheConstants.{LAST_READING};
ghost use Rattle.sm_judge_common.specs.Judged.{judged_told, IfAccepted};
ghost use Rattle.sm_recovery.specs.Following.{origin};
ghost use Rattle.sm_base_check.specs.Bases.{IsSound};
ghost use Rattle.sm_table.specs.Sound.{Sound};
ghost use Rattle.sm_replica.specs.Answering.{answer};
ghost use Rattle.sm_replica.specs.Promoting.{Promotes};
ghost use Rattle.sm_replica.specs.Replicas.{IsTimely};
ghost use Rattle.sm_replica.specs.Taking.{Takes};

use crate::answering::{answer_request, shows};
use crate::taking::{take_entries, take_rows};
use sm_judge_common::Judged;
use sm_model::{Moment, NoMemory, Person, Request, SecretId, Text};
use sm_record::Base;
use sm_recovery::ReplayState;
use sm_replication::Frame;
use sm_table::Table;
use std::alloc::Global;
use std::marker::Model;

/// What a replica makes of a frame. Every answer but `At` leaves it as it was.
#[derive(Clone, Copy, Debug, PartialEq, Eq)]
pub enum Taken {
    /// It followed so many entries in all.
    At(u64),
    /// The frame begins past its position, which this is.
    Ahead(u64),
    /// The entry at this place of the frame is not legal where it stands, or the rows are not sound, or not those of
    /// their position.
    Broken(u64),
    /// It was promoted, and takes nothing more.
    Promoted,
    Memory,
}

/// Why a replica was not promoted.
#[derive(Clone, Copy, Debug, PartialEq, Eq)]
pub enum PromoteRefused {
    /// The secret is not there, or not in the region.
    NoSecret,
    Memory,
}

/// The secrets of a primary as so many first entries of its history leave them, of which it shows those of its region.
#[derive(Drop)]
pub struct Replica {
    alloc: Global,
    region: Text,
    replayed: ReplayState,
    promoted: bool,
}

impl Model for Replica {
    ghost use Rattle.sm_replica.specs.Replicas.{Replica};
    ghost use Rattle.sm_base_check.specs.Bases.{IsSound};

    ghost Value = { Replica };

    ghost view = { λ r. record { region = r.region; base = r.replayed; promoted = r.promoted } };

    ghost invariant = { λ r. IsSound r.replayed };
}

impl Replica {
    /// A replica of this region that followed no entries. It takes no memory.
    #[tactic(auto, using(sm_recovery::proofs::FollowLemmas::nothing_sound))]
    pub fn new(alloc: Global, region: Text) -> Replica
        ensures { result ≡ record { region = region; base = origin; promoted = false } }
    {
        Replica {
            alloc,
            region,
            replayed: ReplayState::new(alloc),
            promoted: false,
        }
    }

    /// How many entries it followed. It takes no memory.
    pub fn position(&self) -> u64
        ensures { result ≡ self.now.base.entries }
    {
        self.replayed.entries()
    }

    /// The moment of the last entry that it followed, or 0 where there was none. It takes no memory.
    pub fn last(&self) -> Moment
        ensures last { result ≡ self.now.base.last }
        ensures bound { result.0 ≤ LAST_READING }
    {
        self.replayed.last()
    }

    /// The secrets that it holds, those of other regions too. It takes no memory.
    pub fn table(&self) -> &Table
        ensures table { result.now ≡ self.now.base.rows }
        ensures sound { Sound result.now }
    {
        self.replayed.table()
    }

    /// Whether it was promoted. It takes no memory.
    pub fn is_promoted(&self) -> bool
        ensures { result ≡ self.now.promoted }
    {
        self.promoted
    }

    /// Takes a frame: it follows the entries that it has not, or takes the rows where they are past its position.
    #[tactic(auto, using(crate::proofs::TakeLemmas::entries_sound, crate::proofs::TakeLemmas::rows_sound))]
    pub fn take(&mut self, frame: &Frame) -> Taken
        requires { IsTimely frame.now }
        ensures { Takes self.old frame.now result self.new }
    {
        if self.promoted {
            return Taken::Promoted;
        }
        match frame {
            Frame::Entries(at, entries) => take_entries(
                self.alloc,
                &mut self.replayed,
                *at,
                entries.as_slice(),
            ),
            Frame::Rows(at, base) => take_rows(self.alloc, &mut self.replayed, *at, base),
        }
    }

    /// Answers a request of a person at a moment: GetSecretValue and DescribeSecret of a secret of the region. Other
    /// operations are refused. It never answers a change.
    pub fn answer(&self, person: &Person, moment: Moment, request: &Request) -> Judged
        requires { moment.0 ≤ LAST_READING }
        ensures answer { OrMemory (judged_told result)
            (answer self.now.region self.now.base.rows person.now moment request.now) }
        ensures no_change { IfAccepted result (λ change. change ≡ None) }
    {
        answer_request(
            self.alloc,
            &self.region,
            self.replayed.table(),
            person,
            moment,
            request,
        )
    }

    /// Promotes it to an account of its own, where it shows the secret at the moment, and gives what entries of that
    /// may be counted from. From then on it takes nothing more, for no secret; promoted again it gives the same.
    pub fn promote(&mut self, id: &SecretId, moment: Moment) -> Result<Base, PromoteRefused>
        ensures promotes { Promotes self.old id.now moment result self.new }
        ensures sound { IfOk result IsSound }
    {
        if !shows(&self.region, self.replayed.table(), id, moment) {
            return Err(PromoteRefused::NoSecret);
        }
        match self.replayed.base() {
            Ok(base) => {
                self.promoted = true;
                Ok(base)
            }
            Err(NoMemory) => Err(PromoteRefused::Memory),
        }
    }
}
