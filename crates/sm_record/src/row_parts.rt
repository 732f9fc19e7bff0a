//! The parts of a secret as they are spelled, a few fields each.
ghost use Rattle.std.specs.Prelude.{◌≡◌};
ghost use Rattle.sm_record.specs.Rows.{row_of, base_of_start};

use crate::base::Base;
use sm_model::{
    Arn, Job, KeptPolicy, List, Moment, Name, Pair, Rotation, Rows, SecretRow, SharedList, Tag,
    Text, VersionRow,
};

/// What stands before all secrets.
#[derive(Clone, Copy)]
pub struct Start {
    /// The serial of the next secret.
    pub next: u64,
    pub last: Moment,
    pub entries: u64,
    /// How many secrets follow.
    pub secrets: u64,
}

/// What a secret is called, and when it was made and changed.
#[derive(Drop)]
pub struct Named {
    pub serial: u64,
    pub arn: Arn,
    pub name: Name,
    pub created: Moment,
    pub changed: Moment,
}

/// What a secret's owner says of it.
#[derive(Drop)]
pub struct Described {
    pub description: Option<Text>,
    pub kms: Option<Text>,
    pub tags: List<Tag>,
}

/// How many versions follow, and what is said of them.
#[derive(Drop)]
pub struct Counted {
    pub versions: u64,
    pub next_version: u64,
    pub labels: List<Pair>,
    pub deletion: Option<Moment>,
}

/// Who may ask for a secret, where it is, and what is under way.
#[derive(Drop)]
pub struct Ruled {
    pub policy: Option<KeptPolicy>,
    pub regions: List<Text>,
    pub job: Option<Job>,
}

/// A secret without its versions.
#[derive(Drop)]
pub struct RowHead {
    pub named: Named,
    pub described: Described,
    pub counted: Counted,
    pub rotation: Rotation,
    pub ruled: Ruled,
}

impl RowHead {
    /// The secret of this head, with these versions.
    pub fn row(self, versions: SharedList<VersionRow>) -> SecretRow
        ensures { result ≡ row_of self versions }
    {
        let RowHead {
            named,
            described,
            counted,
            rotation,
            ruled,
        } = self;
        let Named {
            serial,
            arn,
            name,
            created,
            changed,
        } = named;
        let Described {
            description,
            kms,
            tags,
        } = described;
        let Counted {
            versions: _,
            next_version,
            labels,
            deletion,
        } = counted;
        let Ruled {
            policy,
            regions,
            job,
        } = ruled;
        SecretRow {
            serial,
            arn,
            name,
            created,
            changed,
            description,
            kms,
            tags,
            versions,
            next_version,
            labels,
            deletion,
            rotation,
            policy,
            regions,
            job,
        }
    }
}

impl Start {
    /// The base that begins so, with these secrets.
    pub fn base(self, secrets: List<SecretRow>) -> Base
        ensures { result ≡ base_of_start self secrets }
    {
        Base {
            rows: Rows {
                next: self.next,
                secrets,
            },
            last: self.last,
            entries: self.entries,
        }
    }
}
