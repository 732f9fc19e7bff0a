//! The rows of an account: its secrets in order of creation, each with its versions and labels.
ghost use Rattle.std.specs.Prelude.{◌≡◌, IfOk};

use crate::value::{Tag, Value};
use sm_base::{
    Arn, Copied, Keyed, Label, List, Moment, Name, NoMemory, SharedList, Text, Token, copy_three,
    copy_two,
};
use sm_policy_text::KeptPolicy;
use std::alloc::Global;

/// A version of a secret. Its id is the token of the call that made it.
pub struct VersionRow {
    pub id: Token,
    /// How many versions of the secret were made before it.
    pub serial: u64,
    pub made: Moment,
    pub value: Option<Value>,
    /// The attempt at which testSecret accepted it, where a rotation made it current.
    pub rotated: Option<u32>,
    /// Whether RotateSecret or a due rotation made it.
    pub by_rotation: bool,
}

/// Who lets a version go makes one call.
impl Drop for VersionRow {
    fn drop(self) {
        let VersionRow {
            id: _,
            serial: _,
            made: _,
            value: _,
            rotated: _,
            by_rotation: _,
        } = self;
    }
}

/// A staging label and the version that it is on.
#[derive(Drop)]
pub struct Pair {
    pub label: Label,
    pub id: Token,
}

/// The step of a rotation function that a job is at.
#[derive(Clone, Copy, Debug, PartialEq, Eq)]
pub enum Stage {
    Create,
    Set,
    Test,
    Finish,
}

/// A rotation under way.
#[derive(Drop)]
pub struct Job {
    pub token: Token,
    pub stage: Stage,
    /// The attempt at this stage, from 1 to 5.
    pub attempt: u32,
    pub retry_at: Moment,
    /// The attempt at which testSecret answered yes, once it did.
    pub tested: Option<u32>,
}

/// How a secret is rotated.
#[derive(Drop)]
pub struct Rotation {
    pub enabled: bool,
    pub lambda: Option<Text>,
    pub days: Option<u32>,
    /// The schedule expression by which it is rotated.
    pub schedule: Option<Text>,
    pub next: Option<Moment>,
    pub last: Option<Moment>,
}

/// A secret.
pub struct SecretRow {
    /// How many secrets of the account were made before it.
    pub serial: u64,
    pub arn: Arn,
    pub name: Name,
    pub created: Moment,
    pub changed: Moment,
    pub description: Option<Text>,
    pub kms: Option<Text>,
    pub tags: List<Tag>,
    /// In order of creation.
    pub versions: SharedList<VersionRow>,
    /// The serial of the next version.
    pub next_version: u64,
    /// Each label is in at most one pair.
    pub labels: List<Pair>,
    /// From when on the secret is gone, where its deletion is scheduled.
    pub deletion: Option<Moment>,
    pub rotation: Rotation,
    /// The resource policy, which was read when it was put.
    pub policy: Option<KeptPolicy>,
    /// The replica regions, in order of adding.
    pub regions: List<Text>,
    pub job: Option<Job>,
}

/// Who lets a row go makes one call.
impl Drop for SecretRow {
    fn drop(self) {
        let SecretRow {
            serial: _,
            arn: _,
            name: _,
            created: _,
            changed: _,
            description: _,
            kms: _,
            tags: _,
            versions: _,
            next_version: _,
            labels: _,
            deletion: _,
            rotation: _,
            policy: _,
            regions: _,
            job: _,
        } = self;
    }
}

/// All secrets of an account, in order of creation.
#[derive(Drop)]
pub struct Rows {
    /// The serial of the next secret.
    pub next: u64,
    pub secrets: List<SecretRow>,
}

impl Copied for VersionRow {
    fn copy(&self, alloc: Global) -> Result<VersionRow, NoMemory> {
        Ok(VersionRow {
            id: self.id.copy(alloc)?,
            serial: self.serial,
            made: self.made,
            value: self.value.copy(alloc)?,
            rotated: self.rotated,
            by_rotation: self.by_rotation,
        })
    }
}

/// A version is found by its id.
impl Keyed for VersionRow {
    ghost key = { λ version. version.id };

    fn key(&self) -> &[u8] {
        self.id.as_text().as_bytes()
    }
}

impl Copied for Pair {
    fn copy(&self, alloc: Global) -> Result<Pair, NoMemory> {
        Ok(Pair {
            label: self.label.copy(alloc)?,
            id: self.id.copy(alloc)?,
        })
    }
}

impl Copied for Job {
    fn copy(&self, alloc: Global) -> Result<Job, NoMemory> {
        Ok(Job {
            token: self.token.copy(alloc)?,
            stage: self.stage,
            attempt: self.attempt,
            retry_at: self.retry_at,
            tested: self.tested,
        })
    }
}

impl Copied for Rotation {
    fn copy(&self, alloc: Global) -> Result<Rotation, NoMemory> {
        Ok(Rotation {
            enabled: self.enabled,
            lambda: self.lambda.copy(alloc)?,
            days: self.days,
            schedule: self.schedule.copy(alloc)?,
            next: self.next,
            last: self.last,
        })
    }
}

impl Copied for SecretRow {
    fn copy(&self, alloc: Global) -> Result<SecretRow, NoMemory> {
        let Ok((arn, name, description)) = copy_three(
            alloc,
            &self.arn,
            &self.name,
            &self.description,
        ) else {
            return Err(NoMemory);
        };
        let Ok((kms, tags, versions)) = copy_three(alloc, &self.kms, &self.tags, &self.versions)
        else {
            return Err(NoMemory);
        };
        let Ok((labels, rotation)) = copy_two(alloc, &self.labels, &self.rotation) else {
            return Err(NoMemory);
        };
        let Ok((policy, regions, job)) = copy_three(alloc, &self.policy, &self.regions, &self.job)
        else {
            return Err(NoMemory);
        };
        Ok(SecretRow {
            serial: self.serial,
            arn,
            name,
            created: self.created,
            changed: self.changed,
            description,
            kms,
            tags,
            versions,
            next_version: self.next_version,
            labels,
            deletion: self.deletion,
            rotation,
            policy,
            regions,
            job,
        })
    }
}

impl Copied for Rows {
    fn copy(&self, alloc: Global) -> Result<Rows, NoMemory> {
        Ok(Rows {
            next: self.next,
            secrets: self.secrets.copy(alloc)?,
        })
    }
}
