//! Entries: the accepted changes of an account, the marks of its history, and the changes of rows that entries make.
use crate::request::Request;
use crate::rows::{SecretRow, Stage};
use crate::value::Value;
use sm_base::{Arn, Bytes, Copied, Moment, NoMemory, Text, Token, copy_two};
use std::alloc::Global;

/// A step of a rotation.
#[derive(Drop)]
pub struct At {
    /// The token of the version that is rotated to.
    pub token: Token,
    pub stage: Stage,
    /// The attempt at this stage, from 1 to 5.
    pub attempt: u32,
}

/// What a rotator answered to a step.
#[derive(Drop)]
pub enum Answer {
    /// The new value, at createSecret.
    Value(Value),
    Yes,
    No,
    /// The rotator could not be asked.
    Failed,
}

/// What an entry did.
pub enum Act {
    /// A request was accepted.
    Asked(Request),
    /// A due rotation of the secret with this ARN was started.
    Begun(Arn),
    /// A step of the rotation of the secret with this ARN was reported.
    Reported(Arn, At, Answer),
}

/// Who lets an act go makes one call.
impl Drop for Act {
    fn drop(self) {
        match self {
            Act::Asked(_) | Act::Begun(_) | Act::Reported(_, _, _) => {}
        }
    }
}

/// One accepted change.
pub struct Entry {
    pub moment: Moment,
    /// The key of the person who asked.
    pub caller: Text,
    /// The ARN of the person who asked.
    pub by: Text,
    /// The random bytes that were drawn for it.
    pub drawn: Bytes,
    pub act: Act,
    /// Whether versions that need not be kept are dropped from the secret that it changes.
    pub prunes: bool,
}

/// Who lets an entry go makes one call.
impl Drop for Entry {
    fn drop(self) {
        let Entry {
            moment: _,
            caller: _,
            by: _,
            drawn: _,
            act: _,
            prunes: _,
        } = self;
    }
}

/// What stands in an account's history. Only entries change the rows.
pub enum Mark {
    Entry(Entry),
    /// At this moment somebody took up a step of the rotation of the secret with this ARN.
    Claim(Arn, At, Moment),
    /// The disk failed where an entry was to be written.
    Fault,
}

/// Who lets a mark go makes one call.
impl Drop for Mark {
    fn drop(self) {
        match self {
            Mark::Entry(_) | Mark::Claim(_, _, _) | Mark::Fault => {}
        }
    }
}

/// A change of the rows.
#[derive(Drop)]
pub enum Change {
    Add(SecretRow),
    /// The row that takes the place of the one with its serial.
    Replace(SecretRow),
    /// The serial of the row that goes.
    Drop(u64),
    Nothing,
}

impl Copied for At {
    fn copy(&self, alloc: Global) -> Result<At, NoMemory> {
        Ok(At {
            token: self.token.copy(alloc)?,
            stage: self.stage,
            attempt: self.attempt,
        })
    }
}

impl Copied for Answer {
    fn copy(&self, alloc: Global) -> Result<Answer, NoMemory> {
        match self {
            Answer::Value(value) => Ok(Answer::Value(value.copy(alloc)?)),
            Answer::Yes => Ok(Answer::Yes),
            Answer::No => Ok(Answer::No),
            Answer::Failed => Ok(Answer::Failed),
        }
    }
}

impl Copied for Act {
    fn copy(&self, alloc: Global) -> Result<Act, NoMemory> {
        match self {
            Act::Asked(request) => Ok(Act::Asked(request.copy(alloc)?)),
            Act::Begun(arn) => Ok(Act::Begun(arn.copy(alloc)?)),
            Act::Reported(arn, at, answer) => {
                let arn = arn.copy(alloc)?;
                let at = at.copy(alloc)?;
                Ok(Act::Reported(arn, at, answer.copy(alloc)?))
            }
        }
    }
}

impl Copied for Entry {
    fn copy(&self, alloc: Global) -> Result<Entry, NoMemory> {
        let (caller, by) = copy_two(alloc, &self.caller, &self.by)?;
        let (drawn, act) = copy_two(alloc, &self.drawn, &self.act)?;
        Ok(Entry {
            moment: self.moment,
            caller,
            by,
            drawn,
            act,
            prunes: self.prunes,
        })
    }
}

impl Copied for Mark {
    fn copy(&self, alloc: Global) -> Result<Mark, NoMemory> {
        match self {
            Mark::Entry(entry) => Ok(Mark::Entry(entry.copy(alloc)?)),
            Mark::Claim(arn, at, moment) => {
                let arn = arn.copy(alloc)?;
                Ok(Mark::Claim(arn, at.copy(alloc)?, *moment))
            }
            Mark::Fault => Ok(Mark::Fault),
        }
    }
}

impl Copied for Change {
    fn copy(&self, alloc: Global) -> Result<Change, NoMemory> {
        match self {
            Change::Add(row) => Ok(Change::Add(row.copy(alloc)?)),
            Change::Replace(row) => Ok(Change::Replace(row.copy(alloc)?)),
            Change::Drop(serial) => Ok(Change::Drop(*serial)),
            Change::Nothing => Ok(Change::Nothing),
        }
    }
}
