//! Persons.
ghost use Rattle.std.specs.Prelude.{◌≡◌, IfOk};

use sm_base::{Copied, NoMemory, Text};
use std::alloc::Global;

/// Who asks.
#[derive(Drop)]
pub struct Person {
    pub key: Text,
    pub arn: Text,
    /// Whether the person may do all that no statement denies.
    pub full: bool,
}

impl Copied for Person {
    fn copy(&self, alloc: Global) -> Result<Person, NoMemory> {
        Ok(Person {
            key: self.key.copy(alloc)?,
            arn: self.arn.copy(alloc)?,
            full: self.full,
        })
    }
}
