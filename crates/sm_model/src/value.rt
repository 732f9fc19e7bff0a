//! The values of versions, and tags.
ghost use Rattle.std.specs.Prelude.{◌≡◌, ◌↔◌, IsTrue, IfOk, length};
ghost use Rattle.sm_model.specs.Value.{byte_count};

use sm_base::{Bytes, Copied, NoMemory, Text};
use std::alloc::Global;

/// What a version keeps. Text and bytes are different values, also where their bytes are the same.
#[derive(Drop)]
pub enum Value {
    Text(Text),
    Bytes(Bytes),
}

impl Value {
    /// Whether both are texts, or both bytes, with the same bytes.
    pub fn equals(&self, other: &Value) -> bool
        ensures { IsTrue result ↔ (self.now ≡ other.now) }
    {
        match self {
            Value::Text(text) => match other {
                Value::Text(other) => text.equals(other),
                Value::Bytes(_) => false,
            },
            Value::Bytes(bytes) => match other {
                Value::Text(_) => false,
                Value::Bytes(other) => bytes.equals(other),
            },
        }
    }

    /// How many bytes it has.
    pub fn len(&self) -> usize
        ensures { result ≡ byte_count self.now }
    {
        match self {
            Value::Text(text) => text.len(),
            Value::Bytes(bytes) => bytes.len(),
        }
    }
}

impl Copied for Value {
    fn copy(&self, alloc: Global) -> Result<Value, NoMemory> {
        match self {
            Value::Text(text) => Ok(Value::Text(text.copy(alloc)?)),
            Value::Bytes(bytes) => Ok(Value::Bytes(bytes.copy(alloc)?)),
        }
    }
}

/// A tag of a secret.
#[derive(Drop)]
pub struct Tag {
    pub key: Text,
    pub value: Text,
}

impl Copied for Tag {
    fn copy(&self, alloc: Global) -> Result<Tag, NoMemory> {
        Ok(Tag {
            key: self.key.copy(alloc)?,
            value: self.value.copy(alloc)?,
        })
    }
}
