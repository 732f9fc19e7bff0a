//! Large values in blocks of their own, so that what has them moves a place and not the value.
ghost use Rattle.std.specs.Prelude.{◌≡◌, IfOk};

use sm_model::NoMemory;
use std::alloc::Global;
use std::marker::Model;

/// A value in a block of its own, which contracts see as the value itself.
#[derive(Drop)]
pub struct Block<T> {
    value: Box<T>,
}

impl<T> Model for Block<T> {
    ghost Value = { T };

    ghost view = { λ block. block.value.value };
}

impl<T: Drop> Block<T> {
    /// Puts a value into a block. Without memory it is dropped.
    pub fn new(alloc: Global, value: T) -> Result<Block<T>, NoMemory>
        ensures { IfOk result (λ block. block ≡ value) }
    {
        match Box::new(alloc, value) {
            Ok(value) => Ok(Block { value }),
            Err(_) => Err(NoMemory),
        }
    }
}

impl<T> Block<T> {
    pub fn value(&self) -> &T
        ensures { result.now ≡ self.now }
    {
        &*self.value
    }

    /// The value, out of its block.
    pub fn into_value(self) -> T
        ensures { result ≡ self }
    {
        let Block { value } = self;
        Box::into_inner(value)
    }
}
