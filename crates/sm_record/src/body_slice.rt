//! Bodies where they stand.
ghost use Rattle.std.specs.Prelude.{◌≡◌, length};

use std::marker::Model;

/// The bytes of a body where they stand, which contracts see as their list. It takes no memory of its own.
#[derive(Drop)]
pub struct BodySlice<'a> {
    bytes: &'a [u8],
}

impl<'a> Model for BodySlice<'a> {
    ghost use Rattle.std.specs.Prelude.{ℕ, List};

    ghost Value = { List ℕ };

    ghost view = { λ body. body.bytes.now };
}

impl<'a> BodySlice<'a> {
    /// The body of these bytes.
    pub fn new(bytes: &'a [u8]) -> BodySlice<'a>
        ensures { result ≡ bytes.now }
    {
        BodySlice { bytes }
    }

    pub fn as_slice(&self) -> &'a [u8]
        ensures { result.now ≡ self.now }
    {
        self.bytes
    }

    pub fn len(&self) -> usize
        ensures { result ≡ length self.now }
    {
        self.bytes.len()
    }
}
