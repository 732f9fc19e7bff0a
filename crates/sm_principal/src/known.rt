//! A person whom a people text names, and the secret by which that person signs.
ghost use Rattle.std.specs.Prelude.{◌≡◌, ◌≤◌, IfOk, nat_le, ◌&&◌, is_some, length, option_copied};
ghost use Rattle.std.specs.List.{list_all};
ghost use Rattle.sm_base.specs.Spelling.{is_token_byte};
ghost use Rattle.sm_principal.specs.Lines.{is_secret};

use sm_base::{Bytes, NoMemory};
use sm_model::Person;
use std::alloc::Global;
use std::marker::Model;

/// The greatest length of a secret, in bytes.
pub const SECRET_LIMIT: usize = 128;

/// The number as it is stated, so that the constant stays it.
pub fn length_of_a_secret_is_as_stated()
    ensures { SECRET_LIMIT ≡ 128 }
{}

/// A person, whose ARN has at most 154 bytes, and the secret by which that person signs, where there is one (AWS
/// General Reference, "AWS security credentials": the access key id is the person's key). The secret is no part of the
/// person, so that no reply, no refusal and no line of a log can have it.
#[derive(Drop)]
pub struct Known {
    person: Person,
    secret: Option<Bytes>,
}

impl Model for Known {
    ghost use Rattle.std.specs.Prelude.{◌≤◌, length};
    ghost use Rattle.sm_principal.specs.Persons as persons;

    ghost Value = { persons.Known };

    ghost view = { λ known. record { person = known.person; secret = known.secret } };

    ghost invariant = { λ known. length known.person.arn ≤ 154 };
}

impl Known {
    /// A person and a secret, where there is one.
    pub(crate) fn with(person: Person, secret: Option<Bytes>) -> Known
        requires { length person.arn ≤ 154 }
        ensures { result ≡ record { person = person; secret = secret } }
    {
        Known { person, secret }
    }

    /// The person.
    pub fn person(&self) -> &Person
        ensures person { result.now ≡ self.now.person }
        ensures short { length self.now.person.arn ≤ 154 }
    {
        &self.person
    }

    /// The secret, where there is one.
    pub fn secret(&self) -> Option<&[u8]>
        ensures { option_copied result ≡ self.now.secret }
    {
        match &self.secret {
            Some(secret) => Some(secret.as_slice()),
            None => None,
        }
    }

    /// Whether there is a secret.
    pub(crate) fn has_secret(&self) -> bool
        ensures { result ≡ is_some self.now.secret }
    {
        self.secret.is_some()
    }
}

#[tactic(auto, unfolding(sm_base::specs::Spelling::is_token_byte))]
fn is_secret_byte(byte: u8) -> bool
    ensures { result ≡ is_token_byte byte }
{
    b'!' <= byte && byte <= b'~'
}

fn are_secret_bytes(text: &[u8]) -> bool
    ensures { result ≡ list_all is_token_byte text.now }
{
    text.iter().all(|byte| is_secret_byte(*byte))
}

/// Whether the text is a secret: 1 to 128 characters from `!` to `~`.
#[tactic(auto, unfolding(crate::specs::Lines::is_secret))]
pub(crate) fn is_secret(text: &[u8]) -> bool
    ensures { result ≡ is_secret text.now }
{
    1 <= text.len() && text.len() <= SECRET_LIMIT && are_secret_bytes(text)
}

/// A copy of a secret, where there is one.
pub(crate) fn kept(alloc: Global, secret: Option<&[u8]>) -> Result<Option<Bytes>, NoMemory>
    ensures { IfOk result (λ kept. kept ≡ option_copied secret.entry) }
{
    match secret {
        Some(secret) => Ok(Some(Bytes::from_slice(alloc, secret)?)),
        None => Ok(None),
    }
}
