//! What names a secret in a request.
ghost use Rattle.std.specs.Prelude.{◌≡◌, IsTrue, IfOk, OnOk, IfErr};
ghost use Rattle.sm_base.specs.Spelling.{is_secret_id};
ghost use Rattle.sm_base.specs.SecretId.{secret_id};
ghost use Rattle.sm_base.specs.Reading.{IsRefusal};

use crate::memory::{Copied, NoMemory};
use crate::spelling::{Arn, Name, ReadRefused};
use std::alloc::Global;

/// The SecretId of a request (AWS Secrets Manager API Reference, GetSecretValue).
#[derive(Drop)]
pub enum SecretId {
    Name(Name),
    Arn(Arn),
}

impl SecretId {
    /// Reads a SecretId: a text that begins with `arn:` is an ARN, and any other is a name.
    #[tactic(auto, using(crate::proofs::SecretIdLemmas::arn_is_secret_id, crate::proofs::SecretIdLemmas::name_is_secret_id, crate::proofs::SecretIdLemmas::arn_id_refusal, crate::proofs::SecretIdLemmas::name_id_refusal))]
    pub fn read(alloc: Global, text: &[u8]) -> Result<SecretId, ReadRefused>
        ensures value { IfOk result (λ id. id ≡ secret_id text.now) }
        ensures spelled { OnOk result (IsTrue (is_secret_id text.now)) }
        ensures refused { IfErr result (IsRefusal is_secret_id text.now) }
    {
        if text.starts_with(b"arn:") {
            Ok(SecretId::Arn(Arn::read(alloc, text)?))
        } else {
            Ok(SecretId::Name(Name::read(alloc, text)?))
        }
    }
}

impl Copied for SecretId {
    fn copy(&self, alloc: Global) -> Result<SecretId, NoMemory> {
        match self {
            SecretId::Name(name) => Ok(SecretId::Name(name.copy(alloc)?)),
            SecretId::Arn(arn) => Ok(SecretId::Arn(arn.copy(alloc)?)),
        }
    }
}
