//! The names, tokens and values of a drill.
ghost use Rattle.std.specs.Prelude.{◌≡◌, IfOk, string_bytes};
ghost use Rattle.sm_drill.specs.Messages.{name_of, token_of, value_of};

use sm_base::NoMemory;
use std::alloc::Global;

/// The name of the secret of this number.
#[tactic(auto, unfolding(crate::specs::Messages::name_of))]
pub(crate) fn name_of(alloc: Global, secret: u64) -> Result<String, NoMemory>
    ensures { IfOk result (λ name. string_bytes name ≡ name_of secret) }
{
    Ok(format!(in alloc; "d/{secret}")?)
}

/// The token of the message of this number.
#[tactic(auto, using(crate::proofs::TextLemmas::in_20_digits), unfolding(crate::specs::Messages::token_of))]
pub(crate) fn token_of(alloc: Global, index: u64) -> Result<String, NoMemory>
    ensures { IfOk result (λ token. string_bytes token ≡ token_of index) }
{
    Ok(format!(in alloc; "drill-token-{index:020}")?)
}

/// The value of a word.
#[tactic(auto, using(crate::proofs::TextLemmas::in_8_digits), unfolding(crate::specs::Messages::value_of))]
pub(crate) fn value_of(alloc: Global, word: u32) -> Result<String, NoMemory>
    ensures { IfOk result (λ value. string_bytes value ≡ value_of word) }
{
    Ok(format!(in alloc; "{word:08x}")?)
}
