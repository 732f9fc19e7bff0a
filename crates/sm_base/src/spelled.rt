//! Whether a text is spelled as a name, a token, a label, an ARN or a SecretId is. These tests take no memory.
ghost use Rattle.std.specs.Prelude.{◌≡◌};
ghost use Rattle.std.specs.List.{list_all};
ghost use Rattle.sm_base.specs.Spelling.{is_name, is_name_byte, is_token, is_token_byte, is_label, is_arn, is_secret_id};

use crate::characters::label_fault;
use crate::parts::{ARN, first_fault, is_name_byte, is_token_byte};

fn are_name_bytes(text: &[u8]) -> bool
    ensures { result ≡ list_all is_name_byte text.now }
{
    text.iter().all(|byte| is_name_byte(*byte))
}

pub(crate) fn are_token_bytes(text: &[u8]) -> bool
    ensures { result ≡ list_all is_token_byte text.now }
{
    text.iter().all(|byte| is_token_byte(*byte))
}

/// Whether the text is a name.
#[tactic(auto, unfolding(crate::specs::Spelling::is_name))]
pub fn is_name(text: &[u8]) -> bool
    ensures { result ≡ is_name text.now }
{
    1 <= text.len() && text.len() <= 512 && are_name_bytes(text)
}

/// Whether the text is a token.
#[tactic(auto, unfolding(crate::specs::Spelling::is_token))]
pub fn is_token(text: &[u8]) -> bool
    ensures { result ≡ is_token text.now }
{
    32 <= text.len() && text.len() <= 64 && are_token_bytes(text)
}

/// Whether the text is a label.
pub fn is_label(text: &[u8]) -> bool
    ensures { result ≡ is_label text.now }
{
    match label_fault(text) {
        Some(_) => false,
        None => true,
    }
}

/// Whether the text is an ARN.
pub fn is_arn(text: &[u8]) -> bool
    ensures { result ≡ is_arn text.now }
{
    match first_fault(&ARN, text) {
        Some(_) => false,
        None => true,
    }
}

/// Whether the text is a SecretId: an ARN where it begins with `arn:`, and else a name.
#[tactic(auto, unfolding(crate::specs::Spelling::is_secret_id))]
pub fn is_secret_id(text: &[u8]) -> bool
    ensures { result ≡ is_secret_id text.now }
{
    if text.starts_with(b"arn:") {
        is_arn(text)
    } else {
        is_name(text)
    }
}
