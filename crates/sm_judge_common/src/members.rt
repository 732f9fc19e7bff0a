//! The members of a request, of texts whose forms pass and of the random bytes that were drawn for it.
ghost use Rattle.std.specs.Prelude.{◌≡◌, ◌≤◌, IfOk, IfSome, IfNone, IsTrue, length};
ghost use Rattle.std.specs.List.{list_all};
ghost use Rattle.sm_base.specs.SecretId.{secret_id};
ghost use Rattle.sm_base.specs.Spelling.{is_label, is_secret_id, is_token};
ghost use Rattle.sm_judge_common.specs.Members.{token_or_drawn, value_of};

use sm_model::{Bytes, Copied, Label, List, NoMemory, ReadRefused, SecretId, Text, Token, Value};
use std::alloc::Global;

/// The SecretId that a text spells.
#[tactic(auto, using(crate::proofs::MemberLemmas::spelled_is_read))]
pub fn secret_id(alloc: Global, text: &Text) -> Result<SecretId, NoMemory>
    requires { IsTrue (is_secret_id text.now) }
    ensures { IfOk result (λ id. id ≡ secret_id text.now) }
{
    match SecretId::read(alloc, text.as_bytes()) {
        Ok(id) => Ok(id),
        Err(ReadRefused::Memory) => Err(NoMemory),
        Err(ReadRefused::Spelling(_)) => unreachable!(),
    }
}

/// The token that is given, if one is.
pub fn token_given(alloc: Global, text: &Option<Text>) -> Result<Option<Token>, NoMemory>
    requires { IfSome text.now (λ t. IsTrue (is_token t)) }
    ensures { IfOk result (λ token. token ≡ text.now) }
{
    match text {
        Some(text) => Ok(Some(Token::new(text.copy(alloc)?))),
        None => Ok(None),
    }
}

/// The token that is given, or the one of the first 16 bytes.
pub fn token_or_drawn(alloc: Global, token: &Option<Text>, bytes: &[u8]) -> Result<Token, NoMemory>
    requires spelled { IfSome token.now (λ t. IsTrue (is_token t)) }
    requires room { IfNone token.now (16 ≤ length bytes.now) }
    ensures { IfOk result (λ t. t ≡ token_or_drawn token.now bytes.now) }
{
    match token {
        Some(token) => Ok(Token::new(token.copy(alloc)?)),
        None => {
            let mut random = [0u8; 16];
            random.copy_from_slice(&bytes[..16]);
            Token::drawn(alloc, &random)
        }
    }
}

/// The value that two members give, of which one at most is there.
pub fn value_of(
    alloc: Global,
    text: &Option<Text>,
    binary: &Option<Bytes>,
) -> Result<Option<Value>, NoMemory>
    ensures { IfOk result (λ value. value ≡ value_of text.now binary.now) }
{
    match text {
        Some(text) => Ok(Some(Value::Text(text.copy(alloc)?))),
        None => match binary {
            Some(bytes) => Ok(Some(Value::Bytes(bytes.copy(alloc)?))),
            None => Ok(None),
        },
    }
}

/// The label that a text spells.
pub fn label_of(alloc: Global, text: &Text) -> Result<Label, NoMemory>
    requires { IsTrue (is_label text.now) }
    ensures { IfOk result (λ label. label ≡ text.now) }
{
    Ok(Label::new(text.copy(alloc)?))
}

/// The label that is given, if one is.
pub fn label_given(alloc: Global, text: &Option<Text>) -> Result<Option<Label>, NoMemory>
    requires { IfSome text.now (λ t. IsTrue (is_label t)) }
    ensures { IfOk result (λ label. label ≡ text.now) }
{
    match text {
        Some(text) => Ok(Some(label_of(alloc, text)?)),
        None => Ok(None),
    }
}

/// The labels that texts spell, in their order.
pub fn labels_of(alloc: Global, texts: &[Text]) -> Result<List<Label>, NoMemory>
    requires { IsTrue (list_all is_label texts.now) }
    ensures { IfOk result (λ labels. labels ≡ texts.now) }
{
    let mut labels = Vec::new(alloc);
    for text in texts {
        labels.push(label_of(alloc, text)?)?;
    }
    Ok(List::new(labels))
}
