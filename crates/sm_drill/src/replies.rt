//! What a drill says of the replies to its messages.
ghost use Rattle.std.specs.Prelude.{◌≡◌, IfOk, string_bytes, option_map};
ghost use Rattle.sm_drill.specs.Lines.{lines, shown_string, string_in};

use serde_json::Value;
use sm_base::NoMemory;
use std::alloc::Global;

/// The SecretString of a body, where it has one that is a text.
#[tactic(auto, using(sm_json::proofs::BodyLemmas::is_json, sm_json::proofs::BodyLemmas::is_no_json))]
fn string_in(alloc: Global, body: &[u8]) -> Result<Option<String>, NoMemory>
    ensures { IfOk result (λ shown. option_map string_bytes shown ≡ string_in body.now) }
{
    match Value::from_slice(alloc, body) {
        Ok(json) => match json.get("SecretString").and_then(Value::as_str) {
            Some(text) => Ok(Some(String::from_str(alloc, text)?)),
            None => Ok(None),
        },
        Err(error) => {
            if error.is_memory() {
                Err(NoMemory)
            } else {
                Ok(None)
            }
        }
    }
}

/// The SecretString that a reply shows; one that refuses shows none.
pub fn shown_string(alloc: Global, status: u16, body: &[u8]) -> Result<Option<String>, NoMemory>
    ensures { IfOk result (λ shown. option_map string_bytes shown ≡ shown_string status body.now) }
{
    if status == 200 {
        string_in(alloc, body)
    } else {
        Ok(None)
    }
}

/// The three lines of a drill: how many of its messages were refused, the line of the account's totals, and the
/// SecretString that the last reply shows, or a hyphen where it shows none.
#[tactic(auto, unfolding(crate::specs::Lines::lines))]
pub fn lines(
    alloc: Global,
    refused: u64,
    totals: &str,
    shown: &Option<String>,
) -> Result<String, NoMemory>
    ensures { IfOk result (λ text. string_bytes text ≡ lines refused totals.now (option_map string_bytes shown.now)) }
{
    let last = match shown {
        Some(text) => text.as_str(),
        None => "-",
    };
    Ok(format!(in alloc; "messages 10000 refused {refused}\n{totals}last {last}\n")?)
}
