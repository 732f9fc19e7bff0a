//! Whether an ARN is one of a name (AWS Secrets Manager API Reference, SecretListEntry: ARN).
ghost use Rattle.std.specs.Prelude.{◌≡◌, ◌++◌, ◌&&◌, codes, drop, length, nat_eq, option_copied};
ghost use Rattle.std.specs.Char.{is_ascii_alphanumeric};
ghost use Rattle.std.specs.List.{list_all, starts_with};
ghost use Rattle.sm_base.specs.Spelling.{is_run};
ghost use Rattle.sm_versions.specs.Sound.{is_arn_of};
ghost use Rattle.sm_base_check.specs.Tests.{behind, is_named_run};

use sm_model::{Arn, Name};

/// Whether a secret of this name may have the ARN.
#[tactic(auto, using(crate::proofs::ArnLemmas::begins_so, crate::proofs::ArnLemmas::begins_not))]
pub fn is_arn_of(arn: &Arn, name: &Name) -> bool
    ensures { result ≡ is_arn_of arn.now name.now }
{
    let beginning = b"arn:aws:secretsmanager:us-east-1:000000000000:secret:";
    match behind(arn.as_text().as_bytes(), beginning) {
        Some(rest) => is_named_run(rest, name.as_text().as_bytes()),
        None => false,
    }
}

/// Whether the text is the name, a hyphen, and six letters or digits.
#[tactic(auto, using(crate::proofs::ArnLemmas::starts_both, crate::proofs::ArnLemmas::behind_both))]
fn is_named_run(text: &[u8], name: &[u8]) -> bool
    ensures { result ≡ is_named_run text.now name.now }
{
    match behind(text, name) {
        Some(rest) => match behind(rest, b"-") {
            Some(rest) => is_run_of_six(rest),
            None => false,
        },
        None => false,
    }
}

/// What stands behind the front of a text, where it begins with it.
fn behind<'a>(text: &'a [u8], front: &[u8]) -> Option<&'a [u8]>
    ensures { option_copied result ≡ behind text.now front.now }
{
    if text.starts_with(front) {
        Some(&text[front.len()..])
    } else {
        None
    }
}

/// Whether each byte is a letter or a digit.
fn are_letters_or_digits(text: &[u8]) -> bool
    ensures { result ≡ list_all is_ascii_alphanumeric text.now }
{
    text.iter().all(|byte| byte.is_ascii_alphanumeric())
}

/// Whether the text is six letters or digits.
fn is_run_of_six(text: &[u8]) -> bool
    ensures { result ≡ is_run is_ascii_alphanumeric 6 6 text.now }
{
    6 <= text.len() && text.len() <= 6 && are_letters_or_digits(text)
}
