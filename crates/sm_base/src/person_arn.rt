//! ARNs of persons (IAM User Guide, "IAM identifiers").
ghost use Rattle.std.specs.Prelude.{◌≡◌, ◌≤◌, ◌==◌, length, take, drop, nat_eq, codes, slice_index};
ghost use Rattle.std.specs.Char.{is_ascii_digit};
ghost use Rattle.std.specs.List.{list_all, starts_with};
ghost use Rattle.sm_base.specs.PersonArn.{is_person_arn};
ghost use Rattle.sm_base.specs.Spelling.{is_token_byte, is_run};

use crate::spelled::are_token_bytes;

/// Whether the text is an ARN of a person: `arn:aws:iam::<12 digits>:<1 to 128 characters>`.
#[tactic(auto, unfolding(crate::specs::PersonArn::is_person_arn), using(crate::proofs::PersonArnLemmas::long_enough))]
pub fn is_person_arn(text: &[u8]) -> bool
    ensures { result ≡ is_person_arn text.now }
{
    is_long_enough(text) && starts_as_person(text) && has_account(text) && has_colon(text)
}

fn is_long_enough(text: &[u8]) -> bool
    ensures { result ≡ is_run is_token_byte 27 154 text.now }
{
    27 <= text.len() && text.len() <= 154 && are_token_bytes(text)
}

fn starts_as_person(text: &[u8]) -> bool
    ensures { result ≡ starts_with nat_eq text.now (codes "arn:aws:iam::") }
{
    text.starts_with(b"arn:aws:iam::")
}

fn has_account(text: &[u8]) -> bool
    requires { 26 ≤ length text.now }
    ensures { result ≡ list_all is_ascii_digit (take 12 (drop 13 text.now)) }
{
    text[13..25].iter().all(|byte| byte.is_ascii_digit())
}

fn has_colon(text: &[u8]) -> bool
    requires { 26 ≤ length text.now }
    ensures { result ≡ (slice_index text.now 25 == 58) }
{
    text[25] == b':'
}
