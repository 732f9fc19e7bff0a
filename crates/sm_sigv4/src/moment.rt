//! The moment of a signature.
ghost use Rattle.std.specs.Prelude.{◌≡◌, ◌≤◌, ◌==◌, length, take, drop, slice_index};
ghost use Rattle.std.specs.Char.{is_ascii_digit};
ghost use Rattle.std.specs.List.{list_all};
ghost use Rattle.sm_base.specs.Texts.{same_text};
ghost use Rattle.sm_sigv4.specs.Signatures.{is_moment};

use sm_base::text::same_text;

fn has_day(text: &[u8]) -> bool
    requires { length text.now ≡ 16 }
    ensures { result ≡ list_all is_ascii_digit (take 8 text.now) }
{
    text[..8].iter().all(|byte| byte.is_ascii_digit())
}

fn has_time(text: &[u8]) -> bool
    requires { length text.now ≡ 16 }
    ensures { result ≡ list_all is_ascii_digit (take 6 (drop 9 text.now)) }
{
    text[9..15].iter().all(|byte| byte.is_ascii_digit())
}

fn is_of_day(text: &[u8], date: &[u8]) -> bool
    requires { length text.now ≡ 16 }
    ensures { result ≡ same_text (take 8 text.now) date.now }
{
    same_text(&text[..8], date)
}

/// Whether the text is a moment of this day: 8 digits, `T`, 6 digits, `Z`.
#[tactic(auto, unfolding(crate::specs::Signatures::is_moment))]
pub fn is_moment(date: &[u8], text: &[u8]) -> bool
    ensures { result ≡ is_moment date.now text.now }
{
    text.len() == 16
        && has_day(text)
        && text[8] == b'T'
        && has_time(text)
        && text[15] == b'Z'
        && is_of_day(text, date)
}
