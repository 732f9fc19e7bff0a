//! Tokens of pages.
ghost use Rattle.std.specs.Prelude.{◌≡◌, ◌<◌, IfOk};
ghost use Rattle.sm_listing.specs.PageTokens.{spelled, serial_of};
ghost use Rattle.sm_listing.specs.Walks.{IsNumber};

use itoa::Buffer;
use sm_base::{NoMemory, Text};
use std::alloc::Global;

/// The letter of a token of secrets.
pub const SECRETS: char = 's';

/// The letter of a token of versions.
pub const VERSIONS: char = 'v';

/// The letters as they are stated: s and v.
pub fn letters_of_tokens_are_as_stated()
    ensures secrets { SECRETS ≡ 115 }
    ensures versions { VERSIONS ≡ 118 }
{}

/// The most bytes of a token.
const TOKEN_LIMIT: usize = 21;

/// The token of a serial.
#[tactic(auto, unfolding(crate::specs::PageTokens::spelled))]
pub(crate) fn token_of(alloc: Global, letter: char, serial: u64) -> Result<Text, NoMemory>
    requires { letter < 128 }
    ensures { IfOk result (λ token. token ≡ spelled letter serial) }
{
    let mut token = String::with_capacity(alloc, TOKEN_LIMIT)?;
    token.push(letter)?;
    token.push_str(Buffer::new().format(serial))?;
    Ok(Text::new(token))
}

/// The number that decimal digits without leading zeros write.
fn number_of(digits: &str) -> Option<u64>
    ensures { IsNumber digits.now result }
{
    let number = match digits.parse::<u64>() {
        Ok(number) => number,
        Err(_) => return None,
    };
    if Buffer::new().format(number) == digits {
        Some(number)
    } else {
        None
    }
}

/// The serial that a token spells behind its letter. It takes no memory.
#[tactic(auto, using(crate::proofs::TokenLemmas::spelled_serial, crate::proofs::TokenLemmas::no_serial))]
pub fn serial_of(letter: char, token: &Text) -> Option<u64>
    requires { letter < 128 }
    ensures { result ≡ serial_of letter token.now }
{
    match token.as_str().strip_prefix(letter) {
        Some(digits) => number_of(digits),
        None => None,
    }
}
