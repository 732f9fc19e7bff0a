//! Why a line of a people text is no person. It judges nothing: it only explains.
use sm_base::limits::KEY_LIMIT;
use sm_base::person_arn::is_person_arn;
use sm_principal::SECRET_LIMIT;
use std::fmt;

/// What stands at the beginning of some texts, and is no letter.
const BYTE_ORDER_MARK: &[u8] = b"\xef\xbb\xbf";

/// Why a line is no person.
#[derive(Clone, Copy, PartialEq, Eq)]
pub enum Reason {
    ByteOrderMark,
    CarriageReturn,
    Tab,
    SpaceBefore,
    SpaceBehind,
    TwoSpaces,
    Parts,
    Key,
    Kind,
    Arn,
    Secret,
    /// The key stands in the line of this number already.
    Twice(u64),
}

impl fmt::Display for Reason {
    fn fmt<W: fmt::Write>(&self, f: &mut fmt::Formatter<W>) -> fmt::Result {
        match self {
            Reason::ByteOrderMark => f.write_str("a byte order mark stands before it"),
            Reason::CarriageReturn => f.write_str("a carriage return stands at its end"),
            Reason::Tab => f.write_str("a tab stands in it"),
            Reason::SpaceBefore => f.write_str("a space stands before it"),
            Reason::SpaceBehind => f.write_str("a space stands behind it"),
            Reason::TwoSpaces => f.write_str("two spaces stand side by side in it"),
            Reason::Parts => {
                f.write_str("it has not a key, full or guest, and an ARN, with a space between")
            }
            Reason::Key => f.write_str("its key is not of 1 to 128 letters, digits and _"),
            Reason::Kind => f.write_str("its second word is neither full nor guest"),
            Reason::Arn => {
                f.write_str(
                    "its ARN is not arn:aws:iam::, 12 digits, a colon and up to 128 characters",
                )
            }
            Reason::Secret => {
                f.write_str("its secret is not of 1 to 128 characters from ! to ~")
            }
            Reason::Twice(line) => write!(f, "its key stands in line {line} already"),
        }
    }
}

/// Why the line of this number, counted from 1, is no person.
pub fn reason_of(text: &[u8], number: u64) -> Reason {
    let mut left = text;
    let mut at: u64 = 1;
    for _ in 0..text.len() {
        let (line, rest) = first_line(left);
        if at >= number {
            return reason_of_line(text, number, line);
        }
        left = rest;
        at = at.saturating_add(1);
    }
    reason_of_line(text, number, left)
}

/// What stands before the first end of a line, and what stands behind it.
fn first_line(text: &[u8]) -> (&[u8], &[u8]) {
    split_at_byte(text, b'\n').unwrap_or((text, b""))
}

/// What stands before the first such byte, and what stands behind it.
pub fn split_at_byte(text: &[u8], byte: u8) -> Option<(&[u8], &[u8])> {
    match text.iter().position(|other| *other == byte) {
        Some(place) => {
            let (front, back) = text.split_at(place);
            match back.split_first() {
                Some((_, rest)) => Some((front, rest)),
                None => None,
            }
        }
        None => None,
    }
}

/// Why a line is no person.
fn reason_of_line(text: &[u8], number: u64, line: &[u8]) -> Reason {
    if line.starts_with(BYTE_ORDER_MARK) {
        return Reason::ByteOrderMark;
    }
    match reason_of_spaces(line) {
        Some(reason) => reason,
        None => match words_of(line) {
            Some(words) => reason_of_words(text, number, words),
            None => Reason::Parts,
        },
    }
}

/// The words of a line: a key, a kind, an ARN, and what stands behind that.
#[derive(Clone, Copy)]
struct Words<'a> {
    key: &'a [u8],
    kind: &'a [u8],
    arn: &'a [u8],
    secret: Option<&'a [u8]>,
}

/// The words of a line, where there are as many as a person's line has.
fn words_of(line: &[u8]) -> Option<Words<'_>> {
    let Some((key, rest)) = split_at_byte(line, b' ') else {
        return None
    };
    let Some((kind, rest)) = split_at_byte(rest, b' ') else {
        return None
    };
    match split_at_byte(rest, b' ') {
        Some((arn, secret)) => Some(Words {
            key,
            kind,
            arn,
            secret: Some(secret),
        }),
        None => Some(Words {
            key,
            kind,
            arn: rest,
            secret: None,
        }),
    }
}

/// Whether what is between the words of a line is wrong.
fn reason_of_spaces(line: &[u8]) -> Option<Reason> {
    if line.ends_with(b"\r") {
        Some(Reason::CarriageReturn)
    } else if line.contains(&b'\t') {
        Some(Reason::Tab)
    } else if line.starts_with(b" ") {
        Some(Reason::SpaceBefore)
    } else if line.ends_with(b" ") {
        Some(Reason::SpaceBehind)
    } else if has_two_spaces(line) {
        Some(Reason::TwoSpaces)
    } else {
        None
    }
}

/// Whether two spaces stand side by side.
fn has_two_spaces(line: &[u8]) -> bool {
    let mut was_space = false;
    for byte in line {
        let is_space = *byte == b' ';
        if is_space && was_space {
            return true;
        }
        was_space = is_space;
    }
    false
}

/// Why these words are no person.
fn reason_of_words(text: &[u8], number: u64, words: Words) -> Reason {
    if !is_key(words.key) {
        Reason::Key
    } else if words.kind != b"full".as_slice() && words.kind != b"guest".as_slice() {
        Reason::Kind
    } else if !is_person_arn(words.arn) {
        Reason::Arn
    } else if !fits(words.secret) {
        Reason::Secret
    } else {
        Reason::Twice(line_with_key(text, words.key, number))
    }
}

/// Whether a secret is in its form, where there is one.
fn fits(secret: Option<&[u8]>) -> bool {
    match secret {
        Some(secret) => {
            !secret.is_empty()
                && secret.len() <= SECRET_LIMIT
                && secret.iter().all(|byte| b'!' <= *byte && *byte <= b'~')
        }
        None => true,
    }
}

/// Whether a text is a key.
pub fn is_key(text: &[u8]) -> bool {
    !text.is_empty() && text.len() <= KEY_LIMIT && text.iter().all(|byte| is_key_byte(*byte))
}

/// Whether a byte may stand in a key.
fn is_key_byte(byte: u8) -> bool {
    byte.is_ascii_alphanumeric() || byte == b'_'
}

/// The number of the first line with this key, before the line of this number.
fn line_with_key(text: &[u8], key: &[u8], number: u64) -> u64 {
    let mut left = text;
    let mut at: u64 = 1;
    for _ in 0..text.len() {
        let (line, rest) = first_line(left);
        let has_key = match split_at_byte(line, b' ') {
            Some((first, _)) => first == key,
            None => false,
        };
        if has_key || at >= number {
            return at;
        }
        left = rest;
        at = at.saturating_add(1);
    }
    at
}
