//! The classes of characters.
ghost use Rattle.std.specs.Prelude.{◌≡◌, ◌≤◌, IfOk, IsTrue, not, length};
ghost use Rattle.std.specs.List.{list_any};
ghost use Rattle.sm_password.specs.Classes.{characters_of, is_left, kept, asked_class, classes_left};

use crate::ask::Asked;
use sm_base::{Bytes, NoMemory, Text};
use std::alloc::Global;

/// A class of characters.
#[derive(Clone, Copy)]
pub(crate) enum Class {
    Lower,
    Upper,
    Digits,
    Punctuation,
    Space,
}

impl Class {
    /// Its characters in ascending order.
    #[tactic(auto, unfolding(crate::specs::Classes::characters_of))]
    fn characters(self) -> &'static [u8]
        ensures { result.now ≡ characters_of self }
    {
        match self {
            Class::Lower => b"abcdefghijklmnopqrstuvwxyz",
            Class::Upper => b"ABCDEFGHIJKLMNOPQRSTUVWXYZ",
            Class::Digits => b"0123456789",
            Class::Punctuation => b"!\"#$%&'()*+,-./:;<=>?@[\\]^_`{|}~",
            Class::Space => b" ",
        }
    }
}

/// Whether a character is not among the excluded ones.
fn is_left(exclude: &Text, character: u8) -> bool
    ensures { result ≡ is_left exclude.now character }
{
    !exclude
        .as_str()
        .chars()
        .any(|excluded| excluded == char::from(character))
}

/// Whether a character of a class is not among the excluded ones.
fn has_left(exclude: &Text, class: Class) -> bool
    ensures { result ≡ list_any (is_left exclude.now) (characters_of class) }
{
    class
        .characters()
        .iter()
        .any(|character| is_left(exclude, *character))
}

/// How many classes a class is that is asked for or not: one, where a character of it is left.
#[tactic(auto, using(crate::proofs::ClassLemmas::asked_count))]
fn count(exclude: &Text, asked: bool, class: Class) -> usize
    ensures value { result ≡ length (asked_class exclude.now asked class) }
    ensures bound { result ≤ 1 }
{
    usize::from(asked && has_left(exclude, class))
}

/// How many of the classes that are asked for have a character that is not excluded. It takes no memory.
pub fn class_count(exclude: &Text, asked: Asked) -> usize
    ensures { result ≡ length (classes_left exclude.now asked) }
{
    count(exclude, asked.lower, Class::Lower)
        + count(exclude, asked.upper, Class::Upper)
        + count(exclude, asked.digits, Class::Digits)
        + count(exclude, asked.punctuation, Class::Punctuation)
        + count(exclude, asked.space, Class::Space)
}

/// The class without the excluded characters.
#[tactic(auto, unfolding(crate::specs::Classes::kept))]
pub(crate) fn kept(alloc: Global, exclude: &Text, class: Class) -> Result<Bytes, NoMemory>
    ensures { IfOk result (λ bytes. bytes ≡ kept exclude.now class) }
{
    let mut kept = Vec::new(alloc);
    for character in class.characters() {
        if is_left(exclude, *character) {
            kept.push(*character)?;
        }
    }
    Ok(Bytes::new(kept))
}
