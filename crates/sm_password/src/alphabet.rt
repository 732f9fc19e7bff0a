//! The characters of which a password is made.
ghost use Rattle.std.specs.Prelude.{◌≡◌, ◌<◌, ◌≤◌, ◌++◌, ◌==◌, OnOk, IfOk, length, vec_len};
ghost use Rattle.std.specs.List.{All, concat};
ghost use Rattle.sm_password.specs.Classes.{asked_class, classes};
ghost use Rattle.sm_password.specs.Passwords.{choices, required};

use crate::ask::PasswordAsk;
use crate::class::{Class, kept};
use sm_base::{Bytes, NoMemory, Text};
use std::alloc::Global;

/// The classes that are asked for.
#[derive(Drop)]
pub(crate) struct Alphabet {
    /// Each has a character.
    pub classes: Vec<Bytes>,
    /// All classes joined.
    pub all: Bytes,
    /// Of how many classes the password has to have a character.
    pub required: usize,
    ghost filled: { All (λ class. 0 < length class) classes.items },
    ghost joined: { all ≡ concat classes.items },
    ghost within: { required ≤ vec_len classes },
}

/// Adds a class where it is asked for and a character of it is left.
fn add_class(
    alloc: Global,
    classes: &mut Vec<Bytes>,
    exclude: &Text,
    asked: bool,
    class: Class,
) -> Result<(), NoMemory>
    ensures { OnOk result (classes.new.items ≡ classes.old.items ++ asked_class exclude.now asked class) }
{
    if !asked {
        return Ok(());
    }
    let kept = kept(alloc, exclude, class)?;
    if !kept.is_empty() {
        classes.push(kept)?;
    }
    Ok(())
}

/// The classes that are asked for, without the excluded characters.
fn classes(alloc: Global, ask: &PasswordAsk) -> Result<Vec<Bytes>, NoMemory>
    ensures { IfOk result (λ c. c.items ≡ classes ask.now) }
{
    let mut classes = Vec::with_capacity(alloc, 5)?;
    add_class(alloc, &mut classes, &ask.exclude, ask.lower, Class::Lower)?;
    add_class(alloc, &mut classes, &ask.exclude, ask.upper, Class::Upper)?;
    add_class(alloc, &mut classes, &ask.exclude, ask.digits, Class::Digits)?;
    add_class(
        alloc,
        &mut classes,
        &ask.exclude,
        ask.punctuation,
        Class::Punctuation,
    )?;
    add_class(alloc, &mut classes, &ask.exclude, ask.space, Class::Space)?;
    Ok(classes)
}

/// All classes joined.
#[tactic(auto, using(crate::proofs::ClassLemmas::concat_more))]
fn joined(alloc: Global, classes: &[Bytes]) -> Result<Bytes, NoMemory>
    ensures { IfOk result (λ bytes. bytes ≡ concat classes.now) }
{
    let mut all = Vec::new(alloc);
    for class in classes {
        all.extend_from_slice(class.as_slice())?;
    }
    Ok(Bytes::new(all))
}

/// The alphabet of what is asked.
#[tactic(auto, using(crate::proofs::PasswordLemmas::classes_filled, crate::proofs::PasswordLemmas::required_within))]
pub(crate) fn alphabet_of(alloc: Global, ask: &PasswordAsk) -> Result<Alphabet, NoMemory>
    ensures classes { IfOk result (λ alphabet. alphabet.classes.items ≡ classes ask.now) }
    ensures required { IfOk result (λ alphabet. alphabet.required ≡ required ask.now) }
{
    let classes = classes(alloc, ask)?;
    let all = joined(alloc, classes.as_slice())?;
    let required = if ask.each { classes.len() } else { 0 };
    Ok(Alphabet {
        classes,
        all,
        required,
    })
}

impl Alphabet {
    /// Whether there is no character.
    pub(crate) fn is_empty(&self) -> bool
        ensures { result ≡ (length (concat self.now.classes.items) == 0) }
    {
        self.all.is_empty()
    }

    /// The characters of which character k of a draft is one.
    pub(crate) fn choices(&self, k: usize) -> &[u8]
        requires { 0 < length (concat self.now.classes.items) }
        ensures value { result.now ≡ choices self.now.classes.items self.now.required k }
        ensures filled { 0 < length result.now }
    {
        if k < self.required {
            self.classes[k].as_slice()
        } else {
            self.all.as_slice()
        }
    }
}
