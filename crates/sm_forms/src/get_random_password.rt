//! The forms of GetRandomPassword (AWS Secrets Manager API Reference, GetRandomPassword).
ghost use Rattle.std.specs.Prelude.{◌≡◌, codes, length};
ghost use Rattle.sm_forms.specs.Members.{form_unless, form_of};
ghost use Rattle.sm_forms.specs.Paging.{is_count};
ghost use Rattle.sm_forms.specs.GetRandomPassword.{length_asked, password_ask, is_long_enough, password_joint, password_forms};
ghost use Rattle.sm_model.specs.Bounds.{fits};
ghost use Rattle.sm_base.specs.Texts.{has_at_most};
ghost use Rattle.sm_base.specs.declared.limits.TheConstants.{PASSWORD_LIMIT};
ghost use Rattle.sm_password.specs.Classes.{classes};

use crate::members::{first_refusal, form_unless};
use crate::paging::is_count;
use sm_base::limits::{EXCLUDED_LIMIT, PASSWORD_LENGTH, PASSWORD_LIMIT};
use sm_base::text::has_at_most;
use sm_model::{GetRandomPassword, Text, Why};
use sm_password::{Asked, class_count};

/// The first form or joint test that fails. The joint tests go through the excluded characters for each
/// character that a password may have, so they are made only where those are few enough.
pub fn password_forms(get: &GetRandomPassword) -> Option<Why>
    ensures { result ≡ password_forms get.now }
{
    first_refusal!(
        excluded_form(&get.exclude_characters),
        length_form(get.password_length),
        joint_form(get),
    )
}

/// The form of ExcludeCharacters.
fn excluded_form(excluded: &Option<Text>) -> Option<Why>
    ensures { result ≡ form_of (has_at_most EXCLUDED_LIMIT) (codes "ExcludeCharacters") excluded.now }
{
    match excluded {
        Some(excluded) => {
            form_unless(has_at_most(excluded, EXCLUDED_LIMIT), "ExcludeCharacters")
        }
        None => None,
    }
}

/// The form of PasswordLength.
fn length_form(length: Option<i64>) -> Option<Why>
    ensures { result ≡ form_unless (fits (is_count PASSWORD_LIMIT) length) (codes "PasswordLength") }
{
    match length {
        Some(length) => form_unless(is_count(PASSWORD_LIMIT, length), "PasswordLength"),
        None => None,
    }
}

/// That a character is left, and then that there is room for one of each class that the password has to have.
fn joint_form(get: &GetRandomPassword) -> Option<Why>
    ensures { result ≡ password_joint (password_ask get.now) }
{
    let count = class_count_of(get);
    first_refusal!(
        form_unless(count != 0, "ExcludeCharacters"),
        form_unless(is_long_enough(get, count), "PasswordLength"),
    )
}

/// Whether there is room for a character of each class that the password has to have.
fn is_long_enough(get: &GetRandomPassword, count: usize) -> bool
    requires { count ≡ length (classes (password_ask get.now)) }
    ensures { result ≡ is_long_enough (password_ask get.now) }
{
    !get.require_each_included_type || count as u64 <= length_asked(get.password_length)
}

/// How many classes have a character that is left.
fn class_count_of(get: &GetRandomPassword) -> usize
    ensures { result ≡ length (classes (password_ask get.now)) }
{
    let asked = Asked {
        lower: !get.exclude_lowercase,
        upper: !get.exclude_uppercase,
        digits: !get.exclude_numbers,
        punctuation: !get.exclude_punctuation,
        space: get.include_space,
    };
    match &get.exclude_characters {
        Some(excluded) => class_count(excluded, asked),
        None => class_count(&Text::fixed(""), asked),
    }
}

/// The length that is asked for, or none where it is below zero.
fn length_asked(length: Option<i64>) -> u64
    ensures { result ≡ length_asked length }
{
    match length {
        Some(length) => u64::try_from(length).unwrap_or(0),
        None => u64::from(PASSWORD_LENGTH),
    }
}
