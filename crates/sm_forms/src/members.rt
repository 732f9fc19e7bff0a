//! The forms of members that several operations have.
ghost use Rattle.std.specs.Prelude.{◌≡◌, length};
ghost use Rattle.std.specs.List.{list_all};
ghost use Rattle.std.specs.Str.{chars};
ghost use Rattle.sm_forms.specs.Members.{form_unless, form_of, is_value, has_both, has_one, are_labels, labels_form};
ghost use Rattle.sm_base.specs.Spelling.{is_token, is_label};
ghost use Rattle.sm_model.specs.Bounds.{is_description};
ghost use Rattle.sm_base.specs.Texts.{has_at_most};

use sm_base::limits::{DESCRIPTION_LIMIT, LABELS_LIMIT, VALUE_LIMIT};
use sm_base::spelled::{is_label, is_token};
use sm_base::text::has_at_most;
use sm_model::{Bytes, List, Text, Why};

/// The first of the refusals that is one. The tests behind it are not made.
macro_rules! first_refusal {
    ($last:expr $(,)?) => {
        $last
    };
    ($first:expr, $($next:expr),+ $(,)?) => {
        match $first {
            Some(why) => Some(why),
            None => first_refusal!($($next),+),
        }
    };
}

pub(crate) use first_refusal;

/// A refusal of the member, unless it is in its form.
pub fn form_unless(fits: bool, name: &'static str) -> Option<Why>
    ensures { result ≡ form_unless fits name.now }
{
    if fits {
        None
    } else {
        Some(Why::Form(Text::fixed(name)))
    }
}

/// The form of a member that is a token.
pub fn token_form(token: &Option<Text>, name: &'static str) -> Option<Why>
    ensures { result ≡ form_of is_token name.now token.now }
{
    match token {
        Some(token) => form_unless(is_token(token.as_bytes()), name),
        None => None,
    }
}

/// The form of a member that is a text value.
pub fn value_form(text: &Option<Text>, name: &'static str) -> Option<Why>
    ensures { result ≡ form_of is_value name.now text.now }
{
    match text {
        Some(text) => form_unless(text.len() <= VALUE_LIMIT, name),
        None => None,
    }
}

/// The form of a member that is a value of bytes.
pub fn bytes_form(bytes: &Option<Bytes>, name: &'static str) -> Option<Why>
    ensures { result ≡ form_of is_value name.now bytes.now }
{
    match bytes {
        Some(bytes) => form_unless(bytes.len() <= VALUE_LIMIT, name),
        None => None,
    }
}

/// Whether a text and bytes are both given as the value.
pub fn has_both(text: &Option<Text>, binary: &Option<Bytes>) -> bool
    ensures { result ≡ has_both text.now binary.now }
{
    text.is_some() && binary.is_some()
}

/// Whether one of a text and bytes is given as the value, and not both.
pub fn has_one(text: &Option<Text>, binary: &Option<Bytes>) -> bool
    ensures { result ≡ has_one text.now binary.now }
{
    (text.is_some() || binary.is_some()) && !has_both(text, binary)
}

/// The form of a member that is a description or the id of a KMS key.
pub fn description_form(text: &Option<Text>, name: &'static str) -> Option<Why>
    ensures { result ≡ form_of is_description name.now text.now }
{
    match text {
        Some(text) => form_unless(has_at_most(text, DESCRIPTION_LIMIT), name),
        None => None,
    }
}

/// The form of a member that is a label.
pub fn label_form(label: &Option<Text>, name: &'static str) -> Option<Why>
    ensures { result ≡ form_of is_label name.now label.now }
{
    match label {
        Some(label) => form_unless(is_label(label.as_bytes()), name),
        None => None,
    }
}

/// Whether each of the texts is a label.
fn each_is_label(labels: &[Text]) -> bool
    ensures { result ≡ list_all is_label labels.now }
{
    labels.iter().all(|label| is_label(label.as_bytes()))
}

/// Whether there are 1 to 20 labels.
fn are_labels(labels: &[Text]) -> bool
    ensures { result ≡ are_labels labels.now }
{
    1 <= labels.len() && labels.len() <= LABELS_LIMIT as usize && each_is_label(labels)
}

/// The form of the labels that a new value is to have.
pub fn labels_form(labels: &Option<List<Text>>) -> Option<Why>
    ensures { result ≡ labels_form labels.now }
{
    match labels {
        Some(labels) => form_unless(are_labels(labels.as_slice()), "VersionStages"),
        None => None,
    }
}
