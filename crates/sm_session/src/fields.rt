//! The fields of a message by their names, whose case does not count.
ghost use Rattle.std.specs.Prelude.{◌≡◌, map, option_copied};
ghost use Rattle.std.specs.Str.{str_eq_ignore_ascii_case};
ghost use Rattle.sm_http.specs.Heads.{field_of};
ghost use Rattle.sm_http.specs.Reading.{pair_of};

use sm_http::Field;

/// The value of the first field of a name.
#[tactic(auto, using(crate::proofs::HearLemmas::fields_at))]
pub(crate) fn value_of<'a>(fields: &'a [Field], name: &[u8]) -> Option<&'a [u8]>
    ensures { option_copied result ≡ field_of name.now (map pair_of fields.now) }
{
    for field in fields {
        if has_name(field, name) {
            return Some(field.value.as_slice());
        }
    }
    None
}

/// Whether a field has the name.
fn has_name(field: &Field, name: &[u8]) -> bool
    ensures { result ≡ str_eq_ignore_ascii_case field.now.name name.now }
{
    field.name.as_slice().eq_ignore_ascii_case(name)
}
