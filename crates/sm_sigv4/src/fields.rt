//! The fields of a message by their names, whose case doesn't count.
ghost use Rattle.std.specs.Prelude.{◌≡◌, ◌<◌, ◌∷◌, [], length, map, IfSome, IfNone, option_map};
ghost use Rattle.std.specs.Str.{str_eq_ignore_ascii_case};
ghost use Rattle.sm_http.specs.Heads.{values_of, field_of};
ghost use Rattle.sm_http.specs.Reading.{pair_of};

use sm_http::Field;

/// Whether a field has this name.
fn has_name(field: &Field, name: &[u8]) -> bool
    ensures { result ≡ str_eq_ignore_ascii_case field.now.name name.now }
{
    field.name.as_slice().eq_ignore_ascii_case(name)
}

/// The first value of a field of a name, and the fields behind it.
#[tactic(auto, using(crate::proofs::FieldLemmas::values_at))]
pub fn next_value<'f>(fields: &'f [Field], name: &[u8]) -> Option<(&'f [u8], &'f [Field])>
    ensures absent { IfNone result (values_of name.now (map pair_of fields.now) ≡ []) }
    ensures first { IfSome result (λ found. values_of name.now (map pair_of fields.now)
        ≡ found.0.now ∷ values_of name.now (map pair_of found.1.now)) }
    ensures fewer { IfSome result (λ found. length found.1.now < length fields.now) }
{
    for (index, field) in fields.iter().enumerate() {
        if has_name(field, name) {
            return Some((field.value.as_slice(), &fields[index + 1..]));
        }
    }
    None
}

/// The value of the first field of a name.
pub fn first_value<'f>(fields: &'f [Field], name: &[u8]) -> Option<&'f [u8]>
    ensures { option_map (λ t. t.now) result ≡ field_of name.now (map pair_of fields.now) }
{
    match next_value(fields, name) {
        Some((value, _)) => Some(value),
        None => None,
    }
}
