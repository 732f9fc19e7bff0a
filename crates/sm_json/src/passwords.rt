//! The members of GetRandomPassword (AWS Secrets Manager API Reference).
ghost use Rattle.serde_json.specs.View.{view};
ghost use Rattle.sm_json.specs.Fields.{first_fault};
ghost use Rattle.sm_json.specs.Reads.{Reads};
ghost use Rattle.sm_json.specs.Tables.{get_random_password_members, get_random_password_in};

use crate::fields::{Fault, optional};
use crate::name::MemberName;
use serde_json::Value;
use sm_model::GetRandomPassword;
use std::alloc::Global;

/// The members of GetRandomPassword.
#[tactic(auto, unfolding(crate::specs::Tables::get_random_password_members, crate::specs::Tables::get_random_password_in))]
pub fn get_random_password_in(alloc: Global, object: &Value) -> Result<GetRandomPassword, Fault>
    ensures { Reads result (first_fault get_random_password_members (view object.now))
        (get_random_password_in (view object.now)) }
{
    Ok(GetRandomPassword {
        exclude_characters: optional(alloc, object, MemberName::ExcludeCharacters)?,
        exclude_lowercase: optional::<bool>(alloc, object, MemberName::ExcludeLowercase)?.unwrap_or(
            false,
        ),
        exclude_numbers: optional::<bool>(alloc, object, MemberName::ExcludeNumbers)?.unwrap_or(
            false,
        ),
        exclude_punctuation: optional::<bool>(
            alloc,
            object,
            MemberName::ExcludePunctuation,
        )?.unwrap_or(false),
        exclude_uppercase: optional::<bool>(alloc, object, MemberName::ExcludeUppercase)?.unwrap_or(
            false,
        ),
        include_space: optional::<bool>(alloc, object, MemberName::IncludeSpace)?.unwrap_or(false),
        password_length: optional(alloc, object, MemberName::PasswordLength)?,
        require_each_included_type: optional::<bool>(
            alloc,
            object,
            MemberName::RequireEachIncludedType,
        )?.unwrap_or(true),
    })
}
