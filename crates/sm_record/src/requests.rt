//! What an entry keeps of a request: its members in ascending order of their names.
ghost use Rattle.std.specs.Prelude.{◌≡◌, ◌++◌, IsTrue};
ghost use Rattle.sm_record.specs.Requests.{of_secret, create_secret, delete_secret, named_value, put_resource_policy, put_secret_value, regions_of_secret, rotate_secret, tag_resource, untag_resource, update_secret, update_secret_version_stage};

use crate::edition::Edition;
use crate::field::Field;
use crate::out::Out;
use crate::since::{put_since, since_fits, since_then};
use crate::unread::Unread;
use sm_model::{
    Bytes, CreateSecret, DeleteSecret, List, OfSecret, PutResourcePolicy, PutSecretValue,
    RegionsOfSecret, RotateSecret, Rules, Tag, TagResource, Text, UntagResource, UpdateSecret,
    UpdateSecretVersionStage,
};
use std::alloc::Global;

impl Field for OfSecret {
    ghost codec = { λ _. of_secret };

    #[tactic(auto, unfolding(crate::specs::Requests::of_secret))]
    fn fits(&self, edition: Edition) -> bool {
        self.secret_id.fits(edition)
    }

    #[tactic(auto, unfolding(crate::specs::Requests::of_secret))]
    fn read_front(
        alloc: Global,
        edition: Edition,
        bytes: &[u8],
    ) -> Result<(OfSecret, &[u8]), Unread> {
        let (secret_id, rest) = Text::read_front(alloc, edition, bytes)?;
        Ok((OfSecret { secret_id }, rest))
    }

    #[tactic(auto, unfolding(crate::specs::Requests::of_secret))]
    fn put(&self, edition: Edition, out: &mut Out) {
        self.secret_id.put(edition, out);
    }
}

/// The members of CreateSecret behind its regions, one behind another.
type CreateSecretMembers = (
    Option<Text>,
    (
        Option<Text>,
        (
            Option<Text>,
            (Text, (Option<Bytes>, (Option<Text>, Option<List<Tag>>))),
        ),
    ),
);

impl Field for CreateSecret {
    ghost codec = { create_secret };

    #[tactic(auto, unfolding(crate::specs::Requests::create_secret))]
    fn fits(&self, edition: Edition) -> bool {
        since_fits(edition, &self.regions)
            && (self.client_request_token.fits(edition)
                && (self.description.fits(edition)
                    && (self.kms_key_id.fits(edition)
                        && (self.name.fits(edition)
                            && (self.secret_binary.fits(edition)
                                && (self.secret_string.fits(edition)
                                    && self.tags.fits(edition)))))))
    }

    #[tactic(auto, unfolding(crate::specs::Requests::create_secret))]
    fn read_front(
        alloc: Global,
        edition: Edition,
        bytes: &[u8],
    ) -> Result<(CreateSecret, &[u8]), Unread> {
        let ((regions, members), rest) = since_then::<List<Text>, CreateSecretMembers>(
            alloc, edition, bytes,
        )?;
        let (
            client_request_token,
            (description, (kms_key_id, (name, (secret_binary, (secret_string, tags))))),
        ) = members;
        Ok((
            CreateSecret {
                regions,
                client_request_token,
                description,
                kms_key_id,
                name,
                secret_binary,
                secret_string,
                tags,
            },
            rest,
        ))
    }

    #[tactic(auto, using(std::proofs::lemmas::List::append_assoc, std::proofs::lemmas::Bool::and_parts), unfolding(crate::specs::Requests::create_secret))]
    fn put(&self, edition: Edition, out: &mut Out) {
        put_since(edition, out, &self.regions);
        self.client_request_token.put(edition, out);
        self.description.put(edition, out);
        self.kms_key_id.put(edition, out);
        put_named_value(edition, out, self);
    }
}

/// Writes the name of a secret that is made, its value and its tags.
#[tactic(auto, using(std::proofs::lemmas::List::append_assoc, std::proofs::lemmas::Bool::and_parts))]
fn put_named_value(edition: Edition, out: &mut Out, create: &CreateSecret)
    requires { IsTrue (named_value.fits
        (create.now.name, (create.now.secret_binary, (create.now.secret_string, create.now.tags)))) }
    ensures { out.new ≡ out.old ++ named_value.spell
        (create.now.name, (create.now.secret_binary, (create.now.secret_string, create.now.tags))) }
{
    create.name.put(edition, out);
    create.secret_binary.put(edition, out);
    create.secret_string.put(edition, out);
    create.tags.put(edition, out);
}

/// The members of DeleteSecret, one behind another.
type DeleteSecretMembers = (bool, (Option<i64>, Text));

impl Field for DeleteSecret {
    ghost codec = { λ _. delete_secret };

    #[tactic(auto, unfolding(crate::specs::Requests::delete_secret))]
    fn fits(&self, edition: Edition) -> bool {
        self.force_delete_without_recovery.fits(edition)
            && (self.recovery_window_in_days.fits(edition) && self.secret_id.fits(edition))
    }

    #[tactic(auto, unfolding(crate::specs::Requests::delete_secret))]
    fn read_front(
        alloc: Global,
        edition: Edition,
        bytes: &[u8],
    ) -> Result<(DeleteSecret, &[u8]), Unread> {
        let (members, rest) = DeleteSecretMembers::read_front(alloc, edition, bytes)?;
        let (force_delete_without_recovery, (recovery_window_in_days, secret_id)) = members;
        Ok((
            DeleteSecret {
                force_delete_without_recovery,
                recovery_window_in_days,
                secret_id,
            },
            rest,
        ))
    }

    #[tactic(auto, using(std::proofs::lemmas::List::append_assoc, std::proofs::lemmas::Bool::and_parts), unfolding(crate::specs::Requests::delete_secret))]
    fn put(&self, edition: Edition, out: &mut Out) {
        self.force_delete_without_recovery.put(edition, out);
        self.recovery_window_in_days.put(edition, out);
        self.secret_id.put(edition, out);
    }
}

/// The members of PutResourcePolicy, one behind another.
type PutResourcePolicyMembers = (bool, (Text, Text));

impl Field for PutResourcePolicy {
    ghost codec = { λ _. put_resource_policy };

    #[tactic(auto, unfolding(crate::specs::Requests::put_resource_policy))]
    fn fits(&self, edition: Edition) -> bool {
        self.block_public_policy.fits(edition)
            && (self.resource_policy.fits(edition) && self.secret_id.fits(edition))
    }

    #[tactic(auto, unfolding(crate::specs::Requests::put_resource_policy))]
    fn read_front(
        alloc: Global,
        edition: Edition,
        bytes: &[u8],
    ) -> Result<(PutResourcePolicy, &[u8]), Unread> {
        let (members, rest) = PutResourcePolicyMembers::read_front(alloc, edition, bytes)?;
        let (block_public_policy, (resource_policy, secret_id)) = members;
        Ok((
            PutResourcePolicy {
                block_public_policy,
                resource_policy,
                secret_id,
            },
            rest,
        ))
    }

    #[tactic(auto, using(std::proofs::lemmas::List::append_assoc, std::proofs::lemmas::Bool::and_parts), unfolding(crate::specs::Requests::put_resource_policy))]
    fn put(&self, edition: Edition, out: &mut Out) {
        self.block_public_policy.put(edition, out);
        self.resource_policy.put(edition, out);
        self.secret_id.put(edition, out);
    }
}

/// The members of PutSecretValue, one behind another.
type PutSecretValueMembers = (
    Option<Text>,
    (Option<Bytes>, (Text, (Option<Text>, Option<List<Text>>))),
);

impl Field for PutSecretValue {
    ghost codec = { λ _. put_secret_value };

    #[tactic(auto, unfolding(crate::specs::Requests::put_secret_value))]
    fn fits(&self, edition: Edition) -> bool {
        self.client_request_token.fits(edition)
            && (self.secret_binary.fits(edition)
                && (self.secret_id.fits(edition)
                    && (self.secret_string.fits(edition) && self.version_stages.fits(edition))))
    }

    #[tactic(auto, unfolding(crate::specs::Requests::put_secret_value))]
    fn read_front(
        alloc: Global,
        edition: Edition,
        bytes: &[u8],
    ) -> Result<(PutSecretValue, &[u8]), Unread> {
        let (members, rest) = PutSecretValueMembers::read_front(alloc, edition, bytes)?;
        let (client_request_token, (secret_binary, (secret_id, (secret_string, version_stages)))) =
            members;
        Ok((
            PutSecretValue {
                client_request_token,
                secret_binary,
                secret_id,
                secret_string,
                version_stages,
            },
            rest,
        ))
    }

    #[tactic(auto, using(std::proofs::lemmas::List::append_assoc, std::proofs::lemmas::Bool::and_parts), unfolding(crate::specs::Requests::put_secret_value))]
    fn put(&self, edition: Edition, out: &mut Out) {
        self.client_request_token.put(edition, out);
        self.secret_binary.put(edition, out);
        self.secret_id.put(edition, out);
        self.secret_string.put(edition, out);
        self.version_stages.put(edition, out);
    }
}

/// The members of RotateSecret, one behind another.
type RotateSecretMembers = (Option<Text>, (bool, (Option<Text>, (Option<Rules>, Text))));

impl Field for RotateSecret {
    ghost codec = { rotate_secret };

    #[tactic(auto, unfolding(crate::specs::Requests::rotate_secret))]
    fn fits(&self, edition: Edition) -> bool {
        self.client_request_token.fits(edition)
            && (self.rotate_immediately.fits(edition)
                && (self.rotation_lambda_arn.fits(edition)
                    && (self.rotation_rules.fits(edition) && self.secret_id.fits(edition))))
    }

    #[tactic(auto, unfolding(crate::specs::Requests::rotate_secret))]
    fn read_front(
        alloc: Global,
        edition: Edition,
        bytes: &[u8],
    ) -> Result<(RotateSecret, &[u8]), Unread> {
        let (members, rest) = RotateSecretMembers::read_front(alloc, edition, bytes)?;
        let (
            client_request_token,
            (rotate_immediately, (rotation_lambda_arn, (rotation_rules, secret_id))),
        ) = members;
        Ok((
            RotateSecret {
                client_request_token,
                rotate_immediately,
                rotation_lambda_arn,
                rotation_rules,
                secret_id,
            },
            rest,
        ))
    }

    #[tactic(auto, using(std::proofs::lemmas::List::append_assoc, std::proofs::lemmas::Bool::and_parts), unfolding(crate::specs::Requests::rotate_secret))]
    fn put(&self, edition: Edition, out: &mut Out) {
        self.client_request_token.put(edition, out);
        self.rotate_immediately.put(edition, out);
        self.rotation_lambda_arn.put(edition, out);
        self.rotation_rules.put(edition, out);
        self.secret_id.put(edition, out);
    }
}

impl Field for RegionsOfSecret {
    ghost codec = { λ _. regions_of_secret };

    #[tactic(auto, unfolding(crate::specs::Requests::regions_of_secret))]
    fn fits(&self, edition: Edition) -> bool {
        self.regions.fits(edition) && self.secret_id.fits(edition)
    }

    #[tactic(auto, unfolding(crate::specs::Requests::regions_of_secret))]
    fn read_front(
        alloc: Global,
        edition: Edition,
        bytes: &[u8],
    ) -> Result<(RegionsOfSecret, &[u8]), Unread> {
        let ((regions, secret_id), rest) = <(List<Text>, Text)>::read_front(alloc, edition, bytes)?;
        Ok((RegionsOfSecret { regions, secret_id }, rest))
    }

    #[tactic(auto, using(std::proofs::lemmas::List::append_assoc, std::proofs::lemmas::Bool::and_parts), unfolding(crate::specs::Requests::regions_of_secret))]
    fn put(&self, edition: Edition, out: &mut Out) {
        self.regions.put(edition, out);
        self.secret_id.put(edition, out);
    }
}

impl Field for TagResource {
    ghost codec = { λ _. tag_resource };

    #[tactic(auto, unfolding(crate::specs::Requests::tag_resource))]
    fn fits(&self, edition: Edition) -> bool {
        self.secret_id.fits(edition) && self.tags.fits(edition)
    }

    #[tactic(auto, unfolding(crate::specs::Requests::tag_resource))]
    fn read_front(
        alloc: Global,
        edition: Edition,
        bytes: &[u8],
    ) -> Result<(TagResource, &[u8]), Unread> {
        let ((secret_id, tags), rest) = <(Text, List<Tag>)>::read_front(alloc, edition, bytes)?;
        Ok((TagResource { secret_id, tags }, rest))
    }

    #[tactic(auto, using(std::proofs::lemmas::List::append_assoc, std::proofs::lemmas::Bool::and_parts), unfolding(crate::specs::Requests::tag_resource))]
    fn put(&self, edition: Edition, out: &mut Out) {
        self.secret_id.put(edition, out);
        self.tags.put(edition, out);
    }
}

impl Field for UntagResource {
    ghost codec = { λ _. untag_resource };

    #[tactic(auto, unfolding(crate::specs::Requests::untag_resource))]
    fn fits(&self, edition: Edition) -> bool {
        self.secret_id.fits(edition) && self.tag_keys.fits(edition)
    }

    #[tactic(auto, unfolding(crate::specs::Requests::untag_resource))]
    fn read_front(
        alloc: Global,
        edition: Edition,
        bytes: &[u8],
    ) -> Result<(UntagResource, &[u8]), Unread> {
        let ((secret_id, tag_keys), rest) = <(Text, List<Text>)>::read_front(
            alloc, edition, bytes,
        )?;
        Ok((
            UntagResource {
                secret_id,
                tag_keys,
            },
            rest,
        ))
    }

    #[tactic(auto, using(std::proofs::lemmas::List::append_assoc, std::proofs::lemmas::Bool::and_parts), unfolding(crate::specs::Requests::untag_resource))]
    fn put(&self, edition: Edition, out: &mut Out) {
        self.secret_id.put(edition, out);
        self.tag_keys.put(edition, out);
    }
}

/// The members of UpdateSecret, one behind another.
type UpdateSecretMembers = (
    Option<Text>,
    (
        Option<Text>,
        (Option<Text>, (Option<Bytes>, (Text, Option<Text>))),
    ),
);

impl Field for UpdateSecret {
    ghost codec = { λ _. update_secret };

    #[tactic(auto, unfolding(crate::specs::Requests::update_secret))]
    fn fits(&self, edition: Edition) -> bool {
        self.client_request_token.fits(edition)
            && (self.description.fits(edition)
                && (self.kms_key_id.fits(edition)
                    && (self.secret_binary.fits(edition)
                        && (self.secret_id.fits(edition) && self.secret_string.fits(edition)))))
    }

    #[tactic(auto, unfolding(crate::specs::Requests::update_secret))]
    fn read_front(
        alloc: Global,
        edition: Edition,
        bytes: &[u8],
    ) -> Result<(UpdateSecret, &[u8]), Unread> {
        let (members, rest) = UpdateSecretMembers::read_front(alloc, edition, bytes)?;
        let (
            client_request_token,
            (description, (kms_key_id, (secret_binary, (secret_id, secret_string)))),
        ) = members;
        Ok((
            UpdateSecret {
                client_request_token,
                description,
                kms_key_id,
                secret_binary,
                secret_id,
                secret_string,
            },
            rest,
        ))
    }

    #[tactic(auto, using(std::proofs::lemmas::List::append_assoc, std::proofs::lemmas::Bool::and_parts), unfolding(crate::specs::Requests::update_secret))]
    fn put(&self, edition: Edition, out: &mut Out) {
        self.client_request_token.put(edition, out);
        self.description.put(edition, out);
        self.kms_key_id.put(edition, out);
        self.secret_binary.put(edition, out);
        self.secret_id.put(edition, out);
        self.secret_string.put(edition, out);
    }
}

/// The members of UpdateSecretVersionStage, one behind another.
type UpdateSecretVersionStageMembers = (Option<Text>, (Option<Text>, (Text, Text)));

impl Field for UpdateSecretVersionStage {
    ghost codec = { λ _. update_secret_version_stage };

    #[tactic(auto, unfolding(crate::specs::Requests::update_secret_version_stage))]
    fn fits(&self, edition: Edition) -> bool {
        self.move_to_version_id.fits(edition)
            && (self.remove_from_version_id.fits(edition)
                && (self.secret_id.fits(edition) && self.version_stage.fits(edition)))
    }

    #[tactic(auto, unfolding(crate::specs::Requests::update_secret_version_stage))]
    fn read_front(
        alloc: Global,
        edition: Edition,
        bytes: &[u8],
    ) -> Result<(UpdateSecretVersionStage, &[u8]), Unread> {
        let (members, rest) = UpdateSecretVersionStageMembers::read_front(alloc, edition, bytes)?;
        let (move_to_version_id, (remove_from_version_id, (secret_id, version_stage))) = members;
        Ok((
            UpdateSecretVersionStage {
                move_to_version_id,
                remove_from_version_id,
                secret_id,
                version_stage,
            },
            rest,
        ))
    }

    #[tactic(auto, using(std::proofs::lemmas::List::append_assoc, std::proofs::lemmas::Bool::and_parts), unfolding(crate::specs::Requests::update_secret_version_stage))]
    fn put(&self, edition: Edition, out: &mut Out) {
        self.move_to_version_id.put(edition, out);
        self.remove_from_version_id.put(edition, out);
        self.secret_id.put(edition, out);
        self.version_stage.put(edition, out);
    }
}
