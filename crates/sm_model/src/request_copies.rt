//! Copies of requests.
use crate::request::{
    BatchGetSecretValue, CreateSecret, DeleteSecret, Filter, GetRandomPassword, GetSecretValue,
    ListSecretVersionIds, ListSecrets, OfSecret, PutResourcePolicy, PutSecretValue,
    RegionsOfSecret, Request, RotateSecret, Rules, TagResource, UntagResource, UpdateSecret,
    UpdateSecretVersionStage, ValidateResourcePolicy,
};
use sm_base::{Copied, NoMemory, copy_three, copy_two};
use std::alloc::Global;

impl Copied for Filter {
    fn copy(&self, alloc: Global) -> Result<Filter, NoMemory> {
        Ok(Filter {
            key: self.key.copy(alloc)?,
            values: self.values.copy(alloc)?,
        })
    }
}

impl Copied for Rules {
    fn copy(&self, alloc: Global) -> Result<Rules, NoMemory> {
        Ok(Rules {
            days: self.days,
            schedule: self.schedule.copy(alloc)?,
        })
    }
}

impl Copied for OfSecret {
    fn copy(&self, alloc: Global) -> Result<OfSecret, NoMemory> {
        Ok(OfSecret {
            secret_id: self.secret_id.copy(alloc)?,
        })
    }
}

impl Copied for RegionsOfSecret {
    fn copy(&self, alloc: Global) -> Result<RegionsOfSecret, NoMemory> {
        Ok(RegionsOfSecret {
            regions: self.regions.copy(alloc)?,
            secret_id: self.secret_id.copy(alloc)?,
        })
    }
}

impl Copied for BatchGetSecretValue {
    fn copy(&self, alloc: Global) -> Result<BatchGetSecretValue, NoMemory> {
        let Ok((filters, next_token, secret_id_list)) = copy_three(
            alloc,
            &self.filters,
            &self.next_token,
            &self.secret_id_list,
        ) else {
            return Err(NoMemory);
        };
        Ok(BatchGetSecretValue {
            filters,
            max_results: self.max_results,
            next_token,
            secret_id_list,
        })
    }
}

impl Copied for CreateSecret {
    fn copy(&self, alloc: Global) -> Result<CreateSecret, NoMemory> {
        let Ok((client_request_token, description, kms_key_id)) = copy_three(
            alloc,
            &self.client_request_token,
            &self.description,
            &self.kms_key_id,
        ) else {
            return Err(NoMemory);
        };
        let Ok((regions, name, secret_binary)) = copy_three(
            alloc,
            &self.regions,
            &self.name,
            &self.secret_binary,
        ) else {
            return Err(NoMemory);
        };
        let Ok((secret_string, tags)) = copy_two(alloc, &self.secret_string, &self.tags) else {
            return Err(NoMemory);
        };
        Ok(CreateSecret {
            regions,
            client_request_token,
            description,
            kms_key_id,
            name,
            secret_binary,
            secret_string,
            tags,
        })
    }
}

impl Copied for DeleteSecret {
    fn copy(&self, alloc: Global) -> Result<DeleteSecret, NoMemory> {
        Ok(DeleteSecret {
            force_delete_without_recovery: self.force_delete_without_recovery,
            recovery_window_in_days: self.recovery_window_in_days,
            secret_id: self.secret_id.copy(alloc)?,
        })
    }
}

impl Copied for GetRandomPassword {
    fn copy(&self, alloc: Global) -> Result<GetRandomPassword, NoMemory> {
        Ok(GetRandomPassword {
            exclude_characters: self.exclude_characters.copy(alloc)?,
            exclude_lowercase: self.exclude_lowercase,
            exclude_numbers: self.exclude_numbers,
            exclude_punctuation: self.exclude_punctuation,
            exclude_uppercase: self.exclude_uppercase,
            include_space: self.include_space,
            password_length: self.password_length,
            require_each_included_type: self.require_each_included_type,
        })
    }
}

impl Copied for GetSecretValue {
    fn copy(&self, alloc: Global) -> Result<GetSecretValue, NoMemory> {
        let Ok((secret_id, version_id, version_stage)) = copy_three(
            alloc,
            &self.secret_id,
            &self.version_id,
            &self.version_stage,
        ) else {
            return Err(NoMemory);
        };
        Ok(GetSecretValue {
            secret_id,
            version_id,
            version_stage,
        })
    }
}

impl Copied for ListSecretVersionIds {
    fn copy(&self, alloc: Global) -> Result<ListSecretVersionIds, NoMemory> {
        Ok(ListSecretVersionIds {
            include_deprecated: self.include_deprecated,
            max_results: self.max_results,
            next_token: self.next_token.copy(alloc)?,
            secret_id: self.secret_id.copy(alloc)?,
        })
    }
}

impl Copied for ListSecrets {
    fn copy(&self, alloc: Global) -> Result<ListSecrets, NoMemory> {
        let Ok((filters, next_token, sort_order)) = copy_three(
            alloc,
            &self.filters,
            &self.next_token,
            &self.sort_order,
        ) else {
            return Err(NoMemory);
        };
        Ok(ListSecrets {
            filters,
            include_planned_deletion: self.include_planned_deletion,
            max_results: self.max_results,
            next_token,
            sort_order,
        })
    }
}

impl Copied for PutResourcePolicy {
    fn copy(&self, alloc: Global) -> Result<PutResourcePolicy, NoMemory> {
        Ok(PutResourcePolicy {
            block_public_policy: self.block_public_policy,
            resource_policy: self.resource_policy.copy(alloc)?,
            secret_id: self.secret_id.copy(alloc)?,
        })
    }
}

impl Copied for PutSecretValue {
    fn copy(&self, alloc: Global) -> Result<PutSecretValue, NoMemory> {
        let Ok((client_request_token, secret_binary, secret_id)) = copy_three(
            alloc,
            &self.client_request_token,
            &self.secret_binary,
            &self.secret_id,
        ) else {
            return Err(NoMemory);
        };
        let Ok((secret_string, version_stages)) = copy_two(
            alloc,
            &self.secret_string,
            &self.version_stages,
        ) else {
            return Err(NoMemory);
        };
        Ok(PutSecretValue {
            client_request_token,
            secret_binary,
            secret_id,
            secret_string,
            version_stages,
        })
    }
}

impl Copied for RotateSecret {
    fn copy(&self, alloc: Global) -> Result<RotateSecret, NoMemory> {
        let Ok((client_request_token, rotation_lambda_arn)) = copy_two(
            alloc,
            &self.client_request_token,
            &self.rotation_lambda_arn,
        ) else {
            return Err(NoMemory);
        };
        let Ok((rotation_rules, secret_id)) = copy_two(alloc, &self.rotation_rules, &self.secret_id)
        else {
            return Err(NoMemory);
        };
        Ok(RotateSecret {
            client_request_token,
            rotate_immediately: self.rotate_immediately,
            rotation_lambda_arn,
            rotation_rules,
            secret_id,
        })
    }
}

impl Copied for TagResource {
    fn copy(&self, alloc: Global) -> Result<TagResource, NoMemory> {
        Ok(TagResource {
            secret_id: self.secret_id.copy(alloc)?,
            tags: self.tags.copy(alloc)?,
        })
    }
}

impl Copied for UntagResource {
    fn copy(&self, alloc: Global) -> Result<UntagResource, NoMemory> {
        Ok(UntagResource {
            secret_id: self.secret_id.copy(alloc)?,
            tag_keys: self.tag_keys.copy(alloc)?,
        })
    }
}

impl Copied for UpdateSecret {
    fn copy(&self, alloc: Global) -> Result<UpdateSecret, NoMemory> {
        let Ok((client_request_token, description, kms_key_id)) = copy_three(
            alloc,
            &self.client_request_token,
            &self.description,
            &self.kms_key_id,
        ) else {
            return Err(NoMemory);
        };
        let Ok((secret_binary, secret_id, secret_string)) = copy_three(
            alloc,
            &self.secret_binary,
            &self.secret_id,
            &self.secret_string,
        ) else {
            return Err(NoMemory);
        };
        Ok(UpdateSecret {
            client_request_token,
            description,
            kms_key_id,
            secret_binary,
            secret_id,
            secret_string,
        })
    }
}

impl Copied for UpdateSecretVersionStage {
    fn copy(&self, alloc: Global) -> Result<UpdateSecretVersionStage, NoMemory> {
        let Ok((move_to_version_id, remove_from_version_id)) = copy_two(
            alloc,
            &self.move_to_version_id,
            &self.remove_from_version_id,
        ) else {
            return Err(NoMemory);
        };
        let Ok((secret_id, version_stage)) = copy_two(alloc, &self.secret_id, &self.version_stage)
        else {
            return Err(NoMemory);
        };
        Ok(UpdateSecretVersionStage {
            move_to_version_id,
            remove_from_version_id,
            secret_id,
            version_stage,
        })
    }
}

impl Copied for ValidateResourcePolicy {
    fn copy(&self, alloc: Global) -> Result<ValidateResourcePolicy, NoMemory> {
        Ok(ValidateResourcePolicy {
            resource_policy: self.resource_policy.copy(alloc)?,
            secret_id: self.secret_id.copy(alloc)?,
        })
    }
}

impl Copied for Request {
    fn copy(&self, alloc: Global) -> Result<Request, NoMemory> {
        match self {
            Request::BatchGetSecretValue(request) => {
                let Ok(copy) = request.copy(alloc) else {
                    return Err(NoMemory);
                };
                Ok(Request::BatchGetSecretValue(copy))
            }
            Request::CancelRotateSecret(request) => {
                let Ok(copy) = request.copy(alloc) else {
                    return Err(NoMemory);
                };
                Ok(Request::CancelRotateSecret(copy))
            }
            Request::CreateSecret(request) => {
                let Ok(copy) = request.copy(alloc) else {
                    return Err(NoMemory);
                };
                Ok(Request::CreateSecret(copy))
            }
            Request::DeleteResourcePolicy(request) => {
                let Ok(copy) = request.copy(alloc) else {
                    return Err(NoMemory);
                };
                Ok(Request::DeleteResourcePolicy(copy))
            }
            Request::DeleteSecret(request) => {
                let Ok(copy) = request.copy(alloc) else {
                    return Err(NoMemory);
                };
                Ok(Request::DeleteSecret(copy))
            }
            Request::DescribeSecret(request) => {
                let Ok(copy) = request.copy(alloc) else {
                    return Err(NoMemory);
                };
                Ok(Request::DescribeSecret(copy))
            }
            Request::GetRandomPassword(request) => {
                let Ok(copy) = request.copy(alloc) else {
                    return Err(NoMemory);
                };
                Ok(Request::GetRandomPassword(copy))
            }
            Request::GetResourcePolicy(request) => {
                let Ok(copy) = request.copy(alloc) else {
                    return Err(NoMemory);
                };
                Ok(Request::GetResourcePolicy(copy))
            }
            Request::GetSecretValue(request) => {
                let Ok(copy) = request.copy(alloc) else {
                    return Err(NoMemory);
                };
                Ok(Request::GetSecretValue(copy))
            }
            Request::ListSecretVersionIds(request) => {
                let Ok(copy) = request.copy(alloc) else {
                    return Err(NoMemory);
                };
                Ok(Request::ListSecretVersionIds(copy))
            }
            Request::ListSecrets(request) => {
                let Ok(copy) = request.copy(alloc) else {
                    return Err(NoMemory);
                };
                Ok(Request::ListSecrets(copy))
            }
            Request::PutResourcePolicy(request) => {
                let Ok(copy) = request.copy(alloc) else {
                    return Err(NoMemory);
                };
                Ok(Request::PutResourcePolicy(copy))
            }
            Request::PutSecretValue(request) => {
                let Ok(copy) = request.copy(alloc) else {
                    return Err(NoMemory);
                };
                Ok(Request::PutSecretValue(copy))
            }
            Request::RemoveRegionsFromReplication(request) => {
                let Ok(copy) = request.copy(alloc) else {
                    return Err(NoMemory);
                };
                Ok(Request::RemoveRegionsFromReplication(copy))
            }
            Request::ReplicateSecretToRegions(request) => {
                let Ok(copy) = request.copy(alloc) else {
                    return Err(NoMemory);
                };
                Ok(Request::ReplicateSecretToRegions(copy))
            }
            Request::RestoreSecret(request) => {
                let Ok(copy) = request.copy(alloc) else {
                    return Err(NoMemory);
                };
                Ok(Request::RestoreSecret(copy))
            }
            Request::RotateSecret(request) => {
                let Ok(copy) = request.copy(alloc) else {
                    return Err(NoMemory);
                };
                Ok(Request::RotateSecret(copy))
            }
            Request::StopReplicationToReplica(request) => {
                let Ok(copy) = request.copy(alloc) else {
                    return Err(NoMemory);
                };
                Ok(Request::StopReplicationToReplica(copy))
            }
            Request::TagResource(request) => {
                let Ok(copy) = request.copy(alloc) else {
                    return Err(NoMemory);
                };
                Ok(Request::TagResource(copy))
            }
            Request::UntagResource(request) => {
                let Ok(copy) = request.copy(alloc) else {
                    return Err(NoMemory);
                };
                Ok(Request::UntagResource(copy))
            }
            Request::UpdateSecret(request) => {
                let Ok(copy) = request.copy(alloc) else {
                    return Err(NoMemory);
                };
                Ok(Request::UpdateSecret(copy))
            }
            Request::UpdateSecretVersionStage(request) => {
                let Ok(copy) = request.copy(alloc) else {
                    return Err(NoMemory);
                };
                Ok(Request::UpdateSecretVersionStage(copy))
            }
            Request::ValidateResourcePolicy(request) => {
                let Ok(copy) = request.copy(alloc) else {
                    return Err(NoMemory);
                };
                Ok(Request::ValidateResourcePolicy(copy))
            }
        }
    }
}
