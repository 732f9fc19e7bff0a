//! Copies of replies.
use crate::reply::{
    BatchError, CreatedSecret, DeletedSecret, Described, GotSecret, NamedSecret, PolicyOfSecret,
    PolicyValidation, PromotedSecret, PutValue, RandomPassword, ReplicatedSecret,
    ReplicationStatus, Reply, RulesShown, SecretBatch, SecretPage, Staged, ValidationError,
    VersionItem, VersionPage, VersionedSecret,
};
use sm_base::{Copied, NoMemory, copy_three, copy_two};
use std::alloc::Global;

impl Copied for VersionedSecret {
    fn copy(&self, alloc: Global) -> Result<VersionedSecret, NoMemory> {
        let Ok((arn, name, version_id)) = copy_three(alloc, &self.arn, &self.name, &self.version_id)
        else {
            return Err(NoMemory);
        };
        Ok(VersionedSecret {
            arn,
            name,
            version_id,
        })
    }
}

impl Copied for ReplicationStatus {
    fn copy(&self, alloc: Global) -> Result<ReplicationStatus, NoMemory> {
        Ok(ReplicationStatus {
            region: self.region.copy(alloc)?,
            status: self.status.copy(alloc)?,
        })
    }
}

impl Copied for CreatedSecret {
    fn copy(&self, alloc: Global) -> Result<CreatedSecret, NoMemory> {
        let Ok((arn, name)) = copy_two(alloc, &self.arn, &self.name) else {
            return Err(NoMemory);
        };
        let Ok((replication_status, version_id)) = copy_two(
            alloc,
            &self.replication_status,
            &self.version_id,
        ) else {
            return Err(NoMemory);
        };
        Ok(CreatedSecret {
            arn,
            name,
            replication_status,
            version_id,
        })
    }
}

impl Copied for ReplicatedSecret {
    fn copy(&self, alloc: Global) -> Result<ReplicatedSecret, NoMemory> {
        Ok(ReplicatedSecret {
            arn: self.arn.copy(alloc)?,
            replication_status: self.replication_status.copy(alloc)?,
        })
    }
}

impl Copied for PromotedSecret {
    fn copy(&self, alloc: Global) -> Result<PromotedSecret, NoMemory> {
        Ok(PromotedSecret {
            arn: self.arn.copy(alloc)?,
        })
    }
}

impl Copied for NamedSecret {
    fn copy(&self, alloc: Global) -> Result<NamedSecret, NoMemory> {
        Ok(NamedSecret {
            arn: self.arn.copy(alloc)?,
            name: self.name.copy(alloc)?,
        })
    }
}

impl Copied for BatchError {
    fn copy(&self, alloc: Global) -> Result<BatchError, NoMemory> {
        let Ok((error_code, message, secret_id)) = copy_three(
            alloc,
            &self.error_code,
            &self.message,
            &self.secret_id,
        ) else {
            return Err(NoMemory);
        };
        Ok(BatchError {
            error_code,
            message,
            secret_id,
        })
    }
}

impl Copied for GotSecret {
    fn copy(&self, alloc: Global) -> Result<GotSecret, NoMemory> {
        let Ok((arn, name, secret_binary)) = copy_three(
            alloc,
            &self.arn,
            &self.name,
            &self.secret_binary,
        ) else {
            return Err(NoMemory);
        };
        let Ok((secret_string, version_id, version_stages)) = copy_three(
            alloc,
            &self.secret_string,
            &self.version_id,
            &self.version_stages,
        ) else {
            return Err(NoMemory);
        };
        Ok(GotSecret {
            arn,
            created_date: self.created_date,
            name,
            secret_binary,
            secret_string,
            version_id,
            version_stages,
        })
    }
}

impl Copied for SecretBatch {
    fn copy(&self, alloc: Global) -> Result<SecretBatch, NoMemory> {
        let Ok((errors, next_token, secret_values)) = copy_three(
            alloc,
            &self.errors,
            &self.next_token,
            &self.secret_values,
        ) else {
            return Err(NoMemory);
        };
        Ok(SecretBatch {
            errors,
            next_token,
            secret_values,
        })
    }
}

impl Copied for DeletedSecret {
    fn copy(&self, alloc: Global) -> Result<DeletedSecret, NoMemory> {
        Ok(DeletedSecret {
            arn: self.arn.copy(alloc)?,
            deletion_date: self.deletion_date,
            name: self.name.copy(alloc)?,
        })
    }
}

impl Copied for RulesShown {
    fn copy(&self, alloc: Global) -> Result<RulesShown, NoMemory> {
        Ok(RulesShown {
            days: self.days,
            schedule: self.schedule.copy(alloc)?,
        })
    }
}

impl Copied for Staged {
    fn copy(&self, alloc: Global) -> Result<Staged, NoMemory> {
        Ok(Staged {
            id: self.id.copy(alloc)?,
            labels: self.labels.copy(alloc)?,
        })
    }
}

impl Copied for Described {
    fn copy(&self, alloc: Global) -> Result<Described, NoMemory> {
        let Ok((arn, description, kms_key_id)) = copy_three(
            alloc,
            &self.arn,
            &self.description,
            &self.kms_key_id,
        ) else {
            return Err(NoMemory);
        };
        let Ok((name, rotation_lambda_arn, rotation_rules)) = copy_three(
            alloc,
            &self.name,
            &self.rotation_lambda_arn,
            &self.rotation_rules,
        ) else {
            return Err(NoMemory);
        };
        let Ok((replication_status, tags, version_ids_to_stages)) = copy_three(
            alloc,
            &self.replication_status,
            &self.tags,
            &self.version_ids_to_stages,
        ) else {
            return Err(NoMemory);
        };
        Ok(Described {
            arn,
            created_date: self.created_date,
            deleted_date: self.deleted_date,
            description,
            kms_key_id,
            last_changed_date: self.last_changed_date,
            last_rotated_date: self.last_rotated_date,
            name,
            next_rotation_date: self.next_rotation_date,
            replication_status,
            rotation_enabled: self.rotation_enabled,
            rotation_lambda_arn,
            rotation_rules,
            tags,
            version_ids_to_stages,
        })
    }
}

impl Copied for RandomPassword {
    fn copy(&self, alloc: Global) -> Result<RandomPassword, NoMemory> {
        Ok(RandomPassword {
            random_password: self.random_password.copy(alloc)?,
        })
    }
}

impl Copied for PolicyOfSecret {
    fn copy(&self, alloc: Global) -> Result<PolicyOfSecret, NoMemory> {
        let Ok((arn, name, resource_policy)) = copy_three(
            alloc,
            &self.arn,
            &self.name,
            &self.resource_policy,
        ) else {
            return Err(NoMemory);
        };
        Ok(PolicyOfSecret {
            arn,
            name,
            resource_policy,
        })
    }
}

impl Copied for SecretPage {
    fn copy(&self, alloc: Global) -> Result<SecretPage, NoMemory> {
        Ok(SecretPage {
            next_token: self.next_token.copy(alloc)?,
            secret_list: self.secret_list.copy(alloc)?,
        })
    }
}

impl Copied for VersionItem {
    fn copy(&self, alloc: Global) -> Result<VersionItem, NoMemory> {
        Ok(VersionItem {
            created_date: self.created_date,
            version_id: self.version_id.copy(alloc)?,
            version_stages: self.version_stages.copy(alloc)?,
        })
    }
}

impl Copied for VersionPage {
    fn copy(&self, alloc: Global) -> Result<VersionPage, NoMemory> {
        let Ok((arn, name)) = copy_two(alloc, &self.arn, &self.name) else {
            return Err(NoMemory);
        };
        let Ok((next_token, versions)) = copy_two(alloc, &self.next_token, &self.versions) else {
            return Err(NoMemory);
        };
        Ok(VersionPage {
            arn,
            name,
            next_token,
            versions,
        })
    }
}

impl Copied for PutValue {
    fn copy(&self, alloc: Global) -> Result<PutValue, NoMemory> {
        let Ok((arn, name)) = copy_two(alloc, &self.arn, &self.name) else {
            return Err(NoMemory);
        };
        let Ok((version_id, version_stages)) = copy_two(
            alloc,
            &self.version_id,
            &self.version_stages,
        ) else {
            return Err(NoMemory);
        };
        Ok(PutValue {
            arn,
            name,
            version_id,
            version_stages,
        })
    }
}

impl Copied for ValidationError {
    fn copy(&self, alloc: Global) -> Result<ValidationError, NoMemory> {
        Ok(ValidationError {
            check_name: self.check_name.copy(alloc)?,
            error_message: self.error_message.copy(alloc)?,
        })
    }
}

impl Copied for PolicyValidation {
    fn copy(&self, alloc: Global) -> Result<PolicyValidation, NoMemory> {
        Ok(PolicyValidation {
            policy_validation_passed: self.policy_validation_passed,
            validation_errors: self.validation_errors.copy(alloc)?,
        })
    }
}

impl Copied for Reply {
    fn copy(&self, alloc: Global) -> Result<Reply, NoMemory> {
        match self {
            Reply::BatchGetSecretValue(reply) => {
                let Ok(copy) = reply.copy(alloc) else {
                    return Err(NoMemory);
                };
                Ok(Reply::BatchGetSecretValue(copy))
            }
            Reply::CancelRotateSecret(reply) => {
                let Ok(copy) = reply.copy(alloc) else {
                    return Err(NoMemory);
                };
                Ok(Reply::CancelRotateSecret(copy))
            }
            Reply::CreateSecret(reply) => {
                let Ok(copy) = reply.copy(alloc) else {
                    return Err(NoMemory);
                };
                Ok(Reply::CreateSecret(copy))
            }
            Reply::DeleteResourcePolicy(reply) => {
                let Ok(copy) = reply.copy(alloc) else {
                    return Err(NoMemory);
                };
                Ok(Reply::DeleteResourcePolicy(copy))
            }
            Reply::DeleteSecret(reply) => {
                let Ok(copy) = reply.copy(alloc) else {
                    return Err(NoMemory);
                };
                Ok(Reply::DeleteSecret(copy))
            }
            Reply::DescribeSecret(reply) => {
                let Ok(copy) = reply.copy(alloc) else {
                    return Err(NoMemory);
                };
                Ok(Reply::DescribeSecret(copy))
            }
            Reply::GetRandomPassword(reply) => {
                let Ok(copy) = reply.copy(alloc) else {
                    return Err(NoMemory);
                };
                Ok(Reply::GetRandomPassword(copy))
            }
            Reply::GetResourcePolicy(reply) => {
                let Ok(copy) = reply.copy(alloc) else {
                    return Err(NoMemory);
                };
                Ok(Reply::GetResourcePolicy(copy))
            }
            Reply::GetSecretValue(reply) => {
                let Ok(copy) = reply.copy(alloc) else {
                    return Err(NoMemory);
                };
                Ok(Reply::GetSecretValue(copy))
            }
            Reply::ListSecretVersionIds(reply) => {
                let Ok(copy) = reply.copy(alloc) else {
                    return Err(NoMemory);
                };
                Ok(Reply::ListSecretVersionIds(copy))
            }
            Reply::ListSecrets(reply) => {
                let Ok(copy) = reply.copy(alloc) else {
                    return Err(NoMemory);
                };
                Ok(Reply::ListSecrets(copy))
            }
            Reply::PutResourcePolicy(reply) => {
                let Ok(copy) = reply.copy(alloc) else {
                    return Err(NoMemory);
                };
                Ok(Reply::PutResourcePolicy(copy))
            }
            Reply::PutSecretValue(reply) => {
                let Ok(copy) = reply.copy(alloc) else {
                    return Err(NoMemory);
                };
                Ok(Reply::PutSecretValue(copy))
            }
            Reply::RemoveRegionsFromReplication(reply) => {
                let Ok(copy) = reply.copy(alloc) else {
                    return Err(NoMemory);
                };
                Ok(Reply::RemoveRegionsFromReplication(copy))
            }
            Reply::ReplicateSecretToRegions(reply) => {
                let Ok(copy) = reply.copy(alloc) else {
                    return Err(NoMemory);
                };
                Ok(Reply::ReplicateSecretToRegions(copy))
            }
            Reply::RestoreSecret(reply) => {
                let Ok(copy) = reply.copy(alloc) else {
                    return Err(NoMemory);
                };
                Ok(Reply::RestoreSecret(copy))
            }
            Reply::RotateSecret(reply) => {
                let Ok(copy) = reply.copy(alloc) else {
                    return Err(NoMemory);
                };
                Ok(Reply::RotateSecret(copy))
            }
            Reply::StopReplicationToReplica(reply) => {
                let Ok(copy) = reply.copy(alloc) else {
                    return Err(NoMemory);
                };
                Ok(Reply::StopReplicationToReplica(copy))
            }
            Reply::TagResource => Ok(Reply::TagResource),
            Reply::UntagResource => Ok(Reply::UntagResource),
            Reply::UpdateSecret(reply) => {
                let Ok(copy) = reply.copy(alloc) else {
                    return Err(NoMemory);
                };
                Ok(Reply::UpdateSecret(copy))
            }
            Reply::UpdateSecretVersionStage(reply) => {
                let Ok(copy) = reply.copy(alloc) else {
                    return Err(NoMemory);
                };
                Ok(Reply::UpdateSecretVersionStage(copy))
            }
            Reply::ValidateResourcePolicy(reply) => {
                let Ok(copy) = reply.copy(alloc) else {
                    return Err(NoMemory);
                };
                Ok(Reply::ValidateResourcePolicy(copy))
            }
        }
    }
}
