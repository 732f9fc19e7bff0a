//! Why a request is refused: the cause, with the value that shows it.
use sm_base::{BadKind, Copied, Moment, NoMemory, Text, Token};
use std::alloc::Global;

/// What a limit counts.
#[derive(Clone, Copy, Debug, PartialEq, Eq)]
pub enum What {
    Secrets,
    Versions,
    Labels,
    Tags,
    Entries,
    JournalBytes,
    Regions,
}

/// A part of a request's signature (AWS Signature Version 4 for API requests).
#[derive(Clone, Copy, Debug, PartialEq, Eq)]
pub enum Part {
    Authorization,
    SignedHeaders,
    Date,
    Signature,
}

/// The cause of a refusal.
pub enum Why {
    /// The member is not in its form.
    Form(Text),
    /// The member is left out by name.
    Left(Text),
    /// The label is held by this version, or by none.
    HeldBy(Option<Token>),
    /// AWSCURRENT can be moved and not removed.
    KeepsCurrent,
    /// The version has no value.
    Empty(Token),
    /// The secret is scheduled for deletion at this moment.
    Scheduled(Moment),
    /// The version's id and the label name two versions.
    Differ,
    /// AWSPENDING is held by this version, which is not the current one.
    Pending(Token),
    NoCurrent,
    /// The secret is its account's own, and no replica.
    NotReplica,
    /// The account is a replica, which answers GetSecretValue and DescribeSecret alone.
    ReadOnly,
    NoSecret,
    NoVersion,
    /// No version of the secret has this id.
    NotThere(Token),
    /// A secret of this name exists.
    SecretExists(Text),
    /// The version has another value.
    OtherValue(Token),
    /// The version exists.
    VersionExists(Token),
    /// The request would pass a limit of so many.
    Limit(u64, What),
    /// The member of this statement of a policy, counted from 1, or of the document, 0, is wrong.
    Malformed(u32, Text),
    /// This statement of a policy, counted from 1, is public.
    Public(u32),
    BadToken,
    /// This statement denies the request, or none allows it.
    Denied(Option<u32>),
    NoCredential,
    /// No person has this key.
    UnknownKey(Text),
    /// This part of the request's signature is wrong.
    BadSignature(Part),
    UnknownOperation,
    NotJson,
    /// The member is missing or of another type.
    BadMember(Text),
    /// The message is wrong.
    Http(BadKind),
    DiskFault,
    RandomFault,
    Memory,
}

/// Who lets a cause go makes one call.
impl Drop for Why {
    fn drop(self) {
        match self {
            Why::Form(_)
            | Why::Left(_)
            | Why::HeldBy(_)
            | Why::KeepsCurrent
            | Why::Empty(_)
            | Why::Scheduled(_)
            | Why::Differ
            | Why::Pending(_)
            | Why::NoCurrent
            | Why::NotReplica
            | Why::ReadOnly
            | Why::NoSecret
            | Why::NoVersion
            | Why::NotThere(_)
            | Why::SecretExists(_)
            | Why::OtherValue(_)
            | Why::VersionExists(_)
            | Why::Limit(_, _)
            | Why::Malformed(_, _)
            | Why::Public(_)
            | Why::BadToken
            | Why::Denied(_)
            | Why::NoCredential
            | Why::UnknownKey(_)
            | Why::BadSignature(_)
            | Why::UnknownOperation
            | Why::NotJson
            | Why::BadMember(_)
            | Why::Http(_)
            | Why::DiskFault
            | Why::RandomFault
            | Why::Memory => {}
        }
    }
}

impl Copied for Why {
    fn copy(&self, alloc: Global) -> Result<Why, NoMemory> {
        match self {
            Why::Form(member) => {
                let Ok(copy) = member.copy(alloc) else {
                    return Err(NoMemory);
                };
                Ok(Why::Form(copy))
            }
            Why::Left(member) => {
                let Ok(copy) = member.copy(alloc) else {
                    return Err(NoMemory);
                };
                Ok(Why::Left(copy))
            }
            Why::HeldBy(holder) => {
                let Ok(copy) = holder.copy(alloc) else {
                    return Err(NoMemory);
                };
                Ok(Why::HeldBy(copy))
            }
            Why::KeepsCurrent => Ok(Why::KeepsCurrent),
            Why::Empty(id) => {
                let Ok(copy) = id.copy(alloc) else {
                    return Err(NoMemory);
                };
                Ok(Why::Empty(copy))
            }
            Why::Scheduled(deletion) => Ok(Why::Scheduled(*deletion)),
            Why::Differ => Ok(Why::Differ),
            Why::Pending(id) => {
                let Ok(copy) = id.copy(alloc) else {
                    return Err(NoMemory);
                };
                Ok(Why::Pending(copy))
            }
            Why::NoCurrent => Ok(Why::NoCurrent),
            Why::NotReplica => Ok(Why::NotReplica),
            Why::ReadOnly => Ok(Why::ReadOnly),
            Why::NoSecret => Ok(Why::NoSecret),
            Why::NoVersion => Ok(Why::NoVersion),
            Why::NotThere(id) => {
                let Ok(copy) = id.copy(alloc) else {
                    return Err(NoMemory);
                };
                Ok(Why::NotThere(copy))
            }
            Why::SecretExists(name) => {
                let Ok(copy) = name.copy(alloc) else {
                    return Err(NoMemory);
                };
                Ok(Why::SecretExists(copy))
            }
            Why::OtherValue(id) => {
                let Ok(copy) = id.copy(alloc) else {
                    return Err(NoMemory);
                };
                Ok(Why::OtherValue(copy))
            }
            Why::VersionExists(id) => {
                let Ok(copy) = id.copy(alloc) else {
                    return Err(NoMemory);
                };
                Ok(Why::VersionExists(copy))
            }
            Why::Limit(most, what) => Ok(Why::Limit(*most, *what)),
            Why::Malformed(statement, member) => {
                Ok(Why::Malformed(*statement, member.copy(alloc)?))
            }
            Why::Public(statement) => Ok(Why::Public(*statement)),
            Why::BadToken => Ok(Why::BadToken),
            Why::Denied(statement) => Ok(Why::Denied(*statement)),
            Why::NoCredential => Ok(Why::NoCredential),
            Why::UnknownKey(key) => {
                let Ok(copy) = key.copy(alloc) else {
                    return Err(NoMemory);
                };
                Ok(Why::UnknownKey(copy))
            }
            Why::BadSignature(part) => Ok(Why::BadSignature(*part)),
            Why::UnknownOperation => Ok(Why::UnknownOperation),
            Why::NotJson => Ok(Why::NotJson),
            Why::BadMember(member) => {
                let Ok(copy) = member.copy(alloc) else {
                    return Err(NoMemory);
                };
                Ok(Why::BadMember(copy))
            }
            Why::Http(kind) => Ok(Why::Http(*kind)),
            Why::DiskFault => Ok(Why::DiskFault),
            Why::RandomFault => Ok(Why::RandomFault),
            Why::Memory => Ok(Why::Memory),
        }
    }
}
