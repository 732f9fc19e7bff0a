//! The error's name, the message and the status of each cause (AWS Secrets Manager API Reference, the errors of each
//! operation and
//! "Common Errors"; the messages are this server's own).
ghost use Rattle.std.specs.Prelude.{◌≡◌, ◌++◌, codes, decimal, IfOk, IsErr, MatchResult, string_bytes};
ghost use Rattle.sm_model.specs.Causes.{error_of, name_of_what, message_of, holder_message, denial_message, signature_message, http_message, status_of};

use crate::why::{Part, What, Why};
use sm_base::{BadKind, NoMemory, Text, Token};
use std::alloc::{AllocError, Global};

impl Why {
    /// The name of the error, as a reply gives it.
    pub fn error_name(&self) -> &'static str
        ensures { result.now ≡ error_of self.now }
    {
        match self {
            Why::Form(_) | Why::Left(_) | Why::HeldBy(_) | Why::KeepsCurrent => {
                "InvalidParameterException"
            }
            Why::Empty(_)
            | Why::Scheduled(_)
            | Why::Differ
            | Why::Pending(_)
            | Why::NoCurrent
            | Why::NotReplica
            | Why::ReadOnly => "InvalidRequestException",
            Why::NoSecret | Why::NoVersion | Why::NotThere(_) => "ResourceNotFoundException",
            Why::SecretExists(_) | Why::OtherValue(_) | Why::VersionExists(_) => {
                "ResourceExistsException"
            }
            Why::Limit(_, _) => "LimitExceededException",
            Why::Malformed(_, _) => "MalformedPolicyDocumentException",
            Why::Public(_) => "PublicPolicyException",
            Why::BadToken => "InvalidNextTokenException",
            Why::Denied(_) | Why::NoCredential | Why::UnknownKey(_) | Why::BadSignature(_) => {
                "AccessDeniedException"
            }
            Why::UnknownOperation => "UnknownOperationException",
            Why::NotJson | Why::BadMember(_) | Why::Http(_) => "SerializationException",
            Why::DiskFault | Why::RandomFault => "InternalServiceError",
            Why::Memory => "ServiceUnavailable",
        }
    }

    /// The status of the reply: 400, 413, 500 or 503.
    pub fn status(&self) -> u16
        ensures { result ≡ status_of self.now }
    {
        match self {
            Why::Http(BadKind::BodyTooLong) => 413,
            Why::DiskFault | Why::RandomFault => 500,
            Why::Memory => 503,
            _ => 400,
        }
    }

    /// The message that a reply gives.
    pub fn message(&self, alloc: Global) -> Result<Text, NoMemory>
        ensures { IfOk result (λ text. text ≡ message_of self.now) }
    {
        match self {
            Why::Form(member) | Why::Left(member) => with_end(alloc, member, " is not in its form"),
            Why::HeldBy(holder) => holder_message(alloc, holder),
            Why::KeepsCurrent => Ok(Text::fixed("AWSCURRENT can be moved but not removed")),
            Why::Empty(id) => of_version(alloc, id, " has no value"),
            Why::Scheduled(date) => written(format!(in alloc;
                "secret is scheduled for deletion at {}",
                date.0
            )),
            Why::Differ => Ok(Text::fixed("version and label differ")),
            Why::Pending(id) => {
                written(format!(in alloc; "AWSPENDING is held by {}", id.as_text().as_str()))
            }
            Why::NoCurrent => Ok(Text::fixed("secret has no current value")),
            Why::NotReplica => Ok(Text::fixed("secret is not a replica")),
            Why::ReadOnly => Ok(Text::fixed("replica is read-only")),
            Why::NoSecret => Ok(Text::fixed("secret not found")),
            Why::NoVersion | Why::NotThere(_) => Ok(Text::fixed("version not found")),
            Why::SecretExists(name) => {
                written(format!(in alloc; "secret {} exists", name.as_str()))
            }
            Why::OtherValue(id) => of_version(alloc, id, " has another value"),
            Why::VersionExists(id) => of_version(alloc, id, " exists"),
            Why::Limit(count, what) => limit_message(alloc, *count, name_of_what(*what)),
            Why::Malformed(statement, member) => malformed_message(alloc, *statement, member),
            Why::Public(statement) => public_message(alloc, *statement),
            Why::BadToken => Ok(Text::fixed("NextToken is not in its form")),
            Why::Denied(statement) => denial_message(alloc, *statement),
            Why::NoCredential => Ok(Text::fixed("no credential")),
            Why::UnknownKey(key) => written(format!(in alloc; "unknown key {}", key.as_str())),
            Why::BadSignature(part) => Ok(Text::fixed(signature_message(*part))),
            Why::UnknownOperation => Ok(Text::fixed("unknown operation")),
            Why::NotJson => Ok(Text::fixed("body is not a JSON object")),
            Why::BadMember(member) => with_end(alloc, member, " is missing or of another type"),
            Why::Http(kind) => Ok(Text::fixed(http_message(*kind))),
            Why::DiskFault => Ok(Text::fixed("disk fault")),
            Why::RandomFault => Ok(Text::fixed("random source fault")),
            Why::Memory => Ok(Text::fixed("out of memory")),
        }
    }
}

/// A member's name, and what is said of it.
fn with_end(alloc: Global, member: &Text, end: &str) -> Result<Text, NoMemory>
    ensures { IfOk result (λ text. text ≡ member.now ++ end.now) }
{
    written(format!(in alloc; "{}{end}", member.as_str()))
}

/// What is said of a version.
fn of_version(alloc: Global, id: &Token, end: &str) -> Result<Text, NoMemory>
    ensures { IfOk result (λ text. text ≡ codes "version " ++ id.now ++ end.now) }
{
    written(format!(in alloc; "version {}{end}", id.as_text().as_str()))
}

/// The message of a label that another version, or none, holds.
fn holder_message(alloc: Global, holder: &Option<Token>) -> Result<Text, NoMemory>
    ensures { IfOk result (λ text. text ≡ holder_message holder.now) }
{
    match holder {
        Some(id) => written(format!(in alloc; "label is held by {}", id.as_text().as_str())),
        None => Ok(Text::fixed("label is held by no version")),
    }
}

/// What a limit counts.
fn name_of_what(what: What) -> &'static str
    ensures { result.now ≡ name_of_what what }
{
    match what {
        What::Secrets => "secrets",
        What::Versions => "versions",
        What::Labels => "labels",
        What::Tags => "tags",
        What::Entries => "entries",
        What::JournalBytes => "journal bytes",
        What::Regions => "regions",
    }
}

/// The message of a limit that would be passed.
fn limit_message(alloc: Global, count: u64, what: &str) -> Result<Text, NoMemory>
    ensures { IfOk result (λ text. text ≡ codes "limit of " ++ (decimal count ++ (codes " " ++ what.now))) }
{
    written(format!(in alloc; "limit of {count} {what}"))
}

/// The message of a member of a statement that is wrong.
fn malformed_message(alloc: Global, statement: u32, member: &Text) -> Result<Text, NoMemory>
    ensures { IfOk result (λ text. text ≡ message_of (Why.Malformed statement member.now)) }
{
    written(format!(in alloc; "statement {statement}: {}", member.as_str()))
}

/// The message of a statement that is public.
fn public_message(alloc: Global, statement: u32) -> Result<Text, NoMemory>
    ensures { IfOk result (λ text. text ≡ message_of (Why.Public statement)) }
{
    written(format!(in alloc; "statement {statement} is public"))
}

/// The message of a request that a statement denies, or that none allows.
fn denial_message(alloc: Global, statement: Option<u32>) -> Result<Text, NoMemory>
    ensures { IfOk result (λ text. text ≡ denial_message statement) }
{
    match statement {
        Some(statement) => written(format!(in alloc; "denied by statement {statement}")),
        None => Ok(Text::fixed("no statement allows")),
    }
}

/// The message of a part of a signature that is wrong.
fn signature_message(part: Part) -> &'static str
    ensures { result.now ≡ signature_message part }
{
    match part {
        Part::Authorization => "signature: Authorization",
        Part::SignedHeaders => "signature: SignedHeaders",
        Part::Date => "signature: Date",
        Part::Signature => "signature: Signature",
    }
}

/// The message of a fault of a message.
fn http_message(kind: BadKind) -> &'static str
    ensures { result.now ≡ http_message kind }
{
    match kind {
        BadKind::HeadTooLong => "http: head too long",
        BadKind::Head => "http: head",
        BadKind::Chunked => "http: chunked",
        BadKind::Length => "http: length",
        BadKind::BodyTooLong => "http: body too long",
    }
}

/// The text that was written, if there was memory for it.
fn written(string: Result<String, AllocError>) -> Result<Text, NoMemory>
    ensures { MatchResult string (λ s. result ≡ Ok (string_bytes s)) (λ _. IsErr result) }
{
    match string {
        Ok(string) => Ok(Text::new(string)),
        Err(_) => Err(NoMemory),
    }
}
