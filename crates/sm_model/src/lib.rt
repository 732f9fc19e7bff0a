//! The plain data of a secrets account: the rows of secrets and versions, all requests and replies, the causes of
//! refusals with the
//! replies' errors and messages, and the entries of an account's history.
//!
//! Contracts see a row, a request or a reply as the record of its fields. The names of `sm_base` are given on.
#![tactic(auto)]

pub mod causes;
pub mod entry;
pub mod person;
pub mod reply;
mod reply_copies;
pub mod request;
mod request_copies;
pub mod row_list;
pub mod rows;
pub mod value;
pub mod why;

pub use entry::{Act, Answer, At, Change, Entry, Mark};
pub use person::Person;
pub use reply::{
    BatchError, CreatedSecret, DeletedSecret, Described, GotSecret, NamedSecret, PolicyOfSecret,
    PolicyValidation, PromotedSecret, PutValue, RandomPassword, ReplicatedSecret,
    ReplicationStatus, Reply, RulesShown, SecretBatch, SecretPage, Staged, ValidationError,
    VersionItem, VersionPage, VersionedSecret,
};
pub use request::{
    BatchGetSecretValue, CreateSecret, DeleteSecret, Filter, GetRandomPassword, GetSecretValue,
    ListSecretVersionIds, ListSecrets, OfSecret, PutResourcePolicy, PutSecretValue,
    RegionsOfSecret, Request, RotateSecret, Rules, TagResource, UntagResource, UpdateSecret,
    UpdateSecretVersionStage, ValidateResourcePolicy, need,
};
pub use row_list::RowList;
pub use rows::{Job, Pair, Rotation, Rows, SecretRow, Stage, VersionRow};
pub use sm_base::{
    Arn, BadKind, Bytes, Copied, Fails, Keyed, Label, List, Moment, Name, NoMemory, ReadRefused,
    SecretId, SharedList, Text, Token,
};
pub use sm_policy_text::KeptPolicy;
pub use value::{Tag, Value};
pub use why::{Part, What, Why};
