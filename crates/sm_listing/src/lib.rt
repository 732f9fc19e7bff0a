//! Pages of secrets and of the versions of a secret (AWS Secrets Manager API Reference, ListSecrets and
//! ListSecretVersionIds): which serials are on a page, in which order, and where the next begins.
#![tactic(auto)]

mod asks;
pub mod beginnings;
pub mod filters;
pub mod pages;
mod shown;
pub mod tokens;

pub use asks::{Listed, PageAsk, PageRefused};
pub use filters::is_filter;
pub use pages::{page, version_page};
pub use tokens::{SECRETS, VERSIONS, serial_of};
