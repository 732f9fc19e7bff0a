//! The limits of an account, of a request's members, of persons and of the server, each of which has its one name.
//! AWS Secrets Manager User Guide, "AWS Secrets Manager quotas"; API Reference, the length constraints of request
//! parameters.
ghost use Rattle.std.specs.Prelude.{◌≡◌};

// ---- the account

/// How many secrets there may be.
pub const SECRETS_LIMIT: u64 = 10_000;

/// How many versions a secret may have.
pub const VERSIONS_LIMIT: u64 = 1_000;

/// How many of a secret's newest versions are never pruned.
pub const NEWEST_KEPT: u64 = 100;

/// For how long a version is never pruned after it was made, in seconds.
pub const SECONDS_KEPT: u64 = 86_400;

/// How many labels a secret may have besides AWSCURRENT, AWSPREVIOUS and AWSPENDING, and how many a request may give a
/// version.
pub const LABELS_LIMIT: u64 = 20;

/// How many tags a secret may have, and how many a request may name.
pub const TAGS_LIMIT: u64 = 50;

/// How many replica regions a secret may have, and how many a request may name.
pub const REGIONS_LIMIT: u64 = 20;

/// How many entries may be made since the account was opened.
pub const ENTRIES_LIMIT: u64 = 1_000_000;

/// The greatest length of a journal, in bytes.
pub const JOURNAL_LIMIT: u64 = 536_870_912;

/// The number that no serial is: where it is the next one, nothing more is made.
pub const NO_SERIAL: u64 = u64::MAX;

/// The greatest date that a secret keeps save that of its next rotation, in seconds since the beginning of 1970 in UTC.
pub const LAST_DATE: u64 = 200_086_400_000;

/// The greatest date of a secret's next rotation, in seconds since the beginning of 1970 in UTC.
pub const LAST_ROTATION_DATE: u64 = 212_622_780_800;

// ---- members of requests

/// The greatest size of a value, in bytes.
pub const VALUE_LIMIT: usize = 65_536;

/// The greatest length of a description, a KMS key id or a Lambda ARN, in characters.
pub const DESCRIPTION_LIMIT: usize = 2_048;

/// The greatest length of a tag's key, in characters.
pub const TAG_KEY_LIMIT: usize = 128;

/// The greatest length of a tag's value, in characters.
pub const TAG_VALUE_LIMIT: usize = 256;

/// The greatest length of a resource policy, in characters.
pub const POLICY_LIMIT: usize = 20_480;

/// The fewest days of a recovery window.
pub const SHORTEST_WINDOW: u32 = 7;

/// The most days of a recovery window.
pub const LONGEST_WINDOW: u32 = 30;

/// The days of a recovery window where none are given.
pub const DEFAULT_WINDOW: u32 = 30;

/// The most secrets or versions of a page.
pub const PAGE_LIMIT: u32 = 100;

/// The most secrets of a batch.
pub const BATCH_LIMIT: u32 = 20;

/// The most filters of a request.
pub const FILTERS_LIMIT: usize = 10;

/// The most values of a filter.
pub const FILTER_VALUES_LIMIT: usize = 10;

/// The greatest length of a filter's value, in characters.
pub const FILTER_VALUE_LIMIT: usize = 512;

/// The greatest length of a password, in characters.
pub const PASSWORD_LIMIT: u32 = 4_096;

/// The length of a password where none is asked for, in characters.
pub const PASSWORD_LENGTH: u32 = 32;

/// The most characters of ExcludeCharacters.
pub const EXCLUDED_LIMIT: usize = 4_096;

/// The greatest length of a region's name, in bytes.
pub const REGION_LIMIT: usize = 32;

/// The greatest length of a schedule expression, in bytes.
pub const SCHEDULE_LIMIT: usize = 256;

// ---- rotations

/// How many attempts a step of a rotation has.
pub const ATTEMPTS_LIMIT: u32 = 5;

/// The most days between two rotations.
pub const DAYS_LIMIT: u32 = 1_000;

// ---- persons

/// The greatest length of the key of a person whom a people text names, in bytes.
pub const KEY_LIMIT: usize = 128;

/// The greatest length of the key and of the ARN of a person who makes an entry, in bytes.
pub const CALLER_LIMIT: usize = 256;

// ---- the server

/// How many seats one account may have: its connection workers and rotation workers.
pub const SEATS_LIMIT: u32 = 128;

/// How many connection workers a server may have, each of which serves many connections.
pub const CONNECTION_WORKERS_LIMIT: u32 = 64;

/// How many rotation workers a server may have.
pub const ROTATION_WORKERS_LIMIT: u32 = 16;

// ---- the same in numbers

/// The limits of an account, in numbers: a constant that changes is refused here.
pub fn limits_of_accounts_are_as_stated()
    ensures secrets { SECRETS_LIMIT ≡ 10000 }
    ensures versions { VERSIONS_LIMIT ≡ 1000 }
    ensures newest_kept { NEWEST_KEPT ≡ 100 }
    ensures seconds_kept { SECONDS_KEPT ≡ 86400 }
    ensures labels { LABELS_LIMIT ≡ 20 }
    ensures tags { TAGS_LIMIT ≡ 50 }
    ensures regions { REGIONS_LIMIT ≡ 20 }
    ensures entries { ENTRIES_LIMIT ≡ 1000000 }
    ensures journal { JOURNAL_LIMIT ≡ 536870912 }
    ensures last_date { LAST_DATE ≡ 200086400000 }
    ensures last_rotation_date { LAST_ROTATION_DATE ≡ 212622780800 }
{}

/// The limits of requests' members, in numbers.
pub fn limits_of_members_are_as_stated()
    ensures value { VALUE_LIMIT ≡ 65536 }
    ensures description { DESCRIPTION_LIMIT ≡ 2048 }
    ensures tag_key { TAG_KEY_LIMIT ≡ 128 }
    ensures tag_value { TAG_VALUE_LIMIT ≡ 256 }
    ensures policy { POLICY_LIMIT ≡ 20480 }
    ensures shortest_window { SHORTEST_WINDOW ≡ 7 }
    ensures longest_window { LONGEST_WINDOW ≡ 30 }
    ensures default_window { DEFAULT_WINDOW ≡ 30 }
    ensures page { PAGE_LIMIT ≡ 100 }
    ensures batch { BATCH_LIMIT ≡ 20 }
    ensures filters { FILTERS_LIMIT ≡ 10 }
    ensures filter_values { FILTER_VALUES_LIMIT ≡ 10 }
    ensures filter_value { FILTER_VALUE_LIMIT ≡ 512 }
    ensures password { PASSWORD_LIMIT ≡ 4096 }
    ensures password_length { PASSWORD_LENGTH ≡ 32 }
    ensures excluded { EXCLUDED_LIMIT ≡ 4096 }
    ensures region { REGION_LIMIT ≡ 32 }
    ensures schedule { SCHEDULE_LIMIT ≡ 256 }
{}

/// The limits of rotations, persons and servers, in numbers.
pub fn limits_of_rotations_and_servers_are_as_stated()
    ensures attempts { ATTEMPTS_LIMIT ≡ 5 }
    ensures days { DAYS_LIMIT ≡ 1000 }
    ensures key { KEY_LIMIT ≡ 128 }
    ensures caller { CALLER_LIMIT ≡ 256 }
    ensures seats { SEATS_LIMIT ≡ 128 }
    ensures connection_workers { CONNECTION_WORKERS_LIMIT ≡ 64 }
    ensures rotation_workers { ROTATION_WORKERS_LIMIT ≡ 16 }
{}
