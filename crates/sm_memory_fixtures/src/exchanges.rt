//! Messages and the replies that they must get.
use crate::messages::{add_message, add_reply};
use sm_base::NoMemory;
use std::alloc::Global;

/// A message's operation and body, and its reply's status line and body.
pub type Exchange = (&'static str, &'static str, &'static str, &'static str);

/// The operations that most messages ask for.
pub const CREATE: &str = "CreateSecret";

pub const PUT: &str = "PutSecretValue";

pub const GET: &str = "GetSecretValue";

/// The status lines of replies.
pub const OK: &str = "200 OK";

pub const BAD: &str = "400 Bad Request";

pub const FAULT: &str = "500 Internal Server Error";

/// A secret with a value and a token, and the reply to it.
pub const APP: &str =
    r#"{"Name":"db/app","SecretString":"s3cret","ClientRequestToken":"11111111-1111-4111-8111-111111111111"}"#;

pub const APP_CREATED: &str =
    "{\"ARN\":\"arn:aws:secretsmanager:us-east-1:000000000000:secret:db/app-ABCDEF\",\"Name\":\"db/app\",\
        \"VersionId\":\"11111111-1111-4111-8111-111111111111\"}";

/// Another value of that secret, and the reply to it.
pub const PUT_B: &str =
    r#"{"SecretId":"db/app","SecretString":"b","ClientRequestToken":"22222222-2222-4222-8222-222222222222"}"#;

pub const PUT_B_DONE: &str =
    "{\"ARN\":\"arn:aws:secretsmanager:us-east-1:000000000000:secret:db/app-ABCDEF\",\"Name\":\"db/app\",\
        \"VersionId\":\"22222222-2222-4222-8222-222222222222\",\"VersionStages\":[\"AWSCURRENT\"]}";

/// A read of that secret, and its two values.
pub const GET_APP: &str = r#"{"SecretId":"db/app"}"#;

pub const FIRST_VALUE: &str =
    "{\"ARN\":\"arn:aws:secretsmanager:us-east-1:000000000000:secret:db/app-ABCDEF\",\"CreatedDate\":1700000000,\
        \"Name\":\"db/app\",\"SecretString\":\"s3cret\",\"VersionId\":\"11111111-1111-4111-8111-111111111111\",\
        \"VersionStages\":[\"AWSCURRENT\"]}";

pub const SECOND_VALUE: &str =
    "{\"ARN\":\"arn:aws:secretsmanager:us-east-1:000000000000:secret:db/app-ABCDEF\",\"CreatedDate\":1700000000,\
        \"Name\":\"db/app\",\"SecretString\":\"b\",\"VersionId\":\"22222222-2222-4222-8222-222222222222\",\
        \"VersionStages\":[\"AWSCURRENT\"]}";

/// Refusals.
pub const NOT_FOUND: &str =
    r#"{"Message":"secret not found","__type":"ResourceNotFoundException"}"#;

pub const DISK_FAULT: &str = r#"{"Message":"disk fault","__type":"InternalServiceError"}"#;

pub const RANDOM_FAULT: &str =
    r#"{"Message":"random source fault","__type":"InternalServiceError"}"#;

/// The creation of that secret, and the put of its other value, each made or met by a fault of the disk.
pub const APP_MADE: Exchange = (CREATE, APP, OK, APP_CREATED);

pub const APP_FAULT: Exchange = (CREATE, APP, FAULT, DISK_FAULT);

pub const B_MADE: Exchange = (PUT, PUT_B, OK, PUT_B_DONE);

pub const B_FAULT: Exchange = (PUT, PUT_B, FAULT, DISK_FAULT);

/// The bytes of the messages, and of the replies.
pub fn spoken(alloc: Global, exchanges: &[Exchange]) -> Result<(Vec<u8>, Vec<u8>), NoMemory> {
    let mut input = Vec::new(alloc);
    let mut output = Vec::new(alloc);
    for (operation, body, status, reply) in exchanges {
        add_message(alloc, &mut input, operation, body.as_bytes())?;
        add_reply(alloc, &mut output, status, reply)?;
    }
    Ok((input, output))
}
