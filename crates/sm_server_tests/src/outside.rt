//! A rotator that keeps what it is asked, and a random source that fails.
use crate::runs::run;
use sm_memory_fixtures::disks::disk_of;
use sm_memory_fixtures::exchanges::{
    APP_CREATED, BAD, CREATE, Exchange, FAULT, GET, GET_APP, NOT_FOUND, OK, RANDOM_FAULT, spoken,
};
use sm_model::Fails;
use sm_server::Status;
use std::test::Fail;

/// The first creation is the one draw that doesn't fail. What is refused for the random source isn't there.
const EXCHANGES: [Exchange; 5] = [
    (
        CREATE,
        "{\"Name\":\"db/app\",\"ClientRequestToken\":\"11111111-1111-4111-8111-111111111111\",\
            \"SecretString\":\"{\\\"password\\\":\\\"old\\\"}\"}",
        OK,
        APP_CREATED,
    ),
    (
        "RotateSecret",
        r#"{"SecretId":"db/app","ClientRequestToken":"22222222-2222-4222-8222-222222222222"}"#,
        OK,
        "{\"ARN\":\"arn:aws:secretsmanager:us-east-1:000000000000:secret:db/app-ABCDEF\",\"Name\":\"db/app\",\
            \"VersionId\":\"22222222-2222-4222-8222-222222222222\"}",
    ),
    (
        GET,
        GET_APP,
        OK,
        "{\"ARN\":\"arn:aws:secretsmanager:us-east-1:000000000000:secret:db/app-ABCDEF\",\"CreatedDate\":1700000000,\
            \"Name\":\"db/app\",\
            \"SecretString\":\"{\\\"password\\\":\\\"rotated-22222222-2222-4222-8222-222222222222\\\"}\",\
            \"VersionId\":\"22222222-2222-4222-8222-222222222222\",\"VersionStages\":[\"AWSCURRENT\"]}",
    ),
    (CREATE, r#"{"Name":"n"}"#, FAULT, RANDOM_FAULT),
    (GET, r#"{"SecretId":"n"}"#, BAD, NOT_FOUND),
];

/// The four steps of a rotation are four works, each told once.
#[test]
fn works_are_told_and_faults_said(rt: HostRuntime) -> Result<(), Fail> {
    let alloc = rt.alloc();
    let (input, output) = spoken(alloc, &EXCHANGES)?;
    let disk = disk_of(alloc, b"", Fails::never(alloc))?;
    let ran = run(alloc, input.as_slice(), Some(2), disk)?;
    let is_so = ran.written.as_slice() == output.as_slice();
    assert_eq!(rt; (ran.status, ran.works, is_so), (Status::Done, 4, true));
    Ok(())
}
