//! Codes by a key: RFC 4231's, and those of the examples in the AWS General Reference.
use sm_base::NoMemory;
use sm_sigv4::hmac;
use std::alloc::Global;
use std::process::Abort;
use std::test::Fail;

/// A text, and so many bytes behind it, the first one and how much more each later one is.
type Given = (&'static str, usize, u8, u8);

/// A name, the key, the text, and the first digits of the code.
type Code = (&'static str, Given, Given, &'static str);

/// The seven of RFC 4231, section 4, and two about the length of a key, which Python's hmac made. Of the fifth 32
/// digits are published.
static CODES: [Code; 9] = [
    (
        "the first",
        ("", 20, 0x0b, 0),
        ("Hi There", 0, 0, 0),
        "b0344c61d8db38535ca8afceaf0bf12b881dc200c9833da726e9376c2e32cff7",
    ),
    (
        "the second, a key shorter than the code",
        ("Jefe", 0, 0, 0),
        ("what do ya want for nothing?", 0, 0, 0),
        "5bdcc146bf60754e6a042426089575c75a003f089d2739839dec58b964ec3843",
    ),
    (
        "the third",
        ("", 20, 0xaa, 0),
        ("", 50, 0xdd, 0),
        "773ea91e36800e46854db8ebd09181a72959098b3ef8c122d9635514ced565fe",
    ),
    (
        "the fourth",
        ("", 25, 0x01, 1),
        ("", 50, 0xcd, 0),
        "82558a389a443c0ea4cc819899f2083a85f0faa3e578f8077a2e3ff46729665b",
    ),
    (
        "the fifth",
        ("", 20, 0x0c, 0),
        ("Test With Truncation", 0, 0, 0),
        "a3b6167473100ee06e0c796c2955552b",
    ),
    (
        "the sixth, a key longer than a block",
        ("", 131, 0xaa, 0),
        (
            "Test Using Larger Than Block-Size Key - Hash Key First",
            0,
            0,
            0,
        ),
        "60e431591ee0b67f0d8a26aacbf5b77f8e0bc6213728c5140546040f0ee37f54",
    ),
    (
        "the seventh, and a text longer than one",
        ("", 131, 0xaa, 0),
        (
            "This is a test using a larger than block-size key and a larger than block-size data. \
             The key needs to be hashed before being used by the HMAC algorithm.",
            0,
            0,
            0,
        ),
        "9b09ffa71b942fcb27635fbcd5b0e944bfdc63644f0713938a7f51535c3a35e2",
    ),
    (
        "a key that is a block",
        ("", 64, 0x61, 0),
        ("b", 0, 0, 0),
        "cdb6d0987bc7bc99f08f0fd9801628955d1f965f486bef737f8bb1fb5648d8e7",
    ),
    (
        "a key that is one byte more",
        ("", 65, 0x61, 0),
        ("b", 0, 0, 0),
        "2eb58c0728b549a487f55d4824a97f874d7b740940cc74dfc96ebebaa3273260",
    ),
];

fn bytes_of(alloc: Global, given: &Given) -> Result<Vec<u8>, NoMemory> {
    let (text, count, first, step) = given;
    let mut bytes = Vec::from_slice(alloc, text.as_bytes())?;
    let mut next = *first;
    for _ in 0..*count {
        bytes.push(next)?;
        next = next.wrapping_add(*step);
    }
    Ok(bytes)
}

fn digits_of(alloc: Global, key: &Given, text: &Given) -> Result<String, Fail> {
    let key = bytes_of(alloc, key)?;
    let text = bytes_of(alloc, text)?;
    Ok(hex::encode(alloc, hmac(key.as_slice(), text.as_slice()))?)
}

fn compare(rt: &impl Abort, name: &str, came: &str, wanted: &str) {
    assert!(rt; came.starts_with(wanted), "{name}: {came}, not {wanted}");
}

#[test]
fn published_codes(rt: HostRuntime) -> Result<(), Fail> {
    for (name, key, text, digits) in &CODES {
        let came = digits_of(rt.alloc(), key, text)?;
        compare(&rt, name, came.as_str(), digits);
    }
    Ok(())
}

/// The key that signs for a day and a service (AWS General Reference, "Examples of how to derive a signing key").
fn key_for(day: &str, service: &str) -> [u8; 32] {
    let of_day = hmac(
        b"AWS4wJalrXUtnFEMI/K7MDENG+bPxRfiCYEXAMPLEKEY",
        day.as_bytes(),
    );
    let of_region = hmac(&of_day, b"us-east-1");
    let of_service = hmac(&of_region, service.as_bytes());
    hmac(&of_service, b"aws4_request")
}

/// A day, a service, the digest of a request of that day's 12:36:00, and the digits of its signature; without a digest
/// those of the key.
type Signed = (&'static str, &'static str, &'static str, &'static str);

/// Two published keys, and the signatures of the General Reference's worked example, of get-vanilla and of
/// post-vanilla.
static SIGNED: [Signed; 5] = [
    (
        "20120215",
        "iam",
        "",
        "f4780e2d9f65fa895f9c67b32ce1baf0b0d8a43505a000a1a9e090d414db404d",
    ),
    (
        "20150830",
        "iam",
        "",
        "c4afb1cc5771d871763a393e44b703571b55cc28424d1a5e86da6ed3c154a4b9",
    ),
    (
        "20150830",
        "iam",
        "f536975d06c0309214f805bb90ccff089219ecd68b2577efef23edd43b7e1a59",
        "5d672d79c15b13162d9279b0855cfba6789a8edb4c82c400e06b5924a6f2b5d7",
    ),
    (
        "20150830",
        "service",
        "bb579772317eb040ac9ed261061d46c1f17a8133879d6129b6e1c25292927e63",
        "5fa00fa31553b73ebf1942676e86291e8372ff2a2260956d9b8aae1d763fbf31",
    ),
    (
        "20150830",
        "service",
        "553f88c9e4d10fc9e109e2aeb65f030801b70c2f6468faca261d401ae622fc87",
        "5da7c1a2acd57cee7505fc6676e4e544621c30862966e37dddb68e92efbe5d6b",
    ),
];

/// The digits of a key, or of a signature by it.
fn signed(alloc: Global, day: &str, service: &str, digest: &str) -> Result<String, Fail> {
    let key = key_for(day, service);
    if digest.is_empty() {
        return Ok(hex::encode(alloc, key)?);
    }
    let text = format!(in alloc;
        "AWS4-HMAC-SHA256\n{day}T123600Z\n{day}/us-east-1/{service}/aws4_request\n{digest}"
    )?;
    Ok(hex::encode(alloc, hmac(&key, text.as_str().as_bytes()))?)
}

#[test]
fn published_keys_and_signatures(rt: HostRuntime) -> Result<(), Fail> {
    for (day, service, digest, digits) in &SIGNED {
        let came = signed(rt.alloc(), day, service, digest)?;
        compare(&rt, service, came.as_str(), digits);
    }
    Ok(())
}
