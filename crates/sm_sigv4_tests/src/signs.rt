//! What signs a message is what was written elsewhere, by Python's hmac and hashlib as in `tools/sign-vectors`.
use sm_base::{Bytes, List, NoMemory, Text};
use sm_http::{Excerpt, Field, Message};
use sm_sigv4::{Part, Scope, SignRefused, sign};
use std::alloc::Global;
use std::test::Fail;

/// A field's name and value.
type Pair = (&'static str, &'static str);

/// The fields of each message.
static FIELDS: [Pair; 6] = [
    ("Host", "127.0.0.1:7777"),
    ("Accept-Encoding", "identity"),
    ("X-Amz-Target", "secretsmanager.GetSecretValue"),
    ("Content-Type", "application/x-amz-json-1.1"),
    ("User-Agent", "aws-cli/2.13"),
    ("X-Amz-Date", "20231114T221320Z"),
];

/// The further fields of a message: none, or one that is repeated.
static EXTRA: [Pair; 3] = [("x-extra", "b"), ("X-Extra", "a"), ("X-EXTRA", "")];

/// The names that are signed where nothing else is tried.
const NAMES: &str = "content-type host x-amz-date x-amz-target";

const BODY: &str = r#"{"SecretId":"db/app"}"#;

/// A message: its method, its path, how many of the further fields it has, and its body; the day of the scope and the
/// names that are signed; and the field that signs it behind its credential, or the part that is refused.
struct Row {
    asks: (&'static str, &'static str, usize, &'static str),
    day: &'static str,
    names: &'static str,
    wanted: &'static str,
}

static ROWS: [Row; 13] = [
    Row {
        asks: ("POST", "/", 0, BODY),
        day: "20231114",
        names: NAMES,
        wanted: "SignedHeaders=content-type;host;x-amz-date;x-amz-target, \
                 Signature=31629df39adb7a4e9051ee78df40ccd93f9720e1950c1b708159da8cd6f52e58",
    },
    Row {
        asks: ("POST", "/", 0, "{\"SecretId\":\"dä/€🔑\"}"),
        day: "20231114",
        names: NAMES,
        wanted: "SignedHeaders=content-type;host;x-amz-date;x-amz-target, \
                 Signature=0ff9a85b7fde7d9c2067261e7eb03eabfe18d55a3cfa5f50b0a8921309e7dea8",
    },
    Row {
        asks: ("POST", "/", 3, BODY),
        day: "20231114",
        names: "content-type host x-amz-date x-amz-target x-extra",
        wanted: "SignedHeaders=content-type;host;x-amz-date;x-amz-target;x-extra, \
                 Signature=1f2f62bf02f1c3cd6b61f03b4357be843f997e357647c10dadd009dd76754d6a",
    },
    Row {
        asks: ("POST", "/", 0, BODY),
        day: "20231114",
        names: "accept-encoding content-type host user-agent x-amz-date x-amz-target",
        wanted: "SignedHeaders=accept-encoding;content-type;host;user-agent;x-amz-date;x-amz-target, \
                 Signature=842616f72755e1717d0f3508425ec2998cc8e83a471dbe846696fcb7d0dcfd41",
    },
    Row {
        asks: ("POST", "/some/path?a=b", 0, BODY),
        day: "20231114",
        names: NAMES,
        wanted: "SignedHeaders=content-type;host;x-amz-date;x-amz-target, \
                 Signature=184dae9b6b2892ccf9f0a6963428c9057d323aab01712ae590d473f8e1961bfc",
    },
    Row {
        asks: ("GET", "/", 0, BODY),
        day: "20231114",
        names: NAMES,
        wanted: "SignedHeaders=content-type;host;x-amz-date;x-amz-target, \
                 Signature=d069c5a4d9430061e06b19b9b9ff57f31fe9caa9a6b344ad572685b9f1e5605f",
    },
    Row {
        asks: ("POST", "/", 0, BODY),
        day: "2023111",
        names: NAMES,
        wanted: "Authorization",
    },
    Row {
        asks: ("POST", "/", 0, BODY),
        day: "",
        names: "",
        wanted: "Authorization",
    },
    Row {
        asks: ("POST", "/", 0, BODY),
        day: "20231114",
        names: "",
        wanted: "SignedHeaders",
    },
    Row {
        asks: ("POST", "/", 0, BODY),
        day: "20231114",
        names: "host content-type x-amz-date x-amz-target",
        wanted: "SignedHeaders",
    },
    Row {
        asks: ("POST", "/", 0, BODY),
        day: "20231114",
        names: "content-type;host x-amz-date x-amz-target",
        wanted: "SignedHeaders",
    },
    Row {
        asks: ("POST", "/", 0, BODY),
        day: "20231114",
        names: "content-type host x-amz-date x-amz-target x-none",
        wanted: "SignedHeaders",
    },
    Row {
        asks: ("POST", "/", 0, BODY),
        day: "20231115",
        names: NAMES,
        wanted: "Date",
    },
];

fn field_of(alloc: Global, pair: &Pair) -> Result<Field, NoMemory> {
    let name = Excerpt::from_slice(alloc, pair.0.as_bytes())?;
    let value = Excerpt::from_slice(alloc, pair.1.as_bytes())?;
    Ok(Field { name, value })
}

/// Adds these fields.
fn add_fields(alloc: Global, fields: &mut List<Field>, pairs: &[Pair]) -> Result<(), NoMemory> {
    for pair in pairs {
        fields.push(field_of(alloc, pair)?)?;
    }
    Ok(())
}

/// The fields of each message, and so many further ones.
fn fields_of(alloc: Global, more: usize) -> Result<List<Field>, NoMemory> {
    let mut fields = List::empty(alloc);
    add_fields(alloc, &mut fields, &FIELDS)?;
    add_fields(alloc, &mut fields, &EXTRA[..more.min(EXTRA.len())])?;
    Ok(fields)
}

fn message_of(alloc: Global, row: &Row) -> Result<Message, NoMemory> {
    let (method, path, more, body) = row.asks;
    let method = Excerpt::from_slice(alloc, method.as_bytes())?;
    let path = Excerpt::from_slice(alloc, path.as_bytes())?;
    let body = Bytes::from_slice(alloc, body.as_bytes())?;
    let fields = fields_of(alloc, more)?;
    Ok(Message {
        method,
        path,
        fields,
        closing: false,
        body,
        at: 0,
    })
}

fn names_of(alloc: Global, names: &'static str) -> Result<List<Text>, NoMemory> {
    let mut list = List::empty(alloc);
    for name in names.split_whitespace() {
        list.push(Text::from_str(alloc, name)?)?;
    }
    Ok(list)
}

fn scope_of(date: &'static str) -> Scope {
    Scope {
        key: Text::fixed("ADA"),
        date: Text::fixed(date),
        region: Text::fixed("us-east-1"),
        service: Text::fixed("secretsmanager"),
    }
}

/// What signs the message of a row.
fn signed(alloc: Global, row: &Row) -> Result<Text, SignRefused> {
    let message = message_of(alloc, row)?;
    let names = names_of(alloc, row.names)?;
    sign(
        alloc,
        b"key1",
        &message,
        &scope_of(row.day),
        names.as_slice(),
    )
}

/// What an answer says, behind its credential.
fn told(answer: &Result<Text, SignRefused>) -> &str {
    match answer {
        Ok(text) => text
            .as_str()
            .strip_prefix(
                "AWS4-HMAC-SHA256 Credential=ADA/20231114/us-east-1/secretsmanager/aws4_request, ",
            )
            .unwrap_or("another credential"),
        Err(SignRefused::Part(Part::Authorization)) => "Authorization",
        Err(SignRefused::Part(Part::SignedHeaders)) => "SignedHeaders",
        Err(SignRefused::Part(Part::Date)) => "Date",
        Err(SignRefused::Part(Part::Signature)) => "Signature",
        Err(SignRefused::Memory) => "memory",
    }
}

#[test]
fn messages_are_signed_as_elsewhere(rt: HostRuntime) -> Result<(), Fail> {
    for (number, row) in ROWS.iter().enumerate() {
        let answer = signed(rt.alloc(), row);
        let came = told(&answer);
        assert!(rt; came == row.wanted, "row {number}: {came}");
    }
    Ok(())
}
