//! Messages and replies as bytes.
use sm_base::NoMemory;
use std::alloc::Global;

/// Adds a message that asks for an operation.
pub fn add_message(
    alloc: Global,
    input: &mut Vec<u8>,
    operation: &str,
    body: &[u8],
) -> Result<(), NoMemory> {
    let size = body.len();
    let head = format!(in alloc;
        "POST / HTTP/1.1\r\nX-Amz-Target: secretsmanager.{operation}\r\nContent-Length: {size}\r\n\r\n"
    )?;
    input.extend_from_slice(head.as_bytes())?;
    input.extend_from_slice(body)?;
    Ok(())
}

/// Adds a reply.
pub fn add_reply(
    alloc: Global,
    output: &mut Vec<u8>,
    status: &str,
    body: &str,
) -> Result<(), NoMemory> {
    let size = body.len();
    let reply = format!(in alloc;
        "HTTP/1.1 {status}\r\nContent-Type: application/x-amz-json-1.1\r\nContent-Length: {size}\r\n\r\n{body}"
    )?;
    output.extend_from_slice(reply.as_bytes())?;
    Ok(())
}
