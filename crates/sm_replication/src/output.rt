//! What a replica writes, as bytes.
ghost use Rattle.std.specs.Prelude.{◌≡◌, ◌≤◌, IfOk, length};
ghost use Rattle.sm_replication.specs.Outputs.{position_bytes, reply_bytes};
ghost use Rattle.sm_replication.specs.declared.input.TheConstants as limits;

use crate::encoding::put_octets;
use sm_base::{Bytes, NoMemory};
use std::alloc::Global;

/// What is written after a frame of entries or of rows: the replica's position.
#[tactic(auto, unfolding(sm_record::specs::Fields::long))]
pub fn encode_position(alloc: Global, position: u64) -> Result<Bytes, NoMemory>
    ensures { IfOk result (λ bytes. bytes ≡ position_bytes position) }
{
    let mut out = Vec::new(alloc);
    out.push(1)?;
    out.extend_from_slice(&position.to_be_bytes())?;
    Ok(Bytes::new(out))
}

/// What is written after a message: the reply, which is not too long.
pub fn encode_reply(alloc: Global, reply: &[u8]) -> Result<Bytes, NoMemory>
    requires { length reply.now ≤ limits.LIST_LIMIT }
    ensures { IfOk result (λ bytes. bytes ≡ reply_bytes reply.now) }
{
    let mut out = Vec::new(alloc);
    out.push(2)?;
    put_octets(&mut out, reply)?;
    Ok(Bytes::new(out))
}
