//! How a request is judged.
ghost use Rattle.std.specs.Prelude.{◌≡◌, IfOk, None, Some};
ghost use Rattle.sm_judge_common.specs.declared.judged.Judged.TheVariants.{Accept};

use sm_model::{Change, NoMemory, Reply, Why};
use sm_table::Block;
use std::alloc::Global;

/// How a request is judged.
#[derive(Drop)]
pub enum Judged {
    /// Accepted, with the reply and, where an entry is due, the change.
    Accept(Block<Reply>, Option<Block<Change>>),
    Refuse(Why),
    /// Memory was wanted and there was none. No request is judged so, but each call may answer it.
    Memory,
}

impl Judged {
    /// A request is accepted with this reply, and nothing is changed.
    pub fn reads(alloc: Global, reply: Reply) -> Result<Judged, NoMemory>
        ensures { IfOk result (λ judged. judged ≡ Accept reply None) }
    {
        Ok(Judged::Accept(Block::new(alloc, reply)?, None))
    }

    /// A request is accepted with this reply and this change.
    pub fn changes(alloc: Global, reply: Reply, change: Change) -> Result<Judged, NoMemory>
        ensures { IfOk result (λ judged. judged ≡ Accept reply (Some change)) }
    {
        let reply = Block::new(alloc, reply)?;
        let change = Block::new(alloc, change)?;
        Ok(Judged::Accept(reply, Some(change)))
    }
}
