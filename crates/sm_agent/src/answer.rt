//! Answers to questions.
ghost use Rattle.std.specs.Prelude.{◌≡◌, IfOk};

use sm_base::{Bytes, Copied, Moment, NoMemory};
use std::alloc::Global;

/// The status of an answer that is kept.
pub const OK: u16 = 200;

/// The answer to a question.
#[derive(Drop)]
pub struct Answer {
    /// 200, 400, 413, 500 or 503.
    pub status: u16,
    pub body: Bytes,
}

/// An answer of status 200 that is kept.
#[derive(Drop)]
pub struct CachedAnswer {
    pub body: Bytes,
    /// When it came.
    pub at: Moment,
}

impl Copied for CachedAnswer {
    fn copy(&self, alloc: Global) -> Result<CachedAnswer, NoMemory> {
        Ok(CachedAnswer {
            body: self.body.copy(alloc)?,
            at: self.at,
        })
    }
}
