//! Bytes that lie in one block with others.
ghost use Rattle.std.specs.Prelude.{◌≡◌, ◌↔◌, IfOk, IsTrue, length};
ghost use Rattle.std.specs.Rc.{rc_slice_items};
ghost use Rattle.httparse.specs.Spans.{IsWithin, span_bytes};

use httparse::spans::Span;
use sm_base::NoMemory;
use std::alloc::Global;
use std::marker::Model;
use std::rc::RcSlice;

/// Bytes, which contracts see as their list. They lie in a block that others have too, so that the parts of a head take
/// one block in all.
#[derive(Drop)]
pub struct Excerpt {
    block: RcSlice<u8>,
    span: Span,
}

impl Model for Excerpt {
    ghost use Rattle.std.specs.Prelude.{ℕ, List, length};
    ghost use Rattle.std.specs.Rc.{rc_slice_items};
    ghost use Rattle.httparse.specs.Spans.{IsWithin, span_bytes};

    ghost Value = { List ℕ };

    ghost view = { λ e. span_bytes (rc_slice_items e.block) e.span };

    ghost invariant = { λ e. IsWithin (length (rc_slice_items e.block)) e.span };
}

impl Excerpt {
    /// A copy of a slice, in a block of its own.
    pub fn from_slice(alloc: Global, bytes: &[u8]) -> Result<Excerpt, NoMemory>
        ensures { IfOk result (λ e. e ≡ bytes.now) }
    {
        let block = RcSlice::from_slice(alloc, bytes)?;
        let span = Span {
            start: 0,
            end: bytes.len(),
        };
        Ok(Excerpt { block, span })
    }

    /// The bytes of a block that a span covers. They are not copied.
    pub(crate) fn of(block: &RcSlice<u8>, span: Span) -> Result<Excerpt, NoMemory>
        requires { IsWithin (length (rc_slice_items block.now)) span }
        ensures { IfOk result (λ e. e ≡ span_bytes (rc_slice_items block.now) span) }
    {
        let block = block.clone()?;
        Ok(Excerpt { block, span })
    }

    pub fn as_slice(&self) -> &[u8]
        ensures { result.now ≡ self.now }
    {
        self.span.of(self.block.as_slice())
    }
}
