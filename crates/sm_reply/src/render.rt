//! What is shown as one JSON value.
ghost use Rattle.std.specs.Prelude.{◌≡◌, ◌++◌, OnOk};
ghost use Rattle.serde_json.specs.Data.{Data};
ghost use Rattle.sm_reply.specs.Tokens.{value_tokens};

use crate::out::Out;
use sm_model::NoMemory;
use std::alloc::Global;

/// A part of a reply that is shown as one JSON value.
pub trait Render {
    /// The value.
    ghost shows: { Self → Data };

    /// Writes the value.
    fn render(&self, alloc: Global, out: &mut Out) -> Result<(), NoMemory>
        ensures { OnOk result (out.new ≡ out.old ++ value_tokens (shows self.now)) };
}
