//! What stands at the front of bytes, without its parts.
ghost use Rattle.sm_visits.specs.Standing.{Stands};

use sm_base::BadKind;
use sm_http::{Front, field_room, front_of};

/// What stands at the front of bytes.
#[derive(Clone, Copy, Debug, PartialEq, Eq)]
pub enum Standing {
    /// A whole message, which takes so many bytes, and whether the stream ends after it.
    Message(usize, bool),
    /// A fault in a message's place.
    Fault(BadKind),
    /// No whole message yet, and no fault.
    Partial,
}

/// What the bytes begin with.
pub fn find_front(bytes: &[u8]) -> Standing
    ensures { Stands bytes.now result }
{
    let mut room = field_room();
    match front_of(bytes, &mut room) {
        Front::Whole(message, used) => Standing::Message(used, message.closing),
        Front::Bad(kind) => Standing::Fault(kind),
        Front::Partial => Standing::Partial,
    }
}
