//! Laws of the messages of a stream.
ghost use Rattle.std.specs.Prelude.{◌≡◌, List, [], length};
ghost use Rattle.sm_http.specs.Messages.{Message, End, Messages};
ghost use Rattle.sm_http.specs.Chains.{Gave, unread, GoesOn, StaysRead, HasOneReading};

use crate::message::{Front, field_room, front_of};

/// Bytes are read in one way: the messages are one list, and the end is one, also where it is a fault or a rest.
pub fn one_reading()
    ensures { HasOneReading }
{}

/// What a reader gives one after the other are the messages of all bytes that it read, however the source cuts them;
/// and where a fault or a closing message ends them, they are the messages of the whole stream.
pub fn messages_go_on()
    ensures begins { Gave [] [] unread }
    ensures goes_on { GoesOn }
    ensures stays { StaysRead }
{}

/// How many whole messages the bytes begin with, up to one that closes the stream. All bytes have a reading.
pub fn whole_messages(bytes: &[u8]) -> usize
    ensures { (messages : List Message) × (end : End) × Messages bytes.now 0 messages end
        × (result ≡ length messages) }
{
    let mut room = field_room();
    let mut rest = bytes;
    let mut count = 0;
    loop {
        match front_of(rest, &mut room) {
            Front::Whole(message, used) => {
                count += 1;
                if message.closing {
                    return count;
                }
                rest = rest.split_at(used).1;
            }
            Front::Bad(_) => return count,
            Front::Partial => return count,
        }
    }
}
