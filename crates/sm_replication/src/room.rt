//! The room that a list's items have.
ghost use Rattle.std.specs.Prelude.{◌≡◌, ◌+◌, ◌<◌, MatchOption};

/// What is left of a room behind an item and its length, where both have room.
pub fn room_behind(room: usize, length: usize) -> Option<usize>
    ensures { MatchOption result (room < 4 + length) (λ left. left + 4 + length ≡ room) }
{
    if room < 4 || room - 4 < length {
        return None;
    }
    Some(room - 4 - length)
}
