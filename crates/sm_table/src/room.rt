//! For how many more rows there is room in a table that made so many.
ghost use Rattle.std.specs.Prelude.{◌≡◌, ◌<◌, ◌≤◌, ◌-◌};
ghost use Rattle.sm_table.specs.Indexed.{room_left};

use crate::indexed::left_behind;

/// Room comes for so many rows at once from the time on at which so many were made.
const AT_ONCE: u64 = 1024;

/// For how many more rows there is room, where the next serial is this.
#[tactic(auto, using(crate::proofs::RoomLemmas::left_late))]
pub fn room_left(serial: u64) -> u64
    ensures left { result ≡ room_left serial }
    ensures few { result < 1024 }
{
    if serial >= AT_ONCE {
        AT_ONCE - 1 - serial % AT_ONCE
    } else {
        early_room(serial)
    }
}

/// The same where so many rows were not made yet.
fn early_room(serial: u64) -> u64
    requires { serial < 1024 }
    ensures left { result ≡ room_left serial }
    ensures few { result < 1024 }
{
    let mut left = 0;
    for made in 0..serial {
        left = left_behind(left, made);
    }
    left
}
