//! The lock.
ghost use Rattle.std.specs.Prelude.{◌≡◌, ◌≤◌};
ghost use Rattle.sm_base.specs.declared.limits.TheConstants.{SEATS_LIMIT};

use crate::board::Board;
use crate::storied::Storied;

/// A lock over one value, for a number of seats.
#[derive(Drop)]
pub struct Gate<T: Storied> {
    pub(crate) board: Board<T>,
    pub(crate) seats: u32,
    pub ghost sized: { (board.shared.table_id.words ≡ 131) × (board.shared.table_id.slots ≡ 1) },
    pub ghost counted: { (board.shared.key.seats ≡ seats) × (1 ≤ seats) × (seats ≤ SEATS_LIMIT) },
}

/// Why a lock was not built. The value comes back.
#[derive(Drop)]
pub enum BuildRefused<T> {
    Memory(T),
}
