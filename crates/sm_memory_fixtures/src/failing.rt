//! What a crash leaves.

/// What a crash leaves of what was not synced: nothing, all of it, or other bytes in its place.
pub const FILLS: [u8; 3] = [0, 1, 7];
