//! The bytes that arrive on a connection in any pieces, given in visits of whole messages, so that whoever reads them
//! never waits within one (RFC 9112, section 9.3).
#![tactic(auto)]

pub mod arrivals;
pub mod connection_table;
pub mod laws;
mod least;
mod standing;

pub use arrivals::{Arrivals, CONNECTION_LIMIT, Opened, VISIT_LIMIT};
pub use connection_table::{ConnectionTable, HandedOut};
pub use laws::{
    all_is_told, bytes_are_their_own, each_is_there, limits_are_as_stated, opens_in_one_way,
    the_last_stays, visits_are_whole,
};
