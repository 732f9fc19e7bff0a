//! The outside of a program as traits with exact contracts: sources and sinks of bytes, random words and
//! clocks, with forms of each in memory, adapters over the system's, and the loops above them.
//!
//! What an object of the outside holds is told optionally: a ghost member gives `Some` content, or `None`
//! where the object can't say, and each clause is an equation that holds either way. What fails counts its
//! faults, and answers `Failed` only where its count rose in that call.
#![tactic(auto)]

pub mod calls;
pub mod clock;
pub mod conn;
mod count;
pub mod count_words;
pub mod edge;
pub mod fixed_clock;
mod handed;
pub mod list_clock;
pub mod list_words;
pub mod listener_edge;
pub mod memory_conn;
pub mod memory_edge;
pub mod memory_sink;
pub mod memory_source;
pub mod quiet_sink;
pub mod random;
pub mod sink;
pub mod source;
pub mod stream_conn;
pub mod stream_sink;
pub mod stream_source;
pub mod system_clock;
pub mod system_random;
pub mod transfer;

pub use calls::Calls;
pub use clock::Clock;
pub use conn::Conn;
pub use count_words::CountWords;
pub use edge::{Accepted, Edge};
pub use fixed_clock::FixedClock;
pub use list_clock::ListClock;
pub use list_words::ListWords;
pub use listener_edge::ListenerEdge;
pub use memory_conn::MemoryConn;
pub use memory_edge::MemoryEdge;
pub use memory_sink::MemorySink;
pub use memory_source::MemorySource;
pub use quiet_sink::QuietSink;
pub use random::{Drew, Words};
pub use sink::{Gave, Sink};
pub use source::{Source, Took};
pub use stream_conn::StreamConn;
pub use stream_sink::StreamSink;
pub use stream_source::StreamSource;
pub use system_clock::SystemClock;
pub use system_random::SystemRandom;
pub use transfer::{ReadBytes, ReadEnd, Wrote, put_all, read_to};
