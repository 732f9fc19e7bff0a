//! How a top call ended.
ghost use Rattle.std.specs.Prelude.{◌≡◌};
ghost use Rattle.sm_server.specs.Status.{code_of, status_of};

use sm_session::Ended;

/// How a top call ended.
#[derive(Clone, Copy, Debug, PartialEq, Eq)]
pub enum Status {
    Done,
    /// The words are refused, or ask for what another top call does.
    Words,
    /// The journal is damaged: at this byte, in the entry of this number, counted from 0.
    Damaged(u64, u64),
    /// The disk failed when it was opened, or when a replica was promoted.
    OpenFault,
    /// There was no memory to read the words or the people, to open the disk, to read a message or a frame, to make
    /// what is written of an account, or to promote a replica.
    Memory,
    /// The line of this number of the people text is wrong, counted from 1.
    People(u64),
    /// The sink failed after so many bytes of the replies.
    SinkFault(u64),
    SourceFault,
    /// The edge failed, from which connections come.
    EdgeFault,
    /// The source ended with so many bytes that are no whole message, or no whole frame.
    Cut(u64),
    /// A message or a frame is wrong, whose first byte has this number, counted from 0.
    BadMessage(u64),
    /// As many messages were answered, or frames read, as are at most, and nothing behind them was looked at.
    Enough,
}

impl Status {
    /// The exit code of a program that ends so: 0, or 2 to 12.
    pub fn code(self) -> u8
        ensures { result ≡ code_of self }
    {
        match self {
            Status::Done => 0,
            Status::Words => 2,
            Status::Damaged(_, _) => 3,
            Status::OpenFault => 4,
            Status::Memory => 5,
            Status::People(_) => 6,
            Status::SinkFault(_) => 7,
            Status::SourceFault => 8,
            Status::EdgeFault => 9,
            Status::Cut(_) => 10,
            Status::BadMessage(_) => 11,
            Status::Enough => 12,
        }
    }
}

/// How a run ended whose stream ended so.
pub(crate) fn status_of(ended: Ended) -> Status
    ensures { result ≡ status_of ended }
{
    match ended {
        Ended::Closed => Status::Done,
        Ended::Cut(count) => Status::Cut(count),
        Ended::Bad(_, at) => Status::BadMessage(at),
        Ended::Enough => Status::Enough,
        Ended::ReadFault => Status::SourceFault,
        Ended::WriteFault(count) => Status::SinkFault(count),
        Ended::Memory => Status::Memory,
    }
}
