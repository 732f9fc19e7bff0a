//! What the program says of how it ends.
use sm_command_line::Mode;
use sm_server::Status;

/// What a program reads on standard input.
#[derive(Clone, Copy, Debug, PartialEq, Eq)]
pub enum Unit {
    Message,
    Frame,
}

impl Unit {
    /// What one of them is called.
    fn name(self) -> &'static str {
        match self {
            Unit::Message => "message",
            Unit::Frame => "frame",
        }
    }

    /// What is said where as many of them were read as are read at most.
    fn enough(self) -> &'static str {
        match self {
            Unit::Message => "1,000 messages were answered",
            Unit::Frame => "100,000 frames were read",
        }
    }
}

/// What a program reads in a mode.
pub fn unit_of(mode: Mode) -> Unit {
    match mode {
        Mode::Follow => Unit::Frame,
        _ => Unit::Message,
    }
}

/// Says on standard error why a program ends, where that was not said yet, and last of all its code, unless all went
/// well.
pub fn say_end(rt: &HostRuntime, status: Status, unit: Unit) {
    say_reason(rt, status, unit);
    let code = status.code();
    if code != 0 {
        let _ = eprintln!(rt; "secretsd: status {code}");
    }
}

/// Says what the code alone does not tell. Words, people, folders and listeners have said it already.
fn say_reason(rt: &HostRuntime, status: Status, unit: Unit) {
    let (name, enough) = (unit.name(), unit.enough());
    let _ = match status {
        Status::Damaged(at, entry) => eprintln!(rt;
            "secretsd: the journal is damaged at byte {at}, in the entry of number {entry}, counted from 0"
        ),
        Status::Memory => eprintln!(rt; "secretsd: out of memory"),
        Status::SinkFault(count) => eprintln!(rt;
            "secretsd: standard output failed behind {count} bytes of the replies"
        ),
        Status::SourceFault => eprintln!(rt; "secretsd: standard input failed"),
        Status::Cut(count) => eprintln!(rt;
            "secretsd: the last {count} bytes of the input are no whole {name}"
        ),
        Status::BadMessage(at) => eprintln!(rt;
            "secretsd: the {name} at byte {at} of the input is wrong"
        ),
        Status::Enough => eprintln!(rt;
            "secretsd: {enough}, and what stands behind them was not read"
        ),
        Status::Done | Status::Words | Status::OpenFault | Status::People(_) | Status::EdgeFault =>
            Ok(()),
    };
}
