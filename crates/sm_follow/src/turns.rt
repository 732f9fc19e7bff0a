//! One input of a replica.
ghost use Rattle.std.specs.Prelude.{◌≡◌, List, ℕ, []};
ghost use Rattle.std.specs.Io.KnownBytes.{append_known};
ghost use Rattle.sm_replication.specs.Spelled.{HasParts};
ghost use Rattle.sm_replication.specs.Frames.{IsFrame};
ghost use Rattle.sm_replication.specs.declared.input.Input.TheVariants as inputs;
ghost use Rattle.sm_follow.specs.declared.follower.Turned.TheVariants as turned;
ghost use Rattle.sm_follow.specs.declared.output.Output.TheVariants as outputs;
ghost use Rattle.sm_follow.specs.Disks.{ComesTo, IfOn, IsLater, IsSure, Stands, disk_in};
ghost use Rattle.sm_principal.specs.declared.people.People.{People as Persons};
ghost use Rattle.sm_follow.specs.InputTurns.{State};

use crate::answering::answer_message;
use crate::follower::{Follower, Turned};
use crate::output::Output;
use sm_disk::Disk;
use sm_io::Clock;
use sm_json::Scratch;
use sm_principal::People;
use sm_replica::{Taken, note_timely};
use sm_replication::{Frame, Input};
use std::alloc::Global;

/// Does what an input asks for: takes a frame, or answers a message.
pub fn turn<D: Disk, C: Clock>(
    scratch: &mut Scratch,
    alloc: Global,
    people: &People,
    follower: Follower<D>,
    input: &Input,
    clock: &mut C,
) -> Turned<D>
    requires frame { IsFrame input.now }
    requires sure { IsSure follower }
    ensures comes { (readings : List ℕ) × (C.readings clock.new ≡ append_known (C.readings clock.old) readings)
        × ((state : State) → Stands state follower
        → ComesTo people.now state input.now readings (D.faults (disk_in follower)) result) }
    ensures sure { IfOn result IsSure }
    ensures later { IsLater (D.faults (disk_in follower)) result }
{
    match input {
        Input::Frame(frame) => take_frame(follower, frame),
        Input::Message(bytes) => {
            answer_message(scratch, alloc, people, follower, bytes.as_slice(), clock)
        }
    }
}

/// Takes a frame. Its output is the replica's position, whatever it made of it.
fn take_frame<D: Disk>(follower: Follower<D>, frame: &Frame) -> Turned<D>
    requires parts { HasParts frame.now }
    requires sure { IsSure follower }
    ensures comes { (people : Persons) → (state : State) → Stands state follower
        → ComesTo people state (inputs.Frame frame.now) [] (D.faults (disk_in follower)) result }
    ensures sure { IfOn result IsSure }
    ensures later { IsLater (D.faults (disk_in follower)) result }
{
    note_timely(frame);
    let mut follower = follower;
    match follower.replica.take(frame) {
        Taken::Memory => Turned::Lacks(follower.close()),
        Taken::At(_) => say_position(follower),
        Taken::Ahead(_) => say_position(follower),
        Taken::Broken(_) => say_position(follower),
        Taken::Promoted => say_position(follower),
    }
}

/// The replica goes on, and its position is said.
fn say_position<D: Disk>(follower: Follower<D>) -> Turned<D>
    ensures { result ≡ turned.On follower (outputs.Position follower.replica.base.entries) }
{
    let at = follower.replica.position();
    Turned::On(follower, Output::Position(at))
}
