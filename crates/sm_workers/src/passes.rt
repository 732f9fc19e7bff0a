//! Giving passes to workers, and taking them back.
ghost use Rattle.std.specs.Prelude.{◌≡◌, ◌<◌, ◌≤◌, ℕ, All, Some, None, length, get_or, vec_len, vec_capacity};
ghost use Rattle.sm_lock.specs.declared.pass.Pass.{Pass};
ghost use Rattle.sm_workers.specs.Workers.{HasPass};
ghost use Rattle.sm_workers.specs.Given.{IsGiven, IsTaken};

use crate::worker::WorkerBy;
use sm_lock::{Pass, Storied};
use sm_model::List;

/// Gives each worker the pass of its place. What is left is the room in which the passes come back.
pub(crate) fn give<E, C, W, R, A: Storied>(
    passes: List<Pass<A>>,
    workers: &mut [WorkerBy<E, C, W, R, A>],
) -> Vec<Pass<A>>
    requires { length passes ≡ length workers.old }
    ensures many { length workers.new ≡ length workers.old }
    ensures given { IsGiven passes workers.old workers.new }
    ensures room { (vec_len result ≡ 0) × (length workers.old ≤ vec_capacity result) }
{
    let mut room = passes.into_vec();
    let mut left = workers.len();
    while left > 0 {
        left -= 1;
        let Some(pass) = room.pop() else {
            unreachable!()
        };
        workers[left].put_in(pass);
    }
    room
}

/// Takes the pass of each worker back, in the order of the workers.
pub(crate) fn take_back<E, C, W, R, A: Storied>(
    room: Vec<Pass<A>>,
    workers: &mut [WorkerBy<E, C, W, R, A>],
) -> List<Pass<A>>
    requires room { (vec_len room ≡ 0) × (length workers.old ≤ vec_capacity room) }
    requires has { All HasPass workers.old }
    ensures many { (length result ≡ length workers.old) × (length workers.new ≡ length workers.old) }
    ensures taken { IsTaken result workers.old workers.new }
{
    let mut room = room;
    for place in 0..workers.len() {
        let pass = workers[place].take_out();
        room.push_reserved(pass);
    }
    List::new(room)
}
