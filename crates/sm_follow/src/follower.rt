//! A replica and the store of its disk.
ghost use Rattle.std.specs.Prelude.{◌≡◌};

use crate::end::End;
use crate::output::Output;
use sm_disk::Disk;
use sm_replica::Replica;
use sm_store::Store;

/// A replica and the store of its disk, which keeps what it had until the replica is promoted.
pub struct Follower<D: Disk> {
    pub replica: Replica,
    pub store: Store<D>,
}

impl<D: Disk> Follower<D> {
    ghost use Rattle.sm_follow.specs.Disks.{disk_in};

    /// The disk again.
    pub fn close(self) -> D
        ensures { result ≡ disk_in self }
    {
        let Follower { replica: _, store } = self;
        store.close()
    }
}

/// What an input came to, before its output is written.
pub enum Turned<D: Disk> {
    /// The replica goes on.
    On(Follower<D>, Output),
    /// The run ends behind the output.
    Ends(End, D, Output),
    /// There was no memory to take a frame, and the run ends without an output.
    Lacks(D),
}
