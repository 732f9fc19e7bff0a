//! Why a store over a base is not opened.
ghost use Rattle.sm_store.specs.Openings.{IsUnopened, IsOpenRefused};

use crate::loading::Loaded;
use sm_disk::Disk;
use sm_journal::{Damage, Format, OpenRefused};

/// What a file of this format holds before a body that is no entry's spelling, and where that body is.
#[derive(Drop)]
pub struct Front {
    pub format: Format,
    pub loaded: Loaded,
    pub damage: Damage,
}

/// Why a store is not opened. Each hands the disk back.
#[derive(Drop)]
pub enum Unopened<D> {
    /// A body is no entry's spelling. What is before it may have a fault of its own, which is earlier in the file.
    NoEntry(D, Front),
    /// The file is outside the grammar, its first bodies are of rows and no base's spelling, the disk failed, or it is
    /// out of memory.
    Refused(OpenRefused<D>),
}

impl<D: Disk> Unopened<D> {
    /// The same where nothing is asked of what is before the body that is no entry's spelling.
    pub fn told(self) -> OpenRefused<D>
        ensures { (old : D) → IsUnopened D.Disk old self → IsOpenRefused D.Disk old result }
    {
        match self {
            Unopened::NoEntry(disk, front) => OpenRefused::Damaged(disk, front.damage),
            Unopened::Refused(refused) => refused,
        }
    }
}
