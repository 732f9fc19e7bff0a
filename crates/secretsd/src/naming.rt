//! Whether files that are open have a name still.
use crate::opening::name_of;
use std::fs::{File, Metadata};
use std::io::ErrorKind;
use std::os::unix::fs::MetadataExt;
use std::path::Path;
use std::{fs, io};

/// When something was changed last, by the time that no program sets.
#[derive(Clone, Copy, Debug, PartialEq, Eq, PartialOrd, Ord)]
struct Changed {
    seconds: i64,
    nanoseconds: i64,
}

impl Changed {
    /// When a name was put into a folder or taken out of it, or a byte written to a file.
    fn of(metadata: &Metadata) -> Changed {
        Changed {
            seconds: metadata.ctime(),
            nanoseconds: metadata.ctime_nsec(),
        }
    }
}

/// What was seen of a file: that it stands in its folder, behind the folder's last change.
#[derive(Clone, Copy, Debug, PartialEq, Eq)]
pub struct Named {
    /// The file's number.
    number: u8,
    /// When the folder was changed.
    folder: Changed,
}

/// A folder that is open.
#[derive(Drop)]
pub struct Folder<'a> {
    rt: &'a HostRuntime,
    path: &'a str,
    file: File,
}

impl<'a> Folder<'a> {
    /// Opens the folder of this path.
    pub fn open(rt: &'a HostRuntime, path: &'a str) -> io::Result<Folder<'a>> {
        let file = File::open(rt, path)?;
        Ok(Folder { rt, path, file })
    }

    /// The path.
    pub fn path(&self) -> &'a str {
        self.path
    }

    /// Brings the names of its files to the disk.
    pub fn sync(&self) -> io::Result<()> {
        self.file.sync_all()
    }

    /// Looks for a name of the file of this number, of which this was seen before, and says what is seen of it now. One
    /// without a name is an error: it is there as long as it is open, and then no more.
    ///
    /// Some systems give a file a finer time at the first write behind each look at it, and the sync behind that takes
    /// a third longer. So the folder is looked at first: while it has the time that it had, its files have their names.
    pub fn look_for_name(
        &self,
        number: u8,
        file: &File,
        seen: Option<Named>,
    ) -> io::Result<Option<Named>> {
        let named = Named {
            number,
            folder: Changed::of(&self.file.metadata()?),
        };
        if seen == Some(named) {
            return Ok(seen);
        }
        let metadata = file.metadata()?;
        if metadata.nlink() == 0 {
            return Err(io::Error::new(
                ErrorKind::NotFound,
                "the file was removed while it is open",
            ));
        }
        // Where the file was changed later than the folder, the clock of both has gone on, so that the folder's next
        // change has another time than this one.
        if Changed::of(&metadata) > named.folder && self.has(number, &metadata) {
            Ok(Some(named))
        } else {
            Ok(None)
        }
    }

    /// Whether the file of this number stands in the folder by its own name. One that was moved, or that a link leads
    /// to, may be removed elsewhere.
    fn has(&self, number: u8, file: &Metadata) -> bool {
        match self.metadata_of(number) {
            Ok(there) => there.ino() == file.ino() && there.dev() == file.dev(),
            Err(_) => false,
        }
    }

    /// What stands in the folder by the name of the file of this number.
    fn metadata_of(&self, number: u8) -> io::Result<Metadata> {
        let path = Path::new(self.path).join(self.rt.alloc(), name_of(number))?;
        fs::symlink_metadata(self.rt, &path)
    }
}
