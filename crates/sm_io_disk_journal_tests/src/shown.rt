//! What came of a row, as bytes, beside what is wanted of it.
ghost use Rattle.std.specs.Prelude.{◌<◌};

use sm_disk::Disk;
use std::alloc::Global;
use std::process::Abort;

/// What came so far. Whether there was memory for all of it is asked once, in the end.
#[derive(Drop)]
pub struct Shown {
    bytes: Vec<u8>,
    is_whole: bool,
}

impl Shown {
    /// Nothing came.
    pub fn new(alloc: Global) -> Shown {
        Shown {
            bytes: Vec::new(alloc),
            is_whole: true,
        }
    }

    /// Adds bytes.
    pub fn add(&mut self, bytes: &[u8]) {
        if self.bytes.extend_from_slice(bytes).is_err() {
            self.is_whole = false;
        }
    }

    /// Adds a byte.
    pub fn push(&mut self, byte: u8) {
        self.add(&[byte]);
    }

    /// Adds a `.` where all is well, and else a `!`.
    pub fn push_well(&mut self, is_well: bool) {
        self.push(if is_well { b'.' } else { b'!' });
    }

    /// Compares all that came of a row.
    pub fn compare(&self, rt: &impl Abort, name: &str, wanted: &[u8]) {
        let came = self.bytes.as_slice();
        assert!(rt;
            self.is_whole && came == wanted,
            "{name}: {came:?}, not {wanted:?}"
        );
    }
}

/// What a file holds, if it can be read.
fn content<D: Disk>(alloc: Global, disk: &mut D, file: u8) -> Option<Vec<u8>>
    requires { file < 3 }
{
    let length = disk.length(file).ok()?;
    let mut bytes = vec![in alloc; 0u8; length as usize].ok()?;
    disk.read(file, 0, bytes.as_mut_slice()).ok()?;
    Some(bytes)
}

/// Shows what a file holds, or an `!`.
pub fn show_content<D: Disk>(alloc: Global, disk: &mut D, file: u8, shown: &mut Shown)
    requires { file < 3 }
{
    match content(alloc, disk, file) {
        Some(bytes) => shown.add(bytes.as_slice()),
        None => shown.push(b'!'),
    }
}
