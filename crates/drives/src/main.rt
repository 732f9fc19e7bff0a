//! Runs lists of calls over accounts on disks in memory, and says what came of each call and what a crash leaves.
//! Standard input has the lists, each word in a line, with an empty line behind each list:
//!
//!     hold COUNT DIGITS                       so many times these bytes stand in the first file, in hexadecimal digits
//!     fail CALL                               the device call of this number, counted from 1, fails
//!     from CALL                               and so does each one from this number on
//!     answer yes|no|failed|value TEXT         the rotator's next answer
//!     ask MOMENT FIRST OPERATION JSON         a request of the account's root, for which bytes from FIRST on are drawn
//!     work MOMENT                             the next step of a rotation, by the rotator
//!     report PLACE MOMENT                     the verdict of this number, counted from 0
//!     due MOMENT FIRST                        the start of a due rotation
//!     restart
//!     show                                    all secrets at the end, and behind each crash
//!     crash FILL                              what a crash at the end leaves is opened
//!
//! The local rotator does what no answer is given for. A crash replaces by its fill the bytes that were not synced:
//! with 0 each file is as its last sync left it, with 1 as it reads. Device calls are those below the disk that
//! gathers.
//!
//! An outcome is written for each call, in a line, and behind them the number of entries and of those before the base;
//! or `refused` where an opening failed, and where it found damage its place. The secrets are shown as a frame of rows,
//! in hexadecimal digits. The same is written behind each line `crash FILL`, and an empty line behind the list.
#![tactic(auto)]

mod listed;
mod reading;
mod rows;
mod running;

use crate::reading::Asked;
use crate::running::say;
use sm_base::NoMemory;
use std::io;
use std::io::ErrorKind;

fn main(rt: HostRuntime) -> io::Result<()> {
    let alloc = rt.alloc();
    let mut asked = Asked::new(alloc);
    for line in rt.lines(alloc) {
        let line = line?;
        if line.is_empty() {
            let said = match say(alloc, asked) {
                Ok(said) => said,
                Err(NoMemory) => return Err(io::Error::from(ErrorKind::OutOfMemory)),
            };
            println!(rt; "{said}")?;
            asked = Asked::new(alloc);
        } else {
            match asked.add(alloc, line.as_str()) {
                Ok(()) => {}
                Err(NoMemory) => return Err(io::Error::from(ErrorKind::OutOfMemory)),
            }
        }
    }
    Ok(())
}
