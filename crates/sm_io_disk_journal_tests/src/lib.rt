//! What no clause says of sources, sinks, random sources, clocks, disks and journals: each through its bound on its
//! happy path, the system's own, and one that fails; the worked bytes of a journal; and how many calls a disk that
//! gathers saves. A crate of its own, so that those below are proved without it.
//!
//! Each test walks a table. A row has a name, and bytes that say what is wanted; one helper gives what came.
#![tactic(auto)]

#[cfg(test)]
mod disks;
#[cfg(test)]
mod edges;
#[cfg(test)]
mod fakes;
#[cfg(test)]
mod folders;
#[cfg(test)]
mod forms;
#[cfg(test)]
mod journals;
#[cfg(test)]
mod shown;
