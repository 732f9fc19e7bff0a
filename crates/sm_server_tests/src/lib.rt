//! What no clause and no run of the program shows: runs of the server over a disk each call of which fails in turn, a
//! random source that fails, a caching reader whose clock goes on for minutes and back, and a note from one seat to
//! another. And workers over connections in memory, in threads, at one account.
#![tactic(auto)]

#[cfg(test)]
mod failing;
#[cfg(test)]
mod gates;
#[cfg(test)]
mod meeting;
#[cfg(test)]
mod notes;
#[cfg(test)]
mod outside;
#[cfg(test)]
mod readers;
#[cfg(test)]
mod rotations;
#[cfg(test)]
mod runs;
#[cfg(test)]
mod script;
#[cfg(test)]
mod support;
