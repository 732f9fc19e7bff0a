//! What no clause says of signatures and no run of a program shows: published vectors of SHA-256's codes by a key and
//! of signatures, and that `sign`, which no program calls, writes what was written elsewhere. Messages that are signed,
//! or spoiled behind it, are rows of crates/secretsd/rows.
#![tactic(auto)]

#[cfg(test)]
mod codes;
#[cfg(test)]
mod signs;
