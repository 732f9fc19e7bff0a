//! Bodies written by hand: entries of each act and bases, which are read, and bodies that are none.
#![tactic(auto)]

#[cfg(test)]
mod bases;
#[cfg(test)]
mod entries;
#[cfg(test)]
mod refused;
