//! The lock's calls through their bound, over a value that is a list of numbers and a running total. All of it is for
//! tests, so that it is proved once.
#![tactic(auto)]

#[cfg(test)]
mod calls;
#[cfg(test)]
mod notes;
#[cfg(test)]
mod rounds;
#[cfg(test)]
mod tally;
#[cfg(test)]
mod tests;
#[cfg(test)]
mod threads;
