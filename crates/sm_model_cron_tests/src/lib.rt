//! What no clause says of the model's types and of schedules, and no run of a program shows: that ample memory never
//! sees `out of memory` at a list of any length and at copies that no program makes, and tables of schedules from
//! outside: what is read of them, and when they come next.
#![tactic(auto)]

#[cfg(test)]
mod copies;
#[cfg(test)]
mod next;
#[cfg(test)]
mod shared_lists;
#[cfg(test)]
mod spellings;
