//! Tests of the program by the public calls of the crates below it: the request of its words, the end of a run, and the output of `roam
//! show`, `roam rows` and `roam world`.
//!
//! They have a crate of their own, since the gate proves a crate with tests twice. They share one, since each such crate takes a minute
//! before its first test.
#![tactic(auto)]

#[cfg(test)]
mod ends;
#[cfg(test)]
mod rows;
#[cfg(test)]
mod shows;
#[cfg(test)]
mod streams;
#[cfg(test)]
mod words;
#[cfg(test)]
mod worlds;
