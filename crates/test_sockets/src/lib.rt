//! Tests of the ports over real sockets, of `roam serve` and of `roam attach`, on one machine.
//!
//! They have a crate of their own, since the gate proves a crate with tests twice.
#![tactic(auto)]

#[cfg(test)]
mod acts;
#[cfg(test)]
mod chances;
#[cfg(test)]
mod doors;
#[cfg(test)]
mod echoing;
#[cfg(test)]
mod ends;
#[cfg(test)]
mod files;
#[cfg(test)]
mod meeting;
#[cfg(test)]
mod peers;
#[cfg(test)]
mod programs;
#[cfg(test)]
mod silence;
#[cfg(test)]
mod terminals;
#[cfg(test)]
mod waits;
