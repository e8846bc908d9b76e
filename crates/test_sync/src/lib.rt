//! Tests of synchronization, of server and client instances and of turns, by public calls alone.
//!
//! The two ends of numbered states, and the datagrams and instructions on the network. The program's cores, for cases that no script of
//! `roam world` has. The turns, over ports in memory; and predictions over screens. The diffs in instructions are tested with the painter,
//! in `test_paint`.
//!
//! They have a crate of their own, since the gate proves a crate with tests twice.
#![tactic(auto)]

#[cfg(test)]
mod counters;
#[cfg(test)]
mod datagrams;
#[cfg(test)]
mod ends;
#[cfg(test)]
mod fragments;
#[cfg(test)]
mod hub_calls;
#[cfg(test)]
mod hub_refused;
#[cfg(test)]
mod hub_stage;
#[cfg(test)]
mod hub_stories;
#[cfg(test)]
mod hub_sweeps;
#[cfg(test)]
mod hub_uses;
#[cfg(test)]
mod instructions;
#[cfg(test)]
mod numbered;
#[cfg(test)]
mod parts;
#[cfg(test)]
mod prediction_uses;
#[cfg(test)]
mod predictions;
#[cfg(test)]
mod texts;
#[cfg(test)]
mod turns_failing;
#[cfg(test)]
mod turns_plays;
#[cfg(test)]
mod turns_refusing;
#[cfg(test)]
mod turns_rows;
#[cfg(test)]
mod turns_stage;
#[cfg(test)]
mod turns_uses;
