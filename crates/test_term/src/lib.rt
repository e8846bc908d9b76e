//! Tests of a pane's terminal and of the session around it, by public calls alone.
//!
//! The terminal: keys, pieces and the queue of answers, the history, views and sizes. The profile's control functions at edges, at margins
//! and with a pending wrap. The layout: keys and acts, layouts and faces. The session, and a world of server and client instances around
//! it. Calls that take no memory.
//!
//! They have a crate of their own, since the gate proves a crate with tests twice.
#![tactic(auto)]

#[cfg(test)]
mod acts;
#[cfg(test)]
mod counted;
#[cfg(test)]
mod faces;
#[cfg(test)]
mod keys;
#[cfg(test)]
mod layout_uses;
#[cfg(test)]
mod layout_words;
#[cfg(test)]
mod layouts;
#[cfg(test)]
mod leavings;
#[cfg(test)]
mod pieces;
#[cfg(test)]
mod replies;
#[cfg(test)]
mod requests;
#[cfg(test)]
mod scrollback;
#[cfg(test)]
mod session_marks;
#[cfg(test)]
mod session_memory;
#[cfg(test)]
mod session_words;
#[cfg(test)]
mod sessions;
#[cfg(test)]
mod sizes;
#[cfg(test)]
mod term_edges;
#[cfg(test)]
mod term_rows;
#[cfg(test)]
mod term_trials;
#[cfg(test)]
mod term_uses;
#[cfg(test)]
mod wraps;
