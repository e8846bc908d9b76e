//! Typed input: the acts of a file, the acts of a stream while an instance runs, and the lines of an outer terminal.
#![tactic(auto)]

mod entries;
mod keys;
pub mod laws;
mod lines;
mod showings;
mod typing;

pub use entries::{Entry, Predicting, read_entry};
pub use keys::acts_of;
pub use lines::{Front, LONGEST_LINE, Lines};
pub use showings::{Showing, read_showing};
pub use typing::{ActLines, Stream, Typist};
