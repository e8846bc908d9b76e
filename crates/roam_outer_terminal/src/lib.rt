//! An outer terminal of a client instance: a program at the other end of a stream. It types lines of acts, and gets the painted screen of
//! the instance, with predictions over it and notices of silence.
#![tactic(auto)]

mod display_state;
mod duplex;
mod hearing;
pub mod laws;
mod laying;
mod silence;
mod terminal;
mod writing;

pub use duplex::{Duplex, Opaque};
pub use hearing::Taking;
pub use silence::{End, Silence, notice};
pub use terminal::Terminal;
