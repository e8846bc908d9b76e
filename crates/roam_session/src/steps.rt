//! The effect of an act on the terminals: everything that takes memory first, then the change.
use roam_term::{Fitted, Term};

/// The change of the terminal at a number, with all the memory that it takes.
#[derive(Drop)]
pub enum Step {
    /// It stays, or none is there.
    Keep,
    /// It ends.
    End,
    /// Another begins.
    Begin(Term),
    /// It gets another size.
    Fit(Fitted),
}

mod preparing;

pub use preparing::{perform, prepare};
