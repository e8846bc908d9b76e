//! Every row that leaves a terminal, each once, as the text that paints it.
#![tactic(auto)]

mod kept;
pub mod laws;
pub mod lines;
mod rewraps;
mod row_texts;
mod sources;
mod surfaces;
mod wraps;

pub use kept::RecentRows;
pub use lines::LeftLines;
pub use rewraps::{NotRewrapped, Rewrap};
pub use row_texts::push_line;
pub use sources::{Fed, RowSource};
pub use wraps::{Wrap, Wraps};
