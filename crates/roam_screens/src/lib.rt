//! A screen as a value, in one list of cells or in rows that several screens share.
#![tactic(auto)]

pub use lines::Line;
pub use old_shots::RowShot1;
pub use row_shots::RowShot;
pub use seen::{Seen, row_text};
pub use shots::Shot;
pub use shown::Shown;

pub mod laws;
pub mod lines;
pub mod narrowing;
pub mod old_shots;
pub mod row_shots;
pub mod seen;
pub mod shots;
pub mod shown;
