//! The layout of a session: the tree of its panes, their rectangles and borders, the status text, and the face that they make.
#![tactic(auto)]

pub use changes::{Changes, PaneSize};
pub use faces::{face, push_row};
pub use kept::face_over;
pub use layouts::Layout;
pub use pictures::Pictures;
pub use rects::{Rect, Way};

pub mod changes;
pub mod faces;
mod kept;
pub mod laws;
pub mod layouts;
mod limits;
pub mod pictures;
pub mod rects;
mod status;
mod trees;
