//! One screen of cells, with a cursor, margins and tab stops, over rows that go round in one buffer.
#![tactic(auto)]

mod cursor;
mod editing;
mod erasing;
mod frames;
mod grids;
pub mod laws;
mod marks;
mod running;
mod scrolling;
mod tabbing;
mod tabs;
mod writing;

pub use frames::Fitted;
pub use grids::Grid;
pub use writing::Writing;
