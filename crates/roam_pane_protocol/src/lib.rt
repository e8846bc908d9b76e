//! The panes of a session, their sizes and the focus, reported in lines to a subscriber.
#![tactic(auto)]

mod clip_lines;
mod clip_list;
mod closes;
pub mod laws;
mod lines;
mod metadata_lines;
mod metadata_list;
mod pane_list;
mod query_lines;
mod query_list;

pub use clip_lines::push_clip;
pub use clip_list::{ClipList, ClipPane};
pub use closes::{Close, Closing, acts_for, read_close};
pub use lines::lines_between;
pub use metadata_lines::push_metadata;
pub use metadata_list::{MetadataList, MetadataPane, in_generation};
pub use pane_list::{ListedPane, PaneList};
pub use query_lines::push_queries;
pub use query_list::{QueryList, QueryPane};
