//! Paints screens on a terminal: the text that leads a ground terminal from one screen to another.
#![tactic(auto)]

mod differences;
pub mod laws;
mod painting;
mod sequences;

pub use differences::{cell_of, is_other};
pub use painting::{is_same_style, open, paint};
pub use sequences::{
    push_code, push_erase_all, push_hide_cursor, push_number, push_place_cursor, push_points,
    push_restyle, push_show_cursor,
};
