//! Paints screens on a terminal, and moves rows that are there: the text that leads a ground terminal from one screen to another. It is
//! never longer than that of a painter which writes every place that differs.
#![tactic(auto)]

mod bands;
mod choice;
mod counting;
mod differences;
mod doubts;
mod drawing;
pub mod laws;
mod marks;
mod painting;
mod plain;
mod renditions;
mod rows;
mod sequences;

pub use painting::paint_moved;
