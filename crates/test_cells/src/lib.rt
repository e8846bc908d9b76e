//! Tests of the crates below the terminal, by public calls alone.
//!
//! The reader, metadata, normalized bytes, the graphic sets, cells and screens. Rows of cells and a history. The grid.
//!
//! They have a crate of their own, since the gate proves a crate with tests twice.
#![tactic(auto)]

#[cfg(test)]
mod cells;
#[cfg(test)]
mod grid_cases;
#[cfg(test)]
mod grid_edges;
#[cfg(test)]
mod grid_marks;
#[cfg(test)]
mod grid_operations;
#[cfg(test)]
mod grid_trials;
#[cfg(test)]
mod grids;
#[cfg(test)]
mod histories;
#[cfg(test)]
mod metadata;
#[cfg(test)]
mod normalized;
#[cfg(test)]
mod readers;
#[cfg(test)]
mod rows;
#[cfg(test)]
mod sets;
#[cfg(test)]
mod strings;
#[cfg(test)]
mod words;
