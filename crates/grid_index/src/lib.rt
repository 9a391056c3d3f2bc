//! A grid over rectangles: which of them meet an asked one, found by the cells of a plane.
#![tactic(auto)]

mod cell_search;
mod cells;
mod grid;

pub use grid::Grid;
