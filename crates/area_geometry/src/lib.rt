//! Shapes of copper, chains and areas with widths: whether two are apart, their boxes, and whether a point lies in an area.
#![tactic(auto)]

mod apart;
mod boxes;
mod limits;
mod pieces;
mod rings;
mod shapes;

pub use apart::{apart_both_ways, lies_within, shape_keeps, touches};
pub use boxes::{box_of, near_boxes_reach_each_other, shapes_are_near_or_apart};
pub use limits::is_within_limits;
pub use rings::inside;
pub use shapes::{Core, Shape, ShapeView, Shapes, copy_shapes, points_of};

#[cfg(test)]
mod tests;
