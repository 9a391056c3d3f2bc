//! Points, segments and rectangles with whole coordinates, whether two segments keep a distance, and lists of rectangles.
#![tactic(auto)]

mod near;
mod points;
mod rectangles;
mod segments;
mod steps;
mod turns;
mod vectors;

pub use near::{Filed, Near};
pub use points::{Ids, Points, Pt, Seg, in_range};
pub use rectangles::{Rect, grown, rect_meets, rect_of, stretched};
pub use segments::seg_keeps;
pub use steps::Steps;
pub use turns::cross_sign;

#[cfg(test)]
mod tests;
