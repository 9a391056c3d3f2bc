//! What indexes of rectangles share: slots found by number and by id, tables of spots, and a search over spots.
#![tactic(auto)]

mod buckets;
mod search;
mod shelf;

pub use buckets::{Bucket, Buckets, Spot};
pub use search::{Search, rising};
pub use shelf::Shelf;
