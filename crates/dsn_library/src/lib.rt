//! The library section of a design.
#![tactic(auto)]

mod image_lists;
mod images;
mod library;
mod stacks;

pub use image_lists::angle_at;
pub use images::{Image, ImagePart, Images};
pub use library::{Library, read_library};
