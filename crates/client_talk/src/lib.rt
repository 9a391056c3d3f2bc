//! A client's talk with a server: lines go out, and what comes is copied and followed.
#![tactic(auto)]

mod hear;
mod input;
mod lines;
mod meeting;
mod print;
mod stop;
mod take_in;
mod talk;
mod whole;

pub use meeting::meet;
pub use stop::Stop;
pub use whole::converse;
