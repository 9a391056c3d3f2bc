//! One client's desk over one who answers requests in one order.
#![tactic(auto)]

mod answers;
mod desk;
mod place;

pub use answers::Answers;
pub use desk::ClientDesk;
pub use place::Place;
