//! One session over a connection: lines come in, and each is answered by a client's desk.
#![tactic(auto)]

mod end;
mod hear;
mod laws;
mod line;
mod request;
mod say;
mod serve;
mod turn;

pub use end::{Ends, SessionEnd};
pub use laws::one_end;
pub use serve::serve_link;
