//! A design and a script that are made from a number.
#![tactic(auto)]

mod design;
mod draws;
mod laws;
mod script;
mod texts;

pub use laws::{a_made_script_is_short, each_made_step_is_formed};
pub use texts::{MADE_NET_LIMIT, make};

#[cfg(test)]
mod tests;
