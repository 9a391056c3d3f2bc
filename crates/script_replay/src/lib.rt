//! A script: how it is read, and what one serial master answers to its steps.
#![tactic(auto)]

mod laws;
mod master;
mod replay;
mod script;
mod texts;

pub use laws::{a_script_is_not_bad, a_text_is_a_script_or_bad, one_bad_line, one_run, one_script};
pub use replay::replay_steps;
pub use script::{ScriptFault, read_script};
pub use texts::Texts;
