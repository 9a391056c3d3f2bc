//! The lines of a session: how steps, messages and entries are read, and how messages, entries and replies are written.
#![tactic(auto)]

mod adds;
mod clients;
mod deletes;
mod edits;
mod entry_lines;
mod faults;
mod feeder;
mod fences;
mod held_items;
mod message_lines;
mod messages;
mod numbers;
mod points;
mod put_parts;
mod put_replies;
mod put_requests;
mod requests;
mod rules;
mod script_lines;
mod small_numbers;
mod steps;
mod words;
mod writing;

pub use entry_lines::{decode_entry, entry_is_one_line, one_entry};
pub use faults::LineFault;
pub use feeder::{Feeder, Next};
pub use message_lines::{decode_line, message_is_one_line, one_message, write_message};
pub use messages::Message;
pub use script_lines::{
    a_step_is_not_bad, a_step_is_short, decode_script_line, each_line_has_a_step_or_is_bad,
    one_bad_byte, one_step, step_is_one_line,
};
pub use steps::{ScriptStep, ScriptSteps};
pub use writing::{write_entry, write_reply};
