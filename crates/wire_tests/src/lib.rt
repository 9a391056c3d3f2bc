//! Tests of the lines of a session, through their public calls.
#![tactic(auto)]

#[cfg(test)]
mod counted_lines;
#[cfg(test)]
mod fed_lines;
#[cfg(test)]
mod lost_words;
#[cfg(test)]
mod read_lines;
#[cfg(test)]
mod written_lines;
