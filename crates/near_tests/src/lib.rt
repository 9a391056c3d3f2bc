//! Tests of the indexes of rectangles, beside a list that is scanned.
#![tactic(auto)]

#[cfg(test)]
mod answers;
#[cfg(test)]
mod scan;
#[cfg(test)]
mod thrown;
