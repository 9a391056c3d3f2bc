//! Tests of the readers of designs, through their public calls.
#![tactic(auto)]

#[cfg(test)]
mod designs;
#[cfg(test)]
mod lists;
#[cfg(test)]
mod numbers;
#[cfg(test)]
mod sections;
#[cfg(test)]
mod shapes;
#[cfg(test)]
mod structure;
#[cfg(test)]
mod trees;
