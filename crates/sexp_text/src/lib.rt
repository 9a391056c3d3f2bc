//! The words, the tree and the lengths of a text.
#![tactic(auto)]

mod angle;
mod angle_fault;
mod builder;
mod cursor;
mod fault;
mod length;
mod levels;
mod lexer;
mod modes;
mod nodes;
mod num_fault;
mod number;
mod pile;
mod reader;
mod rounding;
mod token;
mod tree;
mod units;

pub use angle::angle_of;
pub use angle_fault::AngleFault;
pub use cursor::{Cursor, Part, TreeEntry, front};
pub use fault::TextFault;
pub use layout_io::{Name, Row};
pub use length::length_of;
pub use lexer::lex;
pub use nodes::Node;
pub use num_fault::NumFault;
pub use reader::read_tree;
pub use token::{Token, TokenKind};
pub use tree::Tree;
pub use units::Unit;
