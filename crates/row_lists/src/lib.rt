//! Lists and texts that contracts see as what they hold.
#![tactic(auto)]

mod copied;
mod limits;
mod row;
mod shelf;
mod text;

pub use copied::Copied;
pub use limits::{
    ADD_LIMIT, CLIENT_LIMIT, COORDINATE_LIMIT_NM, DELETE_LIMIT, ITEM_LIMIT, LAYER_LIMIT,
    LINE_LIMIT_BYTES, NESTING_LIMIT_LEVELS, NET_LIMIT, PADSTACK_LIMIT, POINT_LIMIT,
    TEXT_LIMIT_BYTES, WEIGHT_LIMIT, WIDTH_LIMIT_NM, WIRE_POINT_LIMIT,
};
pub use row::Row;
pub use shelf::Shelf;
pub use text::Text;

#[cfg(test)]
mod tests;
