//! The limits of the formats, each once.

/// The bytes of a design or a script.
pub const TEXT_LIMIT_BYTES: usize = 67_108_864;

/// How deep the brackets of a design lie in one another, counted from 1.
pub const NESTING_LIMIT_LEVELS: u32 = 64;

/// The layers of a design.
pub const LAYER_LIMIT: usize = 32;

/// The nets of a design.
pub const NET_LIMIT: usize = 100_000;

/// The padstacks of a design.
pub const PADSTACK_LIMIT: usize = 65_535;

/// The items that a design loads.
pub const ITEM_LIMIT: u32 = 200_000;

/// The points that a design loads.
pub const POINT_LIMIT: u32 = 4_000_000;

/// The size of a coordinate.
pub const COORDINATE_LIMIT_NM: u64 = 1_000_000_000;

/// A width, a diameter, an aperture or a clearance.
pub const WIDTH_LIMIT_NM: u32 = 100_000_000;

/// A line of a client, without its line feed.
pub const LINE_LIMIT_BYTES: usize = 8_192;

/// The deletes of an edit.
pub const DELETE_LIMIT: usize = 256;

/// The adds of an edit.
pub const ADD_LIMIT: usize = 64;

/// The points of a wire that is added.
pub const WIRE_POINT_LIMIT: usize = 256;

/// The clients of a board.
pub const CLIENT_LIMIT: u8 = 8;

/// The weight of a history.
pub const WEIGHT_LIMIT: u32 = 16_777_216;
