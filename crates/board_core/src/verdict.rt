//! What a client's own board says of a request.

use board_items::{Request, Why};
use row_lists::Row;
use seg_geometry::Ids;

/// Pairs of numbers.
pub type Pairs = Row<(u32, u32)>;

/// What was found of a client's request on the board after the first `base` entries of a journal. It names no item and no
/// boundary that comes later, so that it stays true of that board whatever comes.
#[derive(Drop)]
pub struct Verdict {
    /// The client who asks, from 1.
    pub client: u8,
    /// What it asks for.
    pub request: Request,
    /// How many entries the board had.
    pub base: u32,
    /// The first reason against the request that names no item and no boundary of the board.
    pub plain: Option<Why>,
    /// Of an edit, each add, from 1, and each live item that isn't deleted, that are too near; of a change of a clearance,
    /// the least two live items that it makes too near, or nothing. Rising, by the first and then the second number.
    pub clashes: Pairs,
    /// Of an edit, each live boundary that an add, or a delete that is live, touches; rising.
    pub touched: Ids,
    /// Of an edit, the deletes that aren't live; rising.
    pub late: Ids,
}
