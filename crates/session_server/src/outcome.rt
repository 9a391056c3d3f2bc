//! What `serve` hands back.

use crate::End;
use board_items::{Calls, Entries};
use row_lists::Row;
use session_loop::Ends;

/// The links that came, in their order.
pub type Links<L> = Row<L>;

/// How it ended, and what stood then: the calls in the order in which they were answered, the entries that they made,
/// the end of each session, and the links. Where no session began, all four lists are empty.
#[derive(Drop)]
pub struct Served<L> {
    pub end: End,
    pub history: Calls,
    pub journal: Entries,
    pub ends: Ends,
    pub links: Links<L>,
}
