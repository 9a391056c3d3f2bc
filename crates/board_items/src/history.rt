//! What was accepted, and what was answered.

use crate::items::ItemId;
use crate::requests::Request;
use row_lists::Row;

/// What a client did.
#[derive(Debug, Drop)]
pub enum Act {
    /// It asked for a change.
    Ask { request: Request },
    /// It left.
    Leave,
}

/// An accepted act of a client. Entries are numbered from 1, clients too.
#[derive(Debug, Drop)]
pub struct Entry {
    pub number: u32,
    pub client: u8,
    pub act: Act,
}

/// Entries in the order in which they were accepted.
pub type Entries = Row<Entry>;

/// Why a request is refused: the first reason that applies. Adds are counted from 1 in the request's order.
#[derive(Clone, Copy, Debug, PartialEq, Eq)]
pub enum Why {
    /// There is no delete and no add.
    Empty,
    /// The net of this add isn't there.
    Net { add: u32 },
    /// The layer of this wire isn't there.
    Layer { add: u32 },
    /// This wire is narrower than its net's class asks.
    Narrow { add: u32 },
    /// The padstack of this via isn't there, or its net may not use it.
    Padstack { add: u32 },
    /// A point of this via's shapes is out of range.
    Range { add: u32 },
    /// A shape of this add isn't inside the outline.
    Outside { add: u32 },
    /// These two adds are nearer than their clearance; the first one has the lower number.
    Own { a: u32, b: u32 },
    /// This number stands earlier among the deletes.
    Repeated { id: ItemId },
    /// No live item has this number.
    Missing { id: ItemId },
    /// The item is fixed.
    Fixed { id: ItemId },
    /// The item is held by this client.
    Reserved { id: ItemId, client: u8 },
    /// A change within this boundary, in which the client isn't entitled.
    Protected { fence: u32 },
    /// This add and this item of the board are nearer than their clearance.
    Clash { add: u32, id: ItemId },
    /// The client doesn't hold the item.
    Unheld { id: ItemId },
    /// The area of a boundary has fewer than three points.
    Area,
    /// This layer of a boundary isn't there.
    FenceLayer { layer: u8 },
    /// There is no client of this number.
    Client { client: u8 },
    /// The boundary would overlap this one.
    Overlap { fence: u32 },
    /// The boundary would cover this item, which another client holds.
    Covers { id: ItemId },
    /// No boundary has this number.
    NoFence { fence: u32 },
    /// The client doesn't own this boundary.
    NotOwner { fence: u32 },
    /// The design has no class of this number.
    NoClass { class: u32 },
    /// With the new clearance these two items of the board would be nearer than they must keep; the first one has the
    /// lower number.
    Unclean { a: ItemId, b: ItemId },
}

/// What a request is answered.
#[derive(Clone, Copy, Debug, PartialEq, Eq)]
pub enum Reply {
    /// It is the journal's entry of this number.
    Done { number: u32 },
    /// It changed nothing.
    No { why: Why },
    /// The history has no room for it.
    Full,
    /// The client has left, by the journal's entry of this number.
    Left { number: u32 },
}

/// One call of a client: what it did, how long the journal was when it last looked, and the answer.
#[derive(Debug, Drop)]
pub struct Call {
    pub client: u8,
    pub base: u32,
    pub act: Act,
    pub reply: Reply,
}

/// Calls in the order in which they were answered.
pub type Calls = Row<Call>;
