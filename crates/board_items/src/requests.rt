//! What a client asks to change.

use crate::items::ItemId;
use row_lists::Row;
use seg_geometry::{Ids, Points, Pt};

/// Copper to be added. Nets, layers and padstacks are numbered from 0 in the design's order.
#[derive(Debug, Drop)]
pub enum Add {
    /// A path with round ends through its points, of a width in nm.
    Wire {
        net: u32,
        layer: u32,
        width: u32,
        points: Points,
    },
    /// The shapes of a padstack, moved to a place in nm.
    Via {
        net: u32,
        padstack: u32,
        at: Pt,
    },
}

/// Adds in the request's order.
pub type Adds = Row<Add>;

/// Numbers of layers, from 0.
pub type Layers = Row<u8>;

/// Numbers of clients, from 1.
pub type Clients = Row<u8>;

/// A change of the board, made whole or not at all.
#[derive(Debug, Drop)]
pub enum Request {
    /// Takes the items of these numbers away, and then puts the adds on the board.
    Edit {
        deletes: Ids,
        adds: Adds,
    },
    /// Keeps an item for the client that asks.
    Reserve {
        id: ItemId,
    },
    /// Gives an item back that the client holds.
    Release {
        id: ItemId,
    },
    /// Draws a boundary round an area on some layers, in which these clients may change what lies there.
    Fence {
        layers: Layers,
        area: Points,
        clients: Clients,
    },
    /// Takes a boundary away.
    Unfence {
        fence: u32,
    },
    /// Lets one more client change what lies in a boundary.
    Entitle {
        fence: u32,
        client: u8,
    },
    /// Sets the untyped clearance of a class, in nm, 0 to 100,000,000. Class 0 is the structure's rule.
    Rule {
        class: u32,
        clearance: u32,
    },
}
