//! Why a command stops.
use board_items::ItemId;
use dsn_lists::DesignFault;

/// Why a command stops before its end: the first fault that it met.
#[derive(Clone, Copy, Debug, PartialEq, Eq)]
pub enum Stop {
    /// The design has this first fault.
    Design(DesignFault),
    /// An open or a read failed.
    Read,
    /// A create or a write failed.
    Write,
    /// This line of the script is the first without a reading, from 1; 0 where the script is too long.
    Script(u64),
    /// These two loaded items are the least that are too near to each other, the lower number first.
    Unclean { a: ItemId, b: ItemId },
    /// Memory ran out.
    Memory,
}
