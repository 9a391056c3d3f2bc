//! What a client says in a session.

use board_items::Request;

/// A line of a client.
#[derive(Debug, Drop)]
pub enum Message {
    /// It asks for a change.
    Ask { request: Request },
    /// It ends the session.
    Bye,
}
