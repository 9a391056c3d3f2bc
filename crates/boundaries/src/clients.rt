//! A set of clients that takes no memory beside its own.
ghost use Rattle.std.specs.Prelude.{◌≡◌, []};
ghost use Rattle.number_slots.specs.Slots.{is_among};
ghost use Rattle.boundaries.specs.Boundaries.{with_client, with_clients};

use std::marker::Model;

/// Clients, seen by contracts as a rising list in which each stands once.
#[derive(Drop)]
pub struct ClientSet {
    /// Whether the client of each number is one of them.
    marks: [bool; 256],
}

impl Model for ClientSet {
    ghost use Rattle.std.specs.Prelude.{List, ℕ};
    ghost use Rattle.boundaries.specs.Marks.{marked};

    ghost Value = { List ℕ };

    ghost view = { λ s. marked 0 s.marks };
}

impl ClientSet {
    /// No clients.
    pub fn new() -> ClientSet
        ensures { result ≡ [] }
    {
        ClientSet {
            marks: [false; 256],
        }
    }

    /// The clients of a list, in any order.
    pub fn of(clients: &[u8]) -> ClientSet
        ensures { result ≡ with_clients clients.now [] }
    {
        let mut set = ClientSet::new();
        for client in clients {
            set.add(*client);
        }
        set
    }

    /// Puts a client in, where it isn't there.
    pub fn add(&mut self, client: u8)
        ensures { self.new ≡ with_client client self.old }
    {
        self.marks[client as usize] = true;
    }

    /// Whether the client is one of them.
    pub fn contains(&self, client: u8) -> bool
        ensures { result ≡ is_among client self.now }
    {
        self.marks[client as usize]
    }
}
