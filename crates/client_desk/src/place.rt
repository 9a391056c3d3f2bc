//! Whose desk it is, by a type.

use std::marker::Brand;

/// Names one client of one who answers: what the design is made of, how many clients there are, the limit of a history's weight, and the
/// client's number. A desk is of the place that its type names, after whatever calls.
pub trait Place {
    ghost use Rattle.std.specs.Prelude.{ℕ};
    ghost use Rattle.board_rules.specs.declared.design.Parts.{Parts};

    ghost parts: { Parts };

    ghost clients: { ℕ };

    ghost limit: { ℕ };

    ghost client: { ℕ };
}

impl Place for Brand {
    ghost use Rattle.client_desk.specs.Seats.{no_parts};

    ghost parts = { no_parts };

    ghost clients = { 0 };

    ghost limit = { 0 };

    ghost client = { 0 };
}
