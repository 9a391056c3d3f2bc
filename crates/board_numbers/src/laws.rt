//! A law of what the numbers of a text are.
ghost use Rattle.std.specs.Prelude.{◌≡◌, ℕ, List};
ghost use Rattle.board_numbers.specs.Numbers.{IsNumbered};

/// A text has the numbers of one text at most.
pub fn one_numbering()
    ensures { (bytes : List ℕ) (a : List ℕ) (b : List ℕ) → IsNumbered bytes a → IsNumbered bytes b → a ≡ b }
{}
