//! Why words aren't read.
ghost use Rattle.std.specs.Prelude.{◌≡◌};
ghost use Rattle.client_words.specs.declared.why.ClientWhy.TheVariants.{Memory};

use std::alloc::AllocError;

/// Why words aren't read.
#[derive(Clone, Copy, Debug, PartialEq, Eq)]
pub enum ClientWhy {
    /// There aren't three of them.
    Usage,
    /// Memory ran out.
    Memory,
}

impl From<AllocError> for ClientWhy {
    ghost from_gives = { λ _ e. e ≡ Memory };

    fn from(_e: AllocError) -> ClientWhy {
        ClientWhy::Memory
    }
}
