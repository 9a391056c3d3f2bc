//! Why an entry isn't taken.
ghost use Rattle.std.specs.Prelude.{◌≡◌};
ghost use Rattle.client_replica.specs.declared.why.ReplicaWhy.TheVariants.{Memory};

use std::alloc::AllocError;
use thiserror::Error;

/// Why an entry isn't taken: the first that applies.
#[derive(Clone, Copy, Debug, PartialEq, Eq, Error)]
pub enum ReplicaWhy {
    /// Its number isn't the next one, which is `want`.
    #[error("entry {got} where {want} is next")]
    Gap { want: u32, got: u32 },
    /// It is the next one, and with it the entries would weigh this, which is more than 16,777,216.
    #[error("the entries would weigh {weight}")]
    Heavy { weight: u64 },
    /// Memory ran out.
    #[error("memory ran out")]
    Memory,
}

impl From<AllocError> for ReplicaWhy {
    ghost from_gives = { λ _ e. e ≡ Memory };

    fn from(_e: AllocError) -> ReplicaWhy {
        ReplicaWhy::Memory
    }
}
