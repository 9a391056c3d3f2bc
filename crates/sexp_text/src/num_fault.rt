//! Why a text gives no length.

use thiserror::Error;

/// Why a text gives no length.
#[derive(Clone, Copy, Debug, PartialEq, Eq, Error)]
pub enum NumFault {
    /// The text is no number.
    #[error("the text is no number")]
    NotNumber,
    /// The length is more than 1,000,000,000 nm in size.
    #[error("the length is out of range")]
    Range,
}
