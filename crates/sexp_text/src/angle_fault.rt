//! Why a text gives no angle.

use thiserror::Error;

/// Why a text gives no angle.
#[derive(Clone, Copy, Debug, PartialEq, Eq, Error)]
pub enum AngleFault {
    /// The text is no number.
    #[error("the text is no number")]
    NotNumber,
    /// The number is no whole multiple of 45, or more than 3,600 in size.
    #[error("the angle is no multiple of 45 degrees")]
    NotAngle,
}
