//! Why a design could not be read.
ghost use Rattle.std.specs.Prelude.{◌≡◌};
ghost use Rattle.dsn_lists.specs.declared.faults.ReadWhy.TheVariants.{Fault, Memory};

use std::alloc::{AllocError, AllocFailed};
use thiserror::Error;

/// What is wrong with a design.
#[derive(Clone, Copy, Debug, PartialEq, Eq, Error)]
pub enum DesignKind {
    /// A list isn't closed at the end of the text.
    #[error("unclosed")]
    Unclosed,
    /// A `)` closes nothing.
    #[error("unopened")]
    Unopened,
    /// A quoted part isn't closed on its line, or another byte than `"` is to be the quote.
    #[error("quote")]
    Quote,
    /// A list would be the 65th level.
    #[error("deep")]
    Deep,
    /// The text, or what it describes, is larger than a limit.
    #[error("large")]
    Large,
    /// A word or a list is missing, is too many, or stands where only the other can stand.
    #[error("form")]
    Form,
    /// A unit, `structure`, a layer, a wire's path, or the net of a wire or via is missing.
    #[error("missing")]
    Missing,
    /// A section, layer, padstack, image, component or net stands a second time, or a pin is in two nets.
    #[error("twice")]
    Twice,
    /// No padstack, image or pin has the name.
    #[error("name")]
    Name,
    /// A unit is unknown, or a `resolution` stands in a section.
    #[error("unit")]
    Unit,
    /// The text of a length, an angle or a whole number is no number.
    #[error("number")]
    Number,
    /// A length or a point is out of range.
    #[error("range")]
    Range,
    /// A width, diameter, aperture or clearance is out of its limits.
    #[error("width")]
    Width,
    /// An angle is no multiple of 45 degrees, or more than 3,600 degrees in size.
    #[error("angle")]
    Angle,
    /// No layer has the name.
    #[error("layer")]
    Layer,
    /// A `qarc` stands at the place of a shape.
    #[error("arc")]
    Arc,
    /// A `polyline_path` stands at the place of a shape.
    #[error("polyline")]
    Polyline,
    /// An aperture is square.
    #[error("square")]
    Square,
    /// A shape, keepout or padstack has a window.
    #[error("window")]
    Window,
    /// No shape, or one that can't stand there, stands at the place of a shape.
    #[error("shape")]
    Shape,
    /// There are too few points, or an odd number of coordinates.
    #[error("points")]
    Points,
    /// A side, wiring type or flip style is unknown.
    #[error("style")]
    Style,
}

/// The first fault of a design, and the byte at which it is told, from 0.
#[derive(Clone, Copy, Debug, PartialEq, Eq)]
pub struct DesignFault {
    pub kind: DesignKind,
    pub at: u32,
}

/// Why a design was not read.
#[derive(Debug, Drop, Error)]
pub enum ReadWhy {
    /// The text has this first fault.
    #[error("the text is no design")]
    Fault(DesignFault),
    /// Memory ran out.
    #[error("memory ran out")]
    Memory,
}

/// A fault of this kind at this byte.
pub fn fault(kind: DesignKind, at: u32) -> DesignFault
    ensures { result ≡ record { kind = kind; at = at } }
{
    DesignFault { kind, at }
}

/// Why a design was not read that has a fault of this kind at this byte.
pub fn refused(kind: DesignKind, at: u32) -> ReadWhy
    ensures { result ≡ Fault (record { kind = kind; at = at }) }
{
    ReadWhy::Fault(fault(kind, at))
}

impl From<DesignFault> for ReadWhy {
    ghost from_gives = { λ e why. why ≡ Fault e };

    fn from(e: DesignFault) -> ReadWhy {
        ReadWhy::Fault(e)
    }
}

impl From<AllocError> for ReadWhy {
    ghost from_gives = { λ _ e. e ≡ Memory };

    fn from(_e: AllocError) -> ReadWhy {
        ReadWhy::Memory
    }
}

impl<T: Drop> From<AllocFailed<T>> for ReadWhy {
    ghost from_gives = { λ _ e. e ≡ Memory };

    fn from(_e: AllocFailed<T>) -> ReadWhy {
        ReadWhy::Memory
    }
}
