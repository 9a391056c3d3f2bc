//! Units of length.
ghost use Rattle.std.specs.Prelude.{◌≡◌};
ghost use Rattle.sexp_text.specs.Lengths.{nanometres_of};

/// A unit of length.
#[derive(Clone, Copy, Debug, PartialEq, Eq)]
pub enum Unit {
    /// 25.4 mm.
    Inch,
    /// A thousandth of an inch.
    Mil,
    /// A hundredth of a metre.
    Cm,
    /// A thousandth of a metre.
    Mm,
    /// A millionth of a metre.
    Um,
}

// How many nanometres one of the unit is.
pub(crate) fn nanometres(unit: Unit) -> u32
    ensures { result ≡ nanometres_of unit }
{
    match unit {
        Unit::Inch => 25_400_000,
        Unit::Mil => 25_400,
        Unit::Cm => 10_000_000,
        Unit::Mm => 1_000_000,
        Unit::Um => 1_000,
    }
}
