//! Lengths in whole nanometres.
ghost use Rattle.std.specs.Prelude.{◌≡◌, ◌≤◌, IfOk, unsigned_abs};
ghost use Rattle.row_lists.specs.Limits.{coordinate_limit_nm};
ghost use Rattle.sexp_text.specs.Lengths.{IsLength, IsNumberUnless, nanometres_of, signed};
ghost use Rattle.sexp_text.specs.LengthReading.{length_in};
ghost use Rattle.sexp_text.specs.NumberTexts.{Number, IsNumber, spelling};

use crate::number::{Sign, read_number};
use crate::rounding::size_of;
use crate::units::nanometres;
use crate::{NumFault, Unit};

// A size with its sign.
fn with_sign(sign: Sign, size: u128) -> i64
    requires { size ≤ coordinate_limit_nm }
    ensures { result ≡ signed sign size }
{
    let size = size as i64;
    match sign {
        Sign::Minus => -size,
        _ => size,
    }
}

/// The length that a number text states in the unit, in nanometres, rounded to the nearest whole
/// one, half away from zero. It is `Range` where the length is more than 1,000,000,000 nm in size,
/// and `NotNumber` where the text is no number: an optional sign, one to 30 digits with at most one
/// `.` among them, and optionally `e` or `E`, an optional sign and one to three digits.
pub fn length_of(text: &[u8], unit: Unit) -> Result<i64, NumFault>
    ensures length { (n : Number) → IsNumber n → text.now ≡ spelling n → IsLength n (nanometres_of unit) result }
    ensures number { IsNumberUnless text.now result }
    ensures reads { result ≡ length_in unit text.now }
    ensures bound { IfOk result (λ z. unsigned_abs z ≤ coordinate_limit_nm) }
{
    let Some(decimal) = read_number(text) else {
        return Err(NumFault::NotNumber);
    };
    let Some(size) = size_of(decimal, nanometres(unit)) else {
        return Err(NumFault::Range);
    };
    Ok(with_sign(decimal.sign, size))
}
