//! Decimals in whole nanometres.
ghost use Rattle.std.specs.Prelude.{◌≡◌, ◌+◌, ◌-◌, ◌*◌, ◌^◌, ◌<◌, ◌≤◌, ℕ, IfSome, IfNone};
ghost use Rattle.row_lists.specs.Limits.{coordinate_limit_nm};
ghost use Rattle.sexp_text.specs.Lengths.{IsNearest, IsSize};

use crate::number::Decimal;
use row_lists::COORDINATE_LIMIT_NM;

/// The largest size of a length, in nanometres.
pub(crate) const LIMIT_NM: u128 = COORDINATE_LIMIT_NM as u128;

// The number with so many zeros behind it, or `None` where that is above the limit.
pub(crate) fn shifted_up(number: u128, places: u32) -> Option<u128>
    ensures within { IfSome result (λ k. (k ≤ coordinate_limit_nm) × (k ≡ number * 10 ^ places)) }
    ensures above { IfNone result (coordinate_limit_nm < number * 10 ^ places) }
{
    let mut shifted = number;
    for _place in 0..places {
        if shifted > LIMIT_NM {
            return None;
        }
        shifted *= 10;
    }
    if shifted > LIMIT_NM {
        return None;
    }
    Some(shifted)
}

// Ten to a power that 128 bits hold.
pub(crate) fn power_of_ten(places: u32) -> u128
    requires { places < 38 }
    ensures value { result ≡ 10 ^ places }
    ensures some { 0 < result }
    ensures bound { result ≤ 10 ^ 37 }
{
    10u128.pow(places)
}

// The number with the point moved to the left, rounded to the nearest whole number, half upwards.
fn shifted_down(number: u128, places: u32) -> u128
    requires { 2 * number < 10 ^ 38 }
    ensures { IsNearest number (10 ^ places) result }
{
    if places >= 38 {
        return 0;
    }
    let one = power_of_ten(places);
    (2 * number + one) / (2 * one)
}

/// The size of a decimal of a unit in whole nanometres, or `None` where that is above the limit.
pub(crate) fn size_of(decimal: Decimal, per_unit: u32) -> Option<u128>
    requires digits { decimal.digits < 10 ^ 30 }
    requires unit { per_unit ≤ 25400000 }
    ensures within { IfSome result (λ k. (k ≤ coordinate_limit_nm) × IsSize decimal per_unit k) }
    ensures above { IfNone result ((k : ℕ) × IsSize decimal per_unit k × (coordinate_limit_nm < k)) }
{
    let number = decimal.digits * u128::from(per_unit);
    if decimal.right >= decimal.left {
        return shifted_up(number, decimal.right - decimal.left);
    }
    let size = shifted_down(number, decimal.left - decimal.right);
    if size > LIMIT_NM {
        return None;
    }
    Some(size)
}
