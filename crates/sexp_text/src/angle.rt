//! Angles in whole eighths of a turn.
ghost use Rattle.std.specs.Prelude.{◌≡◌, ◌*◌, ◌^◌, ◌<◌, ◌≤◌, ℕ, IfOk, IfSome, IfNone};
ghost use Rattle.sexp_text.specs.Angles.{IsTimes, IsTurn, IsAngle, IsAngleUnless};
ghost use Rattle.sexp_text.specs.AngleReading.{angle_in};
ghost use Rattle.sexp_text.specs.NumberTexts.{Number, IsNumber, spelling};

use crate::AngleFault;
use crate::number::{Decimal, Sign, read_number};
use crate::rounding::{power_of_ten, shifted_up};

/// An eighth of a turn, in degrees.
const EIGHTH_DEGREES: u128 = 45;

/// The largest size of an angle, in eighths of a turn.
const LIMIT_EIGHTHS: u128 = 80;

// The number with the point moved to the left, or `None` where it is then no whole number.
fn divided(number: u128, places: u32) -> Option<u128>
    requires { number < 10 ^ 30 }
    ensures whole { IfSome result (λ v. number ≡ v * 10 ^ places) }
    ensures none { IfNone result ((v : ℕ) → number ≡ v * 10 ^ places → ⊥) }
    ensures bound { IfSome result (λ v. v < 10 ^ 30) }
{
    if number == 0 {
        return Some(0);
    }
    if places >= 30 {
        return None;
    }
    let one = power_of_ten(places);
    if number % one != 0 {
        return None;
    }
    Some(number / one)
}

// The size of a decimal, or `None` where it is no whole number or above the limit of lengths.
fn whole_of(decimal: Decimal) -> Option<u128>
    requires { decimal.digits < 10 ^ 30 }
    ensures whole { IfSome result (IsTimes decimal 1) }
    ensures none { IfNone result ((v : ℕ) → v ≤ 3600 → IsTimes decimal 1 v → ⊥) }
{
    if decimal.right >= decimal.left {
        return shifted_up(decimal.digits, decimal.right - decimal.left);
    }
    divided(decimal.digits, decimal.left - decimal.right)
}

// The size of a decimal in eighths of a turn, or `None` where it is no whole number or above the limit.
fn count_of(decimal: Decimal) -> Option<u128>
    requires { decimal.digits < 10 ^ 30 }
    ensures whole { IfSome result (IsTimes decimal 45) }
    ensures none { IfNone result ((k : ℕ) → k ≤ 80 → IsTimes decimal 45 k → ⊥) }
    ensures bound { IfSome result (λ k. k ≤ 80) }
{
    let degrees = whole_of(decimal)?;
    if degrees % EIGHTH_DEGREES != 0 {
        return None;
    }
    let count = degrees / EIGHTH_DEGREES;
    if count > LIMIT_EIGHTHS {
        return None;
    }
    Some(count)
}

// The eighths of a turn, 0 to 7, that so many with a sign are.
fn turned(sign: Sign, count: u128) -> u8
    requires { count ≤ 80 }
    ensures turn { IsTurn sign count result }
    ensures bound { result < 8 }
{
    match sign {
        Sign::Minus => (7 * count % 8) as u8,
        _ => (count % 8) as u8,
    }
}

/// The angle that a number text states in degrees, in eighths of a turn: 0 to 7, also for an angle
/// below zero, so that `-45` is 7. It is `NotAngle` where the number is no whole multiple of 45 or
/// more than 3,600 in size, and `NotNumber` where the text is no number, as `length_of` says it.
pub fn angle_of(text: &[u8]) -> Result<u8, AngleFault>
    ensures angle { (n : Number) → IsNumber n → text.now ≡ spelling n → IsAngle n result }
    ensures number { IsAngleUnless text.now result }
    ensures reads { result ≡ angle_in text.now }
    ensures bound { IfOk result (λ e. e < 8) }
{
    let Some(decimal) = read_number(text) else {
        return Err(AngleFault::NotNumber);
    };
    let Some(count) = count_of(decimal) else {
        return Err(AngleFault::NotAngle);
    };
    Ok(turned(decimal.sign, count))
}
