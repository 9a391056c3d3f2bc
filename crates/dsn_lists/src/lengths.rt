//! Lengths and widths in words.
ghost use Rattle.std.specs.Prelude.{◌≡◌, ◌≤◌, IfOk, unsigned_abs};
ghost use Rattle.row_lists.specs.Limits.{coordinate_limit_nm, width_limit_nm};
ghost use Rattle.dsn_lists.specs.Results.{Tells};
ghost use Rattle.dsn_lists.specs.Words.{marked};
ghost use Rattle.dsn_lists.specs.Numbers.{length_word, as_width, width_word};

use crate::faults::{DesignFault, DesignKind, fault};
use crate::words::Found;
use row_lists::WIDTH_LIMIT_NM;
use sexp_text::{NumFault, Unit, length_of};

/// The length in nm that a word states, of at most 1,000,000,000 in size. Else the fault `Number` or `Range` at the
/// word.
pub fn length_at(unit: Unit, word: Found<'_>) -> Result<i64, DesignFault>
    ensures told { Tells (λ x. x) result (length_word unit (marked word.entry)) }
    ensures bound { IfOk result (λ z. unsigned_abs z ≤ coordinate_limit_nm) }
{
    match length_of(word.text, unit) {
        Ok(length) => Ok(length),
        Err(NumFault::NotNumber) => Err(fault(DesignKind::Number, word.at)),
        Err(NumFault::Range) => Err(fault(DesignKind::Range, word.at)),
    }
}

#[tactic(auto, unfolding(crate::specs::Numbers::as_width))]
fn width_from(at: u32, length: i64) -> Result<u32, DesignFault>
    requires { unsigned_abs length ≤ coordinate_limit_nm }
    ensures told { Tells (λ x. x) result (as_width at length) }
    ensures bound { IfOk result (λ w. w ≤ width_limit_nm) }
{
    if length < 0 || i64::from(WIDTH_LIMIT_NM) < length {
        return Err(fault(DesignKind::Width, at));
    }
    Ok(length.unsigned_abs() as u32)
}

/// The width, diameter, aperture or clearance in nm that a word states, from 0 to 100,000,000. Else the fault
/// `Number`, `Range` or `Width` at the word.
#[tactic(auto, unfolding(crate::specs::Numbers::width_word))]
pub fn width_at(unit: Unit, word: Found<'_>) -> Result<u32, DesignFault>
    ensures told { Tells (λ x. x) result (width_word unit (marked word.entry)) }
    ensures bound { IfOk result (λ w. w ≤ width_limit_nm) }
{
    let length = length_at(unit, word)?;
    width_from(word.at, length)
}
