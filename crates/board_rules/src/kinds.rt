//! The kinds of items, and what is stated for two of them.
ghost use Rattle.std.specs.Prelude.{◌≡◌, if◌then◌else◌};
ghost use Rattle.board_rules.specs.Classes.{same_kind, same_what, or_else, value_of, is_one_smd, typed_value};

use crate::design::{Kind, Stated, What};

fn same_kind(a: Kind, b: Kind) -> bool
    ensures { result ≡ same_kind a b }
{
    match (a, b) {
        (Kind::Wire, Kind::Wire) => true,
        (Kind::Via, Kind::Via) => true,
        (Kind::Pin, Kind::Pin) => true,
        (Kind::Smd, Kind::Smd) => true,
        _ => false,
    }
}

// Whether two statements are of the same thing.
fn same_what(a: What, b: What) -> bool
    ensures { result ≡ same_what a b }
{
    match (a, b) {
        (What::Untyped, What::Untyped) => true,
        (What::DefaultSmd, What::DefaultSmd) => true,
        (What::Pair { a, b }, What::Pair { a: c, b: d }) => {
            same_kind(a, c) && same_kind(b, d) || same_kind(a, d) && same_kind(b, c)
        }
        _ => false,
    }
}

// The first of two that is there.
pub(crate) fn or_else(first: Option<u32>, other: Option<u32>) -> Option<u32>
    ensures { result ≡ or_else first other }
{
    match first {
        Some(n) => Some(n),
        None => other,
    }
}

// The value of a statement of this thing.
fn newer(row: &Stated, what: What, found: Option<u32>) -> Option<u32>
    ensures { result ≡ or_else (if same_what row.now.what what then Some row.now.value else None) found }
{
    if same_what(row.what, what) {
        Some(row.value)
    } else {
        found
    }
}

/// The value in nm that the last statement of this thing gives.
pub fn value_of(rows: &[Stated], what: What) -> Option<u32>
    ensures { result ≡ value_of what rows.now }
{
    let mut found = None;
    for row in rows {
        found = newer(row, what, found);
    }
    found
}

// Whether exactly one of the two is a pad on one layer.
pub(crate) fn is_one_smd(k: Kind, l: Kind) -> bool
    ensures { result ≡ is_one_smd k l }
{
    same_kind(k, Kind::Smd) && !same_kind(l, Kind::Smd)
        || same_kind(l, Kind::Smd) && !same_kind(k, Kind::Smd)
}

// The value for one pad on one layer, where exactly one of the two is such a pad.
fn smd_value(rows: &[Stated], k: Kind, l: Kind) -> Option<u32>
    ensures { result ≡ (if is_one_smd k l then value_of What.DefaultSmd rows.now else None) }
{
    if is_one_smd(k, l) {
        value_of(rows, What::DefaultSmd)
    } else {
        None
    }
}

// What a list of statements gives two kinds but for an untyped value.
pub(crate) fn typed_value(rows: &[Stated], k: Kind, l: Kind) -> Option<u32>
    ensures { result ≡ typed_value rows.now k l }
{
    let own = value_of(rows, What::Pair { a: k, b: l });
    or_else(own, smd_value(rows, k, l))
}
