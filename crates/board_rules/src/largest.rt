//! The largest clearance that is stated.
ghost use Rattle.std.specs.Prelude.{◌≡◌, max, filter};
ghost use Rattle.board_rules.specs.declared.design.Parts.{Parts};
ghost use Rattle.board_rules.specs.Classes.{or_zero, value_of, is_typed, largest_in, largest_typed};
ghost use Rattle.board_rules.specs.Pairs.{largest_paired};
ghost use Rattle.board_rules.specs.PairTables.{pair_tables_of};
ghost use Rattle.board_rules.specs.Needs.{largest_stated};

use crate::design::{ClassRow, Kind, PairRow, Parts, Stated, What};
use crate::kinds::value_of;
use crate::pair_tables::PairTables;

// What these statements give this thing, or 0.
fn given(rows: &[Stated], what: What) -> u32
    ensures { result ≡ or_zero (value_of what rows.now) }
{
    value_of(rows, what).unwrap_or(0)
}

// The largest value that these statements give this kind and another.
fn kind_largest(rows: &[Stated], a: Kind) -> u32
    ensures { result ≡ max (max (or_zero (value_of (What.Pair a Kind.Wire) rows.now)) (or_zero (value_of (What.Pair a Kind.Via) rows.now))) (max (or_zero (value_of (What.Pair a Kind.Pin) rows.now)) (or_zero (value_of (What.Pair a Kind.Smd) rows.now))) }
{
    let wire = given(rows, What::Pair { a, b: Kind::Wire });
    let via = given(rows, What::Pair { a, b: Kind::Via });
    let pin = given(rows, What::Pair { a, b: Kind::Pin });
    let smd = given(rows, What::Pair { a, b: Kind::Smd });
    wire.max(via).max(pin.max(smd))
}

// The largest value that these statements state, but for the untyped ones. Each thing that a statement can be of is
// looked at once, so that statements that a later one replaces don't count.
fn typed_largest(rows: &[Stated]) -> u32
    ensures { result ≡ largest_in (filter is_typed rows.now) }
{
    let smd = kind_largest(rows, Kind::Smd).max(given(rows, What::DefaultSmd));
    let wire = kind_largest(rows, Kind::Wire);
    let via = kind_largest(rows, Kind::Via);
    wire.max(via).max(kind_largest(rows, Kind::Pin).max(smd))
}

fn classes_largest(classes: &[ClassRow]) -> u32
    ensures { result ≡ largest_typed classes.now }
{
    let mut most = 0;
    for class in classes {
        most = typed_largest(class.clearances.as_slice()).max(most);
    }
    most
}

// The largest value of the tables of the classes of these rows.
fn paired_largest(tables: &PairTables, rows: &[PairRow]) -> u32
    ensures { (p : Parts) → tables.now ≡ pair_tables_of p → result ≡ largest_paired p rows.now }
{
    let mut most = 0;
    for row in rows {
        most = tables.table(row.a, row.b).most().max(most);
    }
    most
}

// The largest clearance that any class states for more than all, and that any pair of classes states; at least 1.
pub(crate) fn largest_stated(parts: &Parts, pairs: &PairTables) -> u32
    requires { pairs.now ≡ pair_tables_of parts.now }
    ensures { result ≡ largest_stated parts.now }
{
    let typed = classes_largest(parts.classes.as_slice());
    1u32.max(typed.max(paired_largest(pairs, parts.pairs.as_slice())))
}
