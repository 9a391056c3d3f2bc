//! The pairs of classes of a design.
ghost use Rattle.std.specs.Prelude.{◌≡◌, ◌<◌, ◌^◌, [], length, IfOk, OnOk};
ghost use Rattle.dsn_reader.specs.Numbering.{with_number, numbers_by};
ghost use Rattle.dsn_reader.specs.PairAssembly.{with_class_name, no_class_names, names_met, number_in, pairs_behind, pairs_among, pairs_of_lists, all_pairs};

use board_rules::{PairRow, PairRows, StatedRows};
use dsn_lists::{Mark, NameSet};
use dsn_network::{Class, ClassPairs, Network};
use row_lists::Row;
use seg_geometry::Ids;
use std::alloc::{AllocError, Global};

// The names of classes, each once, and for each name the number of the first class that has it.
#[derive(Drop)]
struct ClassNames {
    names: NameSet,
    numbers: Ids,
}

// A class of this number is met.
fn meet(known: &mut ClassNames, number: u32, name: &[u8]) -> Result<(), AllocError>
    ensures { OnOk result (known.new ≡ with_class_name known.old number name.now) }
{
    if known.names.contains(name) {
        return Ok(());
    }
    known.numbers.push(number)?;
    known.names.add(name)
}

// The names of classes, which are numbered from 1.
#[tactic(auto, unfolding(crate::specs::PairAssembly::names_met))]
fn names_met(alloc: Global, classes: &[Class]) -> Result<ClassNames, AllocError>
    requires { length classes.now < 2 ^ 32 }
    ensures { IfOk result (λ known. known ≡ names_met no_class_names 1 classes.now) }
{
    let mut known = ClassNames {
        names: NameSet::new(alloc),
        numbers: Row::new(alloc),
    };
    for i in 0..classes.len() {
        meet(&mut known, i as u32 + 1, classes[i].name.as_slice())?;
    }
    Ok(known)
}

fn number_in(known: &ClassNames, name: &[u8]) -> Option<u32>
    ensures { result ≡ number_in known.now name.now }
{
    let place = known.names.place(name)?;
    known.numbers.as_slice().get(place).copied()
}

fn put_number(known: &ClassNames, ids: &mut Ids, mark: &Mark) -> Result<(), AllocError>
    ensures { OnOk result (ids.new ≡ with_number ids.old (number_in known.now mark.now.name)) }
{
    match number_in(known, mark.name.as_slice()) {
        None => Ok(()),
        Some(number) => ids.push(number),
    }
}

// The numbers of the classes of these names; a name that is no class's has none.
#[tactic(auto, unfolding(crate::specs::Numbering::numbers_by))]
fn numbers_met(alloc: Global, known: &ClassNames, marks: &[Mark]) -> Result<Ids, AllocError>
    ensures { IfOk result (λ ids. ids ≡ numbers_by (number_in known.now) [] marks.now) }
{
    let mut ids = Row::new(alloc);
    for mark in marks {
        put_number(known, &mut ids, mark)?;
    }
    Ok(ids)
}

// Puts the pairs of a class with those behind it.
#[tactic(auto, unfolding(crate::specs::PairAssembly::pairs_behind))]
fn put_behind(
    rows: &mut Vec<PairRow>,
    a: u32,
    stated: &StatedRows,
    behind: &[u32],
) -> Result<(), AllocError>
    ensures { OnOk result (rows.new.items ≡ pairs_behind rows.old.items a stated.now behind.now) }
{
    for b in behind {
        rows.push(PairRow {
            a,
            b: *b,
            clearances: stated.copy()?,
        })?;
    }
    Ok(())
}

// How many pairs so many classes have, or the most that there can be where they have more.
fn pair_count(classes: usize) -> usize {
    classes.saturating_mul(classes.saturating_sub(1)) / 2
}

// Puts the pairs of each two of these classes. Room for all is made first, so that too many of them are want of memory at
// once.
#[tactic(auto, unfolding(crate::specs::PairAssembly::pairs_among))]
fn put_among(
    rows: &mut Vec<PairRow>,
    stated: &StatedRows,
    numbers: &[u32],
) -> Result<(), AllocError>
    ensures { OnOk result (rows.new.items ≡ pairs_among rows.old.items stated.now numbers.now) }
{
    rows.reserve(pair_count(numbers.len()))?;
    for i in 0..numbers.len() {
        put_behind(rows, numbers[i], stated, &numbers[i + 1..])?;
    }
    Ok(())
}

#[tactic(auto, unfolding(crate::specs::PairAssembly::pairs_of_lists))]
fn put_lists(
    alloc: Global,
    known: &ClassNames,
    rows: &mut Vec<PairRow>,
    lists: &[ClassPairs],
) -> Result<(), AllocError>
    ensures { OnOk result (rows.new.items ≡ pairs_of_lists known.now rows.old.items lists.now) }
{
    for list in lists {
        let numbers = numbers_met(alloc, known, list.names.as_slice())?;
        put_among(rows, &list.stated, numbers.as_slice())?;
    }
    Ok(())
}

/// The rows of what is stated between classes, one for each two classes that a list names. Its one error is want of
/// memory.
pub fn pair_rows_of(alloc: Global, network: &Network) -> Result<PairRows, AllocError>
    requires { length network.now.classes < 2 ^ 32 }
    ensures { IfOk result (λ rows. rows ≡ all_pairs network.now.classes network.now.pairs) }
{
    let known = names_met(alloc, network.classes.as_slice())?;
    let mut rows: Vec<PairRow> = Vec::new(alloc);
    put_lists(alloc, &known, &mut rows, network.pairs.as_slice())?;
    Ok(Row::from_vec(rows))
}
