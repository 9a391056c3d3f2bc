//! Numbers of the names of classes.
ghost use Rattle.std.specs.Prelude.{◌≡◌, IfOk, OnOk};
ghost use Rattle.board_rules.specs.Numbers.{texts, number_of, with_name, numbers_of};

use crate::design::ClassRow;
use indexmap::IndexSet;
use row_lists::Row;
use std::alloc::{AllocError, Global};

// The number of a name, which is the next one where the name is new.
fn number_of(names: &mut IndexSet<Vec<u8>>, name: &[u8]) -> Result<usize, AllocError>
    ensures number { IfOk result (λ n. n ≡ number_of (texts names.old.keys) name.now) }
    ensures names { OnOk result (texts names.new.keys ≡ with_name (texts names.old.keys) name.now) }
{
    let owned = Vec::from_slice(*names.allocator(), name)?;
    let (number, _) = names.insert_full(owned)?;
    Ok(number)
}

// The number of each class's name: classes of the same name have the same number, and others have not.
pub(crate) fn numbers_of(alloc: Global, classes: &[ClassRow]) -> Result<Row<usize>, AllocError>
    ensures { IfOk result (λ numbers. numbers ≡ numbers_of classes.now) }
{
    let mut names = IndexSet::new(alloc);
    let mut numbers = Row::new(alloc);
    for class in classes {
        numbers.push(number_of(&mut names, class.name.as_slice())?)?;
    }
    Ok(numbers)
}
