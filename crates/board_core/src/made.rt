//! What is put on a board: a slot for each number that is given.
ghost use Rattle.std.specs.Prelude.{◌≡◌, IfOk, map, Some};
ghost use Rattle.board_core.specs.Made.{made_item};

use board_items::{Add, Item, item_of_add};
use row_lists::Copied;
use std::alloc::{AllocError, Global};

// A slot with what an add makes, if anything.
fn slot_of(add: &Add) -> Result<Option<Item>, AllocError>
    ensures { IfOk result (λ slot. slot ≡ made_item add.now) }
{
    item_of_add(add)
}

/// A slot for each add, with what it makes.
pub fn made(alloc: Global, adds: &[Add]) -> Result<Vec<Option<Item>>, AllocError>
    ensures { IfOk result (λ made. made.items ≡ map made_item adds.now) }
{
    let mut made = Vec::new(alloc);
    for add in adds {
        made.push(slot_of(add)?)?;
    }
    Ok(made)
}

/// A slot for each item, with a copy of it.
pub fn loaded(alloc: Global, items: &[Item]) -> Result<Vec<Option<Item>>, AllocError>
    ensures { IfOk result (λ made. made.items ≡ map Some items.now) }
{
    let mut made = Vec::new(alloc);
    for item in items {
        made.push(Some(item.copied()?))?;
    }
    Ok(made)
}
