//! Each call once.

use crate::{Copied, Row, Shelf, Text};
use std::test::Fail;

#[test]
fn a_list_keeps_what_is_put_in(rt: HostRuntime) -> Result<(), Fail> {
    let mut row = Row::new(rt.alloc());
    let empty = row.is_empty();
    row.push(4u32)?;
    row.append([5, 6].as_slice())?;
    row.append_all(Vec::from_slice(row.allocator(), [7u32].as_slice())?)?;
    let last = row.pop();
    row.set(0, 9);
    row.retain(|x| *x != 5);
    let copied = row.copied()?;
    assert!(rt; empty && last == Some(7), "a new list and its last element");
    assert!(rt; row.len() == 2 && *row.get(1) == 6, "the rest");
    row.truncate(1);
    let again = Row::from_vec(row.into_vec());
    assert_eq!(rt; again.as_slice(), [9].as_slice(), "what is given back");
    assert_eq!(rt; copied.as_slice(), [9, 6].as_slice(), "the copy");
    Ok(())
}

#[test]
fn a_shelf_takes_what_it_has_room_for(rt: HostRuntime) -> Result<(), Fail> {
    let mut shelf = Shelf::new(rt.alloc());
    let empty = shelf.is_empty();
    shelf.make_room(1)?;
    shelf.put(4u32);
    shelf.set(0, 6);
    let copy = Row::copy_of(shelf.allocator(), shelf.as_slice())?;
    let bytes = Row::from_slice(
        rt.alloc(),
        Text::of(rt.alloc(), "net A")?.as_str().as_bytes(),
    )?;
    assert!(rt;
        empty && shelf.len() == 1 && *shelf.get(0) == 6,
        "what was put in"
    );
    let again = Shelf::from_vec(shelf.into_vec());
    assert!(rt; again.as_slice() == copy.as_slice(), "a copy of it");
    assert!(rt; bytes.as_slice() == b"net A".as_slice(), "a text");
    Ok(())
}
