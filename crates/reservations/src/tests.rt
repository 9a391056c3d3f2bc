//! Tables of reservations, by hand.

use crate::Held;
use board_items::ItemId;
use std::alloc::AllocError;
use std::test::Fail;

// Lets a client hold an item where it is free.
fn reserve(held: &mut Held, id: u32, client: u8) -> Result<(), AllocError> {
    held.make_room()?;
    if held.holder(ItemId(id)).is_some() {
        return Ok(());
    }
    if held.len() < u32::MAX {
        held.reserve(ItemId(id), client);
    }
    Ok(())
}

// The first pairs, with zeros past the last.
fn row(held: &Held) -> [(u32, u8); 4] {
    let mut found = [(0, 0); 4];
    for i in 0..4u32 {
        if let Some((id, client)) = held.at(i) {
            found[i as usize] = (id.0, client);
        }
    }
    found
}

#[test]
fn an_item_has_one_holder(rt: HostRuntime) -> Result<(), Fail> {
    let mut held = Held::new(rt.alloc());
    assert_eq!(rt; held.len(), 0, "nothing is held");
    for (id, client) in [(7, 1), (3, 2), (7, 2), (5, 1)] {
        reserve(&mut held, id, client)?;
    }
    assert_eq!(rt;
        row(&held),
        [(7, 1), (3, 2), (5, 1), (0, 0)],
        "item 7 was held already"
    );
    assert_eq!(rt; held.holder(ItemId(3)), Some(2), "item 3");
    assert_eq!(rt; held.holder(ItemId(4)), None, "item 4");
    held.release(ItemId(3));
    held.release(ItemId(4));
    assert_eq!(rt;
        row(&held),
        [(7, 1), (5, 1), (0, 0), (0, 0)],
        "item 3 is free"
    );
    reserve(&mut held, 3, 3)?;
    held.drop_client(1);
    assert_eq!(rt;
        row(&held),
        [(3, 3), (0, 0), (0, 0), (0, 0)],
        "client 1 left"
    );
    for id in 10..40u32 {
        reserve(&mut held, id, 4)?;
        held.release(ItemId(id - 1));
    }
    assert_eq!(rt;
        row(&held),
        [(3, 3), (39, 4), (0, 0), (0, 0)],
        "one after another"
    );
    for id in 50..70u32 {
        reserve(&mut held, id, 5)?;
    }
    assert_eq!(rt; held.len(), 22, "twenty more");
    assert_eq!(rt; held.at(21), Some((ItemId(69), 5)), "the last of them");
    assert_eq!(rt; held.holder(ItemId(39)), Some(4), "item 39");
    Ok(())
}
