//! Tables of slots, by hand.

use crate::Slots;
use std::test::Fail;

// What stands under the numbers 0 to 7, where -1 is nothing.
fn row(slots: &Slots<i32>) -> [i32; 8] {
    let mut found = [-1; 8];
    for number in 0..8u32 {
        if let Some(thing) = slots.at(number) {
            found[number as usize] = *thing;
        }
    }
    found
}

#[test]
fn numbers_are_given_once(rt: HostRuntime) -> Result<(), Fail> {
    let alloc = rt.alloc();
    let mut slots: Slots<i32> = Slots::new(alloc);
    assert_eq!(rt; row(&slots), [-1; 8], "no numbers");
    slots.replace(&[], vec![in alloc; Some(10), Some(20), None, Some(40)]?)?;
    assert_eq!(rt;
        row(&slots),
        [-1, 10, 20, -1, 40, -1, -1, -1],
        "the third number stands for nothing"
    );
    assert_eq!(rt;
        (slots.count(), slots.last()),
        (3, 4),
        "three things of four numbers"
    );
    slots.replace(&[2, 3, 9, 2, 0], vec![in alloc; Some(50)]?)?;
    assert_eq!(rt;
        row(&slots),
        [-1, 10, -1, -1, 40, 50, -1, -1],
        "numbers that aren't there and one that stands twice"
    );
    slots.replace(&[6, 1], vec![in alloc; Some(60)]?)?;
    assert_eq!(rt;
        row(&slots),
        [-1, -1, -1, -1, 40, 50, 60, -1],
        "a number is taken away before it is given"
    );
    assert_eq!(rt;
        (slots.count(), slots.last()),
        (3, 6),
        "three things of six numbers"
    );
    assert_eq!(rt; slots.nth(1), Some((5, &50)), "the second thing");
    assert_eq!(rt; slots.nth(3), None, "past the last thing");
    slots.replace(&[6, 5, 4], vec![in alloc; None, Some(80)]?)?;
    assert_eq!(rt;
        slots.numbers(),
        [8].as_slice(),
        "numbers under which nothing stands any more are left out"
    );
    Ok(())
}
