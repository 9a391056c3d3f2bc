//! A board of two loaded wires, by hand. Wires have to be 300 micrometres apart.
ghost use Rattle.std.specs.Prelude.{◌≡◌, ◌<◌};

use crate::designs::two_wires_apart;
use board_core::{clean, slow_pair};
use board_items::ItemId;
use board_rules::Design;
use seg_geometry::Steps;
use std::marker::Brand;
use std::sync::ledger::{Blank, Ledger};
use std::test::Fail;

fn least_pair<L: Ledger>(design: &Design, blank: Blank) -> Option<(ItemId, ItemId)>
    requires name { blank.name ≡ L.name }
    requires parts { blank.parts ≡ L.parts }
    requires some { 0 < blank.parts }
{
    let mut steps = Steps::<L>::new(blank);
    slow_pair(design, &mut steps)
}

#[test]
fn loaded_items_that_are_too_near_are_told(rt: HostRuntime) -> Result<(), Fail> {
    let near = Some((ItemId(1), ItemId(2)));
    for (y, want) in [(299, near), (300, None)] {
        let design = two_wires_apart(rt.alloc(), y)?;
        assert!(rt; clean(&design) == want, "{y}");
        let pair = least_pair::<Brand>(&design, Blank::new(1));
        assert!(rt; pair == want, "{y} with a count");
    }
    Ok(())
}
