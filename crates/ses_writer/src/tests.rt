//! Whole sessions, by hand.

use crate::samples::{odd_via, round_via, text_of, wire};
use area_geometry::Shapes;
use board_items::{Item, Items};
use layout_io::Bytes;
use seg_geometry::Pt;
use std::test::Fail;

const ROUTED: &str = "(session board.dsn
  (base_design board.dsn)
  (routes
    (resolution um 1000)
    (parser
      (host_cad layout_server)
      (host_version 1)
    )
    (library_out
      (padstack \"Via[0-1]_800:400_um\"
        (shape (circle F.Cu 800000 0 0))
        (shape (circle B.Cu 800000 0 0))
        (attach off)
      )
    )
    (network_out
      (net GND
        (wire
          (path F.Cu 250000
            4000000 -5000000
            4000000 -8000000
          )
        )
        (via \"Via[0-1]_800:400_um\" 4000000 -8000000)
      )
    )
  )
)
";

// A wire and a via of one net: a padstack in use, and two nets without items.
#[test]
fn a_wire_and_a_via(rt: HostRuntime) -> Result<(), Fail> {
    let alloc = rt.alloc();
    let way = [
        Pt {
            x: 4_000_000,
            y: -5_000_000,
        },
        Pt {
            x: 4_000_000,
            y: -8_000_000,
        },
    ];
    let mut items = Items::new(alloc);
    items.push(wire(alloc, 0, 0, &way, false)?)?;
    items.push(round_via(0, false))?;
    let text = text_of(alloc, b"board.dsn".as_slice(), items)?;
    assert_eq!(rt; text.as_slice(), ROUTED.as_bytes());
    Ok(())
}

const MIXED: &str = "(session \"s 1.dsn\"
  (base_design \"s 1.dsn\")
  (routes
    (resolution um 1000)
    (parser
      (host_cad layout_server)
      (host_version 1)
    )
    (library_out
      (padstack odd
        (shape (path F.Cu 30 0 0 5 7))
        (shape (polygon B.Cu 0 0 0 9 0 0 8))
        (attach off)
      )
    )
    (network_out
      (net B
        (wire
          (path F.Cu 250000
            0 0
            1000000 0
          )
        )
      )
      (net \"Net-(R1-2)\"
        (wire
          (path B.Cu 250000
            0 0
            1000000 0
          )
          (type fix)
        )
        (via odd 1 2 (type fix))
        (via odd 1 2)
      )
    )
  )
)
";

// Names between quotes, a path and a polygon, fixed items, and vias behind wires of higher numbers; a pad is no route.
#[test]
fn fixed_items_and_other_shapes(rt: HostRuntime) -> Result<(), Fail> {
    let alloc = rt.alloc();
    let way = [Pt { x: 0, y: 0 }, Pt { x: 1_000_000, y: 0 }];
    let mut items = Items::new(alloc);
    items.push(Item::Pad {
        net: Some(0),
        shapes: Shapes::new(alloc),
    })?;
    items.push(odd_via(2, true))?;
    items.push(wire(alloc, 1, 0, &way, false)?)?;
    items.push(odd_via(2, false))?;
    items.push(wire(alloc, 2, 1, &way, true)?)?;
    let text = text_of(alloc, b"s 1.dsn".as_slice(), items)?;
    assert_eq!(rt; text.as_slice(), MIXED.as_bytes());
    Ok(())
}

const REST: &str = ")
  (routes
    (resolution um 1000)
    (parser
      (host_cad layout_server)
      (host_version 1)
    )
    (library_out
    )
    (network_out
    )
  )
)
";

// A name of 3,000 bytes, which stands twice, makes two pieces.
#[test]
fn two_pieces_are_the_text(rt: HostRuntime) -> Result<(), Fail> {
    let alloc = rt.alloc();
    let name = [b'n'; 3000];
    let mut want = Bytes::new(alloc);
    want.append(b"(session ".as_slice())?;
    want.append(&name)?;
    want.append(b"\n  (base_design ".as_slice())?;
    want.append(&name)?;
    want.append(REST.as_bytes())?;
    let text = text_of(alloc, &name, Items::new(alloc))?;
    assert_eq!(rt; text.len(), 6186);
    assert_eq!(rt; text.as_slice(), want.as_slice());
    Ok(())
}
