use crate::{
    Act, Add, Adds, Entries, Entry, Item, ItemView, KeepKind, Padstack, Request, Stacks, is_fixed,
    item_of_add, shape_at, shape_count, view, view_add, weight,
};
use area_geometry::{Core, Shape, Shapes};
use layout_io::Name;
use row_lists::Copied;
use seg_geometry::{Points, Pt};
use std::alloc::{AllocError, Global};
use std::test::Fail;

fn two_points(alloc: Global) -> Result<Points, AllocError> {
    let mut points = Points::new(alloc);
    points.push(Pt { x: 0, y: 0 })?;
    points.push(Pt { x: 1_000_000, y: 0 })?;
    Ok(points)
}

// A circle of 600,000 nm round 0 0, on this layer.
fn circle(alloc: Global, layer: u8) -> Result<Shape, AllocError> {
    let mut points = Points::new(alloc);
    points.push(Pt { x: 0, y: 0 })?;
    Ok(Shape {
        layer,
        core: Core::Chain(points),
        width: 600_000,
    })
}

// By hand: layers above 255 make nothing, and a via names no layer.
#[test]
fn items_and_adds_are_seen_as_they_are(rt: HostRuntime) -> Result<(), Fail> {
    for (layer, there) in [(0, true), (255, true), (256, false)] {
        let add = Add::Wire {
            net: 3,
            layer,
            width: 250_000,
            points: two_points(rt.alloc())?,
        };
        assert_eq!(rt; view_add(&add).is_some(), there, "layer {layer}");
        assert_eq!(rt;
            item_of_add(&add)?.is_some(),
            there,
            "an item of its own on layer {layer}"
        );
    }
    let item = Item::Wire {
        net: 3,
        layer: 1,
        width: 250_000,
        points: two_points(rt.alloc())?,
        fix: true,
    };
    assert!(rt; is_fixed(view(&item)), "a fixed wire");
    Ok(())
}

// By hand: the padstack's second shape lies on layer 1, and the via's place is 500 -700.
#[test]
fn a_via_has_its_padstacks_shapes_at_its_place(rt: HostRuntime) -> Result<(), Fail> {
    let alloc = rt.alloc();
    let mut shapes = Shapes::new(alloc);
    shapes.push(circle(alloc, 0)?)?;
    shapes.push(circle(alloc, 1)?)?;
    let mut stacks = Stacks::new(alloc);
    stacks.push(Padstack {
        name: Name::from_slice(alloc, b"V".as_slice())?,
        shapes,
    })?;
    let at = Pt { x: 500, y: -700 };
    for (padstack, count) in [(0, 2), (1, 0)] {
        let via = ItemView::Via {
            net: 0,
            padstack,
            at,
            fix: false,
        };
        assert_eq!(rt; shape_count(via, &stacks), count, "padstack {padstack}");
    }
    let via = ItemView::Via {
        net: 0,
        padstack: 0,
        at,
        fix: false,
    };
    let shape = shape_at(via, &stacks, 1);
    assert_eq!(rt; (shape.layer, shape.width, shape.at), (1, 600_000, at));
    Ok(())
}

// By hand, of the format's weights.
#[test]
fn acts_weigh_what_they_are(rt: HostRuntime) -> Result<(), Fail> {
    let alloc = rt.alloc();
    let mut adds = Adds::new(alloc);
    adds.push(Add::Wire {
        net: 3,
        layer: 1,
        width: 250_000,
        points: two_points(alloc)?,
    })?;
    assert_eq!(rt; adds.copy()?.len(), 1, "copied adds");
    let request = Request::Entitle {
        fence: 1,
        client: 1,
    };
    let act = Act::Ask {
        request: request.copied()?,
    };
    assert_eq!(rt;
        (weight(&act), weight(&Act::Leave)),
        (3, 2),
        "a copied request, and a leave"
    );
    let rule = Request::Rule {
        class: 1,
        clearance: 100_000_000,
    };
    let changed = Act::Ask {
        request: rule.copied()?,
    };
    assert_eq!(rt; weight(&changed), 3, "a copied change of a clearance");
    let mut entries = Entries::new(alloc);
    entries.push(Entry {
        number: 1,
        client: 1,
        act,
    })?;
    assert_eq!(rt; entries.copy()?.get(0).client, 1, "a copied entry");
    let keep = Item::Keep {
        kind: KeepKind::Vias,
        shapes: Shapes::new(alloc),
    };
    assert!(rt; is_fixed(view(&keep.copied()?)), "a copied keepout");
    Ok(())
}
