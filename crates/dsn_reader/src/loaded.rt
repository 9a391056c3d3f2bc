//! The loaded items of a design in the order of their numbers.
ghost use Rattle.std.specs.Prelude.{◌≡◌, ◌++◌, IfOk, OnOk};
ghost use Rattle.dsn_reader.specs.Assembly.{item_of, with_placed};

use board_items::{Item, Items};
use dsn_network::PinNets;
use dsn_placement::PlacedPart;
use row_lists::Row;
use std::alloc::AllocError;

// A pad with the net of its pin, or a keepout.
fn item_of(pins: &PinNets, placed: PlacedPart) -> Item
    ensures { result ≡ item_of pins.now placed }
{
    match placed {
        PlacedPart::Pad {
            component,
            pin,
            shapes,
            ..
        } => Item::Pad {
            net: pins.get(component, pin),
            shapes,
        },
        PlacedPart::Keep { kind, shapes } => Item::Keep { kind, shapes },
    }
}

// Puts the pads and keepouts of components behind the items that are there, each pad with the net of its pin. Its one
// error is want of memory.
#[tactic(auto, unfolding(crate::specs::Assembly::with_placed))]
fn put_placed(pins: &PinNets, items: &mut Items, parts: Vec<PlacedPart>) -> Result<(), AllocError>
    ensures { OnOk result (items.new ≡ with_placed pins.now items.old parts.items) }
{
    for part in parts {
        items.push(item_of(pins, part))?;
    }
    Ok(())
}

/// The keepouts of the structure, behind them the pads and keepouts of the components, each pad with the net of its pin,
/// and behind these the wiring. Its one error is want of memory.
pub fn loaded_items(
    keeps: Items,
    pins: &PinNets,
    parts: Row<PlacedPart>,
    wiring: Items,
) -> Result<Items, AllocError>
    ensures { IfOk result (λ items. items ≡ with_placed pins.now keeps parts ++ wiring) }
{
    let mut items = keeps;
    put_placed(pins, &mut items, parts.into_vec())?;
    items.append_all(wiring.into_vec())?;
    Ok(items)
}
