//! The text of live items by their nets, collected in one walk over them.
ghost use Rattle.std.specs.Prelude.{◌≡◌, ◌<◌, ◌^◌, ◌++◌, true, [], ℕ, OnOk, IfOk, length};
ghost use Rattle.board_items.specs.declared.items.Item.TheVariants as items;
ghost use Rattle.board_rules.specs.Designs.{NamesThere};
ghost use Rattle.board_core.specs.Boards.{IsBoardOf};
ghost use Rattle.ses_writer.specs.Routes.{stack_name, layer_name, wire_text, via_text};
ghost use Rattle.ses_writer.specs.Library.{stacks_text};
ghost use Rattle.ses_writer.specs.Session.{nets_text};
ghost use Rattle.ses_writer.specs.ByNet.{NoLists, GotItem, GotMark, HasLists, HasMarks, marked_text, listed_text};

use crate::vias::put_via;
use crate::wires::put_wire;
use board_core::Board;
use board_items::{Item, ItemId};
use board_rules::Design;
use layout_io::Bytes;
use seg_geometry::Pt;
use std::alloc::{AllocError, Global};

/// What is written of a net: whether it is listed, its wires and its vias.
#[derive(Debug, Drop)]
pub struct NetLists {
    pub listed: bool,
    pub wires: Bytes,
    pub vias: Bytes,
}

/// What is written of each net, and which padstacks are used, both in the design's order.
#[derive(Debug, Drop)]
pub struct Lists {
    pub nets: Vec<NetLists>,
    pub marks: Vec<bool>,
}

// The name of a layer, from 0.
fn layer_name_at(design: &Design, layer: u8) -> &[u8]
    requires { layer < length design.now.parts.layers }
    ensures { result.now ≡ layer_name design.now.parts layer }
{
    design.layer_name(u32::from(layer)).as_slice()
}

// The name of a padstack, from 0.
fn stack_name_at(design: &Design, padstack: u32) -> &[u8]
    requires { padstack < length design.now.parts.stacks }
    ensures { result.now ≡ stack_name design.now.parts padstack }
{
    design.stacks().get(padstack as usize).name.as_slice()
}

fn list_wire(
    list: &mut NetLists,
    layer: &[u8],
    width: u32,
    points: &[Pt],
    fix: bool,
) -> Result<(), AllocError>
    ensures { OnOk result (list.new ≡ record { listed = true; wires = list.old.wires ++ wire_text layer.now width points.now fix; vias = list.old.vias }) }
{
    list.listed = true;
    put_wire(&mut list.wires, layer, width, points, fix)
}

fn list_via(list: &mut NetLists, name: &[u8], place: Pt, fix: bool) -> Result<(), AllocError>
    ensures { OnOk result (list.new ≡ record { listed = true; wires = list.old.wires; vias = list.old.vias ++ via_text name.now place fix }) }
{
    list.listed = true;
    put_via(&mut list.vias, name, place, fix)
}

// Puts an item to the texts of its net.
fn list_item(nets: &mut Vec<NetLists>, design: &Design, item: &Item) -> Result<(), AllocError>
    requires there { NamesThere design.now.parts item.now }
    requires count { length nets.old.items ≡ length design.now.parts.nets }
    ensures { OnOk result (GotItem design.now.parts item.now nets.old.items nets.new.items) }
{
    match item {
        Item::Wire {
            net,
            layer,
            width,
            points,
            fix,
        } => {
            let layer = layer_name_at(design, *layer);
            let list = &mut nets[*net as usize];
            list_wire(list, layer, *width, points.as_slice(), *fix)
        }
        Item::Via {
            net,
            padstack,
            at,
            fix,
        } => {
            let name = stack_name_at(design, *padstack);
            let list = &mut nets[*net as usize];
            list_via(list, name, *at, *fix)
        }
        _ => Ok(()),
    }
}

// Marks the padstack of a via.
fn mark_item(marks: &mut Vec<bool>, design: &Design, item: &Item)
    requires there { NamesThere design.now.parts item.now }
    requires count { length marks.old.items ≡ length design.now.parts.stacks }
    ensures { GotMark item.now marks.old.items marks.new.items }
{
    if let Item::Via { padstack, .. } = item {
        marks[*padstack as usize] = true;
    }
}

// The texts of so many nets without items.
fn no_lists(alloc: Global, count: u32) -> Result<Vec<NetLists>, AllocError>
    ensures { IfOk result (λ lists. NoLists count lists.items) }
{
    let mut lists = Vec::new(alloc);
    for _net in 0..count {
        lists.push(NetLists {
            listed: false,
            wires: Bytes::new(alloc),
            vias: Bytes::new(alloc),
        })?;
    }
    Ok(lists)
}

// One walk over the live items, by their numbers.
fn collect(alloc: Global, design: &Design, board: &Board) -> Result<Lists, AllocError>
    requires { IsBoardOf design.now.parts board.now }
    ensures nets { IfOk result (λ l. HasLists design.now.parts board.now.live l.nets.items) }
    ensures marks { IfOk result (λ l. HasMarks design.now.parts board.now.live l.marks.items) }
{
    let mut nets = no_lists(alloc, design.net_count())?;
    let mut marks = vec![in alloc; false; design.stacks().len()]?;
    for id in 1..board.next_id() {
        if let Some(item) = board.item(ItemId(id)) {
            list_item(&mut nets, design, item)?;
            mark_item(&mut marks, design, item);
        }
    }
    Ok(Lists { nets, marks })
}

/// The texts of a board's items by their nets, and its padstacks in use, in one walk over the live items. Its one
/// error is want of memory.
#[tactic(auto, using(crate::proofs::Texts::marked_is, crate::proofs::Texts::listed_is))]
pub fn lists_of_board(alloc: Global, design: &Design, board: &Board) -> Result<Lists, AllocError>
    requires { IsBoardOf design.now.parts board.now }
    ensures nets_count { IfOk result (λ l. length l.nets.items ≡ length design.now.parts.nets) }
    ensures marks_count { IfOk result (λ l. length l.marks.items ≡ length design.now.parts.stacks) }
    ensures nets { IfOk result (λ l. listed_text l.nets.items design.now.parts.nets ≡ nets_text design.now.parts board.now.live 0 design.now.parts.nets) }
    ensures marks { IfOk result (λ l. marked_text design.now.parts l.marks.items design.now.parts.stacks ≡ stacks_text design.now.parts board.now.live 0 design.now.parts.stacks) }
{
    collect(alloc, design, board)
}
