//! The script: four lines for each net, each from four draws.
ghost use Rattle.std.specs.Prelude.{◌≡◌, ◌≤◌, ◌<◌, ◌*◌, ◌+◌, ◌++◌, ◌∷◌, [], pos, OnOk, IfOk};
ghost use Rattle.board_items.specs.declared.requests.Request.TheVariants as requests;
ghost use Rattle.session_wire.specs.declared.steps.ScriptStep.TheVariants as steps;
ghost use Rattle.session_wire.specs.Lines.{step_line};
ghost use Rattle.board_maker.specs.Scripts.{made_net_limit, wire_of, via_of, request_of, made_step, script_text};

use crate::draws::{Draws, Pick};
use board_items::{Add, Adds, Request};
use itoa::Buffer;
use layout_io::Bytes;
use seg_geometry::{Ids, Points, Pt};
use session_wire::{Message, write_message};
use std::alloc::{AllocError, Global};

// The width of a wire, and how far it goes to the right.
const WIDTH_NM: u32 = 100_000;

const LENGTH_NM: u32 = 900_000;

fn place(x: u32, y: u32) -> Pt
    ensures { result ≡ record { x = pos x; y = pos y } }
{
    Pt {
        x: i64::from(x),
        y: i64::from(y),
    }
}

fn wire(alloc: Global, net: u32, pick: Pick) -> Result<Add, AllocError>
    requires { pick.x < 50000000 }
    ensures { IfOk result (λ add. add ≡ wire_of net pick) }
{
    let mut points = Points::new(alloc);
    points.push(place(pick.x, pick.y))?;
    points.push(place(pick.x + LENGTH_NM, pick.y))?;
    Ok(Add::Wire {
        net,
        layer: pick.layer,
        width: WIDTH_NM,
        points,
    })
}

fn via(net: u32, pick: Pick) -> Add
    ensures { result ≡ via_of net pick }
{
    Add::Via {
        net,
        padstack: 0,
        at: place(pick.x, pick.y),
    }
}

// An edit that puts one thing on the board.
fn edit_of_add(alloc: Global, add: Add) -> Result<Request, AllocError>
    ensures { IfOk result (λ r. r ≡ requests.Edit [] (add ∷ [])) }
{
    let mut adds = Adds::new(alloc);
    adds.push(add)?;
    Ok(Request::Edit {
        deletes: Ids::new(alloc),
        adds,
    })
}

// An edit that takes one item away.
fn edit_of_delete(alloc: Global, id: u32) -> Result<Request, AllocError>
    ensures { IfOk result (λ r. r ≡ requests.Edit (id ∷ []) []) }
{
    let mut deletes = Ids::new(alloc);
    deletes.push(id)?;
    Ok(Request::Edit {
        deletes,
        adds: Adds::new(alloc),
    })
}

// What a line asks for.
fn request(alloc: Global, net: u32, line: u32, pick: Pick) -> Result<Request, AllocError>
    requires { pick.x < 50000000 }
    ensures { IfOk result (λ r. r ≡ request_of net line pick) }
{
    match pick.kind {
        0..=5 => edit_of_add(alloc, wire(alloc, net, pick)?),
        6 => edit_of_add(alloc, via(net, pick)),
        _ => edit_of_delete(alloc, 1 + line / 2),
    }
}

// A line of the script, with its line feed.
fn put_step(to: &mut Bytes, client: u32, request: Request) -> Result<(), AllocError>
    ensures { OnOk result (to.new ≡ to.old ++ step_line (steps.Do client request)) }
{
    let mut buffer = Buffer::new();
    to.append(b"do ".as_slice())?;
    to.append(buffer.format(client).as_bytes())?;
    to.append(b" ".as_slice())?;
    write_message(&Message::Ask { request }, to)
}

// The script for so many nets.
pub(crate) fn made_script(alloc: Global, nets: u32, number: u32) -> Result<Bytes, AllocError>
    requires some { 0 < nets }
    requires few { nets ≤ made_net_limit }
    ensures { IfOk result (λ made. made ≡ script_text nets number) }
{
    let mut made = Bytes::new(alloc);
    let mut draws = Draws { state: number };
    for line in 0..4 * nets {
        let pick = draws.pick();
        let asked = request(alloc, line % nets, line, pick)?;
        put_step(&mut made, 1 + line % 4, asked)?;
    }
    Ok(made)
}
