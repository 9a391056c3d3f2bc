//! One client's calls over a master for two clients, with a limit of 20.
ghost use Rattle.std.specs.Prelude.{◌≡◌, ◌<◌, [], true, false, IfOk, OnOk, length};
ghost use Rattle.std.specs.List.{AllByRecursion};
ghost use Rattle.seg_geometry.specs.Points.{IsInRange};
ghost use Rattle.board_items.specs.Formed.{IsFormed, IsFormedAdd};
ghost use Rattle.board_rules.specs.Designs.{IsSound, IsFitClass};

use crate::SerialMaster;
use board_items::{Add, Adds, ItemId, Items, Reply, Request, Stacks, Why};
use board_rules::{
    Areas, ClassRow, ClassRows, Design, Names, NetRow, NetRows, PairRows, Parts, StatedRows,
};
use client_desk::{Answers, ClientDesk, Place};
use desk_core::{Desk, Placed};
use row_lists::Row;
use seg_geometry::{Ids, Points, Pt};
use std::alloc::{AllocError, Global};
use std::marker::Brand;
use std::test::Fail;

fn one_class(alloc: Global) -> Result<ClassRows, AllocError>
    ensures count { IfOk result (λ all. length all ≡ 1) }
    ensures fit { IfOk result (AllByRecursion (IsFitClass 0)) }
{
    let mut classes = ClassRows::new(alloc);
    classes.push(ClassRow {
        name: Row::new(alloc),
        width: None,
        vias: None,
        clearances: StatedRows::new(alloc),
    })?;
    Ok(classes)
}

fn one_net(alloc: Global) -> Result<NetRows, AllocError>
    ensures classes { IfOk result (AllByRecursion (λ row. row.class < 1)) }
    ensures count { IfOk result (λ all. length all ≡ 1) }
{
    let name = Row::new(alloc);
    let mut nets = NetRows::new(alloc);
    nets.push(NetRow { name, class: 0 })?;
    Ok(nets)
}

// One layer, one net, and nothing on the board.
fn empty_parts(alloc: Global) -> Result<Parts, AllocError>
    ensures { IfOk result IsSound }
{
    let mut layers = Names::new(alloc);
    layers.push(Row::new(alloc))?;
    Ok(Parts {
        name: Row::new(alloc),
        layers,
        stacks: Stacks::new(alloc),
        nets: one_net(alloc)?,
        classes: one_class(alloc)?,
        pairs: PairRows::new(alloc),
        outline: Areas::new(alloc),
        items: Items::new(alloc),
    })
}

fn spot(x: u16, y: u16) -> Pt
    ensures { IsInRange result }
{
    Pt {
        x: i64::from(x) * 1_000,
        y: i64::from(y) * 1_000,
    }
}

// An edit of one wire of two points, which weighs 10.
fn wire(alloc: Global, y: u16) -> Result<Request, AllocError>
    ensures { IfOk result IsFormed }
{
    let mut adds = Adds::new(alloc);
    adds.push(Add::Wire {
        net: 0,
        layer: 0,
        width: 100_000,
        points: Points::from_slice(alloc, &[spot(0, y), spot(1_000, y)])?,
    })?;
    Ok(Request::Edit {
        deletes: Ids::new(alloc),
        adds,
    })
}

// A look, and then a request: how many entries came, and the answer.
fn turn<K: Desk>(desk: &mut K, request: Request) -> Result<(usize, Placed), AllocError>
    requires here { (K.told desk.old).left ≡ false }
    requires able { (K.told desk.old).ran_out ≡ false }
    requires formed { IsFormed request }
    ensures here { (K.told desk.new).left ≡ false }
    ensures able { OnOk result ((K.told desk.new).ran_out ≡ false) }
{
    let count = desk.look()?.len();
    let placed = desk.ask(request)?;
    Ok((count, placed))
}

// Two edits of one wire each, and two reservations of one item.
fn turns<K: Desk>(alloc: Global, desk: &mut K) -> Result<[(usize, Placed); 4], AllocError>
    requires here { (K.told desk.old).left ≡ false }
    requires able { (K.told desk.old).ran_out ≡ false }
    ensures here { (K.told desk.new).left ≡ false }
{
    Ok([
        turn(desk, wire(alloc, 0)?)?,
        turn(desk, wire(alloc, 1_000)?)?,
        turn(desk, Request::Reserve { id: ItemId(1) })?,
        turn(desk, Request::Reserve { id: ItemId(1) })?,
    ])
}

// What a client was handed out and answered, the number of its leave, and how many entries there are then.
#[derive(Drop)]
struct Sat {
    turns: [(usize, Placed); 4],
    number: u32,
    entries: usize,
}

fn sit<J: Place>(alloc: Global, master: SerialMaster) -> Result<Sat, AllocError>
    requires parts { master.parts ≡ J.parts }
    requires clients { master.clients ≡ J.clients }
    requires limit { master.limit ≡ J.limit }
    requires client { J.client ≡ 1 }
    requires two { master.clients ≡ 2 }
    requires empty { master.history ≡ [] }
{
    let mut desk: ClientDesk<SerialMaster, J> = ClientDesk::new(alloc, master, 1);
    let turns = turns(alloc, &mut desk);
    let number = desk.leave();
    let mut master = desk.into_master();
    let entries = master.look(0)?.len();
    let turns = turns?;
    Ok(Sat {
        turns,
        number,
        entries,
    })
}

// By hand: 10 and both leaves are 14; 10 more would be 24; 12 and both leaves are 16.
#[test]
fn a_client_is_answered_refused_and_full(rt: HostRuntime) -> Result<(), Fail> {
    let alloc = rt.alloc();
    let design = Design::of_parts(empty_parts(alloc)?)?;
    let sat = sit::<Brand>(alloc, SerialMaster::start(alloc, design, 2, 20)?)?;
    let id = ItemId(1);
    let why = Why::Reserved { id, client: 1 };
    let looks = [0, 1, 0, 1];
    let replies = [
        (1, Reply::Done { number: 1 }),
        (1, Reply::Full),
        (2, Reply::Done { number: 2 }),
        (2, Reply::No { why }),
    ];
    for (i, (place, reply)) in replies.iter().enumerate() {
        assert_eq!(rt; sat.turns[i].1.place, *place, "the place of answer {i}");
        assert_eq!(rt; sat.turns[i].1.reply, *reply, "answer {i}");
        assert_eq!(rt; sat.turns[i].0, looks[i], "what came before answer {i}");
    }
    assert_eq!(rt; sat.number, 3, "the leave");
    assert_eq!(rt; sat.entries, 3, "all entries");
    Ok(())
}
