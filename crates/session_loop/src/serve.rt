//! A session from its first line to its end.
ghost use Rattle.std.specs.Prelude.{◌≡◌, List, ℕ, false, true, IfErr, OnOk};
ghost use Rattle.board_items.specs.declared.history.Entry.{Entry};
ghost use Rattle.layout_io.specs.Links.{Across};
ghost use Rattle.session_loop.specs.Sessions.{IsShort, IsFresh, Extends, ReachesEach, HasSession, HasEndCause, IsTimely};
ghost use Rattle.session_loop.specs.Turns.{Grew};
ghost use Rattle.session_loop.specs.Stops.{Start, IsGoing, HasStopped, OneRises, QuietBut, HasSaid, hello_turn, RisesAtFault, GreetTells, HasStopCause, IsQuietEnd, ToldMemory, HasTold};

use crate::SessionEnd;
use crate::hear::hear;
use crate::line::{hello_text, next_turn};
use crate::say::{say, write_all};
use crate::turn::{Ahead, Then, Turn};
use desk_core::Desk;
use layout_io::{Link, Row};
use session_wire::Feeder;
use std::alloc::Global;
use std::sync::Wait;

// Answers the whole lines that are kept.
fn answer_lines<K: Desk, L: Link>(
    alloc: Global,
    desk: &mut K,
    link: &mut L,
    feeder: &mut Feeder,
    ahead: &mut Ahead,
) -> Result<(), SessionEnd>
    requires here { (K.told desk.old).left ≡ false }
    requires able { (K.told desk.old).ran_out ≡ false }
    ensures going { OnOk result ((s : Start) → IsGoing s feeder.old ahead.old (K.told desk.old) (L.told link.old) → IsGoing s feeder.new ahead.new (K.told desk.new) (L.told link.new)) }
    ensures short { OnOk result (IsShort feeder.new) }
    ensures stopped { IfErr result (λ end. (s : Start) (journal : List Entry) → (L.told link.old).write_faults ≡ 0 → IsGoing s feeder.old ahead.old (K.told desk.old) (L.told link.old) → Extends (K.told desk.new).handed journal → HasStopped s end (K.told desk.new) (L.told link.new) journal) }
    ensures grew { Grew (K.told desk.old).handed (K.told desk.new).handed }
    ensures cause { OneRises (L.told link.old) (L.told link.new) result }
    ensures memory { QuietBut (L.told link.old).shortages (L.told link.new).shortages result }
    ensures timely { IsTimely (L.told link.old) (L.told link.new) }
    ensures able { OnOk result ((K.told desk.new).ran_out ≡ false) }
    ensures here { (K.told desk.new).left ≡ false }
{
    'lines: loop {
        match next_turn(alloc, desk, feeder, ahead)? {
            None => return Ok(()),
            Some(turn) => say(link, &turn)?,
        }
    }
}

// Reads on, and answers the whole lines that are then kept.
fn go_on<K: Desk, L: Link>(
    alloc: Global,
    desk: &mut K,
    link: &mut L,
    feeder: &mut Feeder,
    ahead: &mut Ahead,
) -> Result<(), SessionEnd>
    requires here { (K.told desk.old).left ≡ false }
    requires able { (K.told desk.old).ran_out ≡ false }
    ensures going { OnOk result ((s : Start) → IsGoing s feeder.old ahead.old (K.told desk.old) (L.told link.old) → IsGoing s feeder.new ahead.new (K.told desk.new) (L.told link.new)) }
    ensures short { OnOk result (IsShort feeder.new) }
    ensures stopped { IfErr result (λ end. (s : Start) (journal : List Entry) → (L.told link.old).write_faults ≡ 0 → IsShort feeder.old → IsGoing s feeder.old ahead.old (K.told desk.old) (L.told link.old) → Extends (K.told desk.new).handed journal → HasStopped s end (K.told desk.new) (L.told link.new) journal) }
    ensures grew { Grew (K.told desk.old).handed (K.told desk.new).handed }
    ensures cause { OneRises (L.told link.old) (L.told link.new) result }
    ensures memory { QuietBut (L.told link.old).shortages (L.told link.new).shortages result }
    ensures timely { IsTimely (L.told link.old) (L.told link.new) }
    ensures able { OnOk result ((K.told desk.new).ran_out ≡ false) }
    ensures here { (K.told desk.new).left ≡ false }
{
    hear(link, feeder)?;
    answer_lines(alloc, desk, link, feeder, ahead)
}

// Writes the first line.
fn greet<L: Link>(alloc: Global, link: &mut L, client: u8, clients: u8) -> Result<(), SessionEnd>
    ensures greeted { Across (L.told link.old).wire (L.told link.new).wire (HasSaid (hello_turn client clients) result) }
    ensures cause { RisesAtFault (L.told link.old).write_faults (L.told link.new).write_faults result }
    ensures other_count { (L.told link.new).read_faults ≡ (L.told link.old).read_faults }
    ensures memory { GreetTells (L.told link.old) (L.told link.new) result }
    ensures timely { IsTimely (L.told link.old) (L.told link.new) }
{
    let text = hello_text(alloc, client, clients)?;
    say(
        link,
        &Turn {
            text,
            goes: Then::On,
        },
    )
}

// Greets, and goes on until the session stops.
fn talk<R: Wait, K: Desk, L: Link>(
    rt: &R,
    alloc: Global,
    desk: &mut K,
    link: &mut L,
    client: u8,
    clients: u8,
) -> SessionEnd
    requires here { (K.told desk.old).left ≡ false }
    requires able { (K.told desk.old).ran_out ≡ false }
    ensures stopped { (input : List ℕ) (journal : List Entry) → IsFresh input (L.told link.old) (K.told desk.old) → Extends (K.told desk.new).handed journal → HasStopped (record { client = client; clients = clients; input = input }) result (K.told desk.new) (L.told link.new) journal }
    ensures cause { HasStopCause result (L.told link.old) (L.told link.new) }
    ensures memory { IsQuietEnd result (L.told link.old).shortages (L.told link.new).shortages }
    ensures timely { IsTimely (L.told link.old) (L.told link.new) }
    ensures here { (K.told desk.new).left ≡ false }
{
    if let Err(end) = greet(alloc, link, client, clients) {
        return end;
    }
    let mut feeder = Feeder::new(alloc);
    let mut ahead = Ahead {
        count: 0,
        lines: Row::new(alloc),
    };
    'turns: for _turn in rt.forever() {
        if let Err(end) = go_on(alloc, desk, link, &mut feeder, &mut ahead) {
            return end;
        }
    }
    unreachable!()
}

// Writes the line `memory` as far as the link takes it.
fn tell_memory<L: Link>(link: &mut L)
    ensures told { ToldMemory (L.told link.old) (L.told link.new) }
    ensures other_count { (L.told link.new).read_faults ≡ (L.told link.old).read_faults }
    ensures timely { IsTimely (L.told link.old) (L.told link.new) }
{
    let _told = write_all(link, b"memory\n".as_slice());
}

// Writes what comes after the last answer.
fn tell_end<L: Link>(link: &mut L, end: SessionEnd)
    ensures told { HasTold end (L.told link.old) (L.told link.new) }
    ensures other_count { (L.told link.new).read_faults ≡ (L.told link.old).read_faults }
    ensures timely { IsTimely (L.told link.old) (L.told link.new) }
{
    match end {
        SessionEnd::Memory => tell_memory(link),
        _ => {}
    }
}

/// Answers the lines that come over the link, one after another, until the session ends, and leaves.
/// Each request has a look before it and one after it, and what the text of its answer needs is
/// written in one piece. It may wait as long as its input goes on, and as its desk waits.
pub fn serve_link<R: Wait, K: Desk, L: Link>(
    rt: &R,
    alloc: Global,
    desk: &mut K,
    link: &mut L,
    client: u8,
    clients: u8,
) -> SessionEnd
    requires here { (K.told desk.old).left ≡ false }
    requires able { (K.told desk.old).ran_out ≡ false }
    ensures session { (input : List ℕ) (journal : List Entry) → IsFresh input (L.told link.old) (K.told desk.old) → Extends (K.told desk.new).handed journal → ReachesEach (K.told desk.new).answers journal → HasSession client clients input (L.told link.new) result (K.told desk.new).answers journal }
    ensures cause { HasEndCause result (L.told link.old) (L.told link.new) }
    ensures timely { IsTimely (L.told link.old) (L.told link.new) }
    ensures left { (K.told desk.new).left ≡ true }
{
    let end = talk(rt, alloc, desk, link, client, clients);
    tell_end(link, end);
    desk.leave();
    end
}
