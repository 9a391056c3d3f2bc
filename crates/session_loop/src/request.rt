//! A request's answer: the entries up to its place, and the reply.
ghost use Rattle.std.specs.Prelude.{◌≡◌, ◌≤◌, ◌+◌, ◌-◌, ◌++◌, ◌∷◌, [], List, ℕ, false, true, min, length, take, drop, IfOk, OnOk, OnErr};
ghost use Rattle.std.specs.List.{flat_map, AllByRecursion};
ghost use Rattle.board_items.specs.declared.history.Entry.{Entry};
ghost use Rattle.board_items.specs.Formed.{IsFormed};
ghost use Rattle.session_wire.specs.Lines.{entry_line, reply_line};
ghost use Rattle.desk_core.specs.declared.desk.Answer.{Answer};
ghost use Rattle.desk_core.specs.Desks.{IsShown, answers_after};
ghost use Rattle.session_loop.specs.Turns.{Grew, IsAhead, IsAnswered, AnsweredAtMost, IsEarly, IsLate};

use crate::turn::Ahead;
use board_items::{Entries, Entry, Reply, Request};
use client_feed::feed_since;
use desk_core::{Desk, Placed};
use layout_io::{Bytes, Row};
use session_wire::write_reply;
use std::alloc::{AllocError, Global};
use std::mem;

// The next entries, which are counted.
fn look_on<K: Desk>(desk: &mut K, count: &mut usize) -> Result<Entries, AllocError>
    requires here { (K.told desk.old).left ≡ false }
    requires able { (K.told desk.old).ran_out ≡ false }
    ensures entries { IfOk result (λ es. ((K.told desk.new).handed ≡ (K.told desk.old).handed ++ es) × (count.new ≡ count.old + length es)) }
    ensures grew { Grew (K.told desk.old).handed (K.told desk.new).handed }
    ensures reaches { OnOk result (AllByRecursion (IsShown (K.told desk.new).handed) (K.told desk.old).answers) }
    ensures answers { (K.told desk.new).answers ≡ (K.told desk.old).answers }
    ensures looked { OnOk result ((K.told desk.new).looked ≡ true) }
    ensures able { OnOk result ((K.told desk.new).ran_out ≡ false) }
    ensures here { (K.told desk.new).left ≡ false }
{
    let entries = desk.look()?;
    let Some(sum) = count.checked_add(entries.len()) else {
        return Err(AllocError);
    };
    *count = sum;
    Ok(entries)
}

// How many entries these are. More than a number of an entry can tell are want of memory.
fn count_of(entries: &[Entry]) -> Result<u32, AllocError>
    ensures { IfOk result (λ count. count ≡ length entries.now) }
{
    match u32::try_from(entries.len()) {
        Ok(count) => Ok(count),
        Err(_) => Err(AllocError),
    }
}

// Appends the lines of all these entries.
fn put_entries(out: &mut Bytes, entries: &[Entry]) -> Result<(), AllocError>
    ensures { OnOk result (out.new ≡ out.old ++ flat_map entry_line entries.now) }
{
    let count = count_of(entries)?;
    feed_since(entries, 0, count, out)
}

// Looks, and then has the request answered.
fn ask_on<K: Desk>(desk: &mut K, ahead: &mut Ahead, request: Request) -> Result<Placed, AllocError>
    requires here { (K.told desk.old).left ≡ false }
    requires able { (K.told desk.old).ran_out ≡ false }
    requires formed { IsFormed request }
    ensures early { IfOk result (IsEarly (K.told desk.old).handed (K.told desk.new).handed ahead.old ahead.new) }
    ensures grew { Grew (K.told desk.old).handed (K.told desk.new).handed }
    ensures answers { (K.told desk.new).answers ≡ answers_after (K.told desk.old).answers request result }
    ensures able { OnOk result ((K.told desk.new).ran_out ≡ false) }
    ensures here { (K.told desk.new).left ≡ false }
{
    let entries = look_on(desk, &mut ahead.count)?;
    put_entries(&mut ahead.lines, entries.as_slice())?;
    desk.ask(request)
}

// The lines of these entries.
fn lines_of(alloc: Global, entries: &[Entry]) -> Result<Bytes, AllocError>
    ensures { IfOk result (λ lines. lines ≡ flat_map entry_line entries.now) }
{
    let mut lines = Row::new(alloc);
    put_entries(&mut lines, entries)?;
    Ok(lines)
}

// The kept lines, those of the first of the late entries, and the reply. The others' lines are kept.
fn put_answer(
    alloc: Global,
    ahead: &mut Ahead,
    late: &[Entry],
    due: usize,
    reply: Reply,
) -> Result<Bytes, AllocError>
    requires { due ≤ length late.now }
    ensures text { IfOk result (λ text. text ≡ ahead.old.lines ++ flat_map entry_line (take due late.now) ++ reply_line reply) }
    ensures lines { OnOk result (ahead.new.lines ≡ flat_map entry_line (drop due late.now)) }
    ensures count { ahead.new.count ≡ ahead.old.count }
{
    let (now, later) = late.split_at(due);
    let kept = lines_of(alloc, later)?;
    let mut text = mem::replace(&mut ahead.lines, kept);
    put_entries(&mut text, now)?;
    write_reply(&reply, &mut text)?;
    Ok(text)
}

// Looks up to the place of the answer, and puts its text together.
fn finish<K: Desk>(
    alloc: Global,
    desk: &mut K,
    ahead: &mut Ahead,
    placed: Placed,
) -> Result<Bytes, AllocError>
    requires here { (K.told desk.old).left ≡ false }
    requires able { (K.told desk.old).ran_out ≡ false }
    ensures late { IfOk result (IsLate placed (K.told desk.old).handed (K.told desk.new).handed ahead.old ahead.new) }
    ensures grew { Grew (K.told desk.old).handed (K.told desk.new).handed }
    ensures reaches { OnOk result (AllByRecursion (IsShown (K.told desk.new).handed) (K.told desk.old).answers) }
    ensures answers { (K.told desk.new).answers ≡ (K.told desk.old).answers }
    ensures able { OnOk result ((K.told desk.new).ran_out ≡ false) }
    ensures here { (K.told desk.new).left ≡ false }
{
    let before = ahead.count;
    let late = look_on(desk, &mut ahead.count)?;
    let due = (placed.place as usize)
        .saturating_sub(before)
        .min(late.len());
    put_answer(alloc, ahead, late.as_slice(), due, placed.reply)
}

/// Has the request answered, and gives the reply and the text of the answer.
pub(crate) fn answer<K: Desk>(
    alloc: Global,
    desk: &mut K,
    ahead: &mut Ahead,
    request: Request,
) -> Result<(Reply, Bytes), AllocError>
    requires here { (K.told desk.old).left ≡ false }
    requires able { (K.told desk.old).ran_out ≡ false }
    requires formed { IsFormed request }
    ensures answered { IfOk result (λ x. (k : ℕ) → IsAhead ahead.old (K.told desk.old).handed k → IsAnswered request k (K.told desk.new).handed (K.told desk.old).answers (K.told desk.new).answers ahead.new x.0 x.1) }
    ensures at_most { OnErr result (AnsweredAtMost request (K.told desk.old).answers (K.told desk.new).answers) }
    ensures grew { Grew (K.told desk.old).handed (K.told desk.new).handed }
    ensures able { OnOk result ((K.told desk.new).ran_out ≡ false) }
    ensures here { (K.told desk.new).left ≡ false }
{
    let placed = ask_on(desk, ahead, request)?;
    let text = finish(alloc, desk, ahead, placed)?;
    Ok((placed.reply, text))
}
