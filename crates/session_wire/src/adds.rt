//! The adds of an edit.
ghost use Rattle.std.specs.Prelude.{◌≡◌, ◌≤◌, ◌++◌, codes, IfOk, IfErr, ℕ, List};
ghost use Rattle.std.specs.List.{flat_map};
ghost use Rattle.board_items.specs.Formed.{IsFormedAdd};
ghost use Rattle.row_lists.specs.Limits.{add_limit};
ghost use Rattle.session_wire.specs.Words.{EndsWord};
ghost use Rattle.session_wire.specs.Adds.{next_add_text};
ghost use Rattle.session_wire.specs.Parts.{Then, Begins, StopsAt, AreSo, AreThen, AreCounted, CountedThen, counted_text, WhyHalts};

use crate::deletes::id_at;
use crate::faults::Halt;
use crate::numbers::number_at;
use crate::points::{counted_points_at, point_at};
use crate::words::{is_word, word_at};
use board_items::{Add, Adds};
use row_lists::{ADD_LIMIT, WIDTH_LIMIT_NM, WIRE_POINT_LIMIT};
use std::alloc::{AllocError, Global};

// The wire behind its word, and what follows it.
fn wire_at(alloc: Global, line: &[u8]) -> Result<(Add, &[u8]), Halt>
    requires { EndsWord line.now }
    ensures ok { IfOk result (λ x. Then IsFormedAdd next_add_text (codes " wire" ++ line.now) x.0 x.1.now) }
    ensures err { IfErr result (WhyHalts (λ t. Begins IsFormedAdd next_add_text (codes " wire" ++ t)) line.now) }
{
    let (net, from_layer) = id_at(line)?;
    let (layer, from_width) = id_at(from_layer)?;
    let (width, from_points) = number_at(from_width, 1, WIDTH_LIMIT_NM)?;
    let (points, rest) = counted_points_at(alloc, from_points, 2, WIRE_POINT_LIMIT as u32)?;
    let add = Add::Wire {
        net,
        layer,
        width,
        points,
    };
    Ok((add, rest))
}

// The via behind its word, and what follows it.
fn via_at(line: &[u8]) -> Result<(Add, &[u8]), usize>
    requires { EndsWord line.now }
    ensures ok { IfOk result (λ x. Then IsFormedAdd next_add_text (codes " via" ++ line.now) x.0 x.1.now) }
    ensures err { IfErr result (StopsAt (λ t. Begins IsFormedAdd next_add_text (codes " via" ++ t)) line.now) }
{
    let (net, from_padstack) = id_at(line)?;
    let (padstack, from_place) = id_at(from_padstack)?;
    let (at, rest) = point_at(from_place)?;
    Ok((Add::Via { net, padstack, at }, rest))
}

// The next add, and what follows it.
fn add_at(alloc: Global, line: &[u8]) -> Result<(Add, &[u8]), Halt>
    requires { EndsWord line.now }
    ensures ok { IfOk result (λ x. Then IsFormedAdd next_add_text line.now x.0 x.1.now) }
    ensures err { IfErr result (WhyHalts (Begins IsFormedAdd next_add_text) line.now) }
{
    let Some((word, rest)) = word_at(line) else {
        return Err(Halt::Left { left: 0 });
    };
    if is_word(word, b"wire") {
        return wire_at(alloc, rest);
    }
    if is_word(word, b"via") {
        let (via, following) = via_at(rest)?;
        return Ok((via, following));
    }
    Err(Halt::Left {
        left: line.len() - 1,
    })
}

// So many adds, and what follows them.
fn adds_at(alloc: Global, line: &[u8], count: u32) -> Result<(Adds, &[u8]), Halt>
    requires { EndsWord line.now }
    ensures ok { IfOk result (λ x. AreThen IsFormedAdd next_add_text count line.now x.0 x.1.now) }
    ensures err { IfErr result (WhyHalts (Begins (AreSo count IsFormedAdd) (flat_map next_add_text)) line.now) }
{
    let mut adds = Adds::new(alloc);
    let mut rest = line;
    for _turn in 0..count {
        let (add, following) = add_at(alloc, rest)?;
        adds.push(add)?;
        rest = following;
    }
    Ok((adds, rest))
}

// How many adds an edit has, these, and what follows them.
pub(crate) fn counted_adds_at(alloc: Global, line: &[u8]) -> Result<(Adds, &[u8]), Halt>
    requires { EndsWord line.now }
    ensures ok { IfOk result (λ x. CountedThen IsFormedAdd next_add_text 0 add_limit line.now x.0 x.1.now) }
    ensures err { IfErr result (WhyHalts (Begins (AreCounted 0 add_limit IsFormedAdd) (counted_text next_add_text)) line.now) }
{
    let (count, rest) = number_at(line, 0, ADD_LIMIT as u32)?;
    adds_at(alloc, rest, count)
}
