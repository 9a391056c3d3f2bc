//! The numbers of items that an edit deletes.
ghost use Rattle.std.specs.Prelude.{◌≡◌, ◌≤◌, IfOk, IfErr, ℕ, List};
ghost use Rattle.std.specs.List.{flat_map};
ghost use Rattle.row_lists.specs.Limits.{delete_limit};
ghost use Rattle.session_wire.specs.Words.{EndsWord};
ghost use Rattle.session_wire.specs.Numbers.{number_text, IsId};
ghost use Rattle.session_wire.specs.Parts.{Then, Begins, StopsAt, AreSo, AreThen, AreCounted, CountedThen, counted_text, WhyHalts};

use crate::faults::Halt;
use crate::numbers::number_at;
use row_lists::DELETE_LIMIT;
use seg_geometry::Ids;
use std::alloc::{AllocError, Global};

// The next number of an item, a net, a layer or a padstack, and what follows it.
pub(crate) fn id_at(line: &[u8]) -> Result<(u32, &[u8]), usize>
    requires { EndsWord line.now }
    ensures ok { IfOk result (λ x. Then IsId number_text line.now x.0 x.1.now) }
    ensures err { IfErr result (StopsAt (Begins IsId number_text) line.now) }
{
    number_at(line, 0, u32::MAX)
}

// So many numbers of items, and what follows them.
fn ids_at(alloc: Global, line: &[u8], count: u32) -> Result<(Ids, &[u8]), Halt>
    requires { EndsWord line.now }
    ensures ok { IfOk result (λ x. AreThen IsId number_text count line.now x.0 x.1.now) }
    ensures err { IfErr result (WhyHalts (Begins (AreSo count IsId) (flat_map number_text)) line.now) }
{
    let mut ids = Ids::new(alloc);
    let mut rest = line;
    for _turn in 0..count {
        let (id, following) = id_at(rest)?;
        ids.push(id)?;
        rest = following;
    }
    Ok((ids, rest))
}

// How many deletes an edit has, these, and what follows them.
pub(crate) fn deletes_at(alloc: Global, line: &[u8]) -> Result<(Ids, &[u8]), Halt>
    requires { EndsWord line.now }
    ensures ok { IfOk result (λ x. CountedThen IsId number_text 0 delete_limit line.now x.0 x.1.now) }
    ensures err { IfErr result (WhyHalts (Begins (AreCounted 0 delete_limit IsId) (counted_text number_text)) line.now) }
{
    let (count, rest) = number_at(line, 0, DELETE_LIMIT as u32)?;
    ids_at(alloc, rest, count)
}
