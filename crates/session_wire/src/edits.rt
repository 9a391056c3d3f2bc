//! Edits of a line.
ghost use Rattle.std.specs.Prelude.{◌≡◌, ◌++◌, codes, IfOk, IfErr, ℕ, List};
ghost use Rattle.board_items.specs.Formed.{IsFormed};
ghost use Rattle.session_wire.specs.Words.{EndsWord};
ghost use Rattle.session_wire.specs.Requests.{next_request_text};
ghost use Rattle.session_wire.specs.Parts.{Then, Begins, WhyHalts};

use crate::adds::counted_adds_at;
use crate::deletes::deletes_at;
use crate::faults::Halt;
use board_items::Request;
use std::alloc::Global;

// The edit behind its word, and what follows it.
pub(crate) fn edit_at(alloc: Global, line: &[u8]) -> Result<(Request, &[u8]), Halt>
    requires { EndsWord line.now }
    ensures ok { IfOk result (λ x. Then IsFormed next_request_text (codes " edit" ++ line.now) x.0 x.1.now) }
    ensures err { IfErr result (WhyHalts (λ t. Begins IsFormed next_request_text (codes " edit" ++ t)) line.now) }
{
    let (deletes, from_adds) = deletes_at(alloc, line)?;
    let (adds, rest) = counted_adds_at(alloc, from_adds)?;
    Ok((Request::Edit { deletes, adds }, rest))
}
