//! Requests of a line that name an item to be held or given back.
ghost use Rattle.std.specs.Prelude.{◌≡◌, ◌++◌, codes, IfOk, IfErr, ℕ, List};
ghost use Rattle.board_items.specs.Formed.{IsFormed};
ghost use Rattle.session_wire.specs.Words.{EndsWord};
ghost use Rattle.session_wire.specs.Requests.{next_request_text};
ghost use Rattle.session_wire.specs.Parts.{Then, Begins, WhyHalts};

use crate::deletes::id_at;
use crate::faults::Halt;
use board_items::{ItemId, Request};

// The reservation behind its word, and what follows it.
pub(crate) fn reserve_at(line: &[u8]) -> Result<(Request, &[u8]), Halt>
    requires { EndsWord line.now }
    ensures ok { IfOk result (λ x. Then IsFormed next_request_text (codes " reserve" ++ line.now) x.0 x.1.now) }
    ensures err { IfErr result (WhyHalts (λ t. Begins IsFormed next_request_text (codes " reserve" ++ t)) line.now) }
{
    let (id, rest) = id_at(line)?;
    Ok((Request::Reserve { id: ItemId(id) }, rest))
}

// The release behind its word, and what follows it.
pub(crate) fn release_at(line: &[u8]) -> Result<(Request, &[u8]), Halt>
    requires { EndsWord line.now }
    ensures ok { IfOk result (λ x. Then IsFormed next_request_text (codes " release" ++ line.now) x.0 x.1.now) }
    ensures err { IfErr result (WhyHalts (λ t. Begins IsFormed next_request_text (codes " release" ++ t)) line.now) }
{
    let (id, rest) = id_at(line)?;
    Ok((Request::Release { id: ItemId(id) }, rest))
}
