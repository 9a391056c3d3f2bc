//! Requests of a line about boundaries.
ghost use Rattle.std.specs.Prelude.{◌≡◌, ◌++◌, codes, IfOk, IfErr, ℕ, List};
ghost use Rattle.board_items.specs.Formed.{IsFormed};
ghost use Rattle.session_wire.specs.Words.{EndsWord};
ghost use Rattle.session_wire.specs.Requests.{next_request_text};
ghost use Rattle.session_wire.specs.Parts.{Then, Begins, WhyHalts};

use crate::deletes::id_at;
use crate::faults::Halt;
use crate::points::counted_points_at;
use crate::small_numbers::{counted_small_numbers_at, small_number_at};
use board_items::Request;
use row_lists::{CLIENT_LIMIT, LAYER_LIMIT};
use std::alloc::Global;

// The points of a boundary.
const AREA_POINT_LIMIT: u32 = 256;

// The boundary behind its word, and what follows it.
pub(crate) fn fence_at(alloc: Global, line: &[u8]) -> Result<(Request, &[u8]), Halt>
    requires { EndsWord line.now }
    ensures ok { IfOk result (λ x. Then IsFormed next_request_text (codes " fence" ++ line.now) x.0 x.1.now) }
    ensures err { IfErr result (WhyHalts (λ t. Begins IsFormed next_request_text (codes " fence" ++ t)) line.now) }
{
    let (layers, from_area) = counted_small_numbers_at(alloc, line, 1, LAYER_LIMIT as u32)?;
    let (area, from_clients) = counted_points_at(alloc, from_area, 0, AREA_POINT_LIMIT)?;
    let (clients, rest) = counted_small_numbers_at(alloc, from_clients, 0, CLIENT_LIMIT as u32)?;
    let fence = Request::Fence {
        layers,
        area,
        clients,
    };
    Ok((fence, rest))
}

// The boundary that is taken away, behind the word, and what follows it.
pub(crate) fn unfence_at(line: &[u8]) -> Result<(Request, &[u8]), Halt>
    requires { EndsWord line.now }
    ensures ok { IfOk result (λ x. Then IsFormed next_request_text (codes " unfence" ++ line.now) x.0 x.1.now) }
    ensures err { IfErr result (WhyHalts (λ t. Begins IsFormed next_request_text (codes " unfence" ++ t)) line.now) }
{
    let (fence, rest) = id_at(line)?;
    Ok((Request::Unfence { fence }, rest))
}

// The boundary and the client that is let into it, behind the word, and what follows them.
pub(crate) fn entitle_at(line: &[u8]) -> Result<(Request, &[u8]), Halt>
    requires { EndsWord line.now }
    ensures ok { IfOk result (λ x. Then IsFormed next_request_text (codes " entitle" ++ line.now) x.0 x.1.now) }
    ensures err { IfErr result (WhyHalts (λ t. Begins IsFormed next_request_text (codes " entitle" ++ t)) line.now) }
{
    let (fence, from_client) = id_at(line)?;
    let (client, rest) = small_number_at(from_client)?;
    Ok((Request::Entitle { fence, client }, rest))
}
