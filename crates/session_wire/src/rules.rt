//! Requests of a line that change a clearance.
ghost use Rattle.std.specs.Prelude.{◌≡◌, ◌++◌, codes, IfOk, IfErr, ℕ, List};
ghost use Rattle.board_items.specs.Formed.{IsFormed};
ghost use Rattle.session_wire.specs.Words.{EndsWord};
ghost use Rattle.session_wire.specs.Requests.{next_request_text};
ghost use Rattle.session_wire.specs.Parts.{Then, Begins, WhyHalts};

use crate::deletes::id_at;
use crate::faults::Halt;
use crate::numbers::number_at;
use board_items::Request;
use row_lists::WIDTH_LIMIT_NM;

// The class and its new clearance behind the word, and what follows them.
pub(crate) fn rule_at(line: &[u8]) -> Result<(Request, &[u8]), Halt>
    requires { EndsWord line.now }
    ensures ok { IfOk result (λ x. Then IsFormed next_request_text (codes " rule" ++ line.now) x.0 x.1.now) }
    ensures err { IfErr result (WhyHalts (λ t. Begins IsFormed next_request_text (codes " rule" ++ t)) line.now) }
{
    let (class, from_clearance) = id_at(line)?;
    let (clearance, rest) = number_at(from_clearance, 0, WIDTH_LIMIT_NM)?;
    Ok((Request::Rule { class, clearance }, rest))
}
