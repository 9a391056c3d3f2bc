//! The number of the client that a line begins with.
ghost use Rattle.std.specs.Prelude.{◌≡◌, ◌≤◌, IfOk, IfErr, ℕ, List};
ghost use Rattle.row_lists.specs.Limits.{client_limit};
ghost use Rattle.session_wire.specs.Words.{EndsWord};
ghost use Rattle.session_wire.specs.Numbers.{number_text, IsBetween};
ghost use Rattle.session_wire.specs.Parts.{Then, Begins, StopsAt};

use crate::numbers::number_at;
use row_lists::CLIENT_LIMIT;

// The next number of a client, and what follows it.
pub(crate) fn client_at(line: &[u8]) -> Result<(u8, &[u8]), usize>
    requires { EndsWord line.now }
    ensures ok { IfOk result (λ x. Then (IsBetween 1 client_limit) number_text line.now x.0 x.1.now) }
    ensures err { IfErr result (StopsAt (Begins (IsBetween 1 client_limit) number_text) line.now) }
{
    let (client, rest) = number_at(line, 1, u32::from(CLIENT_LIMIT))?;
    Ok((client as u8, rest))
}
