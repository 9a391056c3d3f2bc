//! Entries and replies as lines of text.
ghost use Rattle.std.specs.Prelude.{◌≡◌, ◌++◌, ◌∷◌, [], OnOk, codes, List, ℕ};
ghost use Rattle.session_wire.specs.Numbers.{number_text};
ghost use Rattle.session_wire.specs.Requests.{request_text};
ghost use Rattle.session_wire.specs.Replies.{reply_text};
ghost use Rattle.session_wire.specs.Lines.{act_text, entry_text, entry_line, reply_line};

use crate::put_parts::put_number;
use crate::put_replies::put_reply;
use crate::put_requests::put_request;
use board_items::{Act, Entry, Reply};
use layout_io::Bytes;
use std::alloc::AllocError;

fn put_act(to: &mut Bytes, act: &Act) -> Result<(), AllocError>
    ensures { OnOk result (to.new ≡ to.old ++ act_text act.now) }
{
    match act {
        Act::Ask { request } => put_request(to, request),
        Act::Leave => to.append(b"leave".as_slice()),
    }
}

/// Appends an entry's line. After an `Err`, for want of memory, a front of it may have been appended.
pub fn write_entry(entry: &Entry, to: &mut Bytes) -> Result<(), AllocError>
    ensures { OnOk result (to.new ≡ to.old ++ entry_line entry.now) }
{
    to.append(b"entry".as_slice())?;
    put_number(to, u64::from(entry.number))?;
    put_number(to, u64::from(entry.client))?;
    to.append(b" ".as_slice())?;
    put_act(to, &entry.act)?;
    to.append(b"\n".as_slice())
}

/// Appends a reply's line. After an `Err`, for want of memory, a front of it may have been appended.
pub fn write_reply(reply: &Reply, to: &mut Bytes) -> Result<(), AllocError>
    ensures { OnOk result (to.new ≡ to.old ++ reply_line reply.now) }
{
    put_reply(to, *reply)?;
    to.append(b"\n".as_slice())
}
