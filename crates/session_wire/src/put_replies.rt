//! How reasons and replies are written.
ghost use Rattle.std.specs.Prelude.{◌≡◌, ◌++◌, OnOk, codes, List, ℕ};
ghost use Rattle.session_wire.specs.Replies.{one_text, two_text, why_text, reply_text};

use crate::put_parts::{put_one, put_two};
use board_items::{Reply, Why};
use layout_io::Bytes;
use std::alloc::AllocError;

fn put_why(to: &mut Bytes, why: Why) -> Result<(), AllocError>
    ensures { OnOk result (to.new ≡ to.old ++ why_text why) }
{
    match why {
        Why::Empty => to.append(b"empty".as_slice()),
        Why::Net { add } => put_one(to, b"net", add),
        Why::Layer { add } => put_one(to, b"layer", add),
        Why::Narrow { add } => put_one(to, b"narrow", add),
        Why::Padstack { add } => put_one(to, b"padstack", add),
        Why::Range { add } => put_one(to, b"range", add),
        Why::Outside { add } => put_one(to, b"outside", add),
        Why::Own { a, b } => put_two(to, b"own", a, b),
        Why::Repeated { id } => put_one(to, b"repeated", id.0),
        Why::Missing { id } => put_one(to, b"missing", id.0),
        Why::Fixed { id } => put_one(to, b"fixed", id.0),
        Why::Reserved { id, client } => put_two(to, b"reserved", id.0, u32::from(client)),
        Why::Protected { fence } => put_one(to, b"protected", fence),
        Why::Clash { add, id } => put_two(to, b"clash", add, id.0),
        Why::Unheld { id } => put_one(to, b"unheld", id.0),
        Why::Area => to.append(b"area".as_slice()),
        Why::FenceLayer { layer } => put_one(to, b"fencelayer", u32::from(layer)),
        Why::Client { client } => put_one(to, b"client", u32::from(client)),
        Why::Overlap { fence } => put_one(to, b"overlap", fence),
        Why::Covers { id } => put_one(to, b"covers", id.0),
        Why::NoFence { fence } => put_one(to, b"nofence", fence),
        Why::NotOwner { fence } => put_one(to, b"notowner", fence),
        Why::NoClass { class } => put_one(to, b"noclass", class),
        Why::Unclean { a, b } => put_two(to, b"unclean", a.0, b.0),
    }
}

pub(crate) fn put_reply(to: &mut Bytes, reply: Reply) -> Result<(), AllocError>
    ensures { OnOk result (to.new ≡ to.old ++ reply_text reply) }
{
    match reply {
        Reply::Done { number } => put_one(to, b"ok", number),
        Reply::No { why } => {
            to.append(b"no ".as_slice())?;
            put_why(to, why)
        }
        Reply::Full => to.append(b"full".as_slice()),
        Reply::Left { number } => put_one(to, b"left", number),
    }
}
