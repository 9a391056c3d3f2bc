//! What acts change of who holds what.
ghost use Rattle.std.specs.Prelude.{◌≡◌, ◌+◌, ◌<◌, ◌≤◌, ◌^◌, OnOk, OnErr, length};
ghost use Rattle.number_slots.specs.Slots.{there, without};
ghost use Rattle.reservations.specs.Held.{not_of};
ghost use Rattle.board_core.specs.Boards.{reserved, released_by};

use board_items::{Item, ItemId};
use number_slots::Slots;
use reservations::Held;
use std::alloc::AllocError;

/// Lets a client hold an item, where it is live and free. After an `Err`, for want of memory, all is as before.
pub fn reserve(
    items: &Slots<Item>,
    held: &mut Held,
    id: ItemId,
    client: u8,
) -> Result<(), AllocError>
    requires few { length held.old.pairs + 1 < 2 ^ 32 }
    ensures ok { OnOk result (held.new.pairs ≡ reserved (there 1 items.now) held.old.pairs id.0 client) }
    ensures err { OnErr result (held.new.pairs ≡ held.old.pairs) }
    ensures one { length held.new.pairs ≤ length held.old.pairs + 1 }
{
    if items.at(id.0).is_none() {
        return Ok(());
    }
    if held.holder(id).is_some() {
        return Ok(());
    }
    held.make_room()?;
    held.reserve(id, client);
    Ok(())
}

/// Frees an item, where this client holds it.
pub fn release(held: &mut Held, id: ItemId, client: u8)
    ensures pairs { held.new.pairs ≡ released_by id.0 client held.old.pairs }
    ensures fewer { length held.new.pairs ≤ length held.old.pairs }
{
    let Some(holder) = held.holder(id) else {
        return;
    };
    if holder != client {
        return;
    }
    held.release(id);
}

/// Frees the items of these numbers, whoever holds them.
pub fn release_all(held: &mut Held, ids: &[u32])
    ensures pairs { held.new.pairs ≡ without ids.now held.old.pairs }
    ensures fewer { length held.new.pairs ≤ length held.old.pairs }
{
    for id in ids {
        held.release(ItemId(*id));
    }
}

/// Frees all that a client holds.
pub fn release_client(held: &mut Held, client: u8)
    ensures pairs { held.new.pairs ≡ not_of client held.old.pairs }
    ensures fewer { length held.new.pairs ≤ length held.old.pairs }
{
    held.drop_client(client);
}
