//! What acts change of boundaries.
ghost use Rattle.std.specs.Prelude.{◌≡◌, ◌+◌, ◌++◌, ◌<◌, ◌^◌, OnOk, OnErr};
ghost use Rattle.board_items.specs.Formed.{IsFormedFence};
ghost use Rattle.boundaries.specs.Boundaries.{IsSameFencing, boundary_of, fence_made};

use board_items::{Clients, Layers};
use boundaries::Fences;
use seg_geometry::Points;
use std::alloc::AllocError;

/// Draws a boundary under the next number. After an `Err`, for want of memory, all is as before.
pub fn draw(
    fences: &mut Fences,
    owner: u8,
    layers: &Layers,
    area: &Points,
    clients: &Clients,
) -> Result<(), AllocError>
    requires few { fences.old.last + 1 < 2 ^ 32 }
    requires formed { IsFormedFence layers.now area.now clients.now }
    ensures made { OnOk result (fences.new.fences ≡ fences.old.fences ++ fence_made (fences.old.last + 1) (boundary_of owner layers.now area.now clients.now)) }
    ensures last { OnOk result (fences.new.last ≡ fences.old.last + 1) }
    ensures err { OnErr result (IsSameFencing fences.old fences.new) }
{
    fences.make_room(area, layers)?;
    fences.fence(owner, layers, area, clients);
    Ok(())
}
