//! The first reason against a boundary that doesn't depend on the board.
ghost use Rattle.std.specs.Prelude.{ℕ, List, Option};
ghost use Rattle.board_rules.specs.Reasons.{IsLayerReason, IsClientReason, IsStaticReason};

use crate::design::Design;
use board_items::{Request, Why};
use seg_geometry::Pt;

// The first client that is 0 or greater than the number of clients.
fn client_why(clients: u8, entitled: &[u8]) -> Option<Why>
    ensures { IsClientReason clients entitled.now result }
{
    for client in entitled {
        if *client == 0 {
            return Some(Why::Client { client: *client });
        }
        if *client > clients {
            return Some(Why::Client { client: *client });
        }
    }
    None
}

impl Design {
    // The first layer that isn't there.
    fn layer_why(&self, layers: &[u8]) -> Option<Why>
        ensures { IsLayerReason self.now.parts layers.now result }
    {
        for layer in layers {
            if self.parts.layers.len() <= *layer as usize {
                return Some(Why::FenceLayer { layer: *layer });
            }
        }
        None
    }

    // The first reason against a boundary.
    pub(crate) fn fence_why(
        &self,
        layers: &[u8],
        area: &[Pt],
        entitled: &[u8],
        clients: u8,
    ) -> Option<Why>
        ensures { (rules : List (Option ℕ)) → IsStaticReason self.now.parts rules clients (Request.Fence layers.now area.now entitled.now) result }
    {
        if area.len() < 3 {
            return Some(Why::Area);
        }
        if let Some(why) = self.layer_why(layers) {
            return Some(why);
        }
        client_why(clients, entitled)
    }
}
