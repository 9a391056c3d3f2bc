//! How much of the history an act takes up.
ghost use Rattle.std.specs.Prelude.{◌≡◌, ◌≤◌, ◌*◌, length, map};
ghost use Rattle.std.specs.List.{sum, AllByRecursion};
ghost use Rattle.row_lists.specs.Limits.{add_limit};
ghost use Rattle.board_items.specs.Formed.{IsFormed, IsFormedAdd, IsFormedAct};
ghost use Rattle.board_items.specs.Weights.{weight_of, weight_of_add, weight_of_request};

use crate::history::Act;
use crate::requests::{Add, Request};

fn add_weight(add: &Add) -> u32
    requires { IsFormedAdd add.now }
    ensures exact { result ≡ weight_of_add add.now }
    ensures most { result ≤ 516 }
{
    match add {
        Add::Wire { points, .. } => 4 + 2 * points.len() as u32,
        Add::Via { .. } => 4,
    }
}

fn adds_weight(adds: &[Add]) -> u32
    requires formed { AllByRecursion IsFormedAdd adds.now }
    requires few { length adds.now ≤ add_limit }
    ensures exact { result ≡ sum (map weight_of_add adds.now) }
    ensures most { result ≤ 516 * length adds.now }
{
    let mut weight = 0;
    for add in adds {
        weight += add_weight(add);
    }
    weight
}

fn request_weight(request: &Request) -> u32
    requires { IsFormed request.now }
    ensures { result ≡ weight_of_request request.now }
{
    match request {
        Request::Edit { deletes, adds } => {
            2 + deletes.len() as u32 + adds_weight(adds.as_slice())
        }
        Request::Reserve { .. } => 2,
        Request::Release { .. } => 2,
        Request::Fence {
            layers,
            area,
            clients,
        } => 3 + layers.len() as u32 + clients.len() as u32 + 2 * area.len() as u32,
        Request::Unfence { .. } => 2,
        Request::Entitle { .. } => 3,
        Request::Rule { .. } => 3,
    }
}

/// How much of the history an act takes up: an edit 2, plus 1 for each delete, 4 plus twice its points for each
/// wire and 4 for each via; a boundary 3 plus its layers, its clients and twice its points; an `entitle` and a
/// `rule` 3; all else 2.
pub fn weight(act: &Act) -> u32
    requires { IsFormedAct act.now }
    ensures { result ≡ weight_of act.now }
{
    match act {
        Act::Ask { request } => request_weight(request),
        Act::Leave => 2,
    }
}
