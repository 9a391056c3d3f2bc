//! What follows from the definitions alone.
ghost use Rattle.std.specs.Prelude.{◌≡◌, ◌≤◌, ◌*◌, ℕ, [], List, length};
ghost use Rattle.std.specs.List.Sorted.{IsStrictlyIncreasing};
ghost use Rattle.number_slots.specs.Slots.{is_among};
ghost use Rattle.seg_geometry.specs.declared.points.Pt.{Pt};
ghost use Rattle.area_geometry.specs.Copper.{Copper};
ghost use Rattle.board_items.specs.Segments.{segments_in};
ghost use Rattle.boundaries.specs.Boundaries.{Boundary, with_clients};
ghost use Rattle.boundaries.specs.Costs.{boundary_most, overlap_most};

/// The entitled clients of a new boundary rise, each stands once, and they are those that were named.
pub fn entitled_clients_rise_and_stand_once()
    ensures rising { (clients : List ℕ) → IsStrictlyIncreasing (with_clients clients []) }
    ensures same { (clients : List ℕ) (c : ℕ) → is_among c (with_clients clients []) ≡ is_among c clients }
{}

/// Boxes only save steps: there is at most one for each segment or edge and each edge of a boundary's area.
pub fn boxes_only_save_steps()
    ensures touching { (shapes : List Copper) (b : Boundary) → boundary_most shapes b ≤ segments_in shapes * length b.area }
    ensures overlapping { (layers : List ℕ) (area : List Pt) (b : Boundary) → overlap_most layers area b ≤ length area * length b.area }
{}
