//! What the class of a net asks of its wires and vias, and whether vias are in range.
ghost use Rattle.std.specs.Prelude.{◌≡◌, ◌↔◌, ◌<◌, length, All, IsTrue, map, slice_get, Some};
ghost use Rattle.std.specs.List.{AllByRecursion, Contains};
ghost use Rattle.seg_geometry.specs.Points.{IsInRange};
ghost use Rattle.area_geometry.specs.Copper.{Copper, core_points, moved, placed};
ghost use Rattle.area_geometry.specs.declared.shapes.Shape.{Shape};
ghost use Rattle.board_items.specs.Shapes.{shapes_of};
ghost use Rattle.board_rules.specs.Classes.{list_of, vias_of, width_of, class_of};

use crate::design::{ClassRow, Design};
use area_geometry::{Shape, points_of};
use seg_geometry::{Ids, Pt, in_range};

// Whether a padstack is in a class's list, or in the structure's where the class has none.
fn is_listed(own: &Option<Ids>, common: &Option<Ids>, padstack: u32) -> bool
    ensures { IsTrue result ↔ Contains (list_of own.now common.now) padstack }
{
    match own {
        Some(ids) => ids.as_slice().contains(&padstack),
        None => match common {
            Some(ids) => ids.as_slice().contains(&padstack),
            None => false,
        },
    }
}

// Whether a point that is moved by another is in range.
fn point_in_range(p: Pt, at: Pt) -> bool
    requires p_in { IsInRange p }
    requires at_in { IsInRange at }
    ensures { IsTrue result ↔ IsInRange (moved at p) }
{
    in_range(Pt {
        x: p.x + at.x,
        y: p.y + at.y,
    })
}

// Whether points that are moved by another are in range.
fn points_in_range(points: &[Pt], at: Pt) -> bool
    requires points_in { AllByRecursion IsInRange points.now }
    requires at_in { IsInRange at }
    ensures { IsTrue result ↔ All IsInRange (map (moved at) points.now) }
{
    for p in points {
        if !point_in_range(*p, at) {
            return false;
        }
    }
    true
}

// Whether all points of shapes that are moved by a point are in range.
fn shapes_in_range(shapes: &[Shape], at: Pt) -> bool
    requires shapes_in { AllByRecursion (λ (s : Shape). AllByRecursion IsInRange (core_points s.core)) shapes.now }
    requires at_in { IsInRange at }
    ensures { IsTrue result ↔ All (λ (s : Copper). All IsInRange s.points) (map (placed at) shapes.now) }
{
    for shape in shapes {
        if !points_in_range(points_of(&shape.core), at) {
            return false;
        }
    }
    true
}

impl Design {
    // The class of a net.
    fn class_row(&self, net: u32) -> &ClassRow
        requires { net < length self.now.parts.nets }
        ensures { slice_get self.now.parts.classes (class_of self.now.parts (Some net)) ≡ Some result.now }
    {
        let class = self.parts.nets.get(net as usize).class;
        self.parts.classes.get(class as usize)
    }

    // The class that holds where a net's own states nothing.
    fn structure_row(&self) -> &ClassRow
        ensures { slice_get self.now.parts.classes 0 ≡ Some result.now }
    {
        self.parts.classes.get(0)
    }

    // The least width of a net's wires, in nm.
    pub(crate) fn least_width(&self, net: u32) -> u32
        requires { net < length self.now.parts.nets }
        ensures { result ≡ width_of self.now.parts net }
    {
        match self.class_row(net).width {
            Some(width) => width,
            None => self.structure_row().width.unwrap_or(0),
        }
    }

    // Whether the vias of a net may have a padstack.
    pub(crate) fn may_have(&self, net: u32, padstack: u32) -> bool
        requires { net < length self.now.parts.nets }
        ensures { IsTrue result ↔ Contains (vias_of self.now.parts net) padstack }
    {
        let own = &self.class_row(net).vias;
        is_listed(own, &self.structure_row().vias, padstack)
    }

    // Whether all points of a via of this padstack are in range at a place.
    pub(crate) fn via_in_range(&self, padstack: u32, at: Pt) -> bool
        requires there { padstack < length self.now.parts.stacks }
        requires at_in { IsInRange at }
        ensures { IsTrue result ↔ All (λ (s : Copper). All IsInRange s.points) (map (placed at) (shapes_of (slice_get self.now.parts.stacks padstack))) }
    {
        let stack = self.parts.stacks.get(padstack as usize);
        shapes_in_range(stack.shapes.as_slice(), at)
    }
}
