//! The shapes of copper, owned and borrowed.
ghost use Rattle.std.specs.Prelude.{◌≡◌, IfOk};
ghost use Rattle.area_geometry.specs.Copper.{copper_of, core_points, placed};

use row_lists::{Copied, Row};
use seg_geometry::{Points, Pt};
use std::alloc::{AllocError, Global};

/// What a shape has its width round.
#[derive(Debug, Drop)]
pub enum Core {
    /// The segments between neighbours among the points. A single point is a segment of length zero.
    Chain(Points),
    /// The area within the closed ring of the points.
    Area(Points),
}

/// A shape on one layer: all that is at most half the width from its core. The width is in nanometres.
#[derive(Debug, Drop)]
pub struct Shape {
    pub layer: u8,
    pub core: Core,
    pub width: u32,
}

/// A list of shapes.
pub type Shapes = Row<Shape>;

/// A borrowed shape, moved by `at`. Its points run round an area, or along a chain.
#[derive(Clone, Copy, Debug)]
pub struct ShapeView<'a> {
    pub layer: u8,
    pub area: bool,
    pub points: &'a [Pt],
    pub width: u32,
    pub at: Pt,
}

impl Copied for Core {
    fn copied(&self) -> Result<Core, AllocError> {
        match self {
            Core::Chain(points) => Ok(Core::Chain(points.copied()?)),
            Core::Area(points) => Ok(Core::Area(points.copied()?)),
        }
    }
}

impl Core {
    /// An equal core. Its one error is want of memory.
    pub fn copy(&self) -> Result<Core, AllocError>
        ensures { IfOk result (λ core. core ≡ self.now) }
    {
        self.copied()
    }
}

/// The points of a core.
pub fn points_of(core: &Core) -> &[Pt]
    ensures { result.now ≡ core_points core.now }
{
    match core {
        Core::Chain(points) => points.as_slice(),
        Core::Area(points) => points.as_slice(),
    }
}

impl Shape {
    /// The shape, borrowed and moved by a point, in nanometres.
    pub fn view(&self, at: Pt) -> ShapeView<'_>
        ensures { copper_of result ≡ placed at self.now }
    {
        let (area, points) = match &self.core {
            Core::Chain(points) => (false, points.as_slice()),
            Core::Area(points) => (true, points.as_slice()),
        };
        ShapeView {
            layer: self.layer,
            area,
            points,
            width: self.width,
            at,
        }
    }
}

impl Copied for Shape {
    fn copied(&self) -> Result<Shape, AllocError> {
        Ok(Shape {
            layer: self.layer,
            core: self.core.copied()?,
            width: self.width,
        })
    }
}

/// Equal shapes in the same order. Its one error is want of memory.
pub fn copy_shapes(_alloc: Global, shapes: &Shapes) -> Result<Shapes, AllocError>
    ensures { IfOk result (λ all. all ≡ shapes.now) }
{
    shapes.copy()
}
