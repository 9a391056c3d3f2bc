//! What an image of a library is.

use area_geometry::Shapes;
use board_items::KeepKind;
use dsn_lists::NameSet;
use row_lists::Row;
use seg_geometry::Pt;

/// A part of an image: a pin, or a keepout.
#[derive(Debug, Drop)]
pub enum ImagePart {
    /// A pin with the padstack of this number and the id of this one, turned by so many eighths and moved to `at` (nm).
    Pin {
        stack: usize,
        id: usize,
        eighths: u8,
        at: Pt,
    },
    Keep {
        kind: KeepKind,
        shapes: Shapes,
    },
}

/// The ids of an image's pins, each once, numbered from 0, and its pins and keepouts in the order of the text.
#[derive(Debug, Drop)]
pub struct Image {
    pub ids: NameSet,
    pub parts: Row<ImagePart>,
}

/// Images in the order of the text.
pub type Images = Row<Image>;
