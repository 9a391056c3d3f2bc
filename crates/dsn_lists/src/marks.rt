//! Names with the byte where they stand.

use layout_io::Name;
use row_lists::Row;

/// A name and the byte at which it stands, from 0.
#[derive(Debug, Drop)]
pub struct Mark {
    pub at: u32,
    pub name: Name,
}

/// Names in the order of the text.
pub type Marks = Row<Mark>;
