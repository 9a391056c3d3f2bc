//! Lists of bytes, and files in memory, each known by its name.
ghost use Rattle.std.specs.Prelude.{◌≡◌, OnErr, OnOk};
ghost use Rattle.std.specs.Str.{bytes_eq};
ghost use Rattle.std.specs.List.{position};
ghost use Rattle.layout_io.specs.Told.{IsGrown, IsPut};

use row_lists::Row;
use std::alloc::{AllocError, Global};

/// Bytes in order.
pub type Bytes = Row<u8>;

/// The bytes of a name, which need not be UTF-8.
pub type Name = Row<u8>;

/// A file in memory.
#[derive(Debug, Drop)]
pub struct Stored {
    pub name: Name,
    pub bytes: Bytes,
}

// The place of the file under the name, where there is one.
pub(crate) fn place_of(files: &[Stored], name: &[u8]) -> Option<usize>
    ensures { result ≡ position (λ f. bytes_eq f.name name.now) files.now }
{
    files.iter().position(|f| f.name.as_slice() == name)
}

// Puts a piece at the end of the file under the name, where there is one.
pub(crate) fn grow(files: &mut Vec<Stored>, name: &[u8], piece: &[u8]) -> Result<(), AllocError>
    ensures ok { OnOk result (IsGrown name.now piece.now files.old.items files.new.items) }
    ensures err { OnErr result (files.new.items ≡ files.old.items) }
{
    match place_of(files, name) {
        None => Ok(()),
        Some(i) => {
            let file = &mut files[i];
            file.bytes.append(piece)
        }
    }
}

// Puts these bytes under the name, in place of those that are there.
pub(crate) fn replace(
    alloc: Global,
    files: &mut Vec<Stored>,
    name: &[u8],
    bytes: Bytes,
) -> Result<(), AllocError>
    ensures ok { OnOk result (IsPut name.now bytes files.old.items files.new.items) }
    ensures err { OnErr result (files.new.items ≡ files.old.items) }
{
    match place_of(files, name) {
        None => {
            let name = Row::from_slice(alloc, name)?;
            files.push(Stored { name, bytes })?;
            Ok(())
        }
        Some(i) => {
            let file = &mut files[i];
            file.bytes = bytes;
            Ok(())
        }
    }
}
