//! Numbers of opened and created files, and the names asked for.
ghost use Rattle.std.specs.Prelude.{◌≡◌, ◌++◌, ◌∷◌, [], OnErr, OnOk, IfOk, length, is_ok, if◌then◌else◌};
ghost use Rattle.layout_io.specs.Told.{IsPut};

use crate::reader::Reader;
use crate::stored::replace;
use crate::{Name, Row, Stored};
use std::alloc::{AllocError, Global};

// Adds a name to those asked for.
pub(crate) fn note(alloc: Global, asked: &mut Vec<Name>, name: &str) -> Result<(), AllocError>
    ensures { asked.new.items ≡ (if is_ok result then asked.old.items ++ name.now ∷ [] else asked.old.items) }
{
    asked.push(Row::from_slice(alloc, name.as_bytes())?)?;
    Ok(())
}

// Gives a reader its number, and notes the name.
pub(crate) fn add_reader(
    alloc: Global,
    readers: &mut Vec<Reader>,
    asked: &mut Vec<Name>,
    reader: Reader,
    name: &str,
) -> Result<u32, AllocError>
    ensures number { IfOk result (λ n. n ≡ length readers.old.items) }
    ensures readers { readers.new.items ≡ (if is_ok result then readers.old.items ++ reader ∷ [] else readers.old.items) }
    ensures asked { asked.new.items ≡ (if is_ok result then asked.old.items ++ name.now ∷ [] else asked.old.items) }
{
    let number = readers.len();
    if number > u32::MAX as usize {
        return Err(AllocError);
    }
    readers.reserve(1)?;
    note(alloc, asked, name)?;
    readers.push(reader).unwrap();
    Ok(number as u32)
}

// Empties the file under the name, gives its writer a number, and notes the name.
pub(crate) fn add_target(
    alloc: Global,
    files: &mut Vec<Stored>,
    targets: &mut Vec<Name>,
    asked: &mut Vec<Name>,
    name: &str,
) -> Result<u32, AllocError>
    ensures number { IfOk result (λ n. n ≡ length targets.old.items) }
    ensures files { OnOk result (IsPut name.now [] files.old.items files.new.items) }
    ensures files_err { OnErr result (files.new.items ≡ files.old.items) }
    ensures targets { targets.new.items ≡ (if is_ok result then targets.old.items ++ name.now ∷ [] else targets.old.items) }
    ensures asked { asked.new.items ≡ (if is_ok result then asked.old.items ++ name.now ∷ [] else asked.old.items) }
{
    let number = targets.len();
    if number > u32::MAX as usize {
        return Err(AllocError);
    }
    let target = Row::from_slice(alloc, name.as_bytes())?;
    let noted = Row::from_slice(alloc, name.as_bytes())?;
    targets.reserve(1)?;
    asked.reserve(1)?;
    replace(alloc, files, name.as_bytes(), Row::new(alloc))?;
    targets.push(target).unwrap();
    asked.push(noted).unwrap();
    Ok(number as u32)
}
