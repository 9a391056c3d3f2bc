//! An opened file in memory.
ghost use Rattle.std.specs.Prelude.{◌≡◌, ◌<◌, ◌≤◌, ◌++◌, ◌⊎◌, [], Some, None, IfOk, IfSome, IfNone, OnSome, MatchOption, length, min, take};
ghost use Rattle.layout_io.specs.Calls.{next_number, IsListed};
ghost use Rattle.layout_io.specs.Places.{rest_of};
ghost use Rattle.layout_io.specs.Told.{bytes_of};

use crate::Bytes;
use crate::calls::is_due;
use crate::stored::{Stored, place_of};
use std::alloc::AllocError;

/// An opened file: the bytes that it had, and how many of them were read.
#[derive(Drop)]
pub(crate) struct Reader {
    bytes: Bytes,
    at: usize,
}

impl Reader {
    // A reader of these bytes, from their front.
    pub(crate) fn new(bytes: Bytes) -> Reader
        ensures { rest_of result ≡ bytes }
    {
        Reader { bytes, at: 0 }
    }
}

// A reader of the file under the name, where there is one.
pub(crate) fn reader_of(files: &[Stored], name: &[u8]) -> Result<Option<Reader>, AllocError>
    ensures { IfOk result (λ o. MatchOption o (bytes_of files.now name.now ≡ None) (λ r. bytes_of files.now name.now ≡ Some (rest_of r))) }
{
    match place_of(files, name) {
        None => Ok(None),
        Some(i) => {
            let file = &files[i];
            let bytes = file.bytes.copy()?;
            Ok(Some(Reader { bytes, at: 0 }))
        }
    }
}

// Counts a call, and makes a reader of the file under the name, where there is one and the call is
// not to fail.
pub(crate) fn reader_for(
    calls: &mut u64,
    failing: &[u64],
    files: &[Stored],
    name: &[u8],
) -> Result<Option<Reader>, AllocError>
    ensures number { calls.new ≡ next_number calls.old }
    ensures due { IfOk result (λ o. IfNone o (IsListed failing.now calls.old ⊎ (bytes_of files.now name.now ≡ None))) }
    ensures free { IfOk result (λ o. OnSome o (¬ IsListed failing.now calls.old)) }
    ensures whole { IfOk result (λ o. IfSome o (λ r. bytes_of files.now name.now ≡ Some (rest_of r))) }
{
    if is_due(calls, failing) {
        return Ok(None);
    }
    reader_of(files, name)
}

// Reads on into the room.
pub(crate) fn read_on(reader: &mut Reader, into: &mut [u8]) -> usize
    ensures bound { result ≤ length into.new }
    ensures count { result ≡ min (length into.new) (length (rest_of reader.old)) }
    ensures taken { rest_of reader.old ≡ take result into.new ++ rest_of reader.new }
    ensures end { result ≡ 0 → 0 < length into.new → rest_of reader.old ≡ [] }
{
    let most = into.len();
    read_up_to(reader, into, most)
}

// Reads on into the front of the room, at most so many bytes.
pub(crate) fn read_up_to(reader: &mut Reader, into: &mut [u8], most: usize) -> usize
    ensures bound { result ≤ length into.new }
    ensures count { result ≡ min (min (length into.new) most) (length (rest_of reader.old)) }
    ensures taken { rest_of reader.old ≡ take result into.new ++ rest_of reader.new }
    ensures end { result ≡ 0 → 0 < length into.new → 0 < most → rest_of reader.old ≡ [] }
{
    let bytes = reader.bytes.as_slice();
    let start = reader.at.min(bytes.len());
    let (_, rest) = bytes.split_at(start);
    let count = rest.len().min(into.len()).min(most);
    let (front, _) = rest.split_at(count);
    into[..count].copy_from_slice(front);
    reader.at = start + count;
    count
}
