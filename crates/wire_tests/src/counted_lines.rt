//! Lines with as many things as they count, and the longest one.

use crate::read_lines::{Line, bad_at};
use layout_io::Bytes;
use session_wire::a_step_is_short;
use std::alloc::{AllocError, Global};
use std::test::Fail;

// A front, a part so many times, and a back.
fn repeated(
    alloc: Global,
    front: &str,
    count: u32,
    part: &str,
    back: &str,
) -> Result<Bytes, AllocError> {
    let mut line = Bytes::new(alloc);
    line.append(front.as_bytes())?;
    for _ in 0..count {
        line.append(part.as_bytes())?;
    }
    line.append(back.as_bytes())?;
    Ok(line)
}

// By hand: a count out of range is bad where it stands, and a missing thing where the line ends.
#[test]
fn as_many_things_are_read_as_are_counted(rt: HostRuntime) -> Result<(), Fail> {
    for (front, count, part, back, want) in [
        ("do 1 edit 0 1 wire 0 0 1 256", 256, " 7 -7", "", None),
        ("do 1 edit 0 1 wire 0 0 1 257", 257, " 7 -7", "", Some(25)),
        ("do 1 edit 0 1 wire 0 0 1 256", 255, " 7 -7", "", Some(1303)),
        ("do 1 edit 256", 256, " 7", " 0", None),
        ("do 1 edit 257", 257, " 7", " 0", Some(10)),
        ("do 1 edit 0 64", 64, " via 0 0 7 -7", "", None),
        ("do 1 edit 0 65", 65, " via 0 0 7 -7", "", Some(12)),
        ("do 1 fence 32", 32, " 255", " 0 0", None),
        ("do 1 fence 33", 33, " 255", " 0 0", Some(11)),
        ("do 1 fence 1 0 256", 256, " 7 -7", " 0", None),
        ("do 1 fence 1 0 257", 257, " 7 -7", " 0", Some(15)),
        ("do 1 fence 1 0 0 8", 8, " 9", "", None),
        ("do 1 fence 1 0 0 9", 9, " 9", "", Some(17)),
        ("", 8192, "x", "", Some(0)),
    ] {
        let line = repeated(rt.alloc(), front, count, part, back)?;
        let at = bad_at(rt.alloc(), Line::Script, line.as_slice());
        assert_eq!(rt; at, want, "{front} and {count} of {part}");
    }
    Ok(())
}

// The line with as many deletes, adds and points as may be, each number as long as may be.
fn longest_line(alloc: Global) -> Result<Bytes, AllocError> {
    let wire = " wire 4294967295 4294967295 100000000 256";
    let wire = repeated(alloc, wire, 256, " -1000000000 -1000000000", "")?;
    let mut line = repeated(alloc, "do 8 edit 256", 256, " 4294967295", " 64")?;
    for _ in 0..64 {
        line.append(wire.as_slice())?;
    }
    Ok(line)
}

// By hand: 13 + 256 * 11 + 3 + 64 * (41 + 256 * 24) bytes.
#[test]
fn the_longest_line_is_read(rt: HostRuntime) -> Result<(), Fail> {
    a_step_is_short();
    let mut line = longest_line(rt.alloc())?;
    assert_eq!(rt; line.len(), 398_672, "its length");
    let at = bad_at(rt.alloc(), Line::Script, line.as_slice());
    assert_eq!(rt; at, None, "as it is");
    line.append(b" ".as_slice())?;
    let at = bad_at(rt.alloc(), Line::Script, line.as_slice());
    assert_eq!(rt; at, Some(398_673), "with a space behind it");
    Ok(())
}
