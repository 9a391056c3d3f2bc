//! Lines that come in pieces.

use layout_io::Bytes;
use session_wire::{Feeder, Next};
use std::alloc::AllocError;
use std::test::Fail;

// What is taken off next: a line and a bar behind it, a question mark where none is there yet, or a cross.
fn put_next(feeder: &mut Feeder, to: &mut Bytes) -> Result<(), AllocError> {
    match feeder.take_line() {
        Next::Line { bytes } => {
            to.append(bytes.as_slice())?;
            to.append(b"|".as_slice())
        }
        Next::NotYet => to.append(b"?".as_slice()),
        Next::TooLong => to.append(b"x".as_slice()),
    }
}

// By hand: a line ends at its line feed, wherever a piece ends.
#[test]
fn lines_do_not_depend_on_the_cut(rt: HostRuntime) -> Result<(), Fail> {
    for (front, back) in [
        ("bye\nreserve 7\nby", ""),
        ("by", "e\nreserve 7\nby"),
        ("bye", "\nreserve 7\nby"),
        ("bye\nreserve", " 7\nby"),
    ] {
        let mut feeder = Feeder::new(rt.alloc());
        let mut out = Bytes::new(rt.alloc());
        feeder.feed(front.as_bytes())?;
        feeder.feed(back.as_bytes())?;
        for _ in 0..3 {
            put_next(&mut feeder, &mut out)?;
        }
        assert_eq!(rt;
            out.as_slice(),
            b"bye|reserve 7|?".as_slice(),
            "{front}, then {back}"
        );
    }
    Ok(())
}

// By hand: a line may have 8,192 bytes.
#[test]
fn a_line_of_8193_bytes_is_too_long(rt: HostRuntime) -> Result<(), Fail> {
    for (count, want) in [(8192, b"?".as_slice()), (8193, b"x".as_slice())] {
        let mut feeder = Feeder::new(rt.alloc());
        let mut out = Bytes::new(rt.alloc());
        for _ in 0..count {
            feeder.feed(b"a".as_slice())?;
        }
        put_next(&mut feeder, &mut out)?;
        assert_eq!(rt; out.as_slice(), want, "{count} bytes");
    }
    Ok(())
}
