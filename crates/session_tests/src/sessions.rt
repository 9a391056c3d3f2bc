//! Sessions over links in memory, with a desk that accepts each request until its journal is full.
//! The wanted bytes are worked by hand from the form of the lines.

use crate::MemDesk;
use board_items::{ItemId, Request};
use layout_io::{Bytes, MemLink};
use session_loop::{SessionEnd, serve_link};
use std::alloc::Global;
use std::test::Fail;

// A link over which the text comes in pieces of at most so many bytes.
fn link_of(alloc: Global, text: &str, most: usize) -> Result<MemLink, Fail> {
    let mut link = MemLink::new(alloc, Bytes::from_slice(alloc, text.as_bytes())?);
    if most > 0 {
        link.set_piece(most);
    }
    Ok(link)
}

#[test]
fn each_line_is_answered_in_turn(rt: HostRuntime) -> Result<(), Fail> {
    // What comes, in pieces of how many bytes, the read and the write that fail (0 is none), how many
    // entries the journal takes, how the session ends, and what is written.
    let three = "reserve 01\nedit 0 1 via 0 0 0 0\nbye\n";
    let answers = "hello 1 1\nbad 8\nentry 1 1 edit 0 1 via 0 0 0 0\nok 1\n";
    let rows = [
        (three, 99, 0, 0, 9, SessionEnd::Bye, answers),
        (three, 1, 0, 0, 9, SessionEnd::Bye, answers),
        (three, 7, 0, 0, 9, SessionEnd::Bye, answers),
        (
            "bye\nreserve 1\n",
            99,
            0,
            0,
            9,
            SessionEnd::Bye,
            "hello 1 1\n",
        ),
        (
            "reserve 1",
            99,
            0,
            0,
            9,
            SessionEnd::EndOfInput,
            "hello 1 1\n",
        ),
        (
            "\nreserve 1\n",
            99,
            0,
            0,
            0,
            SessionEnd::Full,
            "hello 1 1\nbad 0\nfull\n",
        ),
        (
            "reserve 1\nreserve 2\nreserve 3\n",
            99,
            0,
            0,
            1,
            SessionEnd::Full,
            "hello 1 1\nentry 1 1 reserve 1\nok 1\nfull\n",
        ),
        (
            "reserve 1\nreserve 2\n",
            13,
            2,
            0,
            9,
            SessionEnd::LinkFault,
            "hello 1 1\nentry 1 1 reserve 1\nok 1\n",
        ),
        ("reserve 1\nbye\n", 99, 0, 1, 9, SessionEnd::LinkFault, ""),
        (
            "reserve 1\nbye\n",
            16,
            0,
            3,
            9,
            SessionEnd::LinkFault,
            "hello 1 1\nentry 1 1 reserv",
        ),
    ];
    for (text, most, read, write, room, want, written) in rows {
        let mut link = link_of(rt.alloc(), text, most)?;
        link.fail_read(read)?;
        link.fail_write(write)?;
        let mut desk = MemDesk::new(rt.alloc(), 1, room);
        let end = serve_link(&rt, rt.alloc(), &mut desk, &mut link, 1, 1);
        assert_eq!(rt; end, want, "the end of {text:?} in pieces of {most}");
        assert_eq!(rt;
            link.written(),
            written.as_bytes(),
            "what {text:?} in pieces of {most} is answered"
        );
        assert!(rt; desk.has_left(), "the client of {text:?} left");
    }
    Ok(())
}

#[test]
fn a_link_may_end_at_every_byte(rt: HostRuntime) -> Result<(), Fail> {
    let text = "reserve 01\nedit 0 1 via 0 0 0 0\nbye\n";
    for count in 0..text.len() + 1 {
        let (front, _) = text.as_bytes().split_at(count);
        let mut link = MemLink::new(rt.alloc(), Bytes::from_slice(rt.alloc(), front)?);
        let mut desk = MemDesk::new(rt.alloc(), 1, 9);
        let end = serve_link(&rt, rt.alloc(), &mut desk, &mut link, 1, 1);
        // The lines end at the bytes 11, 32 and 36.
        let (want, written) = if count < 11 {
            (SessionEnd::EndOfInput, "hello 1 1\n")
        } else if count < 32 {
            (SessionEnd::EndOfInput, "hello 1 1\nbad 8\n")
        } else if count < 36 {
            (
                SessionEnd::EndOfInput,
                "hello 1 1\nbad 8\nentry 1 1 edit 0 1 via 0 0 0 0\nok 1\n",
            )
        } else {
            (
                SessionEnd::Bye,
                "hello 1 1\nbad 8\nentry 1 1 edit 0 1 via 0 0 0 0\nok 1\n",
            )
        };
        assert_eq!(rt; end, want, "the end at byte {count}");
        assert_eq!(rt;
            link.written(),
            written.as_bytes(),
            "what is answered up to byte {count}"
        );
    }
    Ok(())
}

// So many letters, and then a line.
fn letters(alloc: Global, count: usize) -> Result<Bytes, Fail> {
    let mut bytes = Bytes::new(alloc);
    for _letter in 0..count {
        bytes.push(b'x')?;
    }
    bytes.append(b"\nbye\n".as_slice())?;
    Ok(bytes)
}

#[test]
fn a_line_may_have_8192_bytes(rt: HostRuntime) -> Result<(), Fail> {
    let rows = [
        (8_192, SessionEnd::Bye, "hello 1 2\nbad 0\n"),
        (8_193, SessionEnd::TooLong, "hello 1 2\nlong\n"),
    ];
    for (count, want, written) in rows {
        let mut link = MemLink::new(rt.alloc(), letters(rt.alloc(), count)?);
        let mut desk = MemDesk::new(rt.alloc(), 1, 9);
        let end = serve_link(&rt, rt.alloc(), &mut desk, &mut link, 1, 2);
        assert_eq!(rt; end, want, "the end after {count} letters");
        assert_eq!(rt;
            link.written(),
            written.as_bytes(),
            "what {count} letters are answered"
        );
    }
    Ok(())
}

#[test]
fn the_entries_of_others_come_first(rt: HostRuntime) -> Result<(), Fail> {
    let mut link = link_of(rt.alloc(), "reserve 5\nreserve 6\nbye\n", 99)?;
    let mut desk = MemDesk::new(rt.alloc(), 1, 9);
    desk.note(2, Request::Reserve { id: ItemId(4) })?;
    let end = serve_link(&rt, rt.alloc(), &mut desk, &mut link, 1, 2);
    assert_eq!(rt; end, SessionEnd::Bye, "the end");
    let want =
        "hello 1 2\nentry 1 2 reserve 4\nentry 2 1 reserve 5\nok 2\nentry 3 1 reserve 6\nok 3\n";
    assert_eq!(rt;
        link.written(),
        want.as_bytes(),
        "the entry of client 2 and the client's own"
    );
    assert_eq!(rt; desk.given().len(), 2, "two requests were answered");
    Ok(())
}
