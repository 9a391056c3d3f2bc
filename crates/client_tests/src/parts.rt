//! A replica, the words of a client's program, and the answers of a server. The wanted values are worked by hand.

use crate::clients::DESIGN;
use answer_lines::{Goes, decode_answer, is_hello};
use client_replica::{Replica, ReplicaWhy};
use client_words::{ClientWhy, read_client_words};
use dsn_reader::read_design;
use session_wire::{LineFault, decode_entry};
use std::alloc::{AllocError, Global};
use std::test::Fail;

// A replica of the board, where it has a reading.
fn replica_of(alloc: Global) -> Result<Replica, Fail> {
    let design = match read_design(alloc, DESIGN.as_bytes()) {
        Ok(design) => design,
        Err(_) => return Err(Fail::from(AllocError)),
    };
    Ok(Replica::new(alloc, design)?)
}

#[test]
fn a_replica_takes_the_next_entry_alone(rt: HostRuntime) -> Result<(), Fail> {
    let mut replica = replica_of(rt.alloc())?;
    // The line of an entry, why it isn't taken, and the counts of entries and of live items behind it.
    let rows = [
        (
            "entry 2 1 edit 0 1 via 0 0 0 0",
            Some(ReplicaWhy::Gap { want: 1, got: 2 }),
            0,
            0,
        ),
        ("entry 1 1 edit 0 1 via 0 0 0 0", None, 1, 1),
        (
            "entry 1 1 edit 0 1 via 0 0 0 0",
            Some(ReplicaWhy::Gap { want: 2, got: 1 }),
            1,
            1,
        ),
        ("entry 2 3 reserve 1", None, 2, 1),
        ("entry 3 3 edit 1 1 0", None, 3, 0),
        ("entry 4 3 leave", None, 4, 0),
    ];
    for (line, why, count, live) in rows {
        match decode_entry(rt.alloc(), line.as_bytes()) {
            Ok(entry) => {
                let taken = replica.apply(&entry);
                assert_eq!(rt; taken.err(), why, "{line:?}");
            }
            Err(LineFault::Bad { at }) => assert!(rt; false, "{line:?} at {at}"),
            Err(LineFault::Memory) => return Err(Fail::from(AllocError)),
        }
        assert_eq!(rt; replica.count(), count, "the entries behind {line:?}");
        assert_eq!(rt; replica.board().live(), live, "the items behind {line:?}");
    }
    Ok(())
}

#[test]
fn three_words_are_read_in_their_order(rt: HostRuntime) -> Result<(), Fail> {
    let rows = [
        (
            "127.0.0.1:4000 b.dsn b.lines",
            Some(("127.0.0.1:4000", "b.dsn", "b.lines")),
        ),
        ("a b c", Some(("a", "b", "c"))),
        ("-h --help --", Some(("-h", "--help", "--"))),
        ("-- -- c", Some(("--", "--", "c"))),
        ("a", None),
        ("a b", None),
        ("a b c d", None),
        ("--help", None),
    ];
    for (line, want) in rows {
        let mut words = Vec::new(rt.alloc());
        for word in line.split(' ') {
            words.push(String::from_str(rt.alloc(), word)?)?;
        }
        match (read_client_words(rt.alloc(), &words), want) {
            (Ok(read), Some((address, design, lines))) => {
                assert_eq!(rt; read.address.as_str(), address, "the address of {line:?}");
                assert_eq!(rt; read.design.as_str(), design, "the design of {line:?}");
                assert_eq!(rt; read.lines.as_str(), lines, "the lines of {line:?}");
            }
            (Err(why), None) => assert_eq!(rt; why, ClientWhy::Usage, "{line:?}"),
            _ => assert!(rt; false, "{line:?}"),
        }
    }
    Ok(())
}

#[test]
fn each_answer_tells_whether_the_session_goes_on(rt: HostRuntime) -> Result<(), Fail> {
    let rows = [
        ("ok 1", Some(Goes::On)),
        ("ok 4294967295", Some(Goes::On)),
        ("ok 4294967296", None),
        ("ok 01", None),
        ("ok", None),
        ("no empty", Some(Goes::On)),
        ("no empty 1", None),
        ("no reserved 3 255", Some(Goes::On)),
        ("no reserved 3 256", None),
        ("no clash 1 2", Some(Goes::On)),
        ("no clash 1", None),
        ("no noclass 7", Some(Goes::On)),
        ("no unclean 1 2", Some(Goes::On)),
        ("no fencelayer 256", None),
        ("bad 8192", Some(Goes::On)),
        ("bad 8193", None),
        ("full", Some(Goes::Last)),
        ("long", Some(Goes::Last)),
        ("memory", Some(Goes::Last)),
        ("memory 1", None),
        ("left 1", None),
        ("", None),
    ];
    for (line, want) in rows {
        assert_eq!(rt; decode_answer(line.as_bytes()), want, "{line:?}");
    }
    for (line, want) in [
        ("hello 1 8", true),
        ("hello 0 8", false),
        ("hello 1 9", false),
        ("hello 1", false),
    ] {
        assert_eq!(rt; is_hello(line.as_bytes()), want, "{line:?}");
    }
    Ok(())
}
