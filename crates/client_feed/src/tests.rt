//! One table of feeds. The wanted values are worked by hand from the form of an entry's line.

use crate::{FeedFault, feed_since, read_feed};
use layout_io::Bytes;
use std::test::Fail;

#[test]
fn feeds_are_read_and_written_again(rt: HostRuntime) -> Result<(), Fail> {
    let two = "entry 1 1 edit 0 1 via 0 0 0 0\nentry 2 2 leave\n";
    // What is read, the part of it that is written again, and how many bytes of the text come before it.
    let rows = [
        (two, 0, 2, 0),
        (two, 1, 2, 31),
        (two, 2, 2, 47),
        ("", 0, 0, 0),
    ];
    for (text, from, to, before) in rows {
        let entries = read_feed(rt.alloc(), text.as_bytes())?;
        let mut out = Bytes::new(rt.alloc());
        assert!(rt; from <= to, "{from} to {to}");
        assert!(rt; entries.len() == to as usize, "the entries of {text:?}");
        feed_since(entries.as_slice(), from, to, &mut out)?;
        let (_, want) = text.as_bytes().split_at(before);
        assert_eq!(rt; out.as_slice(), want, "{text:?} from {from} to {to}");
    }
    let bad = [
        ("entry x\n", 1),
        ("\n", 1),
        ("entry 1 1 leave", 1),
        ("entry 1 1 leave\nentry 2 1 leave\nok 3\n", 3),
    ];
    for (text, line) in bad {
        let fault = read_feed(rt.alloc(), text.as_bytes()).err();
        assert_eq!(rt; fault, Some(FeedFault::Line { line }), "{text:?}");
    }
    let shown = format!(in rt.alloc(); "{}; {}", FeedFault::Line { line: 2 }, FeedFault::Memory)?;
    assert_eq!(rt; shown.as_str(), "line 2 is no entry; memory ran out");
    Ok(())
}
