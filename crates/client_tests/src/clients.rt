//! Whole clients over a link, files and an output in memory. The wanted bytes are worked by hand from the form of the
//! lines.
ghost use Rattle.std.specs.Prelude.{IfOk};
ghost use Rattle.layout_io.specs.MemoryDoors.{IsUnused};

use board_client::client;
use layout_io::{Bytes, MemDial, MemFiles, MemLink, MemSink};
use std::alloc::Global;
use std::test::Fail;

/// A board of two layers and three nets, with one padstack and no item.
pub(crate) const DESIGN: &str =
    "(pcb b.dsn (unit um) (structure (layer L1 (type signal)) (layer L2 (type signal)) (via V) (rule (width 100) (clearance 200))) (library (padstack V (shape (circle L1 600)) (shape (circle L2 600)))) (network (net A) (net B) (net C)))";

const VIA: &str = "edit 0 1 via 0 0 0 0\n";

const VIA_TAKEN: &str = "hello 1 1\nentry 1 1 edit 0 1 via 0 0 0 0\nok 1\n";

const VIA_SENT: &str = "edit 0 1 via 0 0 0 0\nbye\n";

// What comes over the link, in pieces of at most so many bytes; the read and the write that fail, or 0.
#[derive(Clone, Copy)]
struct Line<'a> {
    input: &'a str,
    most: usize,
    read: u32,
    write: u32,
}

fn link_of(alloc: Global, line: &Line<'_>) -> Result<MemLink, Fail>
    ensures { IfOk result IsUnused }
{
    let mut link = MemLink::new(alloc, Bytes::from_slice(alloc, line.input.as_bytes())?);
    if line.most > 0 {
        link.set_piece(line.most);
    }
    link.fail_read(line.read)?;
    link.fail_write(line.write)?;
    Ok(link)
}

fn files_of(alloc: Global, lines: &str) -> Result<MemFiles, Fail> {
    let mut files = MemFiles::new(alloc);
    files.put("b.dsn", DESIGN.as_bytes())?;
    files.put("lines", lines.as_bytes())?;
    Ok(files)
}

#[test]
fn each_line_is_sent_and_what_comes_is_printed(rt: HostRuntime) -> Result<(), Fail> {
    // The file, what comes, the largest piece, the read and the write that fail, the status, what is sent and what is
    // printed.
    let rows = [
        (
            VIA,
            VIA_TAKEN,
            0,
            0,
            0,
            0,
            VIA_SENT,
            "hello 1 1\nentry 1 1 edit 0 1 via 0 0 0 0\nok 1\nboard 1 1\n",
        ),
        (
            "edit 0 1 via 0 0 0 0",
            VIA_TAKEN,
            1,
            0,
            0,
            0,
            VIA_SENT,
            "hello 1 1\nentry 1 1 edit 0 1 via 0 0 0 0\nok 1\nboard 1 1\n",
        ),
        (
            VIA,
            "hello 1 1\nentry 1 1 edit 0 1 via 0 0 0 0\n",
            7,
            0,
            0,
            9,
            VIA,
            "hello 1 1\nentry 1 1 edit 0 1 via 0 0 0 0\n",
        ),
        (
            VIA,
            "hello 1 1\nentry 2 1 edit 0 1 via 0 0 0 0\nok 2\n",
            0,
            0,
            0,
            10,
            VIA,
            "hello 1 1\nentry 2 1 edit 0 1 via 0 0 0 0\n",
        ),
        (
            "reserve 1\nbye\nreserve 2\n",
            "hello 8 8\nno missing 1\nok 9\n",
            0,
            0,
            0,
            0,
            "reserve 1\nbye\n",
            "hello 8 8\nno missing 1\nboard 0 0\n",
        ),
        (
            "x\nreserve 2\nreserve 3",
            "hello 1 2\nbad 0\nentry 1 2 leave\nfull\nok 1\n",
            5,
            0,
            0,
            0,
            "x\nreserve 2\n",
            "hello 1 2\nbad 0\nentry 1 2 leave\nfull\nboard 1 0\n",
        ),
        (
            "rule 0 1\n",
            "hello 1 2\nentry 1 2 rule 0 200001\nno unclean 1 2\n",
            0,
            0,
            0,
            0,
            "rule 0 1\nbye\n",
            "hello 1 2\nentry 1 2 rule 0 200001\nno unclean 1 2\nboard 1 0\n",
        ),
        (
            "x\n",
            "hello 1 2\nhello 1 2\n",
            0,
            0,
            0,
            10,
            "x\n",
            "hello 1 2\nhello 1 2\n",
        ),
        ("x\n", "hello 9 2\n", 0, 0, 0, 10, "", "hello 9 2\n"),
        ("x\n", "hello 1 2", 0, 0, 0, 9, "", ""),
        (
            "x\n",
            "hello 1 2\nno\n",
            0,
            0,
            0,
            10,
            "x\n",
            "hello 1 2\nno\n",
        ),
        (
            "x\n",
            "hello 1 2\nbad 8193\n",
            0,
            0,
            0,
            10,
            "x\n",
            "hello 1 2\nbad 8193\n",
        ),
        (
            "",
            "hello 1 2\n",
            0,
            0,
            0,
            0,
            "bye\n",
            "hello 1 2\nboard 0 0\n",
        ),
        (
            "x\n",
            "hello 1 2\nbad 0\n",
            10,
            2,
            0,
            9,
            "x\n",
            "hello 1 2\n",
        ),
        ("x\n", "hello 1 2\nbad 0\n", 0, 1, 0, 9, "", ""),
        (
            "x\n",
            "hello 1 2\nbad 0\n",
            0,
            0,
            2,
            9,
            "x\n",
            "hello 1 2\nbad 0\n",
        ),
    ];
    for (lines, input, most, read, write, status, sent, printed) in rows {
        let line = Line {
            input,
            most,
            read,
            write,
        };
        let mut files = files_of(rt.alloc(), lines)?;
        let mut dial = MemDial::new(rt.alloc(), link_of(rt.alloc(), &line)?);
        let mut out = MemSink::new(rt.alloc());
        let words = words_of(rt.alloc(), "a b.dsn lines")?;
        let talked = client(&rt, rt.alloc(), &words, &mut files, &mut dial, &mut out);
        assert_eq!(rt; talked.status, status, "how {lines:?} ends over {input:?}");
        assert_eq!(rt;
            out.written(),
            printed.as_bytes(),
            "what is printed of {input:?}"
        );
        match talked.link {
            None => assert!(rt; false, "the link of {lines:?}"),
            Some(link) => {
                assert_eq!(rt;
                    link.written(),
                    sent.as_bytes(),
                    "what is sent of {lines:?}"
                );
            }
        }
    }
    Ok(())
}

// The words between spaces.
fn words_of(alloc: Global, line: &str) -> Result<Vec<String>, Fail> {
    let mut words = Vec::new(alloc);
    for word in line.split(' ') {
        words.push(String::from_str(alloc, word)?)?;
    }
    Ok(words)
}

#[test]
fn each_stop_has_its_status(rt: HostRuntime) -> Result<(), Fail> {
    // The words, whether the connect fails, the write of the output that fails, the status, and what is printed.
    let rows = [
        ("a b.dsn", false, 0, 1, "usage\n"),
        ("a b.dsn lines --help", false, 0, 1, "usage\n"),
        ("a b.dsn lines", true, 0, 9, ""),
        ("a none lines", false, 0, 3, ""),
        ("a lines lines", false, 0, 2, ""),
        ("a b.dsn none", false, 0, 3, ""),
        ("a b.dsn lines", false, 1, 4, ""),
        ("a b.dsn lines", false, 2, 4, "hello 1 1\n"),
    ];
    let line = Line {
        input: VIA_TAKEN,
        most: 0,
        read: 0,
        write: 0,
    };
    for (words, fails, write, status, printed) in rows {
        let mut files = files_of(rt.alloc(), VIA)?;
        let mut dial = MemDial::new(rt.alloc(), link_of(rt.alloc(), &line)?);
        if fails {
            dial.fail_connect();
        }
        let mut out = MemSink::new(rt.alloc());
        out.fail_write(write)?;
        let words = words_of(rt.alloc(), words)?;
        let talked = client(&rt, rt.alloc(), &words, &mut files, &mut dial, &mut out);
        assert_eq!(rt; talked.status, status, "how {words:?} end");
        assert_eq!(rt; out.written(), printed.as_bytes(), "what {words:?} print");
    }
    Ok(())
}
