//! The numbers of small designs, and each status, worked by hand.
use crate::run::run;
use layout_io::{MemFiles, MemSink};
use std::alloc::{AllocError, Global};
use std::rt::HostRuntime;
use std::test::Fail;

// Two wires of two nets that cross, a keepout of vias and one of wires.
const CROSSED: &str =
    "(pcb s.dsn (unit um) (structure (layer L1 (type signal)) (rule (width 100) (clearance 200)) (via_keepout (circle L1 10)) (wire_keepout (circle L1 10))) (network (net A) (net B) (class c A)) (wiring (wire (path L1 200 0 0 1000 1000) (net A)) (wire (path L1 200 0 1000 1000 0) (net B))))";

const NUMBERS: &str = "layer 0 L1
class 0 \"\" clearance 200000 width 100000
class 1 c clearance none width none
net 0 A class 1
net 1 B class 0
item 1 keepout vias
item 2 keepout wires
item 3 wire net 0 layer 0 width 200000 points 2 from 0 0 to 1000000 1000000
item 4 wire net 1 layer 0 width 200000 points 2 from 0 1000000 to 1000000 0
";

// The status of a run of the words over files and a sink.
fn status_of(
    alloc: Global,
    words: &[&str],
    files: &mut MemFiles,
    out: &mut MemSink,
) -> Result<u8, AllocError> {
    let mut list = Vec::new(alloc);
    for word in words {
        list.push(String::from_str(alloc, word)?)?;
    }
    Ok(run(alloc, &list, files, out))
}

#[test]
fn a_board_has_its_numbers_or_its_first_fault(rt: HostRuntime) -> Result<(), Fail> {
    let alloc = rt.alloc();
    let rows = [
        (
            "an unclean board",
            ["numbers", "s.dsn"].as_slice(),
            CROSSED,
            0,
            NUMBERS,
        ),
        ("no word", [].as_slice(), CROSSED, 1, "usage\n"),
        ("no name", ["numbers"].as_slice(), CROSSED, 1, "usage\n"),
        (
            "another command",
            ["check", "s.dsn"].as_slice(),
            CROSSED,
            1,
            "usage\n",
        ),
        (
            "a fault",
            ["numbers", "s.dsn"].as_slice(),
            "(pcb s.dsn)",
            2,
            "design missing 0\n",
        ),
        (
            "no such file",
            ["numbers", "t.dsn"].as_slice(),
            CROSSED,
            3,
            "read\n",
        ),
    ];
    for (name, words, design, status, text) in rows {
        let mut files = MemFiles::new(alloc);
        files.put("s.dsn", design.as_bytes())?;
        let mut out = MemSink::new(alloc);
        let got = status_of(alloc, words, &mut files, &mut out)?;
        assert_eq!(rt; got, status, "{name}");
        assert_eq!(rt; out.written(), text.as_bytes(), "{name}");
    }
    Ok(())
}
