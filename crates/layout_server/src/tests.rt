use crate::run::run;
use board_items::ItemId;
use dsn_reader::{DesignFault, DesignKind};
use layout_io::{MemFiles, MemSink};
use std::alloc::{AllocError, Global};
use std::test::Fail;
use whole_files::{Stop, tell_stop};

const DESIGN: &str =
    "(pcb s.dsn (unit um) (structure (layer L1 (type signal)) (rule (width 100) (clearance 200))) (network (net A) (net B) (net C)))";

// Two loaded wires of two nets that cross.
const CROSSED: &str =
    "(pcb s.dsn (unit um) (structure (layer L1 (type signal)) (rule (width 100) (clearance 200))) (network (net A) (net B)) (wiring (wire (path L1 200 0 0 1000 1000) (net A)) (wire (path L1 200 0 1000 1000 0) (net B))))";

const UNENDED: &str = "do 1 edit 0 1 wire 0 0 250000 2 0 0 1000000 0";

const TOO_NEAR: &str = "do 1 edit 0 1 wire 0 0 250000 2 0 0 1000000 0
do 2 edit 0 1 wire 1 0 250000 2 0 449999 1000000 449999
";

const TOO_NEAR_OUTPUT: &str = "1 ok 1
2 no clash 1 1
journal 1
entry 1 1 edit 0 1 wire 0 0 250000 2 0 0 1000000 0
";

const LEFT_OUTPUT: &str = "1 left 1
journal 1
entry 1 1 leave
";

const SCRIPT: &str = "do 1 edit 0 1 wire 0 0 250000 2 0 0 1000000 0
do 2 edit 0 1 wire 1 0 250000 2 0 450000 1000000 450000
";

const OUTPUT: &str = "1 ok 1
2 ok 2
journal 2
entry 1 1 edit 0 1 wire 0 0 250000 2 0 0 1000000 0
entry 2 2 edit 0 1 wire 1 0 250000 2 0 450000 1000000 450000
";

const SESSION: &str = "(session s.dsn
  (base_design s.dsn)
  (routes
    (resolution um 1000)
    (parser
      (host_cad layout_server)
      (host_version 1)
    )
    (library_out
    )
    (network_out
      (net A
        (wire
          (path L1 250000
            0 0
            1000000 0
          )
        )
      )
      (net B
        (wire
          (path L1 250000
            0 450000
            1000000 450000
          )
        )
      )
    )
  )
)
";

const REPLAY: [&str; 4] = ["replay", "s.dsn", "s.script", "s.ses"];

const CHECK: [&str; 2] = ["check", "s.dsn"];

// What a run of the words over files and a sink gives.
fn status_of(
    alloc: Global,
    words: &[&str],
    files: &mut MemFiles,
    out: &mut MemSink,
) -> Result<u8, AllocError> {
    let mut list = Vec::new(alloc);
    for word in words {
        list.push(String::from_str(alloc, word)?)?;
    }
    Ok(run(alloc, &list, files, out))
}

// A design, and a script where there is one.
fn files_of(alloc: Global, design: &str, script: Option<&str>) -> Result<MemFiles, AllocError> {
    let mut files = MemFiles::new(alloc);
    files.put("s.dsn", design.as_bytes())?;
    if let Some(script) = script {
        files.put("s.script", script.as_bytes())?;
    }
    Ok(files)
}

// What was written, as bytes that an assertion can show.
fn session_of(files: &MemFiles) -> &[u8] {
    match files.bytes_of("s.ses") {
        Some(bytes) => bytes,
        None => b"none".as_slice(),
    }
}

// The file of the two wires that just keep their clearance, by hand from the layout of a session.
#[test]
fn a_clearance_of_450000_is_kept_in_pieces_of_any_size(rt: HostRuntime) -> Result<(), Fail> {
    let alloc = rt.alloc();
    for most in [1, 7, 16, 4096] {
        let mut files = files_of(alloc, DESIGN, Some(SCRIPT))?;
        files.set_piece(most);
        let mut out = MemSink::new(alloc);
        let status = status_of(alloc, &REPLAY, &mut files, &mut out)?;
        assert_eq!(rt; status, 0, "pieces of {most}");
        assert_eq!(rt; out.written(), OUTPUT.as_bytes(), "pieces of {most}");
        assert_eq!(rt; session_of(&files), SESSION.as_bytes(), "pieces of {most}");
    }
    Ok(())
}

// By hand, from the table of statuses and the one order of their causes.
#[test]
fn the_first_cause_decides(rt: HostRuntime) -> Result<(), Fail> {
    let alloc = rt.alloc();
    let rows = [
        ("no line", DESIGN, Some(""), 0, "journal 0\n"),
        ("a clash", DESIGN, Some(TOO_NEAR), 0, TOO_NEAR_OUTPUT),
        (
            "a fault and no script",
            "(pcb s.dsn)",
            None,
            2,
            "design missing 0\n",
        ),
        ("no script", DESIGN, None, 3, "read\n"),
        (
            "no client 9",
            DESIGN,
            Some("do 9 edit 0 0\n"),
            5,
            "script 1\n",
        ),
        ("an unended line", DESIGN, Some(UNENDED), 5, "script 1\n"),
        ("a leave", DESIGN, Some("leave 1\n"), 0, LEFT_OUTPUT),
        (
            "two leaves of one client",
            DESIGN,
            Some("leave 1\nleave 1\n"),
            5,
            "script 2\n",
        ),
        (
            "a request behind a leave",
            DESIGN,
            Some("leave 1\ndo 2 edit 0 0\ndo 1 edit 0 0\n"),
            5,
            "script 3\n",
        ),
        ("two near and no script", CROSSED, None, 6, "unclean 1 2\n"),
    ];
    for (name, design, script, status, line) in rows {
        let mut files = files_of(alloc, design, script)?;
        let mut out = MemSink::new(alloc);
        let got = status_of(alloc, &REPLAY, &mut files, &mut out)?;
        assert_eq!(rt; got, status, "{name}");
        assert_eq!(rt; out.written(), line.as_bytes(), "{name}");
        assert_eq!(rt; files.bytes_of("s.ses").is_some(), status == 0, "{name}");
    }
    Ok(())
}

// By hand: each number of words that no form has, and a command that isn't there.
#[test]
fn other_words_are_told_the_usage(rt: HostRuntime) -> Result<(), Fail> {
    let alloc = rt.alloc();
    for (name, words) in [
        ("no word", [].as_slice()),
        ("replay of one", ["replay", "a"].as_slice()),
        ("check of none", ["check"].as_slice()),
        ("check of two", ["check", "a", "b"].as_slice()),
        ("an unknown command", ["make", "a", "b", "c"].as_slice()),
    ] {
        let mut files = files_of(alloc, DESIGN, Some(SCRIPT))?;
        let mut out = MemSink::new(alloc);
        let status = status_of(alloc, words, &mut files, &mut out)?;
        assert_eq!(rt; status, 1, "{name}");
        assert_eq!(rt; out.written(), b"usage\n".as_slice(), "{name}");
    }
    Ok(())
}

// Opens, reads and the create are calls 1 to 7: two opens with two reads each, and the create.
#[test]
fn each_call_of_the_files_fails_in_turn(rt: HostRuntime) -> Result<(), Fail> {
    let alloc = rt.alloc();
    for call in 1..9 {
        let mut files = files_of(alloc, DESIGN, Some(SCRIPT))?;
        files.fail_read(call)?;
        let mut out = MemSink::new(alloc);
        let status = status_of(alloc, &REPLAY, &mut files, &mut out)?;
        let (want, line) = match call {
            1..=6 => (3, "read\n"),
            7 => (4, "write\n"),
            _ => (0, OUTPUT),
        };
        assert_eq!(rt; status, want, "call {call}");
        assert_eq!(rt; out.written(), line.as_bytes(), "call {call}");
    }
    Ok(())
}

// A session in pieces of 16 bytes, of which one isn't taken: those before it stay, and no other follows.
#[test]
fn a_session_that_is_cut_is_a_front(rt: HostRuntime) -> Result<(), Fail> {
    let alloc = rt.alloc();
    for call in 1..4 {
        let mut files = files_of(alloc, DESIGN, Some(SCRIPT))?;
        files.set_piece(16);
        files.fail_write(call)?;
        let mut out = MemSink::new(alloc);
        let status = status_of(alloc, &REPLAY, &mut files, &mut out)?;
        let kept = &SESSION.as_bytes()[..16 * (call as usize - 1)];
        assert_eq!(rt; status, 4, "write {call}");
        assert_eq!(rt; session_of(&files), kept, "write {call}");
    }
    Ok(())
}

// The sink's first write fails: the session file is there and empty, and the line follows.
#[test]
fn a_fault_of_the_output_leaves_an_empty_session(rt: HostRuntime) -> Result<(), Fail> {
    let alloc = rt.alloc();
    let mut files = files_of(alloc, DESIGN, Some(SCRIPT))?;
    let mut out = MemSink::new(alloc);
    out.fail_write(1)?;
    assert_eq!(rt; status_of(alloc, &REPLAY, &mut files, &mut out)?, 4);
    assert_eq!(rt; out.written(), b"write\n".as_slice());
    assert_eq!(rt; session_of(&files), b"".as_slice());
    Ok(())
}

// By hand; of the failing calls, the open and two reads are 1 to 3.
#[test]
fn check_tells_what_is_loaded(rt: HostRuntime) -> Result<(), Fail> {
    let alloc = rt.alloc();
    for (name, design, call, status, line) in [
        ("no item", DESIGN, 4, 0, "clean 0\n"),
        ("two near", CROSSED, 4, 6, "unclean 1 2\n"),
        ("a fault", "(pcb p (unit um", 4, 2, "design unclosed 7\n"),
        ("no open", DESIGN, 1, 3, "read\n"),
        ("no second read", CROSSED, 3, 3, "read\n"),
    ] {
        let mut files = files_of(alloc, design, None)?;
        files.fail_read(call)?;
        let mut out = MemSink::new(alloc);
        let got = status_of(alloc, &CHECK, &mut files, &mut out)?;
        assert_eq!(rt; got, status, "{name}");
        assert_eq!(rt; out.written(), line.as_bytes(), "{name}");
        assert!(rt; files.bytes_of("s.ses").is_none(), "{name}");
    }
    Ok(())
}

fn fault(kind: DesignKind, at: u32) -> Stop {
    Stop::Design(DesignFault { kind, at })
}

// By hand, from the table of statuses.
#[test]
fn stops_have_their_lines(rt: HostRuntime) -> Result<(), Fail> {
    let alloc = rt.alloc();
    let (a, b) = (ItemId(1), ItemId(12));
    for (stop, status, line) in [
        (fault(DesignKind::Angle, 96), 2, "design angle 96\n"),
        (
            fault(DesignKind::Large, 67_108_864),
            2,
            "design large 67108864\n",
        ),
        (Stop::Script(7), 5, "script 7\n"),
        (Stop::Unclean { a, b }, 6, "unclean 1 12\n"),
        (Stop::Memory, 7, "memory\n"),
    ] {
        let mut out = MemSink::new(alloc);
        assert_eq!(rt; tell_stop(stop, &mut out), status, "{line}");
        assert_eq!(rt; out.written(), line.as_bytes(), "{line}");
    }
    Ok(())
}
