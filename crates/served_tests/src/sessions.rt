//! Whole runs of the server. The wanted bytes are worked by hand from the form of the lines and the table of statuses.
ghost use Rattle.std.specs.Prelude.{◌≡◌, None, IfOk};

use layout_io::{Bytes, MemDoor, MemFiles, MemLink, MemSink, OpenGate};
use session_loop::SessionEnd;
use session_server::{Served, serve};
use std::alloc::{AllocError, Global};
use std::sync::Wait;
use std::test::Fail;

const DESIGN: &str =
    "(pcb b.dsn (unit um) (structure (layer L1 (type signal)) (layer L2 (type signal)) (via V) (rule (width 100) (clearance 200))) (library (padstack V (shape (circle L1 600)) (shape (circle L2 600)))) (network (net A) (net B) (net C)))";

// Two loaded wires of two nets that cross.
const CROSSED: &str =
    "(pcb s.dsn (unit um) (structure (layer L1 (type signal)) (rule (width 100) (clearance 200))) (network (net A) (net B)) (wiring (wire (path L1 200 0 0 1000 1000) (net A)) (wire (path L1 200 0 1000 1000 0) (net B))))";

const EMPTY: &str = "(session b.dsn
  (base_design b.dsn)
  (routes
    (resolution um 1000)
    (parser
      (host_cad layout_server)
      (host_version 1)
    )
    (library_out
    )
    (network_out
    )
  )
)
";

const ONE_VIA: &str = "(session b.dsn
  (base_design b.dsn)
  (routes
    (resolution um 1000)
    (parser
      (host_cad layout_server)
      (host_version 1)
    )
    (library_out
      (padstack V
        (shape (circle L1 600000 0 0))
        (shape (circle L2 600000 0 0))
        (attach off)
      )
    )
    (network_out
      (net A
        (via V 0 0)
      )
    )
  )
)
";

const ASKED: &str = "reserve 01\nedit 0 1 via 0 0 0 0\nbye\n";

const ANSWERED: &str = "hello 1 1\nbad 8\nentry 1 1 edit 0 1 via 0 0 0 0\nok 1\n";

// A door at which one link comes, over which this text comes.
fn door_of(alloc: Global, text: &[u8]) -> Result<MemDoor, AllocError>
    ensures { IfOk result (λ door. door.asked ≡ None) }
{
    let mut links = Vec::new(alloc);
    links.push(MemLink::new(alloc, Bytes::from_slice(alloc, text)?))?;
    Ok(MemDoor::new(alloc, links))
}

// A design's file.
fn files_of(alloc: Global, design: &str) -> Result<MemFiles, AllocError> {
    let mut files = MemFiles::new(alloc);
    files.put("b.dsn", design.as_bytes())?;
    Ok(files)
}

// What the server gives for the one client.
fn serve_one<R: Wait>(
    rt: &R,
    alloc: Global,
    files: &mut MemFiles,
    door: &mut MemDoor,
    out: &mut MemSink,
) -> Result<Served<MemLink>, AllocError>
    requires { door.old.asked ≡ None }
{
    let mut words = Vec::new(alloc);
    for word in ["serve", "near:1", "1", "b.dsn", "b.ses"] {
        words.push(String::from_str(alloc, word)?)?;
    }
    Ok(serve(rt, alloc, &words, files, door, &OpenGate, out))
}

// What is in the session file.
fn session_of(files: &MemFiles) -> &[u8] {
    match files.bytes_of("b.ses") {
        Some(bytes) => bytes,
        None => b"none".as_slice(),
    }
}

// The bytes that were written over the one link.
fn written(served: &Served<MemLink>) -> &[u8] {
    match served.links.as_slice() {
        [link] => link.written(),
        _ => b"no link".as_slice(),
    }
}

// So many letters, and then a line.
fn letters(alloc: Global, count: usize) -> Result<Bytes, AllocError> {
    let mut bytes = Bytes::new(alloc);
    for _letter in 0..count {
        bytes.push(b'x')?;
    }
    bytes.append(b"\nbye\n".as_slice())?;
    Ok(bytes)
}

#[test]
fn one_session_is_served_and_stored(rt: HostRuntime) -> Result<(), Fail> {
    let alloc = rt.alloc();
    let short = letters(alloc, 8_192)?;
    let long = letters(alloc, 8_193)?;
    let unended = b"reserve 1".as_slice();
    let greeted = "hello 1 1\n";
    let rows = [
        (ASKED.as_bytes(), SessionEnd::Bye, ANSWERED, 2, ONE_VIA),
        (unended, SessionEnd::EndOfInput, greeted, 1, EMPTY),
        (
            short.as_slice(),
            SessionEnd::Bye,
            "hello 1 1\nbad 0\n",
            1,
            EMPTY,
        ),
        (
            long.as_slice(),
            SessionEnd::TooLong,
            "hello 1 1\nlong\n",
            1,
            EMPTY,
        ),
    ];
    for (row, (text, end, answer, entries, session)) in rows.iter().enumerate() {
        let mut files = files_of(alloc, DESIGN)?;
        let mut door = door_of(alloc, text)?;
        let mut out = MemSink::new(alloc);
        let served = serve_one(&rt, alloc, &mut files, &mut door, &mut out)?;
        assert_eq!(rt; served.end.status(), 0, "row {row}");
        assert_eq!(rt; served.ends.as_slice(), [*end].as_slice(), "row {row}");
        assert_eq!(rt; written(&served), answer.as_bytes(), "row {row}");
        assert_eq!(rt; served.journal.len(), *entries, "row {row}");
        assert_eq!(rt; served.history.len(), *entries, "row {row}");
        assert_eq!(rt; session_of(&files), session.as_bytes(), "row {row}");
        assert!(rt; out.written().is_empty(), "row {row}");
    }
    Ok(())
}

// The calls of the files are counted: an open and two reads, then the create; and the first write.
#[test]
fn the_first_fault_ends_it(rt: HostRuntime) -> Result<(), Fail> {
    let alloc = rt.alloc();
    // The design, whether the bind fails, which accept, read and write do, the status, the line, what is in the session
    // file, and how many sessions there were.
    let rows = [
        (DESIGN, true, 9, 9, 9, 8, "door\n", "none", 0),
        (DESIGN, false, 1, 9, 9, 8, "door\n", "", 0),
        (DESIGN, false, 9, 1, 9, 3, "read\n", "none", 0),
        (DESIGN, false, 9, 3, 9, 3, "read\n", "none", 0),
        (DESIGN, false, 9, 4, 9, 4, "write\n", "none", 0),
        (DESIGN, false, 9, 9, 1, 4, "write\n", "", 1),
        (CROSSED, false, 9, 9, 9, 6, "unclean 1 2\n", "none", 0),
        (
            "(pcb p (unit um",
            false,
            9,
            9,
            9,
            2,
            "design unclosed 7\n",
            "none",
            0,
        ),
    ];
    for (row, (design, bind, accept, read, write, status, line, session, ends)) in rows
        .iter()
        .enumerate()
    {
        let mut files = files_of(alloc, design)?;
        files.fail_read(*read)?;
        files.fail_write(*write)?;
        let mut door = door_of(alloc, ASKED.as_bytes())?;
        door.fail_accept(*accept)?;
        if *bind {
            door.fail_bind();
        }
        let mut out = MemSink::new(alloc);
        let served = serve_one(&rt, alloc, &mut files, &mut door, &mut out)?;
        assert_eq!(rt; served.end.status(), *status, "row {row}");
        assert_eq!(rt; out.written(), line.as_bytes(), "row {row}");
        assert_eq!(rt; session_of(&files), session.as_bytes(), "row {row}");
        assert_eq!(rt; served.ends.len(), *ends, "row {row}");
        assert_eq!(rt; served.links.len(), *ends, "row {row}");
        assert_eq!(rt; served.journal.is_empty(), *ends == 0, "row {row}");
    }
    Ok(())
}
