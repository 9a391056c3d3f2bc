//! Tables over pieces and failing calls, one run over the files of the machine, and one over its sockets.
ghost use Rattle.std.specs.Prelude.{◌<◌};

use crate::{
    Bytes, Dial, Door, Files, Gate, HostFiles, HostSink, IoFault, Link, MemDial, MemDoor, MemFiles,
    MemLink, MemSink, OpenGate, Sink, TcpDial, TcpDoor,
};
use std::alloc::Global;
use std::net::TcpListener;
use std::test::Fail;

// The values of each table are worked by hand.

// Writes once to a file that is there, with one beside it.
fn files_after(alloc: Global, most: usize, text: &[u8]) -> Result<MemFiles, Fail>
    requires { 0 < most }
{
    let mut files = MemFiles::new(alloc);
    files.set_piece(most);
    files.put("kept", b"before")?;
    files.put("a", b"before")?;
    let writer = files.create("a")?;
    let _count = files.write(writer, text)?;
    Ok(files)
}

// How many bytes the first two reads of the file give; the first ones lie in the room.
fn two_reads(files: &mut MemFiles, room: &mut [u8]) -> Result<(usize, usize), Fail> {
    let reader = files.open_read("a")?;
    let count = files.read(reader, room)?;
    let more = files.read(reader, &mut [0u8; 4])?;
    Ok((count, more))
}

#[test]
fn a_write_takes_its_piece_and_a_read_gives_it_back(rt: HostRuntime) -> Result<(), Fail> {
    let text = b"place u1 10 20 front".as_slice();
    let rows = [
        (1, "p"),
        (7, "place u"),
        (16, "place u1 10 20 f"),
        (20, "place u1 10 20 front"),
        (21, "place u1 10 20 front"),
    ];
    for (most, want) in rows {
        assert!(rt; most > 0, "a piece of {most}");
        let want = want.as_bytes();
        let mut files = files_after(rt.alloc(), most, text)?;
        assert_eq!(rt;
            files.bytes_of("a").unwrap_or(b""),
            want,
            "the file after {most}"
        );
        assert_eq!(rt;
            files.bytes_of("kept").unwrap_or(b""),
            b"before".as_slice(),
            "{most}"
        );
        assert!(rt; files.bytes_of("b").is_none(), "no other name at {most}");
        let mut room = [0u8; 32];
        let (count, more) = two_reads(&mut files, &mut room)?;
        assert_eq!(rt; (count, more), (want.len(), 0), "reads after {most}");
        assert_eq!(rt; room.starts_with(want), true, "the bytes read after {most}");
    }
    Ok(())
}

// Opens and reads a file, creates one, and writes to it and to a sink.
fn five_calls(files: &mut MemFiles, sink: &mut MemSink) -> Result<usize, IoFault> {
    let reader = files.open_read("a")?;
    files.read(reader, &mut [0u8; 4])?;
    let writer = files.create("b")?;
    files.write(writer, b"net")?;
    sink.write(b"done")
}

fn with_failures(
    alloc: Global,
    read: u32,
    write: u32,
    sink_write: u32,
) -> Result<Result<usize, IoFault>, Fail> {
    let mut files = MemFiles::new(alloc);
    files.put("a", b"via")?;
    files.fail_read(read)?;
    files.fail_write(write)?;
    let mut sink = MemSink::new(alloc);
    sink.fail_write(sink_write)?;
    Ok(five_calls(&mut files, &mut sink))
}

#[test]
fn a_call_fails_where_it_is_listed(rt: HostRuntime) -> Result<(), Fail> {
    // 0 is the number of no call, and there are three calls that read and one write of each kind.
    let rows = [
        (0, 0, 0, Ok(4)),
        (1, 0, 0, Err(IoFault::Failed)),
        (2, 0, 0, Err(IoFault::Failed)),
        (3, 0, 0, Err(IoFault::Failed)),
        (4, 0, 0, Ok(4)),
        (0, 1, 0, Err(IoFault::Failed)),
        (0, 2, 0, Ok(4)),
        (0, 0, 1, Err(IoFault::Failed)),
        (0, 0, 2, Ok(4)),
    ];
    for (read, write, sink_write, want) in rows {
        let told = with_failures(rt.alloc(), read, write, sink_write)?;
        assert_eq!(rt;
            told,
            want,
            "read {read}, write {write}, write to the sink {sink_write}"
        );
    }
    let mut files = MemFiles::new(rt.alloc());
    assert_eq!(rt;
        files.open_read("a"),
        Err(IoFault::Failed),
        "no file has the name"
    );
    let mut sink = MemSink::new(rt.alloc());
    sink.write(b"board ")?;
    sink.write(b"clean")?;
    assert_eq!(rt; sink.written(), b"board clean".as_slice(), "two writes");
    let texts = format!(in rt.alloc(); "{}; {}", IoFault::Failed, IoFault::Memory)?;
    assert_eq!(rt; texts.as_str(), "the call failed; memory ran out");
    Ok(())
}

// Each run of the tests begins in a new folder of its own.
#[test]
fn a_file_of_the_machine_is_written_and_read(rt: HostRuntime) -> Result<(), Fail> {
    let mut files = HostFiles::new(&rt);
    assert_eq!(rt;
        files.open_read("no_such_file"),
        Err(IoFault::Failed),
        "no file has the name"
    );
    let writer = files.create("written_by_a_test")?;
    assert_eq!(rt; files.write(writer, b"pin 3")?, 5, "a write");
    let reader = files.open_read("written_by_a_test")?;
    let mut room = [0u8; 8];
    let count = files.read(reader, &mut room)?;
    assert!(rt; count <= 8, "a read within its room");
    assert_eq!(rt; &room[..count], b"pin 3".as_slice(), "a read");
    assert_eq!(rt; files.read(reader, &mut room)?, 0, "the end");
    let mut out = HostSink::new(&rt);
    assert_eq!(rt;
        out.write(b"one line\n")?,
        9,
        "a line to the standard output"
    );
    Ok(())
}

// A link over which one line comes, and a read and a write of which fail.
fn line_link(alloc: Global, read: u32, write: u32) -> Result<MemLink, Fail> {
    let mut link = MemLink::new(alloc, Bytes::from_slice(alloc, b"bye\n")?);
    link.fail_read(read)?;
    link.fail_write(write)?;
    Ok(link)
}

// How many bytes two reads give and a write takes.
fn three_calls(link: &mut MemLink) -> Result<(usize, usize, usize), IoFault> {
    let first = link.read(&mut [0u8; 8])?;
    let sent = link.write(b"hello")?;
    let second = link.read(&mut [0u8; 8])?;
    Ok((first, sent, second))
}

#[test]
fn a_link_in_memory_goes_by_pieces_and_fails_where_listed(rt: HostRuntime) -> Result<(), Fail> {
    let rows = [
        (1, 9, 9, Ok((1, 1, 1)), "h"),
        (3, 9, 9, Ok((3, 3, 1)), "hel"),
        (4, 9, 9, Ok((4, 4, 0)), "hell"),
        (5, 9, 9, Ok((4, 5, 0)), "hello"),
        (5, 1, 9, Err(IoFault::Failed), ""),
        (5, 9, 1, Err(IoFault::Failed), ""),
        (5, 2, 9, Err(IoFault::Failed), "hello"),
    ];
    for (most, read, write, want, sent) in rows {
        assert!(rt; most > 0, "a piece of {most}");
        let mut link = line_link(rt.alloc(), read, write)?;
        link.set_piece(most);
        assert_eq!(rt;
            three_calls(&mut link),
            want,
            "pieces of {most}, read {read} and write {write} fail"
        );
        assert_eq!(rt;
            link.written(),
            sent.as_bytes(),
            "written by pieces of {most}, read {read} and write {write} fail"
        );
    }
    Ok(())
}

// What the first read of the dialled link gives.
fn dialled(alloc: Global, fails: bool) -> Result<Result<usize, IoFault>, Fail> {
    let link = MemLink::new(alloc, Bytes::from_slice(alloc, b"bye\n")?);
    let mut dial = MemDial::new(alloc, link);
    if fails {
        dial.fail_connect();
    }
    match dial.connect("far:1") {
        Ok(mut link) => Ok(link.read(&mut [0u8; 8])),
        Err(e) => Ok(Err(e)),
    }
}

// What the first reads of the links give that come at the door's first two accepts.
fn two_accepts(
    alloc: Global,
    accept: u32,
) -> Result<(Result<usize, IoFault>, Result<usize, IoFault>), Fail> {
    let mut links = Vec::new(alloc);
    links.push(MemLink::new(alloc, Bytes::from_slice(alloc, b"bye\n")?))?;
    let mut door = MemDoor::new(alloc, links);
    door.fail_accept(accept)?;
    door.bind("near:1")?;
    let first = match door.accept() {
        Ok(mut link) => link.read(&mut [0u8; 8]),
        Err(e) => Err(e),
    };
    let second = match door.accept() {
        Ok(mut link) => link.read(&mut [0u8; 8]),
        Err(e) => Err(e),
    };
    Ok((first, second))
}

#[test]
fn links_come_by_a_dial_and_at_a_door_in_memory(rt: HostRuntime) -> Result<(), Fail> {
    for (fails, want) in [(false, Ok(4)), (true, Err(IoFault::Failed))] {
        assert_eq!(rt;
            dialled(rt.alloc(), fails)?,
            want,
            "a dial whose connect fails: {fails}"
        );
    }
    let rows = [
        (9, (Ok(4), Err(IoFault::Failed))),
        (1, (Err(IoFault::Failed), Ok(4))),
        (2, (Ok(4), Err(IoFault::Failed))),
    ];
    for (accept, want) in rows {
        assert_eq!(rt;
            two_accepts(rt.alloc(), accept)?,
            want,
            "a door with one link whose accept {accept} fails"
        );
    }
    let mut door = MemDoor::new(rt.alloc(), Vec::new(rt.alloc()));
    door.fail_bind();
    assert_eq!(rt; door.bind("near:1"), Err(IoFault::Failed), "a bind");
    OpenGate.before_commit(1, 1, 0, 0);
    OpenGate.answered(1, 1);
    Ok(())
}

// The number of the port is one that the machine has just found free.
#[test]
fn bytes_go_over_the_loopback_and_end(rt: HostRuntime) -> Result<(), Fail> {
    let free = TcpListener::bind(&rt, "127.0.0.1:0")?;
    let port = free.local_addr()?.port();
    drop(free);
    let address = format!(in rt.alloc(); "127.0.0.1:{port}")?;
    let refused = TcpDial::new(&rt).connect(address.as_str()).is_err();
    assert!(rt; refused, "nobody listens");
    let mut door = TcpDoor::new(&rt);
    door.bind(address.as_str())?;
    let mut theirs = TcpDial::new(&rt).connect(address.as_str())?;
    let mut ours = door.accept()?;
    assert_eq!(rt; theirs.write(b"bye\n"), Ok(4), "a write");
    let mut room = [0u8; 8];
    assert_eq!(rt; ours.read(&mut room), Ok(4), "a read");
    assert!(rt; room.starts_with(b"bye\n"), "the bytes read");
    drop(theirs);
    assert_eq!(rt; ours.read(&mut room), Ok(0), "the end");
    Ok(())
}
