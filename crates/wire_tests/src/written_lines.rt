//! Lines as they are written.

use board_items::{Act, Entry, ItemId, Reply, Why};
use layout_io::Bytes;
use session_wire::{
    ScriptStep, decode_entry, decode_line, decode_script_line, step_is_one_line, write_entry,
    write_message, write_reply,
};
use std::alloc::{AllocError, Global};
use std::test::Fail;

// The lines of the entries with this number that the steps of a script become.
fn entries_of(alloc: Global, script: &str, number: u32) -> Result<Bytes, AllocError> {
    let mut out = Bytes::new(alloc);
    for line in script.lines() {
        if let Ok(step) = decode_script_line(alloc, line.as_bytes()) {
            let (client, act) = match step {
                ScriptStep::Do { client, request } => (client, Act::Ask { request }),
                ScriptStep::Leave { client } => (client, Act::Leave),
            };
            let entry = Entry {
                number,
                client,
                act,
            };
            write_entry(&entry, &mut out)?;
        }
    }
    Ok(out)
}

// By hand: an entry's line has the act as the script has it.
#[test]
fn what_was_read_is_written_as_an_entry(rt: HostRuntime) -> Result<(), Fail> {
    step_is_one_line();
    let script =
        "do 2 edit 0 1 wire 3 1 250000 2 0 -5 1000000 0\ndo 8 edit 0 1 via 3 4 -5 6\ndo 1 edit 1 7 3 via 1 2 3 4 wire 5 6 7 2 8 9 10 11 via 1 2 3 4\ndo 1 edit 0 0\ndo 3 reserve 7\ndo 3 release 7\ndo 4 fence 2 0 255 2 0 -5 6 7 1 2\ndo 5 unfence 3\ndo 5 entitle 3 4\ndo 6 rule 7 200001\nleave 6\n";
    let want =
        "entry 4294967295 2 edit 0 1 wire 3 1 250000 2 0 -5 1000000 0\nentry 4294967295 8 edit 0 1 via 3 4 -5 6\nentry 4294967295 1 edit 1 7 3 via 1 2 3 4 wire 5 6 7 2 8 9 10 11 via 1 2 3 4\nentry 4294967295 1 edit 0 0\nentry 4294967295 3 reserve 7\nentry 4294967295 3 release 7\nentry 4294967295 4 fence 2 0 255 2 0 -5 6 7 1 2\nentry 4294967295 5 unfence 3\nentry 4294967295 5 entitle 3 4\nentry 4294967295 6 rule 7 200001\nentry 4294967295 6 leave\n";
    let out = entries_of(rt.alloc(), script, u32::MAX)?;
    assert_eq!(rt; out.as_slice(), want.as_bytes(), "each line once");
    Ok(())
}

// By hand: a line has one spelling.
#[test]
fn what_was_read_is_written_again(rt: HostRuntime) -> Result<(), Fail> {
    let mut out = Bytes::new(rt.alloc());
    for line in [
        "edit 1 7 1 via 3 4 -5 6",
        "entitle 3 255",
        "rule 7 100000000",
        "bye",
    ] {
        if let Ok(message) = decode_line(rt.alloc(), line.as_bytes()) {
            write_message(&message, &mut out)?;
        }
    }
    for line in [
        "entry 4294967295 8 leave",
        "entry 1 1 fence 1 0 0 0",
        "entry 1 1 rule 0 0",
    ] {
        if let Ok(entry) = decode_entry(rt.alloc(), line.as_bytes()) {
            write_entry(&entry, &mut out)?;
        }
    }
    let want =
        b"edit 1 7 1 via 3 4 -5 6\nentitle 3 255\nrule 7 100000000\nbye\nentry 4294967295 8 leave\nentry 1 1 fence 1 0 0 0\nentry 1 1 rule 0 0\n".as_slice();
    assert_eq!(rt; out.as_slice(), want, "each line once");
    Ok(())
}

// By hand, each kind of reply and reason once.
#[test]
fn replies_are_spelled(rt: HostRuntime) -> Result<(), Fail> {
    let id = ItemId(7);
    let fence = 3;
    let add = 2;
    let mut out = Bytes::new(rt.alloc());
    for reply in [
        Reply::Done { number: 12 },
        Reply::Full,
        Reply::Left { number: 13 },
    ] {
        write_reply(&reply, &mut out)?;
    }
    for why in [
        Why::Empty,
        Why::Net { add },
        Why::Layer { add },
        Why::Narrow { add },
        Why::Padstack { add },
        Why::Range { add },
        Why::Outside { add },
        Why::Own { a: 1, b: 2 },
        Why::Repeated { id },
        Why::Missing { id },
        Why::Fixed { id },
        Why::Reserved { id, client: 4 },
        Why::Protected { fence },
        Why::Clash { add, id },
        Why::Unheld { id },
        Why::Area,
        Why::FenceLayer { layer: 5 },
        Why::Client { client: 9 },
        Why::Overlap { fence },
        Why::Covers { id },
        Why::NoFence { fence },
        Why::NotOwner { fence },
        Why::NoClass { class: 6 },
        Why::Unclean {
            a: ItemId(1),
            b: id,
        },
    ] {
        write_reply(&Reply::No { why }, &mut out)?;
    }
    let want =
        b"ok 12\nfull\nleft 13\nno empty\nno net 2\nno layer 2\nno narrow 2\nno padstack 2\nno range 2\nno outside 2\nno own 1 2\nno repeated 7\nno missing 7\nno fixed 7\nno reserved 7 4\nno protected 3\nno clash 2 7\nno unheld 7\nno area\nno fencelayer 5\nno client 9\nno overlap 3\nno covers 7\nno nofence 3\nno notowner 3\nno noclass 6\nno unclean 1 7\n".as_slice();
    assert_eq!(rt; out.as_slice(), want, "every reply");
    Ok(())
}
