//! Lines that are bad, each at its first word that no reading continues.

use crate::read_lines::{Line, bad_at};
use layout_io::Bytes;
use session_wire::{entry_is_one_line, message_is_one_line, one_entry, one_message};
use std::alloc::{AllocError, Global};
use std::process::Abort;
use std::test::Fail;

// The line that begins with a text and goes on with another.
fn joined(alloc: Global, read: &str, lost: &str) -> Result<Bytes, AllocError> {
    let mut line = Bytes::new(alloc);
    line.append(read.as_bytes())?;
    line.append(lost.as_bytes())?;
    Ok(line)
}

// In each table a row is what a reading continues, and from the first word on that none does. By hand, the line is bad
// where the first part ends, which is the line's length where it ends too early.
fn lost_words_are_told(
    rt: &impl Abort,
    alloc: Global,
    line: Line,
    rows: &[(&str, &str)],
) -> Result<(), Fail> {
    for (read, lost) in rows {
        let text = joined(alloc, read, lost)?;
        let want = u32::try_from(read.len()).ok();
        assert_eq!(rt;
            bad_at(alloc, line, text.as_slice()),
            want,
            "{read}, then {lost}"
        );
    }
    Ok(())
}

#[test]
fn a_step_is_bad_at_its_first_lost_word(rt: HostRuntime) -> Result<(), Fail> {
    let rows = [
        ("", ""),
        ("", " do 1 edit 0 0"),
        ("", "Do 1 edit 0 0"),
        ("", "do1 edit 0 0"),
        ("", "look 1"),
        ("", "ask 1 edit 0 0"),
        ("do", ""),
        ("do ", ""),
        ("do ", "0 edit 0 0"),
        ("do ", "9 edit 0 0"),
        ("do ", "01 edit 0 0"),
        ("do ", "+1 edit 0 0"),
        ("do ", " 1 edit 0 0"),
        ("do ", "1\tedit 0 0"),
        ("do 1", ""),
        ("do 1 ", ""),
        ("do 1 ", "edits 0 0"),
        ("do 1 ", " edit 0 0"),
        ("do 1 ", "leave"),
        ("", "leaves 1"),
        ("leave", ""),
        ("leave ", "0"),
        ("leave ", "9"),
        ("leave 1 ", ""),
        ("leave 1 ", "1"),
    ];
    lost_words_are_told(&rt, rt.alloc(), Line::Script, rows.as_slice())
}

#[test]
fn an_edit_is_bad_at_its_first_lost_word(rt: HostRuntime) -> Result<(), Fail> {
    let rows = [
        ("do 1 edit", ""),
        ("do 1 edit ", "-0 0"),
        ("do 1 edit ", " 0"),
        ("do 1 edit 0", ""),
        ("do 1 edit 0 ", ""),
        ("do 1 edit 1 ", "4294967296 0"),
        ("do 1 edit 1 ", "01 0"),
        ("do 1 edit 1 7", ""),
        ("do 1 edit 1 7 8 ", "0"),
        ("do 1 edit 2 7 ", " 8 0"),
        ("do 1 edit 0 0 ", ""),
        ("do 1 edit 0 0 ", "0"),
        ("do 1 edit 0 1", ""),
        ("do 1 edit 0 1 ", "wires 0 0 1 2 0 0 0 0"),
    ];
    lost_words_are_told(&rt, rt.alloc(), Line::Script, rows.as_slice())
}

#[test]
fn an_add_is_bad_at_its_first_lost_word(rt: HostRuntime) -> Result<(), Fail> {
    let rows = [
        ("do 1 edit 0 1 wire ", "4294967296 0 1 2 0 0 0 0"),
        ("do 1 edit 0 1 wire 0 ", "4294967296 1 2 0 0 0 0"),
        ("do 1 edit 0 1 wire 0 0 ", "0 2 0 0 0 0"),
        ("do 1 edit 0 1 wire 0 0 ", "100000001 2 0 0 0 0"),
        ("do 1 edit 0 1 wire 0 0 1 ", "1 0 0"),
        ("do 1 edit 0 1 wire 0 0 1 2 ", "-1000000001 0 0 0"),
        ("do 1 edit 0 1 wire 0 0 1 2 ", "-0 0 0 0"),
        ("do 1 edit 0 1 wire 0 0 1 2 ", "- 0 0 0"),
        ("do 1 edit 0 1 wire 0 0 1 2 ", "+1 0 0 0"),
        ("do 1 edit 0 1 wire 0 0 1 2 ", " 0 0 0 0"),
        ("do 1 edit 0 1 wire 0 0 1 2 0 0 ", "1000000001 0"),
        ("do 1 edit 0 1 wire 0 0 1 2 0 0 0", ""),
        ("do 1 edit 0 1 wire 0 0 1 2 0 0 0 0 ", "0 0"),
        ("do 1 edit 0 1 wire 0 0 1 3 0 0 0 0", ""),
        ("do 1 edit 0 1 via ", "4294967296 0 0 0"),
        ("do 1 edit 0 1 via 0 ", "4294967296 0 0"),
        ("do 1 edit 0 1 via 0 0 ", "1000000001 0"),
        ("do 1 edit 0 1 via 0 0 0 ", "-1000000001"),
        ("do 1 edit 0 1 via 0 0 0", ""),
        ("do 1 edit 0 1 via 0 0 0 0 ", "via 0 0 0 0"),
        ("do 1 edit 0 2 via 0 0 0 0", ""),
    ];
    lost_words_are_told(&rt, rt.alloc(), Line::Script, rows.as_slice())
}

#[test]
fn a_named_thing_is_bad_at_its_first_lost_word(rt: HostRuntime) -> Result<(), Fail> {
    let rows = [
        ("do 1 reserve", ""),
        ("do 1 reserve ", "4294967296"),
        ("do 1 reserve 7 ", ""),
        ("do 1 reserve 7 ", "8"),
        ("do 1 release", ""),
        ("do 1 release ", " 7"),
        ("do 1 unfence", ""),
        ("do 1 unfence ", "4294967296"),
        ("do 1 unfence 3 ", ""),
        ("do 1 entitle", ""),
        ("do 1 entitle ", "4294967296 1"),
        ("do 1 entitle 3", ""),
        ("do 1 entitle 3 ", "256"),
        ("do 1 entitle 3 ", "00"),
        ("do 1 entitle 3 4 ", "5"),
        ("do 1 rule", ""),
        ("do 1 rule ", "4294967296 0"),
        ("do 1 rule ", "-1 0"),
        ("do 1 rule ", " 0 200000"),
        ("do 1 rule 0", ""),
        ("do 1 rule 0 ", "100000001"),
        ("do 1 rule 0 ", "0200000"),
        ("do 1 rule 0 ", " 200000"),
        ("do 1 rule 0 200000 ", ""),
        ("do 1 rule 0 200000 ", "1"),
        ("do 1 ", "rules 0 200000"),
    ];
    lost_words_are_told(&rt, rt.alloc(), Line::Script, rows.as_slice())
}

#[test]
fn a_boundary_is_bad_at_its_first_lost_word(rt: HostRuntime) -> Result<(), Fail> {
    let rows = [
        ("do 1 fence", ""),
        ("do 1 fence ", "0 0 0"),
        ("do 1 fence ", "01 0 0 0"),
        ("do 1 fence 1", ""),
        ("do 1 fence 1 ", "256 0 0"),
        ("do 1 fence 1 ", " 0 0"),
        ("do 1 fence 2 0 ", "00 0 0"),
        ("do 1 fence 1 0", ""),
        ("do 1 fence 1 0 ", "-1"),
        ("do 1 fence 1 0 1", ""),
        ("do 1 fence 1 0 1 ", "1000000001 0 0"),
        ("do 1 fence 1 0 1 0", ""),
        ("do 1 fence 1 0 1 0 ", "-0 0"),
        ("do 1 fence 1 0 1 0 0", ""),
        ("do 1 fence 1 0 0 1", ""),
        ("do 1 fence 1 0 0 1 ", "256"),
        ("do 1 fence 1 0 0 0 ", ""),
        ("do 1 fence 1 0 0 0 ", "0"),
    ];
    lost_words_are_told(&rt, rt.alloc(), Line::Script, rows.as_slice())
}

#[test]
fn a_clients_line_is_bad_at_its_first_lost_word(rt: HostRuntime) -> Result<(), Fail> {
    message_is_one_line();
    one_message();
    let rows = [
        ("", ""),
        ("", "Bye"),
        ("", " bye"),
        ("", "do 1 edit 0 0"),
        ("bye ", ""),
        ("bye ", "1"),
        ("edit", ""),
        ("edit ", "257 0"),
        ("edit 0 0 ", ""),
        ("reserve 7 ", "8"),
        ("fence 1 ", "256 0 0"),
        ("rule 0 ", "100000001"),
    ];
    lost_words_are_told(&rt, rt.alloc(), Line::Client, rows.as_slice())
}

#[test]
fn an_entrys_line_is_bad_at_its_first_lost_word(rt: HostRuntime) -> Result<(), Fail> {
    entry_is_one_line();
    one_entry();
    let rows = [
        ("", ""),
        ("", "entries 1 1 leave"),
        ("entry", ""),
        ("entry ", "0 1 leave"),
        ("entry ", "4294967296 1 leave"),
        ("entry 1 ", "9 leave"),
        ("entry 1 1", ""),
        ("entry 1 1 ", ""),
        ("entry 1 1 ", "leaves"),
        ("entry 1 1 ", "bye"),
        ("entry 1 1 leave ", "1"),
        ("entry 1 1 reserve ", "01"),
        ("entry 1 1 edit 0 0 ", ""),
        ("entry 1 1 rule 0 ", "100000001"),
    ];
    lost_words_are_told(&rt, rt.alloc(), Line::Entry, rows.as_slice())
}
