//! Lines that are read, and the byte at which a line is bad.

use session_wire::{
    LineFault, a_step_is_not_bad, decode_entry, decode_line, decode_script_line,
    each_line_has_a_step_or_is_bad, one_bad_byte, one_step,
};
use std::alloc::Global;
use std::test::Fail;

/// Who wrote a line.
#[derive(Clone, Copy)]
pub(crate) enum Line {
    /// It stands in a script.
    Script,
    /// A client sent it.
    Client,
    /// It tells an entry.
    Entry,
}

/// The byte at which a line is bad, and none where it has a reading.
pub(crate) fn bad_at(alloc: Global, line: Line, text: &[u8]) -> Option<u32> {
    let fault = match line {
        Line::Script => decode_script_line(alloc, text).err(),
        Line::Client => decode_line(alloc, text).err(),
        Line::Entry => decode_entry(alloc, text).err(),
    };
    match fault {
        None => None,
        Some(LineFault::Bad { at }) => Some(at),
        Some(LineFault::Memory) => Some(u32::MAX),
    }
}

// By hand, from the bounds on clients, counts, numbers, lengths and coordinates.
#[test]
fn lines_of_the_form_are_read(rt: HostRuntime) -> Result<(), Fail> {
    one_step();
    one_bad_byte();
    a_step_is_not_bad();
    each_line_has_a_step_or_is_bad();
    for text in [
        "do 1 edit 0 0",
        "do 8 edit 0 1 wire 0 0 250000 2 0 0 1000000 0",
        "do 1 edit 0 1 wire 4294967295 4294967295 1 2 0 0 0 0",
        "do 1 edit 0 1 wire 0 0 100000000 2 -1000000000 0 1000000000 0",
        "do 1 edit 0 1 via 4294967295 4294967295 1000000000 -1000000000",
        "do 1 edit 0 2 via 0 0 0 0 via 0 0 0 0",
        "do 1 edit 1 4294967295 0",
        "do 1 reserve 4294967295",
        "do 8 release 0",
        "do 1 fence 1 255 3 0 0 -1000000000 0 0 1000000000 0",
        "do 1 fence 2 0 0 0 2 0 255",
        "do 1 unfence 4294967295",
        "do 1 entitle 4294967295 255",
        "do 1 rule 4294967295 100000000",
        "do 8 rule 0 0",
        "leave 1",
        "leave 8",
    ] {
        let at = bad_at(rt.alloc(), Line::Script, text.as_bytes());
        assert_eq!(rt; at, None, "{text}");
    }
    Ok(())
}
