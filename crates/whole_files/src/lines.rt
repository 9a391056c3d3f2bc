//! The line of a status.
ghost use Rattle.std.specs.Prelude.{◌≡◌, ◌++◌, codes, decimal};
ghost use Rattle.whole_files.specs.Faults.{kind_word};
ghost use Rattle.whole_files.specs.Stops.{Tells, status_of, stop_line};
ghost use Rattle.whole_files.specs.declared.stop.Stop.TheVariants.{Design, Unclean};

use crate::outside::put_out;
use crate::stop::Stop;
use board_items::ItemId;
use dsn_lists::{DesignFault, DesignKind};
use itoa::Buffer;
use layout_io::Sink;

/// Writes a line. A fault of that writing changes nothing.
#[tactic(auto, using(crate::proofs::Tells::tells_line))]
pub fn tell<O: Sink>(out: &mut O, line: &[u8])
    ensures { Tells line.now (O.told out.old) (O.told out.new) }
{
    let _ = put_out(out, line);
}

// Writes a number and the line's end.
fn tell_digits<O: Sink>(out: &mut O, number: u64)
    ensures { Tells (decimal number ++ codes "\n") (O.told out.old) (O.told out.new) }
{
    let mut buffer = Buffer::new();
    match put_out(out, buffer.format(number).as_bytes()) {
        Ok(()) => tell(out, b"\n"),
        Err(_) => {}
    }
}

// Writes a line of a word and a number.
fn tell_number<O: Sink>(out: &mut O, word: &[u8], number: u64)
    ensures { Tells (word.now ++ (decimal number ++ codes "\n")) (O.told out.old) (O.told out.new) }
{
    match put_out(out, word) {
        Ok(()) => tell_digits(out, number),
        Err(_) => {}
    }
}

// The word of a fault's kind.
fn kind_text(kind: DesignKind) -> &'static [u8]
    ensures { result.now ≡ kind_word kind }
{
    match kind {
        DesignKind::Unclosed => b"unclosed",
        DesignKind::Unopened => b"unopened",
        DesignKind::Quote => b"quote",
        DesignKind::Deep => b"deep",
        DesignKind::Large => b"large",
        DesignKind::Form => b"form",
        DesignKind::Missing => b"missing",
        DesignKind::Twice => b"twice",
        DesignKind::Name => b"name",
        DesignKind::Unit => b"unit",
        DesignKind::Number => b"number",
        DesignKind::Range => b"range",
        DesignKind::Width => b"width",
        DesignKind::Angle => b"angle",
        DesignKind::Layer => b"layer",
        DesignKind::Arc => b"arc",
        DesignKind::Polyline => b"polyline",
        DesignKind::Square => b"square",
        DesignKind::Window => b"window",
        DesignKind::Shape => b"shape",
        DesignKind::Points => b"points",
        DesignKind::Style => b"style",
    }
}

// Writes the kind and the byte of a fault, and the line's end.
fn tell_kind<O: Sink>(out: &mut O, fault: DesignFault)
    ensures { Tells (kind_word fault.kind ++ (codes " " ++ (decimal fault.at ++ codes "\n"))) (O.told out.old) (O.told out.new) }
{
    match put_out(out, kind_text(fault.kind)) {
        Ok(()) => tell_number(out, b" ", fault.at as u64),
        Err(_) => {}
    }
}

// Writes the line of a design's fault.
fn tell_fault<O: Sink>(out: &mut O, fault: DesignFault)
    ensures { Tells (stop_line (Design fault)) (O.told out.old) (O.told out.new) }
{
    match put_out(out, b"design ") {
        Ok(()) => tell_kind(out, fault),
        Err(_) => {}
    }
}

// Writes two numbers and the line's end.
fn tell_pair<O: Sink>(out: &mut O, a: u32, b: u32)
    ensures { Tells (decimal a ++ (codes " " ++ (decimal b ++ codes "\n"))) (O.told out.old) (O.told out.new) }
{
    let mut buffer = Buffer::new();
    match put_out(out, buffer.format(a).as_bytes()) {
        Ok(()) => tell_number(out, b" ", b as u64),
        Err(_) => {}
    }
}

// Writes the line of two items that are too near.
fn tell_unclean<O: Sink>(out: &mut O, a: ItemId, b: ItemId)
    ensures { Tells (stop_line (Unclean a b)) (O.told out.old) (O.told out.new) }
{
    match put_out(out, b"unclean ") {
        Ok(()) => tell_pair(out, a.0, b.0),
        Err(_) => {}
    }
}

/// Writes the line of a stop, and gives its status.
pub fn tell_stop<O: Sink>(stop: Stop, out: &mut O) -> u8
    ensures status { result ≡ status_of stop }
    ensures line { Tells (stop_line stop) (O.told out.old) (O.told out.new) }
{
    match stop {
        Stop::Design(fault) => {
            tell_fault(out, fault);
            2
        }
        Stop::Read => {
            tell(out, b"read\n");
            3
        }
        Stop::Write => {
            tell(out, b"write\n");
            4
        }
        Stop::Script(line) => {
            tell_number(out, b"script ", line);
            5
        }
        Stop::Unclean { a, b } => {
            tell_unclean(out, a, b);
            6
        }
        Stop::Memory => {
            tell(out, b"memory\n");
            7
        }
    }
}
