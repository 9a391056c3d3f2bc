//! The parts of a line.
ghost use Rattle.std.specs.Prelude.{◌≡◌, ◌++◌, OnOk, decimal};
ghost use Rattle.board_numbers.specs.Lines.{or_none, front_text, place_text, wide_text, end_text};

use dsn_turns::Wide;
use itoa::Buffer;
use layout_io::Bytes;
use seg_geometry::Pt;
use std::alloc::AllocError;

/// Puts a number.
pub fn put_number(out: &mut Bytes, n: usize) -> Result<(), AllocError>
    ensures { OnOk result (out.new ≡ out.old ++ decimal n) }
{
    let mut buffer = Buffer::new();
    out.append(buffer.format(n).as_bytes())
}

/// Puts a number, or the word for none.
pub fn put_optional(out: &mut Bytes, n: Option<u32>) -> Result<(), AllocError>
    ensures { OnOk result (out.new ≡ out.old ++ or_none n) }
{
    match n {
        None => out.append(b"none".as_slice()),
        Some(n) => put_number(out, n as usize),
    }
}

/// Puts the word and the number that a line begins with.
#[tactic(auto, unfolding(crate::specs::Lines::front_text))]
pub fn put_front(out: &mut Bytes, word: &[u8], n: usize) -> Result<(), AllocError>
    ensures { OnOk result (out.new ≡ out.old ++ front_text word.now n) }
{
    out.append(word)?;
    out.append(b" ".as_slice())?;
    put_number(out, n)?;
    out.append(b" ".as_slice())
}

/// Puts a place, in nm.
#[tactic(auto, unfolding(crate::specs::Lines::place_text))]
pub fn put_place(out: &mut Bytes, p: &Pt) -> Result<(), AllocError>
    ensures { OnOk result (out.new ≡ out.old ++ place_text p.now) }
{
    let mut x = Buffer::new();
    let mut y = Buffer::new();
    out.append(x.format(p.x).as_bytes())?;
    out.append(b" ".as_slice())?;
    out.append(y.format(p.y).as_bytes())
}

/// Puts a place that may be out of range, in nm.
#[tactic(auto, unfolding(crate::specs::Lines::wide_text))]
pub fn put_wide(out: &mut Bytes, p: &Wide) -> Result<(), AllocError>
    ensures { OnOk result (out.new ≡ out.old ++ wide_text p.now) }
{
    let mut x = Buffer::new();
    let mut y = Buffer::new();
    out.append(x.format(p.x).as_bytes())?;
    out.append(b" ".as_slice())?;
    out.append(y.format(p.y).as_bytes())
}

/// Ends the line of an item that is fixed or not.
#[tactic(auto, unfolding(crate::specs::Lines::end_text))]
pub fn put_end(out: &mut Bytes, fix: bool) -> Result<(), AllocError>
    ensures { OnOk result (out.new ≡ out.old ++ end_text fix) }
{
    if fix {
        return out.append(b" fixed\n".as_slice());
    }
    out.append(b"\n".as_slice())
}
