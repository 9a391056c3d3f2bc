//! How numbers, points and words with numbers are written.
ghost use Rattle.std.specs.Prelude.{◌≡◌, ◌++◌, ◌∷◌, OnOk, codes, List, ℕ};
ghost use Rattle.std.specs.List.{flat_map};
ghost use Rattle.session_wire.specs.Numbers.{number_text};
ghost use Rattle.session_wire.specs.Points.{point_text};
ghost use Rattle.session_wire.specs.Replies.{one_text, two_text};

use itoa::Buffer;
use layout_io::Bytes;
use seg_geometry::Pt;
use std::alloc::AllocError;

// A number behind a space.
pub(crate) fn put_number(to: &mut Bytes, number: u64) -> Result<(), AllocError>
    ensures { OnOk result (to.new ≡ to.old ++ number_text number) }
{
    let mut buffer = Buffer::new();
    to.append(b" ".as_slice())?;
    to.append(buffer.format(number).as_bytes())?;
    Ok(())
}

pub(crate) fn put_numbers(to: &mut Bytes, numbers: &[u32]) -> Result<(), AllocError>
    ensures { OnOk result (to.new ≡ to.old ++ flat_map number_text numbers.now) }
{
    for number in numbers {
        put_number(to, u64::from(*number))?;
    }
    Ok(())
}

// Numbers of layers or clients.
pub(crate) fn put_small_numbers(to: &mut Bytes, numbers: &[u8]) -> Result<(), AllocError>
    ensures { OnOk result (to.new ≡ to.old ++ flat_map number_text numbers.now) }
{
    for number in numbers {
        put_number(to, u64::from(*number))?;
    }
    Ok(())
}

pub(crate) fn put_point(to: &mut Bytes, point: Pt) -> Result<(), AllocError>
    ensures { OnOk result (to.new ≡ to.old ++ point_text point) }
{
    let mut buffer = Buffer::new();
    to.append(b" ".as_slice())?;
    to.append(buffer.format(point.x).as_bytes())?;
    to.append(b" ".as_slice())?;
    to.append(buffer.format(point.y).as_bytes())?;
    Ok(())
}

pub(crate) fn put_points(to: &mut Bytes, points: &[Pt]) -> Result<(), AllocError>
    ensures { OnOk result (to.new ≡ to.old ++ flat_map point_text points.now) }
{
    for point in points {
        put_point(to, *point)?;
    }
    Ok(())
}

// A word and a number.
pub(crate) fn put_one(to: &mut Bytes, word: &[u8], number: u32) -> Result<(), AllocError>
    ensures { OnOk result (to.new ≡ to.old ++ one_text word.now number) }
{
    to.append(word)?;
    put_number(to, u64::from(number))
}

// A word and two numbers.
pub(crate) fn put_two(to: &mut Bytes, word: &[u8], one: u32, two: u32) -> Result<(), AllocError>
    ensures { OnOk result (to.new ≡ to.old ++ two_text word.now one two) }
{
    put_one(to, word, one)?;
    put_number(to, u64::from(two))
}
