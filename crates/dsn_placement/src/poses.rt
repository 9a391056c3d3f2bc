//! Where a component is.
ghost use Rattle.std.specs.Prelude.{◌≡◌, false, IfOk, OnOk};
ghost use Rattle.dsn_lists.specs.Names.{is_among};
ghost use Rattle.sexp_text.specs.Shows.{forest};
ghost use Rattle.dsn_lists.specs.Results.{Tells};
ghost use Rattle.dsn_lists.specs.Words.{marked};
ghost use Rattle.dsn_placement.specs.Placements.{side_named, known_side, pose_from, some_pose, pose_of, place_of_list, flip_on, over_on};

use dsn_library::angle_at;
use dsn_lists::{
    DesignFault, DesignKind, Found, NameSet, check_fresh, fault, is_word, point_at, read_over,
    word_at,
};
use dsn_turns::Flip;
use seg_geometry::Pt;
use sexp_text::{Cursor, Part, Unit, front};

/// The side of the board on which a component is.
#[derive(Clone, Copy, Debug, PartialEq, Eq)]
pub enum Side {
    Front,
    Back,
}

/// The place of a component in nm, its side, and by how many eighths it is turned.
#[derive(Clone, Copy, Debug)]
pub struct Pose {
    pub at: Pt,
    pub side: Side,
    pub eighths: u8,
}

impl Side {
    /// How a component on the side is mirrored, where the back has this flip.
    pub fn flip(self, back: Flip) -> Flip
        ensures { result ≡ flip_on self back }
    {
        match self {
            Side::Front => Flip::Plain,
            Side::Back => back,
        }
    }

    /// The number of layers where a component on the side lies on a board turned over.
    pub fn over(self, layers: u8) -> Option<u8>
        ensures { result ≡ over_on self layers }
    {
        match self {
            Side::Front => None,
            Side::Back => Some(layers),
        }
    }
}

#[tactic(auto, unfolding(crate::specs::Placements::side_named))]
fn side_named(text: &[u8]) -> Option<Side>
    ensures { result ≡ side_named text.now }
{
    if is_word(text, b"front") {
        return Some(Side::Front);
    }
    if is_word(text, b"back") {
        return Some(Side::Back);
    }
    None
}

fn side_at(word: Found<'_>) -> Result<Side, DesignFault>
    ensures { Tells (λ x. x) result (known_side word.entry.at (side_named word.entry.text.now)) }
{
    match side_named(word.text) {
        None => Err(fault(DesignKind::Style, word.at)),
        Some(side) => Ok(side),
    }
}

#[tactic(auto, unfolding(crate::specs::Placements::pose_from))]
fn pose_from<'a>(
    unit: Unit,
    at: u32,
    x: Found<'a>,
    list: Cursor<'a>,
) -> Result<(Pose, Cursor<'a>), DesignFault>
    ensures { Tells (λ p. (p.0, forest p.1)) result (pose_from unit at (marked x.entry) (forest list.entry)) }
{
    let (place, rest) = point_at(unit, at, x, list)?;
    let (word, rest) = word_at(at, rest)?;
    let side = side_at(word)?;
    let (word, rest) = word_at(at, rest)?;
    let eighths = angle_at(word)?;
    let pose = Pose {
        at: place,
        side,
        eighths,
    };
    Ok((pose, rest))
}

#[tactic(auto, unfolding(crate::specs::Placements::pose_of))]
fn pose_at<'a>(
    unit: Unit,
    at: u32,
    list: Cursor<'a>,
) -> Result<(Option<Pose>, Cursor<'a>), DesignFault>
    ensures { Tells (λ p. (p.0, forest p.1)) result (pose_of unit at (forest list.entry)) }
{
    match front(list) {
        Part::Word {
            at: byte,
            text,
            rest,
        } => {
            let (pose, rest) = pose_from(unit, at, Found { at: byte, text }, rest)?;
            Ok((Some(pose), rest))
        }
        _ => Ok((None, list)),
    }
}

/// The name of a component that none of these has, and where it is, of a `place` list that begins at this byte. It is
/// nowhere where no words say it.
#[tactic(auto, unfolding(crate::specs::Placements::place_of_list))]
pub fn place_at<'a>(
    unit: Unit,
    names: &NameSet,
    at: u32,
    args: Cursor<'a>,
) -> Result<(&'a [u8], Option<Pose>), DesignFault>
    ensures place { Tells (λ x. (x.0.now, x.1)) result (place_of_list unit names.now at (forest args.entry)) }
    ensures fresh { IfOk result (λ x. is_among x.0.now names.now ≡ false) }
{
    let (word, rest) = word_at(at, args)?;
    check_fresh(names, word)?;
    let (pose, rest) = pose_at(unit, at, rest)?;
    read_over(rest)?;
    Ok((word.text, pose))
}
