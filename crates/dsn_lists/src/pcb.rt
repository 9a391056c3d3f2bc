//! The one list of a design: its name, its unit, and its sections.
ghost use Rattle.std.specs.Prelude.{◌≡◌, ◌==◌, not, Ok, Err, IfOk, IfErr};
ghost use Rattle.std.specs.List.{list_any};
ghost use Rattle.sexp_text.specs.Forest.{End};
ghost use Rattle.sexp_text.specs.Shows.{forest};
ghost use Rattle.sexp_text.specs.Trees.{tree_forest};
ghost use Rattle.dsn_lists.specs.declared.faults.DesignFault.{DesignFault};
ghost use Rattle.dsn_lists.specs.Titles.{IsTitle, TitleFault, WhyNoTitle};
ghost use Rattle.dsn_lists.specs.Results.{Tells, Gives, each};
ghost use Rattle.dsn_lists.specs.Words.{marked};
ghost use Rattle.dsn_lists.specs.Pcbs.{are_digits, is_whole, resolution_list, section_name, has, with, section_word, pcb_word, pcb_item, no_frame, complete, nothing, pcb_keyword, inside_of, design_of, spotted, list_named, section_in};

use crate::faults::{DesignFault, DesignKind, ReadWhy, fault, refused};
use crate::units::{unit_at, unit_in};
use crate::words::{Found, is_word, next_list, opening, read_over, word_at};
use layout_io::Name;
use row_lists::Row;
use sexp_text::{Cursor, Part, Tree, Unit, front};
use std::alloc::Global;

/// A section of a design.
#[derive(Clone, Copy, Debug, PartialEq, Eq)]
pub enum Section {
    Structure,
    Library,
    Placement,
    Network,
    Wiring,
}

// Which sections stand in a design.
#[derive(Clone, Copy, Debug)]
struct Seen {
    structure: bool,
    library: bool,
    placement: bool,
    network: bool,
    wiring: bool,
}

// What the lists of a design state of itself.
#[derive(Clone, Copy, Debug)]
struct Frame {
    unit: Option<Unit>,
    resolution: Option<Unit>,
    seen: Seen,
}

// What a list of a design is.
#[derive(Clone, Copy, Debug)]
enum PcbWord {
    Unit,
    Resolution,
    Part(Section),
    Other,
}

/// The name of a design, and the unit of its lengths where no other governs.
#[derive(Debug, Drop)]
pub struct Title {
    pub name: Name,
    pub unit: Unit,
}

/// A section: the byte of its `(`, and what stands behind its keyword.
#[derive(Clone, Copy, Debug)]
pub struct Place<'a> {
    pub at: u32,
    pub args: Cursor<'a>,
}

#[tactic(auto, unfolding(crate::specs::Pcbs::are_digits))]
fn all_digits(text: &[u8]) -> bool
    ensures { result ≡ are_digits text.now }
{
    text.iter().all(|c| b'0' <= *c && *c <= b'9')
}

fn has_value(text: &[u8]) -> bool
    ensures { result ≡ list_any (λ c. not (c == 48)) text.now }
{
    text.iter().any(|c| *c != b'0')
}

// Whether a word is a whole number from 1.
#[tactic(auto, unfolding(crate::specs::Pcbs::is_whole))]
fn is_whole_number(text: &[u8]) -> bool
    ensures { result ≡ is_whole text.now }
{
    all_digits(text) && has_value(text)
}

#[tactic(auto, unfolding(crate::specs::Pcbs::resolution_list))]
fn resolution_at(at: u32, args: Cursor<'_>) -> Result<Unit, DesignFault>
    ensures { Tells (λ x. x) result (resolution_list at (forest args.entry)) }
{
    let (word, rest) = word_at(at, args)?;
    let unit = unit_in(word)?;
    let (number, after) = word_at(at, rest)?;
    if !is_whole_number(number.text) {
        return Err(fault(DesignKind::Number, number.at));
    }
    read_over(after)?;
    Ok(unit)
}

fn keyword_of(section: Section) -> &'static [u8]
    ensures { result.now ≡ section_name section }
{
    match section {
        Section::Structure => b"structure",
        Section::Library => b"library",
        Section::Placement => b"placement",
        Section::Network => b"network",
        Section::Wiring => b"wiring",
    }
}

impl Seen {
    fn has(self, section: Section) -> bool
        ensures { result ≡ has self section }
    {
        match section {
            Section::Structure => self.structure,
            Section::Library => self.library,
            Section::Placement => self.placement,
            Section::Network => self.network,
            Section::Wiring => self.wiring,
        }
    }

    fn with(self, section: Section) -> Seen
        ensures { result ≡ with self section }
    {
        let mut seen = self;
        match section {
            Section::Structure => seen.structure = true,
            Section::Library => seen.library = true,
            Section::Placement => seen.placement = true,
            Section::Network => seen.network = true,
            Section::Wiring => seen.wiring = true,
        }
        seen
    }
}

#[tactic(auto, unfolding(crate::specs::Pcbs::section_word))]
fn section_named(text: &[u8]) -> PcbWord
    ensures { result ≡ section_word text.now }
{
    if is_word(text, b"structure") {
        return PcbWord::Part(Section::Structure);
    }
    if is_word(text, b"library") {
        return PcbWord::Part(Section::Library);
    }
    if is_word(text, b"placement") {
        return PcbWord::Part(Section::Placement);
    }
    if is_word(text, b"network") {
        return PcbWord::Part(Section::Network);
    }
    if is_word(text, b"wiring") {
        return PcbWord::Part(Section::Wiring);
    }
    PcbWord::Other
}

#[tactic(auto, unfolding(crate::specs::Pcbs::pcb_word))]
fn pcb_word(text: &[u8]) -> PcbWord
    ensures { result ≡ pcb_word text.now }
{
    if is_word(text, b"unit") {
        return PcbWord::Unit;
    }
    if is_word(text, b"resolution") {
        return PcbWord::Resolution;
    }
    section_named(text)
}

#[tactic(auto, unfolding(crate::specs::Pcbs::pcb_item))]
fn read_list(frame: Frame, at: u32, inside: Cursor<'_>) -> Result<Frame, DesignFault>
    ensures { Tells (λ x. x) result (pcb_item frame at (forest inside.entry)) }
{
    let head = opening(inside);
    let mut frame = frame;
    match pcb_word(head.text) {
        PcbWord::Unit => frame.unit = Some(unit_at(at, head.args)?),
        PcbWord::Resolution => frame.resolution = Some(resolution_at(at, head.args)?),
        PcbWord::Part(section) => {
            if frame.seen.has(section) {
                return Err(fault(DesignKind::Twice, head.at));
            }
            frame.seen = frame.seen.with(section);
        }
        PcbWord::Other => (),
    }
    Ok(frame)
}

#[tactic(auto, unfolding(crate::specs::Results::each))]
fn read_lists(frame: Frame, list: Cursor<'_>) -> Result<Frame, DesignFault>
    ensures { Tells (λ x. x) result (each pcb_item frame (forest list.entry)) }
{
    let mut frame = frame;
    let mut rest = list;
    'lists: while let Some((at, inside, after)) = next_list(rest)? {
        frame = read_list(frame, at, inside)?;
        rest = after;
    }
    Ok(frame)
}

// The unit of a design that has a structure.
#[tactic(auto, unfolding(crate::specs::Pcbs::complete))]
fn unit_of_frame(at: u32, frame: Frame) -> Result<Unit, DesignFault>
    ensures { Tells (λ x. x) result (complete at frame) }
{
    if !frame.seen.structure {
        return Err(fault(DesignKind::Missing, at));
    }
    match frame.unit {
        Some(unit) => Ok(unit),
        None => match frame.resolution {
            Some(unit) => Ok(unit),
            None => Err(fault(DesignKind::Missing, at)),
        },
    }
}

#[tactic(auto, unfolding(crate::specs::Pcbs::nothing))]
fn end_of_text(list: Cursor<'_>) -> Result<(), DesignFault>
    ensures { Tells (λ x. x) result (nothing (forest list.entry)) }
{
    match front(list) {
        Part::End => Ok(()),
        Part::Word { at, .. } => Err(fault(DesignKind::Form, at)),
        Part::List { at, .. } => Err(fault(DesignKind::Form, at)),
    }
}

fn check_keyword(word: Found<'_>) -> Result<(), DesignFault>
    ensures { Tells (λ x. x) result (pcb_keyword (marked word.entry)) }
{
    if is_word(word.text, b"pcb") {
        return Ok(());
    }
    Err(fault(DesignKind::Form, word.at))
}

#[tactic(auto, unfolding(crate::specs::Pcbs::inside_of))]
fn title_at(alloc: Global, at: u32, list: Cursor<'_>) -> Result<Title, ReadWhy>
    ensures { Gives (λ x. x) result (inside_of at (forest list.entry)) }
{
    let (word, rest) = word_at(at, list)?;
    check_keyword(word)?;
    let (name, lists) = word_at(at, rest)?;
    let frame = Frame {
        unit: None,
        resolution: None,
        seen: Seen {
            structure: false,
            library: false,
            placement: false,
            network: false,
            wiring: false,
        },
    };
    let frame = read_lists(frame, lists)?;
    let unit = unit_of_frame(at, frame)?;
    let name = Row::from_slice(alloc, name.text)?;
    Ok(Title { name, unit })
}

/// The name and the unit of a design, or the first fault of the design apart from its sections.
pub fn title_of(alloc: Global, tree: &Tree) -> Result<Title, ReadWhy>
    ensures read { Gives (λ x. x) result (design_of (tree_forest tree.now)) }
    // What is read is the design's title, and a design that has one is read.
    ensures found { IfOk result (IsTitle (tree_forest tree.now)) }
    ensures only { (t : Title) → IsTitle (tree_forest tree.now) t → Gives (λ x. x) result (Ok t) }
    // What is told is the first fault, and the first fault is told.
    ensures fault { IfErr result (WhyNoTitle (tree_forest tree.now)) }
    ensures first { (e : DesignFault) → TitleFault (tree_forest tree.now) e → Gives (λ x. x) result (Err e) }
{
    read_title(alloc, tree)
}

#[tactic(auto, unfolding(crate::specs::Pcbs::design_of))]
fn read_title(alloc: Global, tree: &Tree) -> Result<Title, ReadWhy>
    ensures { Gives (λ x. x) result (design_of (tree_forest tree.now)) }
{
    match front(tree.all()) {
        Part::End => Err(refused(DesignKind::Form, 0)),
        Part::Word { at, .. } => Err(refused(DesignKind::Form, at)),
        Part::List { at, inside, rest } => {
            let title = title_at(alloc, at, inside)?;
            end_of_text(rest)?;
            Ok(title)
        }
    }
}

#[tactic(auto, unfolding(crate::specs::Pcbs::list_named))]
fn find<'a>(name: &[u8], list: Cursor<'a>) -> Place<'a>
    ensures { spotted result ≡ list_named name.now (forest list.entry) }
{
    let mut rest = list;
    'lists: loop {
        match front(rest) {
            Part::End => return Place { at: 0, args: rest },
            Part::Word { rest: after, .. } => rest = after,
            Part::List {
                at,
                inside,
                rest: after,
            } => {
                let head = opening(inside);
                if is_word(head.text, name) {
                    return Place {
                        at,
                        args: head.args,
                    };
                }
                rest = after;
            }
        }
    }
}

#[tactic(auto, unfolding(sexp_text::specs::Shows::forest, sexp_text::specs::Shows::grown))]
fn empty_list() -> Cursor<'static>
    ensures { forest result ≡ End }
{
    Cursor {
        text: b"",
        entries: &[],
    }
}

/// The section of a design; an empty one at byte 0 where it has none.
#[tactic(auto, unfolding(crate::specs::Pcbs::section_in))]
pub fn section_of(tree: &Tree, section: Section) -> Place<'_>
    ensures { spotted result ≡ section_in section (tree_forest tree.now) }
{
    match front(tree.all()) {
        Part::List { inside, .. } => find(keyword_of(section), inside),
        _ => Place {
            at: 0,
            args: empty_list(),
        },
    }
}
